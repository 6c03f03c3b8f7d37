// A key at work under a cipher: its share is lent, and the keys of the rounds are kept from block to block in a room of its own. What it
// answers is the key's and the tweak's alone: so its contracts speak of cipher and key, and of nothing that is kept.
ghost use Rattle.std.specs.Prelude.{◌≡◌};
ghost use Rattle.prepared.specs.Prepared.{key_in, Made};
ghost use Rattle.kept.specs.Kept.{Lent};
ghost use Rattle.forkskinny.specs.Calls.{fork_by, fork_done, unfork_by, unfork_done};
ghost use Rattle.forkskinny.specs.Keyed.{Keying};
ghost use Rattle.forkskinny.specs.Wanted.{want_of, half_of};

use crate::{Forked, Half, Laid, Unforked, Want, reach_back, reach_forward};
use ciphers::Cipher;
use kept::Kept;
use std::marker::Model;

#[derive(Drop)]
pub struct Keyed<'a> {
    cipher: Cipher,
    share: &'a [u8; 784],
    keys: [[u8; 8]; 97],
    kept: Option<Kept>,
}

impl<'a> Model for Keyed<'a> {
    ghost Value = { Keying };

    ghost view = { λ k. record { cipher = k.cipher; key = key_in k.cipher k.share.now } };

    ghost invariant = { λ k. Lent k.cipher k.share.now k.kept k.keys };
}

impl<'a> Keyed<'a> {
    // The constants stand in the room, and no keys yet.
    pub fn new(cipher: Cipher, share: &'a [u8; 784]) -> Keyed<'a>
        requires { Made cipher share.now }
        ensures { result ≡ record { cipher = cipher; key = key_in cipher share.now } }
    {
        Keyed {
            cipher,
            share,
            keys: constants::room(),
            kept: None,
        }
    }

    pub fn cipher(&self) -> Cipher
        ensures { result ≡ self.now.cipher }
    {
        self.cipher
    }

    // Forward, the halves that are wanted.
    pub fn fork(&mut self, tweak: [u8; 16], block: [u8; 16], want: Want) -> Forked
        ensures forked { fork_done result ≡ fork_by self.old.cipher self.old.key tweak block (want_of want) }
        ensures same { self.new ≡ self.old }
    {
        let m = reach_forward(self.cipher, want);
        let kept = kept::turn_to(
            self.cipher,
            self.share,
            &mut self.keys,
            self.kept,
            &tweak,
            m,
        );
        self.kept = Some(kept);
        let laid = Laid {
            cipher: self.cipher,
            keys: &self.keys,
        };
        laid.fork(block, want)
    }

    // Back from a half, what is wanted.
    pub fn unfork(&mut self, tweak: [u8; 16], block: [u8; 16], from: Half, want: Want) -> Unforked
        ensures unforked { unfork_done result ≡ unfork_by self.old.cipher self.old.key tweak block (half_of from) (want_of want) }
        ensures same { self.new ≡ self.old }
    {
        let m = reach_back(self.cipher, from, want);
        let kept = kept::turn_to(
            self.cipher,
            self.share,
            &mut self.keys,
            self.kept,
            &tweak,
            m,
        );
        self.kept = Some(kept);
        let laid = Laid {
            cipher: self.cipher,
            keys: &self.keys,
        };
        laid.unfork(block, from, want)
    }
}
