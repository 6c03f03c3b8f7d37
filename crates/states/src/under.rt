// The key and the nonce under which the blocks of a record are worked. The key is at work (`Keyed`): it keeps round keys from block to block,
// of which its contracts do not speak.
ghost use Rattle.std.specs.Prelude.{◌≡◌};
ghost use Rattle.ciphers.specs.Ciphers.{block_of};
ghost use Rattle.prepared.specs.Prepared.{key_in, Made};
ghost use Rattle.forkskinny.specs.Calls.{fork_by, fork_done, unfork_by, unfork_done};
ghost use Rattle.forkskinny.specs.Wanted.{want_of, half_of};
ghost use Rattle.states.specs.Under.{KeyAndNonce};

use ciphers::Cipher;
use forkskinny::{Forked, Half, Keyed, Unforked, Want};
use std::marker::Model;

#[derive(Drop)]
pub struct Under<'a> {
    key: Keyed<'a>,
    nonce: &'a [u8],
}

impl<'a> Model for Under<'a> {
    ghost Value = { KeyAndNonce };

    ghost view = { λ u. record { cipher = u.key.cipher; key = u.key.key; nonce = u.nonce.now } };
}

impl<'a> Under<'a> {
    // A key by its share, which is lent.
    pub fn new(cipher: Cipher, share: &'a [u8; 784], nonce: &'a [u8]) -> Under<'a>
        requires { Made cipher share.now }
        ensures { result ≡ record { cipher = cipher; key = key_in cipher share.now; nonce = nonce.now } }
    {
        Under {
            key: Keyed::new(cipher, share),
            nonce,
        }
    }

    pub fn cipher(&self) -> Cipher
        ensures { result ≡ self.now.cipher }
    {
        self.key.cipher()
    }

    // The bytes of a block.
    pub fn block(&self) -> usize
        ensures { result ≡ block_of self.now.cipher }
    {
        ciphers::block_of(self.cipher())
    }

    pub fn nonce(&self) -> &[u8]
        ensures { result.now ≡ self.now.nonce }
    {
        self.nonce
    }

    // ForkSkinny forward, the halves that are wanted.
    pub fn fork(&mut self, tweak: [u8; 16], block: [u8; 16], want: Want) -> Forked
        ensures forked { fork_done result ≡ fork_by self.old.cipher self.old.key tweak block (want_of want) }
        ensures same { self.new ≡ self.old }
    {
        self.key.fork(tweak, block, want)
    }

    // Back from a half, what is wanted.
    pub fn unfork(&mut self, tweak: [u8; 16], block: [u8; 16], from: Half, want: Want) -> Unforked
        ensures unforked { unfork_done result ≡ unfork_by self.old.cipher self.old.key tweak block (half_of from) (want_of want) }
        ensures same { self.new ≡ self.old }
    {
        self.key.unfork(tweak, block, from, want)
    }
}
