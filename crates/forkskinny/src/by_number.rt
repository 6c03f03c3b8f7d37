// The same by number: what is wanted, and the half to start from, as any number. (Numbers that name no choice want nothing; every number but
// 0 is half 1: as the definitions have it.) The keys may be laid, in a room that is lent and kept from block to block, or in one of the call's own.
#![tactic(auto)]

ghost use Rattle.std.specs.Prelude.{◌≡◌, ◌<◌, ◌≤◌, List, ℕ, Some, cond, eqb};
ghost use Rattle.ciphers.specs.Ciphers.{init_of, branch_of, tk};
ghost use Rattle.prepared.specs.Prepared.{key_in, Made};
ghost use Rattle.kept.specs.Kept.{Lent};
ghost use Rattle.forkskinny.specs.Reach.{LaidFor, fork_reach, unfork_reach};
ghost use Rattle.forkskinny.specs.Calls.{fork_by, fork_done, fork_rounds, unfork_by, unfork_done, zeros};
ghost use Rattle.forkskinny.specs.Wanted.{half_of};

use crate::{
    Forked, Half, Keyed, Laid, Unforked, Want, reach_back, reach_forward, reach_of, rounds_forward,
};
use ciphers::Cipher;
use kept::Kept;

// ---- forward

// The rounds of a call forward: where nothing is wanted, those before the fork.
pub fn fork_rounds(c: Cipher, want: u32) -> u32
    ensures { result ≡ fork_rounds c want }
{
    match Want::try_from(want) {
        Ok(want) => rounds_forward(c, want),
        Err(_) => ciphers::init_of(c) as u32,
    }
}

// The rounds whose keys it takes.
pub fn fork_reach(c: Cipher, want: u32) -> usize
    ensures { (result ≡ fork_reach c want) × (0 < result) × (result ≤ 87) }
{
    match Want::try_from(want) {
        Ok(want) => reach_forward(c, want),
        Err(_) => reach_of(c, false),
    }
}

// Nothing is wanted: zeros, and the rounds before the fork.
fn fork_none(c: Cipher) -> Forked
    ensures { fork_done result ≡ record { number = 0; half0 = zeros; half1 = zeros; rounds = init_of c } }
{
    Forked {
        half0: [0; 16],
        half1: [0; 16],
        rounds: ciphers::init_of(c) as u32,
    }
}

// A call forward with keys that are laid.
pub fn fork_laid(c: Cipher, keys: &[[u8; 8]; 97], block: [u8; 16], want: u32) -> Forked
    ensures { (key tweak : List ℕ) → LaidFor c (fork_reach c want) (tk c key tweak) keys.now → fork_done result ≡ fork_by c key tweak block want }
{
    let laid = Laid { cipher: c, keys };
    match Want::try_from(want) {
        Ok(want) => laid.fork(block, want),
        Err(_) => fork_none(c),
    }
}

// A call forward, and what its room for round keys then holds.
#[derive(Clone, Copy)]
pub struct ForkedOn {
    pub forked: Forked,
    pub kept: Kept,
}

// In a room that is lent, and kept from block to block.
pub fn fork_on(
    c: Cipher,
    share: &[u8; 784],
    keys: &mut [[u8; 8]; 97],
    kept: Option<Kept>,
    tweak: [u8; 16],
    block: [u8; 16],
    want: u32,
) -> ForkedOn
    requires { Lent c share.now kept keys.old }
    ensures { (fork_done result.forked ≡ fork_by c (key_in c share.now) tweak block want) × Lent c share.now (Some result.kept) keys.new × (0 < result.kept.rounds) }
{
    let m = fork_reach(c, want);
    let turned = kept::turn_to(c, share, keys, kept, &tweak, m);
    let forked = fork_laid(c, keys, block, want);
    ForkedOn {
        forked,
        kept: turned,
    }
}

// From a key's share, in a room of its own.
pub fn fork_by(c: Cipher, share: &[u8; 784], tweak: [u8; 16], block: [u8; 16], want: u32) -> Forked
    requires { Made c share.now }
    ensures { fork_done result ≡ fork_by c (key_in c share.now) tweak block want }
{
    Keyed::new(c, share).fork_by_number(tweak, block, want)
}

// ---- back

// The half that a number stands for: half 0 for 0, half 1 for every other number.
fn half_for(from: u32) -> Half
    ensures { half_of result ≡ cond (eqb from 0) 0 1 }
{
    match from {
        0 => Half::Zero,
        _ => Half::One,
    }
}

// The rounds whose keys a call back takes: where nothing is wanted, those of the branch whose half is given.
pub fn unfork_reach(c: Cipher, from: u32, want: u32) -> usize
    ensures { (result ≡ unfork_reach c from want) × (0 < result) × (result ≤ 87) }
{
    let half = half_for(from);
    match Want::try_from(want) {
        Ok(want) => reach_back(c, half, want),
        Err(_) => reach_back(c, half, Want::First), // the input takes no branch more
    }
}

// Nothing is wanted: zeros, and the rounds of the branch whose half is given.
fn unfork_none(c: Cipher) -> Unforked
    ensures { unfork_done result ≡ record { number = 0; input = zeros; other = zeros; rounds = branch_of c } }
{
    Unforked {
        input: [0; 16],
        other: [0; 16],
        rounds: ciphers::branch_of(c) as u32,
    }
}

// A call back with keys that are laid.
pub fn unfork_laid(
    c: Cipher,
    keys: &[[u8; 8]; 97],
    block: [u8; 16],
    from: u32,
    want: u32,
) -> Unforked
    ensures { (key tweak : List ℕ) → LaidFor c (unfork_reach c from want) (tk c key tweak) keys.now → unfork_done result ≡ unfork_by c key tweak block from want }
{
    let laid = Laid { cipher: c, keys };
    let half = half_for(from);
    match Want::try_from(want) {
        Ok(want) => laid.unfork(block, half, want),
        Err(_) => unfork_none(c),
    }
}

// A call back, and what its room for round keys then holds.
#[derive(Clone, Copy)]
pub struct UnforkedOn {
    pub unforked: Unforked,
    pub kept: Kept,
}

// In a room that is lent, and kept from block to block.
pub fn unfork_on(
    c: Cipher,
    share: &[u8; 784],
    keys: &mut [[u8; 8]; 97],
    kept: Option<Kept>,
    tweak: [u8; 16],
    block: [u8; 16],
    from: u32,
    want: u32,
) -> UnforkedOn
    requires { Lent c share.now kept keys.old }
    ensures { (unfork_done result.unforked ≡ unfork_by c (key_in c share.now) tweak block from want) × Lent c share.now (Some result.kept) keys.new × (0 < result.kept.rounds) }
{
    let m = unfork_reach(c, from, want);
    let turned = kept::turn_to(c, share, keys, kept, &tweak, m);
    let unforked = unfork_laid(c, keys, block, from, want);
    UnforkedOn {
        unforked,
        kept: turned,
    }
}

// From a key's share, in a room of its own.
pub fn unfork_by(
    c: Cipher,
    share: &[u8; 784],
    tweak: [u8; 16],
    block: [u8; 16],
    from: u32,
    want: u32,
) -> Unforked
    requires { Made c share.now }
    ensures { unfork_done result ≡ unfork_by c (key_in c share.now) tweak block from want }
{
    Keyed::new(c, share).unfork_by_number(tweak, block, from, want)
}

// ---- a key at work

impl<'a> Keyed<'a> {
    // Forward.
    pub fn fork_by_number(&mut self, tweak: [u8; 16], block: [u8; 16], want: u32) -> Forked
        ensures forked { fork_done result ≡ fork_by self.old.cipher self.old.key tweak block want }
        ensures same { self.new ≡ self.old }
    {
        match Want::try_from(want) {
            Ok(want) => self.fork(tweak, block, want),
            Err(_) => fork_none(self.cipher()),
        }
    }

    // Back from a half.
    pub fn unfork_by_number(
        &mut self,
        tweak: [u8; 16],
        block: [u8; 16],
        from: u32,
        want: u32,
    ) -> Unforked
        ensures unforked { unfork_done result ≡ unfork_by self.old.cipher self.old.key tweak block from want }
        ensures same { self.new ≡ self.old }
    {
        match Want::try_from(want) {
            Ok(want) => self.unfork(tweak, block, half_for(from), want),
            Err(_) => unfork_none(self.cipher()),
        }
    }
}
