// ForkSkinny: the fork forward and back, and what a block call works out once its cipher and its key's share are known.
#![tactic(auto)]

pub mod by_number;
pub mod calls;
pub mod keyed;
pub mod laid;
pub mod wanted;

ghost use Rattle.std.specs.Prelude.{◌≡◌, ◌+◌, ◌<◌, ◌≤◌};
ghost use Rattle.ciphers.specs.Ciphers.{width_of};
ghost use Rattle.forkskinny.specs.ForkSkinny.{start_of, enter};
ghost use Rattle.forkskinny.specs.Reach.{reach_of, fork_reach, unfork_reach};
ghost use Rattle.forkskinny.specs.Calls.{rounds_for, fork_rounds, unfork_rounds};
ghost use Rattle.forkskinny.specs.Wanted.{want_of, half_of};

pub use by_number::{
    ForkedOn, UnforkedOn, fork_by, fork_laid, fork_on, fork_reach, fork_rounds, unfork_by,
    unfork_laid, unfork_on, unfork_reach,
};
use ciphers::Cipher;
pub use keyed::Keyed;
pub use laid::Laid;
pub use wanted::{Half, Want};

// After the fork the near branch goes on, and the far one takes the rounds after it.
#[derive(Clone, Copy)]
pub enum Branch {
    Near,
    Far,
}

// The round at which a branch begins.
fn start_of(c: Cipher, b: Branch) -> usize
    ensures { result ≡ start_of c b }
{
    match b {
        Branch::Near => ciphers::init_of(c),
        Branch::Far => ciphers::init_of(c) + ciphers::branch_of(c),
    }
}

// The rounds whose keys a call takes: to the end of the near branch, or of the far one.
fn reach_of(c: Cipher, far: bool) -> usize
    ensures { result ≡ reach_of c far }
{
    if far {
        return start_of(c, Branch::Far) + ciphers::branch_of(c);
    }
    start_of(c, Branch::Near) + ciphers::branch_of(c)
}

// The branch constant, where the branch has it.
fn enter_branch(c: Cipher, b: Branch, s: [[u8; 4]; 4]) -> [[u8; 4]; 4]
    ensures { result ≡ enter (width_of c) b s }
{
    match b {
        Branch::Near => s,
        Branch::Far => ciphers::add_branch(c, s),
    }
}

// ---- what a block call takes and gives, its cipher known

// The rounds of a call: n always, a for its first result and b for its second.
fn rounds_for(n: usize, a: usize, b: usize, want: Want) -> u32
    requires { n + a + b ≤ 87 }
    ensures { result ≡ rounds_for n a b (want_of want) }
{
    let rounds = match want {
        Want::First => n + a,
        Want::Second => n + b,
        Want::Both => n + a + b,
    };
    rounds as u32
}

// The rounds of a call forward: those before the fork, and those of each branch that is asked for.
pub fn rounds_forward(c: Cipher, want: Want) -> u32
    ensures { result ≡ fork_rounds c (want_of want) }
{
    let half = ciphers::branch_of(c);
    rounds_for(ciphers::init_of(c), half, half, want)
}

// What a block call forward gives: the halves that were asked for, zeros for the other one, and the rounds.
#[derive(Clone, Copy)]
pub struct Forked {
    pub half0: [u8; 16],
    pub half1: [u8; 16],
    pub rounds: u32,
}

// The rounds whose keys a call forward takes.
fn reach_forward(c: Cipher, want: Want) -> usize
    ensures { (result ≡ fork_reach c (want_of want)) × (0 < result) × (result ≤ 87) }
{
    let far = match want {
        Want::First => false,
        Want::Second => true,
        Want::Both => true,
    };
    reach_of(c, far)
}

// The rounds of a call back: those of the branch whose half is given, those before the fork where the input is asked for, and those of
// the other branch where its half is.
fn rounds_back(c: Cipher, want: Want) -> u32
    ensures { result ≡ unfork_rounds c (want_of want) }
{
    let half = ciphers::branch_of(c);
    rounds_for(half, ciphers::init_of(c), half, want)
}

// What a block call back gives: what was asked for, zeros for the rest, and the rounds.
#[derive(Clone, Copy)]
pub struct Unforked {
    pub input: [u8; 16],
    pub other: [u8; 16],
    pub rounds: u32,
}

// The rounds whose keys a call back takes.
fn reach_back(c: Cipher, from: Half, want: Want) -> usize
    ensures { (result ≡ unfork_reach c (half_of from) (want_of want)) × (0 < result) × (result ≤ 87) }
{
    let other = match want {
        Want::First => false,
        Want::Second => true,
        Want::Both => true,
    };
    let far = match from {
        Half::Zero => other,
        Half::One => true,
    };
    reach_of(c, far)
}
