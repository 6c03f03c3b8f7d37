// What goes from block to block, and the names of the modes. Blocks are sixteen bytes, of which the cipher's first n count; what stands behind
// them is never read.
#![tactic(auto)]

ghost use Rattle.std.specs.Prelude.{◌≡◌, ◌++◌, ◌+◌, ◌≤◌, length, take};
ghost use Rattle.modes.specs.Blocks.{be16};
ghost use Rattle.states.specs.Modes.{beginning, block_first, takes_blank};

pub mod under;

use blocks::front;
use forkskinny::{Forked, Unforked};
pub use under::Under;

// The modes, by name.
#[derive(Clone, Copy)]
pub enum Kind {
    Paef,
    Saef,
    Umbreon,
    Jolteon,
}

// What goes from block to block: S (PAEF), Delta (SAEF), T_A (Umbreon) or the sealed block before (Jolteon); Delta (Umbreon, Jolteon); the number
// of the next block (all but SAEF); and whether no block was worked yet (SAEF).
#[derive(Clone, Copy)]
pub struct State {
    pub mask: [u8; 16],
    pub delta: [u8; 16],
    pub number: usize,
    pub first: bool,
}

impl State {
    // Before the header, under every mode.
    pub fn start() -> State
        ensures { result ≡ beginning }
    {
        State {
            mask: [0; 16],
            delta: [0; 16],
            number: 1,
            first: true,
        }
    }
}

// A block's output, and what goes on.
#[derive(Clone, Copy)]
pub struct Step {
    pub out: [u8; 16],
    pub next: State,
}

// Two blocks: of a last block, the one that is given whole, and the one of which leading bytes are given.
#[derive(Clone, Copy)]
pub struct Pair {
    pub first: [u8; 16],
    pub second: [u8; 16],
}

// Forward: half 0, then half 1.
impl From<Forked> for Pair {
    ghost from_gives = { λ f p. p ≡ record { first = f.half0; second = f.half1 } };

    fn from(f: Forked) -> Pair {
        let first = f.half0;
        let second = f.half1;
        Pair { first, second }
    }
}

// Back: the input, then the other half.
impl From<Unforked> for Pair {
    ghost from_gives = { λ u p. p ≡ record { first = u.input; second = u.other } };

    fn from(u: Unforked) -> Pair {
        let first = u.input;
        let second = u.other;
        Pair { first, second }
    }
}

// The rounds of a header block, of a body block that is not the last, and of the last one.
#[derive(Clone, Copy)]
pub struct Prices {
    pub head: u32,
    pub block: u32,
    pub last: u32,
}

// Whether the last block of a run comes before the leading bytes of the second.
pub fn block_first(k: Kind) -> bool
    ensures { result ≡ block_first k }
{
    match k {
        Kind::Paef => true,
        Kind::Saef => true,
        Kind::Umbreon => false,
        Kind::Jolteon => false,
    }
}

// Whether a mode has a run for an empty header and an empty body.
pub fn takes_blank(k: Kind) -> bool
    ensures { result ≡ takes_blank k }
{
    match k {
        Kind::Paef => true,
        Kind::Saef => true,
        Kind::Umbreon => false,
        Kind::Jolteon => false,
    }
}

// A tweak: the nonce, and a number in the two bytes behind it, the high one first.
#[inline(never)]
pub fn numbered(nonce: &[u8], number: usize) -> [u8; 16]
    requires { length nonce.now + 2 ≤ 16 }
    ensures { take (length nonce.now + 2) result ≡ nonce.now ++ be16 number }
{
    let k = nonce.len();
    let mut t = front(nonce, k);
    t[k] = (number / 256 % 256) as u8;
    t[k + 1] = (number % 256) as u8;
    t
}
