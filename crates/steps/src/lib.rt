// The steps of a mode: one block of a header or a body, sealed or opened. What a mode's steps promise is said here, once for all modes; the crates
// of the two papers have the modes themselves.
#![tactic(auto)]

ghost use Rattle.std.specs.Prelude.{◌≡◌};
ghost use Rattle.states.specs.declared.Kind.{Kind};
ghost use Rattle.states.specs.Modes.{prices_of};
ghost use Rattle.states.specs.Steps.{Steppable, HeadStep, HeadEnd, SealStep, SealEnd, OpenStep, OpenEnd};

use ciphers::Cipher;
use forkskinny::Want;
use states::{Kind, Pair, Prices, State, Step, Under};

pub trait Mode {
    // Which one it is, by its name.
    ghost kind: { Kind };

    fn kind() -> Kind
        ensures { result ≡ kind };

    // A header block that is not the last.
    fn head(under: &mut Under, s: State, x: [u8; 16]) -> State
        requires { Steppable kind under.old s }
        ensures stepped { HeadStep kind under.old s x result }
        ensures same { under.new ≡ under.old };

    // The last header block, padded; empty says that the body is empty, full that nothing was padded.
    fn head_last(under: &mut Under, empty: bool, full: bool, s: State, x: [u8; 16]) -> State
        requires { Steppable kind under.old s }
        ensures stepped { HeadEnd kind under.old empty full s x result }
        ensures same { under.new ≡ under.old };

    // A body block that is not the last, sealed.
    fn seal_block(under: &mut Under, s: State, x: [u8; 16]) -> Step
        requires { Steppable kind under.old s }
        ensures stepped { SealStep kind under.old s x result }
        ensures same { under.new ≡ under.old };

    // The last one, padded.
    fn seal_last(under: &mut Under, full: bool, s: State, x: [u8; 16]) -> Pair
        requires { Steppable kind under.old s }
        ensures stepped { SealEnd kind under.old full s x result }
        ensures same { under.new ≡ under.old };

    // A body block that is not the last, opened.
    fn open_block(under: &mut Under, s: State, x: [u8; 16]) -> Step
        requires { Steppable kind under.old s }
        ensures stepped { OpenStep kind under.old s x result }
        ensures same { under.new ≡ under.old };

    // The last one, as it was padded.
    fn open_last(under: &mut Under, full: bool, s: State, x: [u8; 16]) -> Pair
        requires { Steppable kind under.old s }
        ensures stepped { OpenEnd kind under.old full s x result }
        ensures same { under.new ≡ under.old };
}

// What the blocks of a mode cost, by the halves that they ask for.
pub fn prices_of(c: Cipher, k: Kind) -> Prices
    ensures { result ≡ prices_of k c }
{
    let one = forkskinny::rounds_forward(c, Want::First);
    let both = forkskinny::rounds_forward(c, Want::Both);
    let block = match k {
        Kind::Paef => both,
        Kind::Saef => both,
        Kind::Umbreon => both,
        Kind::Jolteon => one,
    };
    Prices {
        head: one,
        block,
        last: both,
    }
}
