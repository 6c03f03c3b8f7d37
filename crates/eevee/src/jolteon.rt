// Jolteon: the body blocks that are not the last are its own.
ghost use Rattle.std.specs.Prelude.{◌≡◌, ◌≤◌};
ghost use Rattle.states.specs.declared.Kind.{Kind};
ghost use Rattle.states.specs.Steps.{HeadEnd, SealEnd, OpenEnd};
ghost use Rattle.eevee.specs.Made.{Fills, collected_of};

use crate::{half, input};
use blocks::xored;
use states::{Kind, Pair, State, Step, Under};
use steps::Mode;

#[derive(Clone, Copy)]
pub struct Jolteon;

// A block given; Delta takes the body's block and the sealed one before, and `link` is the sealed one.
fn collected(s: State, out: [u8; 16], block: [u8; 16], link: [u8; 16]) -> Step
    requires { s.number ≤ 4294967296 }
    ensures { result ≡ collected_of s out block link }
{
    Step {
        out,
        next: State {
            mask: link,
            delta: xored(xored(s.delta, block), s.mask),
            number: s.number + 1,
            first: false,
        },
    }
}

// The steps of a last block ask less than a mode's: nothing of the number.
impl Mode for Jolteon {
    ghost kind = { Kind.Jolteon };

    fn kind() -> Kind {
        Kind::Jolteon
    }

    fn head(under: &mut Under, s: State, x: [u8; 16]) -> State {
        crate::head(under, s, x)
    }

    fn head_last(under: &mut Under, empty: bool, full: bool, s: State, x: [u8; 16]) -> State
        requires { Fills under.old }
        ensures stepped { HeadEnd Kind.Jolteon under.old empty full s x result }
        ensures same { under.new ≡ under.old }
    {
        crate::head_last(under, empty, full, s, x)
    }

    fn seal_block(under: &mut Under, s: State, x: [u8; 16]) -> Step {
        let sealed = half(under, s.number + 1, x);
        collected(s, sealed, x, sealed)
    }

    fn seal_last(under: &mut Under, full: bool, s: State, x: [u8; 16]) -> Pair
        requires { Fills under.old }
        ensures stepped { SealEnd Kind.Jolteon under.old full s x result }
        ensures same { under.new ≡ under.old }
    {
        crate::seal_last(under, full, s, x)
    }

    fn open_block(under: &mut Under, s: State, x: [u8; 16]) -> Step {
        let block = input(under, s.number + 1, x);
        collected(s, block, block, x)
    }

    fn open_last(under: &mut Under, full: bool, s: State, x: [u8; 16]) -> Pair
        requires { Fills under.old }
        ensures stepped { OpenEnd Kind.Jolteon under.old full s x result }
        ensures same { under.new ≡ under.old }
    {
        crate::open_last(under, full, s, x)
    }
}
