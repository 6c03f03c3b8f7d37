// Umbreon: the body blocks that are not the last are its own.
ghost use Rattle.std.specs.Prelude.{◌≡◌, ◌≤◌};
ghost use Rattle.states.specs.declared.Kind.{Kind};
ghost use Rattle.states.specs.Steps.{HeadEnd, SealEnd, OpenEnd};
ghost use Rattle.eevee.specs.Made.{Fills, linked_of};

use crate::{back, both};
use blocks::xored;
use states::{Kind, Pair, State, Step, Under};
use steps::Mode;

#[derive(Clone, Copy)]
pub struct Umbreon;

// A block given; Delta takes the T_A that was used, and `link` is the next one.
fn linked(s: State, out: [u8; 16], link: [u8; 16]) -> Step
    requires { s.number ≤ 4294967296 }
    ensures { result ≡ linked_of s out link }
{
    Step {
        out,
        next: State {
            mask: link,
            delta: xored(s.delta, s.mask),
            number: s.number + 1,
            first: false,
        },
    }
}

// The steps of a last block ask less than a mode's: nothing of the number.
impl Mode for Umbreon {
    ghost kind = { Kind.Umbreon };

    fn kind() -> Kind {
        Kind::Umbreon
    }

    fn head(under: &mut Under, s: State, x: [u8; 16]) -> State {
        crate::head(under, s, x)
    }

    fn head_last(under: &mut Under, empty: bool, full: bool, s: State, x: [u8; 16]) -> State
        requires { Fills under.old }
        ensures stepped { HeadEnd Kind.Umbreon under.old empty full s x result }
        ensures same { under.new ≡ under.old }
    {
        crate::head_last(under, empty, full, s, x)
    }

    fn seal_block(under: &mut Under, s: State, x: [u8; 16]) -> Step {
        let p = both(under, s.number + 1, xored(x, s.mask));
        linked(s, p.first, p.second)
    }

    fn seal_last(under: &mut Under, full: bool, s: State, x: [u8; 16]) -> Pair
        requires { Fills under.old }
        ensures stepped { SealEnd Kind.Umbreon under.old full s x result }
        ensures same { under.new ≡ under.old }
    {
        crate::seal_last(under, full, s, x)
    }

    fn open_block(under: &mut Under, s: State, x: [u8; 16]) -> Step {
        let p = back(under, s.number + 1, x);
        linked(s, xored(p.first, s.mask), p.second)
    }

    fn open_last(under: &mut Under, full: bool, s: State, x: [u8; 16]) -> Pair
        requires { Fills under.old }
        ensures stepped { OpenEnd Kind.Umbreon under.old full s x result }
        ensures same { under.new ≡ under.old }
    {
        crate::open_last(under, full, s, x)
    }
}
