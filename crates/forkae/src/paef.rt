// PAEF (001, figure 5), block by block.
ghost use Rattle.std.specs.Prelude.{◌≡◌, ◌+◌, ◌≤◌, length, take};
ghost use Rattle.ciphers.specs.Ciphers.{block_of};
ghost use Rattle.modes.specs.Paef.{paef_tweak, paef_head, paef_body};
ghost use Rattle.states.specs.declared.Kind.{Kind};
ghost use Rattle.states.specs.Steps.{Steppable};
ghost use Rattle.forkae.specs.Made.{SumHead, SumBoth, SumBack, added_of};

use blocks::xored;
use forkskinny::{Half, Want};
use states::{Kind, Pair, State, Step, Under, numbered};
use steps::Mode;

#[derive(Clone, Copy)]
pub struct Paef;

// The nonce, three bits of flag and thirteen of number.
#[tactic(auto, unfolding(modes::specs::Paef::paef_tweak))]
fn tweak(under: &Under, flag: usize, number: usize) -> [u8; 16]
    requires { (length under.now.nonce + 2 ≡ block_of under.now.cipher) × (flag ≤ 7) × (number ≤ 4294967296) }
    ensures { take (block_of under.now.cipher) result ≡ paef_tweak under.now.nonce flag number }
{
    numbered(under.nonce(), flag * 8192 + number)
}

#[tactic(auto, unfolding(modes::specs::Paef::paef_head))]
fn head_flag(full: bool) -> usize
    ensures { (result ≡ paef_head full) × (result ≤ 7) }
{
    if full { 1 } else { 3 }
}

#[tactic(auto, unfolding(modes::specs::Paef::paef_body))]
fn body_flag(full: bool) -> usize
    ensures { (result ≡ paef_body full) × (result ≤ 7) }
{
    if full { 5 } else { 7 }
}

// S with half 0 of a header block added.
#[inline(never)]
#[tactic(auto, using(crate::proofs::PaefSteps::head_is))]
fn head_sum(under: &mut Under, flag: usize, s: State, x: [u8; 16]) -> [u8; 16]
    requires { Steppable Kind.Paef under.old s × (flag ≤ 7) }
    ensures summed { SumHead under.old flag s x result }
    ensures same { under.new ≡ under.old }
{
    let t = tweak(under, flag, s.number);
    let f = under.fork(t, x, Want::First);
    xored(s.mask, f.half0)
}

// Both halves of a body block.
fn both(under: &mut Under, flag: usize, s: State, x: [u8; 16]) -> Pair
    requires { Steppable Kind.Paef under.old s × (flag ≤ 7) }
    ensures paired { SumBoth under.old flag s x result }
    ensures same { under.new ≡ under.old }
{
    let t = tweak(under, flag, s.number);
    Pair::from(under.fork(t, x, Want::Both))
}

// Back from half 0: the block, and half 1.
fn back(under: &mut Under, flag: usize, s: State, x: [u8; 16]) -> Pair
    requires { Steppable Kind.Paef under.old s × (flag ≤ 7) }
    ensures paired { SumBack under.old flag s x result }
    ensures same { under.new ≡ under.old }
{
    let t = tweak(under, flag, s.number);
    Pair::from(under.unfork(t, x, Half::Zero, Want::Both))
}

// A block given, and half 1 added to S.
fn added(s: State, p: Pair) -> Step
    requires { s.number ≤ 4294967296 }
    ensures { result ≡ added_of s p }
{
    let out = p.first;
    Step {
        out,
        next: State {
            mask: xored(s.mask, p.second),
            delta: [0; 16],
            number: s.number + 1,
            first: false,
        },
    }
}

impl Mode for Paef {
    ghost kind = { Kind.Paef };

    fn kind() -> Kind {
        Kind::Paef
    }

    #[tactic(auto, unfolding(modes::specs::Paef::paef))]
    fn head(under: &mut Under, s: State, x: [u8; 16]) -> State {
        State {
            mask: head_sum(under, 0, s, x),
            delta: [0; 16],
            number: s.number + 1,
            first: false,
        }
    }

    // Numbers begin again in the body.
    #[tactic(auto, unfolding(modes::specs::Paef::paef))]
    fn head_last(under: &mut Under, _empty: bool, full: bool, s: State, x: [u8; 16]) -> State {
        State {
            mask: head_sum(under, head_flag(full), s, x),
            delta: [0; 16],
            number: 1,
            first: false,
        }
    }

    fn seal_block(under: &mut Under, s: State, x: [u8; 16]) -> Step {
        added(s, both(under, 4, s, x))
    }

    fn seal_last(under: &mut Under, full: bool, s: State, x: [u8; 16]) -> Pair {
        let p = both(under, body_flag(full), s, x);
        let second = p.second;
        Pair {
            first: xored(p.first, s.mask),
            second,
        }
    }

    fn open_block(under: &mut Under, s: State, x: [u8; 16]) -> Step {
        added(s, back(under, 4, s, x))
    }

    fn open_last(under: &mut Under, full: bool, s: State, x: [u8; 16]) -> Pair {
        back(under, body_flag(full), s, xored(x, s.mask))
    }
}
