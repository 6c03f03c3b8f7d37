// SAEF (001, figure 8), block by block.
ghost use Rattle.std.specs.Prelude.{◌≡◌, ◌+◌, ◌≤◌, length, take};
ghost use Rattle.ciphers.specs.Ciphers.{block_of};
ghost use Rattle.modes.specs.Saef.{saef_tweak, saef_head, saef_body};
ghost use Rattle.states.specs.declared.Kind.{Kind};
ghost use Rattle.states.specs.Steps.{HeadStep, HeadEnd, SealStep, SealEnd, OpenStep, OpenEnd};
ghost use Rattle.forkae.specs.Made.{MaskHead, MaskBoth, MaskBack, unmasked_of, moved_of};

use blocks::{front, xored};
use forkskinny::{Half, Want};
use states::{Kind, Pair, State, Step, Under};
use steps::Mode;

#[derive(Clone, Copy)]
pub struct Saef;

// The first block's: the nonce, 0000, 1 and the flag; every other's: zeros and the flag.
#[inline(never)]
fn tweak(under: &Under, flag: u8, first: bool) -> [u8; 16]
    requires { (length under.now.nonce + 1 ≡ block_of under.now.cipher) × (flag ≤ 7) }
    ensures { take (block_of under.now.cipher) result ≡ saef_tweak under.now.nonce first flag }
{
    let nonce = under.nonce();
    let k = nonce.len();
    if first {
        let mut t = front(nonce, k);
        t[k] = 8 + flag;
        return t;
    }
    let mut t = [0; 16];
    t[k] = flag;
    t
}

#[tactic(auto, unfolding(modes::specs::Saef::saef_head))]
fn head_flag(empty: bool, full: bool) -> u8
    ensures { (result ≡ saef_head empty full) × (result ≤ 7) }
{
    match (empty, full) {
        (false, true) => 2,
        (false, false) => 3,
        (true, true) => 6,
        (true, false) => 7,
    }
}

#[tactic(auto, unfolding(modes::specs::Saef::saef_body))]
fn body_flag(full: bool) -> u8
    ensures { (result ≡ saef_body full) × (result ≤ 7) }
{
    if full { 4 } else { 5 }
}

// Half 0 of a masked header block.
#[inline(never)]
#[tactic(auto, using(crate::proofs::SaefSteps::head_is))]
fn head_delta(under: &mut Under, flag: u8, s: State, x: [u8; 16]) -> [u8; 16]
    requires { (length under.old.nonce + 1 ≡ block_of under.old.cipher) × (flag ≤ 7) }
    ensures masked { MaskHead under.old flag s x result }
    ensures same { under.new ≡ under.old }
{
    let t = tweak(under, flag, s.first);
    let f = under.fork(t, xored(x, s.mask), Want::First);
    f.half0
}

// Both halves of a masked body block.
fn both(under: &mut Under, flag: u8, s: State, x: [u8; 16]) -> Pair
    requires { (length under.old.nonce + 1 ≡ block_of under.old.cipher) × (flag ≤ 7) }
    ensures paired { MaskBoth under.old flag s x result }
    ensures same { under.new ≡ under.old }
{
    let t = tweak(under, flag, s.first);
    Pair::from(under.fork(t, xored(x, s.mask), Want::Both))
}

// Back from a masked half 0: the masked block, and half 1.
fn back(under: &mut Under, flag: u8, s: State, x: [u8; 16]) -> Pair
    requires { (length under.old.nonce + 1 ≡ block_of under.old.cipher) × (flag ≤ 7) }
    ensures paired { MaskBack under.old flag s x result }
    ensures same { under.new ≡ under.old }
{
    let t = tweak(under, flag, s.first);
    Pair::from(under.unfork(t, xored(x, s.mask), Half::Zero, Want::Both))
}

// Delta comes off the first block.
fn unmasked(s: State, p: Pair) -> Pair
    ensures { result ≡ unmasked_of s p }
{
    let second = p.second;
    Pair {
        first: xored(p.first, s.mask),
        second,
    }
}

// Delta comes off the first block, and the second one is the next Delta.
fn moved(s: State, p: Pair) -> Step
    ensures { result ≡ moved_of s p }
{
    let u = unmasked(s, p);
    let out = u.first;
    let mask = u.second;
    Step {
        out,
        next: State {
            mask,
            delta: [0; 16],
            number: s.number,
            first: false,
        },
    }
}

// SAEF counts no blocks, so its steps ask less than a mode's: nothing of the number.
impl Mode for Saef {
    ghost kind = { Kind.Saef };

    fn kind() -> Kind {
        Kind::Saef
    }

    #[tactic(auto, unfolding(modes::specs::Saef::saef))]
    fn head(under: &mut Under, s: State, x: [u8; 16]) -> State
        requires { length under.old.nonce + 1 ≡ block_of under.old.cipher }
        ensures stepped { HeadStep Kind.Saef under.old s x result }
        ensures same { under.new ≡ under.old }
    {
        State {
            mask: head_delta(under, 0, s, x),
            delta: [0; 16],
            number: s.number,
            first: false,
        }
    }

    #[tactic(auto, unfolding(modes::specs::Saef::saef))]
    fn head_last(under: &mut Under, empty: bool, full: bool, s: State, x: [u8; 16]) -> State
        requires { length under.old.nonce + 1 ≡ block_of under.old.cipher }
        ensures stepped { HeadEnd Kind.Saef under.old empty full s x result }
        ensures same { under.new ≡ under.old }
    {
        State {
            mask: head_delta(under, head_flag(empty, full), s, x),
            delta: [0; 16],
            number: 1,
            first: false,
        }
    }

    fn seal_block(under: &mut Under, s: State, x: [u8; 16]) -> Step
        requires { length under.old.nonce + 1 ≡ block_of under.old.cipher }
        ensures stepped { SealStep Kind.Saef under.old s x result }
        ensures same { under.new ≡ under.old }
    {
        moved(s, both(under, 1, s, x))
    }

    fn seal_last(under: &mut Under, full: bool, s: State, x: [u8; 16]) -> Pair
        requires { length under.old.nonce + 1 ≡ block_of under.old.cipher }
        ensures stepped { SealEnd Kind.Saef under.old full s x result }
        ensures same { under.new ≡ under.old }
    {
        unmasked(s, both(under, body_flag(full), s, x))
    }

    fn open_block(under: &mut Under, s: State, x: [u8; 16]) -> Step
        requires { length under.old.nonce + 1 ≡ block_of under.old.cipher }
        ensures stepped { OpenStep Kind.Saef under.old s x result }
        ensures same { under.new ≡ under.old }
    {
        moved(s, back(under, 1, s, x))
    }

    fn open_last(under: &mut Under, full: bool, s: State, x: [u8; 16]) -> Pair
        requires { length under.old.nonce + 1 ≡ block_of under.old.cipher }
        ensures stepped { OpenEnd Kind.Saef under.old full s x result }
        ensures same { under.new ≡ under.old }
    {
        unmasked(s, back(under, body_flag(full), s, x))
    }
}
