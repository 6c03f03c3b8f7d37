// The modes of the Eevee paper (000, figure 9), block by block. Here stands what Umbreon and Jolteon have in common: block calls under the tweak
// of a number, the header, the last block.
#![tactic(auto)]

pub mod jolteon;
pub mod umbreon;

ghost use Rattle.std.specs.Prelude.{◌≡◌, ◌+◌, ◌≤◌, take};
ghost use Rattle.ciphers.specs.Ciphers.{block_of};
ghost use Rattle.modes.specs.Blocks.{◌⊕◌};
ghost use Rattle.modes.specs.Eevee.{bit, head_end, head_tweak, body_tweak};
ghost use Rattle.eevee.specs.Made.{Fills, LinkOf, HalfOf, BothOf, InputOf, BackOf, HeadOf, HeadEndOf, SealEndOf, OpenEndOf};

use blocks::xored;
use forkskinny::{Half, Want};
pub use jolteon::Jolteon;
use states::{Pair, State, Under, numbered};
pub use umbreon::Umbreon;

// ---- tweaks

// The nonce, fourteen bits of number, 00.
#[tactic(auto, unfolding(modes::specs::Eevee::head_tweak))]
fn head_tweak(under: &Under, v: usize) -> [u8; 16]
    requires { Fills under.now × (v ≤ 4294967300) }
    ensures { take (block_of under.now.cipher) result ≡ head_tweak under.now.nonce v }
{
    numbered(under.nonce(), v * 4)
}

// The nonce, fifteen bits of number, 1.
#[tactic(auto, unfolding(modes::specs::Eevee::body_tweak))]
fn body_tweak(under: &Under, v: usize) -> [u8; 16]
    requires { Fills under.now × (v ≤ 4294967300) }
    ensures { take (block_of under.now.cipher) result ≡ body_tweak under.now.nonce v }
{
    numbered(under.nonce(), v * 2 + 1)
}

// The number of a last block: whether it was full.
#[tactic(auto, unfolding(modes::specs::Eevee::bit))]
fn end_number(full: bool) -> usize
    ensures { (result ≡ bit full) × (result ≤ 1) }
{
    if full { 1 } else { 0 }
}

// And of a header's, with whether the body is empty.
#[tactic(auto, unfolding(modes::specs::Eevee::head_end))]
fn head_end(empty: bool, full: bool) -> usize
    ensures { (result ≡ head_end empty full) × (result ≤ 3) }
{
    2 * end_number(full) + end_number(empty)
}

// ---- block calls of a body, under the tweak of a number

// Half 0 of a block.
fn half(under: &mut Under, v: usize, x: [u8; 16]) -> [u8; 16]
    requires { Fills under.old × (v ≤ 4294967300) }
    ensures worked { HalfOf under.old v x result }
    ensures same { under.new ≡ under.old }
{
    let t = body_tweak(under, v);
    let f = under.fork(t, x, Want::First);
    f.half0
}

// Both halves.
fn both(under: &mut Under, v: usize, x: [u8; 16]) -> Pair
    requires { Fills under.old × (v ≤ 4294967300) }
    ensures worked { BothOf under.old v x result }
    ensures same { under.new ≡ under.old }
{
    let t = body_tweak(under, v);
    Pair::from(under.fork(t, x, Want::Both))
}

// Back from half 0: the block.
fn input(under: &mut Under, v: usize, x: [u8; 16]) -> [u8; 16]
    requires { Fills under.old × (v ≤ 4294967300) }
    ensures worked { InputOf under.old v x result }
    ensures same { under.new ≡ under.old }
{
    let t = body_tweak(under, v);
    let u = under.unfork(t, x, Half::Zero, Want::First);
    u.input
}

// And half 1.
fn back(under: &mut Under, v: usize, x: [u8; 16]) -> Pair
    requires { Fills under.old × (v ≤ 4294967300) }
    ensures worked { BackOf under.old v x result }
    ensures same { under.new ≡ under.old }
{
    let t = body_tweak(under, v);
    Pair::from(under.unfork(t, x, Half::Zero, Want::Both))
}

// ---- the header

// T_A with half 0 of a header block added.
#[inline(never)]
#[tactic(auto, using(crate::proofs::Bodies::head_is))]
fn head_link(under: &mut Under, v: usize, s: State, x: [u8; 16]) -> [u8; 16]
    requires { Fills under.old × (v ≤ 4294967300) }
    ensures linked { LinkOf under.old v s x result }
    ensures same { under.new ≡ under.old }
{
    let t = head_tweak(under, v);
    let f = under.fork(t, x, Want::First);
    xored(f.half0, s.mask)
}

pub fn head(under: &mut Under, s: State, x: [u8; 16]) -> State
    requires { Fills under.old × (s.number ≤ 4294967296) }
    ensures stepped { HeadOf under.old s x result }
    ensures same { under.new ≡ under.old }
{
    let delta = s.delta;
    State {
        mask: head_link(under, s.number + 4, s, x),
        delta,
        number: s.number + 1,
        first: false,
    }
}

// Numbers begin again in the body.
pub fn head_last(under: &mut Under, empty: bool, full: bool, s: State, x: [u8; 16]) -> State
    requires { Fills under.old }
    ensures stepped { HeadEndOf under.old empty full s x result }
    ensures same { under.new ≡ under.old }
{
    let delta = s.delta;
    State {
        mask: head_link(under, head_end(empty, full), s, x),
        delta,
        number: 1,
        first: false,
    }
}

// ---- the last block

// Delta with T_A, or the sealed block before, added.
fn last_mask(s: State) -> [u8; 16]
    ensures { result ≡ s.delta ⊕ s.mask }
{
    xored(s.delta, s.mask)
}

// Half 0 is the tag, and half 1 with the block on it makes the ciphertext's end.
pub fn seal_last(under: &mut Under, full: bool, s: State, x: [u8; 16]) -> Pair
    requires { Fills under.old }
    ensures stepped { SealEndOf under.old full s x result }
    ensures same { under.new ≡ under.old }
{
    let p = both(under, end_number(full), xored(x, last_mask(s)));
    let first = p.first;
    Pair {
        first,
        second: xored(p.second, x),
    }
}

// Back from the tag: the block as it was padded, and what makes the ciphertext's end.
pub fn open_last(under: &mut Under, full: bool, s: State, x: [u8; 16]) -> Pair
    requires { Fills under.old }
    ensures stepped { OpenEndOf under.old full s x result }
    ensures same { under.new ≡ under.old }
{
    let p = back(under, end_number(full), x);
    let first = xored(p.first, last_mask(s));
    Pair {
        first,
        second: xored(first, p.second),
    }
}
