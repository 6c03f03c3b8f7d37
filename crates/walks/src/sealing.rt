// A body that is not empty, sealed: each block from its own place, on into the rest of the room.
ghost use Rattle.std.specs.Prelude.{◌≡◌, ◌+◌, ◌≤◌, ◌<◌, length};
ghost use Rattle.ciphers.specs.Ciphers.{block_of};
ghost use Rattle.states.specs.Steps.{Steppable};
ghost use Rattle.walks.specs.Walks.{Walkable, SealTurned, SealEnded, BodySealed};

use crate::ends::put;
use crate::{is_full, last_block};
use blocks::{load, store};
use states::{State, Under};
use steps::Mode;

// The block at the front of a part, not the last one. (Out of line, so that its frame is not its caller's too: docs/DECISIONS.md.)
#[inline(never)]
fn turn<M: Mode>(under: &mut Under, s: State, part: &[u8], rest: &mut [u8]) -> State
    requires steppable { Steppable M.kind under.old s }
    requires whole { block_of under.old.cipher ≤ length part.now }
    requires fits { block_of under.old.cipher ≤ length rest.old }
    ensures turned { SealTurned M.kind under.old s part.now rest.old result rest.new }
    ensures same { under.new ≡ under.old }
{
    let n = under.block();
    let sealed = M::seal_block(under, s, load(part, n));
    store(rest, sealed.out, n);
    sealed.next
}

// The last one, short or full: its block, and as many bytes of the second as it had itself.
fn end<M: Mode>(under: &mut Under, s: State, part: &[u8], rest: &mut [u8])
    requires steppable { Steppable M.kind under.old s }
    requires short { length part.now ≤ block_of under.old.cipher }
    requires fits { length part.now + block_of under.old.cipher ≤ length rest.old }
    ensures ended { SealEnded M.kind under.old s part.now rest.old rest.new }
    ensures same { under.new ≡ under.old }
{
    let n = under.block();
    let l = part.len();
    let x = load(part, n);
    let sealed = M::seal_last(under, is_full(n, l), s, x);
    let ahead = states::block_first(M::kind());
    put(ahead, n, l, sealed.first, sealed.second, rest);
}

pub fn body<M: Mode>(under: &mut Under, start: State, body: &[u8], room: &mut [u8])
    requires walkable { Walkable under.old.cipher M.kind under.old.nonce body.now }
    requires begins { start.number ≤ 1 }
    requires some { 0 < length body.now }
    requires fits { length body.now + block_of under.old.cipher ≤ length room.old }
    ensures sealed { BodySealed M.kind under.old start body.now room.old room.new }
    ensures same { under.new ≡ under.old }
{
    let n = under.block();
    let last = last_block(n, body.len());
    let mut s = start;
    for at in (0..last).step_by(n) {
        s = turn::<M>(under, s, &body[at..], &mut room[at..]);
    }
    end::<M>(under, s, &body[last..], &mut room[last..]);
}
