// A run longer than a block, opened: each block from its own place, on into the rest of the room. Whether the run is authentic is
// told at its end; the caller clears the room where it is not.
ghost use Rattle.std.specs.Prelude.{◌≡◌, ◌&&◌, ◌+◌, ◌-◌, ◌≤◌, ◌<◌, length, take, drop};
ghost use Rattle.ciphers.specs.Ciphers.{block_of};
ghost use Rattle.modes.specs.Blocks.{same, ten};
ghost use Rattle.states.specs.Steps.{Steppable};
ghost use Rattle.walks.specs.Walks.{Walkable, Openable, OpenTurned, OpenEnded, RunOpened};

use crate::ends::begin;
use crate::{is_full, last_block};
use blocks::{differences, load, store};
use states::{State, Under};
use steps::Mode;

// The block at the front of a part, not the last one. (Out of line, so that its frame is not its caller's too: docs/DECISIONS.md.)
#[inline(never)]
fn turn<M: Mode>(under: &mut Under, s: State, part: &[u8], rest: &mut [u8]) -> State
    requires steppable { Steppable M.kind under.old s }
    requires whole { block_of under.old.cipher ≤ length part.now }
    requires fits { block_of under.old.cipher ≤ length rest.old }
    ensures turned { OpenTurned M.kind under.old s part.now rest.old result rest.new }
    ensures same { under.new ≡ under.old }
{
    let n = under.block();
    let opened = M::open_block(under, s, load(part, n));
    store(rest, opened.out, n);
    opened.next
}

// Whether r bytes of the second block are the tag, and what stands behind r bytes of the last block is padding: one answer, told
// when both were read to their ends.
#[inline(never)]
fn judge(n: usize, r: usize, block: [u8; 16], second: [u8; 16], tag: &[u8]) -> bool
    requires { (r ≤ n) × (n ≤ 16) }
    ensures { result ≡ (same (take r second) tag.now && same (take (n - r) (drop r block)) (take (n - r) (ten 15))) }
{
    let mut ten = [0u8; 16];
    ten[0] = 0x80;
    let in_tag = differences(&second[..r], tag);
    let in_padding = differences(&block[r..n], &ten[..n - r]);
    (in_tag | in_padding) == 0
}

// The end of a run: its last block, and leading bytes of the second, each from its place.
fn end<M: Mode>(under: &mut Under, s: State, part: &[u8], rest: &mut [u8]) -> bool
    requires steppable { Steppable M.kind under.old s }
    requires openable { Openable (block_of under.old.cipher) part.now rest.old }
    requires short { length part.now ≤ block_of under.old.cipher + block_of under.old.cipher }
    ensures ended { OpenEnded M.kind under.old s part.now rest.old result rest.new }
    ensures same { under.new ≡ under.old }
{
    let n = under.block();
    let r = part.len() - n;
    let ahead = states::block_first(M::kind());
    let at = begin(!ahead, r);
    let opened = M::open_last(under, is_full(n, r), s, load(&part[at..], n));
    store(rest, opened.first, r);
    let from = begin(ahead, n);
    judge(n, r, opened.first, opened.second, &part[from..from + r])
}

pub fn run<M: Mode>(under: &mut Under, start: State, run: &[u8], room: &mut [u8]) -> bool
    requires walkable { Walkable under.old.cipher M.kind under.old.nonce run.now }
    requires begins { start.number ≤ 1 }
    requires openable { Openable (block_of under.old.cipher) run.now room.old }
    requires longer { block_of under.old.cipher < length run.now }
    ensures opened { RunOpened M.kind under.old start run.now room.old result room.new }
    ensures same { under.new ≡ under.old }
{
    let n = under.block();
    let last = last_block(n, run.len() - n);
    let mut s = start;
    for at in (0..last).step_by(n) {
        s = turn::<M>(under, s, &run[at..], &mut room[at..]);
    }
    end::<M>(under, s, &run[last..], &mut room[last..])
}
