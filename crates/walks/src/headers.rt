// A header, block by block from its own place.
ghost use Rattle.std.specs.Prelude.{◌≡◌, ◌≤◌, length};
ghost use Rattle.ciphers.specs.Ciphers.{block_of};
ghost use Rattle.states.specs.Steps.{Steppable};
ghost use Rattle.walks.specs.Walks.{Walkable, HeadTurned, HeadEnded, HeadWalked, Headed};

use crate::is_full;
use blocks::load;
use states::{State, Under};
use steps::Mode;

// The block at the front of a part, not the last one.
fn turn<M: Mode>(under: &mut Under, s: State, part: &[u8]) -> State
    requires steppable { Steppable M.kind under.old s }
    requires whole { block_of under.old.cipher ≤ length part.now }
    ensures turned { HeadTurned M.kind under.old s part.now result }
    ensures same { under.new ≡ under.old }
{
    let n = under.block();
    M::head(under, s, load(part, n))
}

// The last one, short or full.
fn end<M: Mode>(under: &mut Under, empty: bool, s: State, part: &[u8]) -> State
    requires { Steppable M.kind under.old s }
    ensures ended { HeadEnded M.kind under.old empty s part.now result }
    ensures same { under.new ≡ under.old }
{
    let n = under.block();
    let full = is_full(n, part.len());
    M::head_last(under, empty, full, s, load(part, n))
}

fn walk<M: Mode>(under: &mut Under, empty: bool, header: &[u8]) -> State
    requires { Walkable under.old.cipher M.kind under.old.nonce header.now }
    ensures walked { HeadWalked M.kind under.old empty header.now result }
    ensures same { under.new ≡ under.old }
{
    let n = under.block();
    let mut s = State::start();
    let mut rest = header;
    while n < rest.len() {
        s = turn::<M>(under, s, rest);
        rest = &rest[n..];
    }
    end::<M>(under, empty, s, rest)
}

// What a header leaves; empty says that the body is. An empty header leaves nothing before a body.
pub fn head<M: Mode>(under: &mut Under, empty: bool, header: &[u8]) -> State
    requires { Walkable under.old.cipher M.kind under.old.nonce header.now }
    ensures headed { Headed M.kind under.old empty header.now result }
    ensures same { under.new ≡ under.old }
{
    if !empty && header.len() == 0 {
        return State::start();
    }
    walk::<M>(under, empty, header)
}
