// The walks by a mode's name, each under a key that is set to work for it alone. (A record has one key at work for all of its walks, and its mode's
// type behind the name: records.rt.)
ghost use Rattle.std.specs.Prelude.{◌≡◌, ◌+◌, ◌≤◌, ◌<◌, length};
ghost use Rattle.ciphers.specs.Ciphers.{block_of};
ghost use Rattle.prepared.specs.Prepared.{key_in, Made};
ghost use Rattle.walks.specs.Walks.{Walkable, Openable, Headed, BodySealed, RunOpened};

use crate::{headers, opening, sealing};
use ciphers::Cipher;
use eevee::{Jolteon, Umbreon};
use forkae::{Paef, Saef};
use states::{Kind, State, Under};

// What a header leaves; empty says that the body is.
pub fn head(
    c: Cipher,
    k: Kind,
    share: &[u8; 784],
    nonce: &[u8],
    empty: bool,
    header: &[u8],
) -> State
    requires { Walkable c k nonce.now header.now × Made c share.now }
    ensures { Headed k (record { cipher = c; key = key_in c share.now; nonce = nonce.now }) empty header.now result }
{
    let mut under = Under::new(c, share, nonce);
    match k {
        Kind::Paef => headers::head::<Paef>(&mut under, empty, header),
        Kind::Saef => headers::head::<Saef>(&mut under, empty, header),
        Kind::Umbreon => headers::head::<Umbreon>(&mut under, empty, header),
        Kind::Jolteon => headers::head::<Jolteon>(&mut under, empty, header),
    }
}

// A body that is not empty, sealed from what its header left.
pub fn body(
    c: Cipher,
    k: Kind,
    share: &[u8; 784],
    nonce: &[u8],
    start: State,
    body: &[u8],
    room: &mut [u8],
)
    requires { Walkable c k nonce.now body.now × (start.number ≤ 1) × (0 < length body.now) × (length body.now + block_of c ≤ length room.old) × Made c share.now }
    ensures { BodySealed k (record { cipher = c; key = key_in c share.now; nonce = nonce.now }) start body.now room.old room.new }
{
    let mut under = Under::new(c, share, nonce);
    match k {
        Kind::Paef => sealing::body::<Paef>(&mut under, start, body, room),
        Kind::Saef => sealing::body::<Saef>(&mut under, start, body, room),
        Kind::Umbreon => sealing::body::<Umbreon>(&mut under, start, body, room),
        Kind::Jolteon => sealing::body::<Jolteon>(&mut under, start, body, room),
    }
}

// A run longer than a block, opened from what its header left.
pub fn run(
    c: Cipher,
    k: Kind,
    share: &[u8; 784],
    nonce: &[u8],
    start: State,
    run: &[u8],
    room: &mut [u8],
) -> bool
    requires { Walkable c k nonce.now run.now × (start.number ≤ 1) × Openable (block_of c) run.now room.old × (block_of c < length run.now) × Made c share.now }
    ensures { RunOpened k (record { cipher = c; key = key_in c share.now; nonce = nonce.now }) start run.now room.old result room.new }
{
    let mut under = Under::new(c, share, nonce);
    match k {
        Kind::Paef => opening::run::<Paef>(&mut under, start, run, room),
        Kind::Saef => opening::run::<Saef>(&mut under, start, run, room),
        Kind::Umbreon => opening::run::<Umbreon>(&mut under, start, run, room),
        Kind::Jolteon => opening::run::<Jolteon>(&mut under, start, run, room),
    }
}
