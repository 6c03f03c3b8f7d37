// A record: its header, and then its body or its run. The mode's name is asked for once a record; behind it the walks are the same for
// every mode.
ghost use Rattle.std.specs.Prelude.{◌≡◌, ◌+◌, ◌≤◌, length};
ghost use Rattle.ciphers.specs.Ciphers.{block_of};
ghost use Rattle.prepared.specs.Prepared.{key_in, Made};
ghost use Rattle.walks.specs.Walks.{Walkable, Openable, RecordSealed, RecordOpened};

use crate::headers::head;
use crate::{opening, sealing};
use blocks::{equal, store};
use ciphers::Cipher;
use eevee::{Jolteon, Umbreon};
use forkae::{Paef, Saef};
use states::{Kind, Under};
use steps::Mode;

// These two are never put into their callers: four modes in one frame take more stack than a call may.

// What an empty body is sealed to is what its header leaves.
#[inline(never)]
fn seal_under<M: Mode>(under: &mut Under, header: &[u8], body: &[u8], room: &mut [u8])
    requires header { Walkable under.old.cipher M.kind under.old.nonce header.now }
    requires body { Walkable under.old.cipher M.kind under.old.nonce body.now }
    requires fits { length body.now + block_of under.old.cipher ≤ length room.old }
    ensures { RecordSealed under.old.cipher M.kind under.old.key under.old.nonce header.now body.now room.old room.new }
{
    let n = under.block();
    let empty = body.len() == 0;
    let s = head::<M>(under, empty, header);
    if empty {
        store(room, s.mask, n);
        return;
    }
    sealing::body::<M>(under, s, body, room);
}

// A run of one block has an empty body.
#[inline(never)]
fn open_under<M: Mode>(under: &mut Under, header: &[u8], run: &[u8], room: &mut [u8]) -> bool
    requires header { Walkable under.old.cipher M.kind under.old.nonce header.now }
    requires run { Walkable under.old.cipher M.kind under.old.nonce run.now }
    requires openable { Openable (block_of under.old.cipher) run.now room.old }
    ensures { RecordOpened under.old.cipher M.kind under.old.key under.old.nonce header.now run.now room.old result room.new }
{
    let n = under.block();
    let alone = run.len() == n;
    let s = head::<M>(under, alone, header);
    if alone {
        return equal(run, &s.mask[..n]);
    }
    opening::run::<M>(under, s, run, room)
}

// What the body is sealed to, at the front of the room.
pub fn seal(
    c: Cipher,
    k: Kind,
    share: &[u8; 784],
    nonce: &[u8],
    header: &[u8],
    body: &[u8],
    room: &mut [u8],
)
    requires { Walkable c k nonce.now header.now × Walkable c k nonce.now body.now × (length body.now + block_of c ≤ length room.old) × Made c share.now }
    ensures { RecordSealed c k (key_in c share.now) nonce.now header.now body.now room.old room.new }
{
    let mut under = Under::new(c, share, nonce);
    match k {
        Kind::Paef => seal_under::<Paef>(&mut under, header, body, room),
        Kind::Saef => seal_under::<Saef>(&mut under, header, body, room),
        Kind::Umbreon => seal_under::<Umbreon>(&mut under, header, body, room),
        Kind::Jolteon => seal_under::<Jolteon>(&mut under, header, body, room),
    }
}

// Whether the run is authentic; what it opens to, at the front of the room.
pub fn open(
    c: Cipher,
    k: Kind,
    share: &[u8; 784],
    nonce: &[u8],
    header: &[u8],
    run: &[u8],
    room: &mut [u8],
) -> bool
    requires { Walkable c k nonce.now header.now × Walkable c k nonce.now run.now × Openable (block_of c) run.now room.old × Made c share.now }
    ensures { RecordOpened c k (key_in c share.now) nonce.now header.now run.now room.old result room.new }
{
    let mut under = Under::new(c, share, nonce);
    match k {
        Kind::Paef => open_under::<Paef>(&mut under, header, run, room),
        Kind::Saef => open_under::<Saef>(&mut under, header, run, room),
        Kind::Umbreon => open_under::<Umbreon>(&mut under, header, run, room),
        Kind::Jolteon => open_under::<Jolteon>(&mut under, header, run, room),
    }
}
