// Seal, open and view, and the rounds of a record by its lengths. Each call has the name and the contract that docs/PROMISES.md gives it, and
// takes its scheme by number, as callers from C do; what seal and open share is said once, in calls.rt.
#![tactic(auto)]

mod calls;

ghost use Rattle.std.specs.Prelude.{◌≡◌};
ghost use Rattle.sealing.specs.Budget.{budget_of, counted};
ghost use Rattle.sealing.specs.Calls.{told, seal_of, open_of, seal_with, open_with};

use calls::{Open, Seal, by_key, with};
use prepared::Prepared;
use refusals::Refusal;
use schemes::checks::Lengths;
use schemes::scheme_of;
pub use views::view;
use walks::counting;

// What a caller is told of a call that is done: the length of what stands at the front of the room, and the rounds that were run.
#[derive(Clone, Copy, Debug, PartialEq, Eq)]
pub struct Answer {
    pub length: usize,
    pub rounds: u32,
}

// Seals a body with a prepared key: the sealed run, a block longer, at the front of the room. Refused, in this order, with 1 (scheme), 2 (no
// key of the scheme's cipher gives this record), 7 (nonce length), 3 (header too long), 8 (body too long), 5 (room too short) or 10 (header
// and body both empty, under a mode that has no run for them), the room unchanged.
#[tactic(auto, unfolding(crate::specs::Calls::seal_with))]
pub fn seal(
    scheme: u32,
    key: &Prepared,
    nonce: &[u8],
    header: &[u8],
    body: &[u8],
    room: &mut [u8],
) -> Result<Answer, Refusal>
    ensures { told result room.new ≡ seal_with scheme key.now nonce.now header.now body.now room.old }
{
    with::<Seal>(scheme, key, nonce, header, body, room)
}

// The same with a key, for callers that have no prepared one: 2 says that it is not of the scheme's length.
#[tactic(auto, unfolding(crate::specs::Calls::seal_of))]
pub fn seal_by_key(
    scheme: u32,
    key: &[u8],
    nonce: &[u8],
    header: &[u8],
    body: &[u8],
    room: &mut [u8],
) -> Result<Answer, Refusal>
    ensures { told result room.new ≡ seal_of scheme key.now nonce.now header.now body.now room.old }
{
    by_key::<Seal>(scheme, key, nonce, header, body, room)
}

// Opens a sealed run with a prepared key: its body, a block shorter, at the front of the room. Refused, in this order, with 1, 2, 7, 3, 8, 4
// (run shorter than a block), 5 or 10, the room unchanged, or with 6 (not authentic), zeros where the body would have been.
#[tactic(auto, unfolding(crate::specs::Calls::open_with))]
pub fn open(
    scheme: u32,
    key: &Prepared,
    nonce: &[u8],
    header: &[u8],
    sealed: &[u8],
    room: &mut [u8],
) -> Result<Answer, Refusal>
    ensures { told result room.new ≡ open_with scheme key.now nonce.now header.now sealed.now room.old }
{
    with::<Open>(scheme, key, nonce, header, sealed, room)
}

// The same with a key, for callers that have no prepared one: 2 says that it is not of the scheme's length.
#[tactic(auto, unfolding(crate::specs::Calls::open_of))]
pub fn open_by_key(
    scheme: u32,
    key: &[u8],
    nonce: &[u8],
    header: &[u8],
    sealed: &[u8],
    room: &mut [u8],
) -> Result<Answer, Refusal>
    ensures { told result room.new ≡ open_of scheme key.now nonce.now header.now sealed.now room.old }
{
    by_key::<Open>(scheme, key, nonce, header, sealed, room)
}

// The rounds of a seal of a body of this length, and of an open of its run, which is a block longer. Refused, in this order, with 1
// (scheme), 3 (header too long), 8 (body too long) or 10 (both empty, under a mode that has no run for them), and no rounds.
#[tactic(auto, unfolding(crate::specs::Budget::budget_of))]
pub fn rounds_of(scheme: u32, header: usize, body: usize) -> Result<u32, Refusal>
    ensures { counted result ≡ budget_of scheme header body }
{
    let s = scheme_of(scheme).ok_or(Refusal::Unknown)?;
    s.check(Lengths {
        key: s.key,
        nonce: s.nonce,
        header,
        body,
        short: false,
        more: 0,
        room: body,
    })?;
    Ok(counting::rounds(s.cipher, s.kind, header, body))
}
