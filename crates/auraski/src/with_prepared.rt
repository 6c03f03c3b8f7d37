// The entry points for C with a prepared key, which is a room of 801 bytes to a C caller: the number of its cipher, its share, its moving part.
ghost use Rattle.std.specs.Prelude.{◌≡◌, length, take, drop, get_or};
ghost use Rattle.prepared.specs.Prepared.{prepare_of};
ghost use Rattle.forkskinny.specs.Calls.{fork_with, unfork_with};
ghost use Rattle.sealing.specs.Calls.{seal_with, open_with};
ghost use Rattle.auraski.specs.Entries.{blocks, halves_in, back_in, answered, answer_in};
ghost use Rattle.auraski.specs.Rooms.{record_in, laid_out, prepared, prepared_in};

use crate::{tell, tell_back, tell_halves};
use blocks::front;
use forkskinny::calls;
use prepared::Prepared;

// The parts of the record that a room holds: its share,
fn share_in(room: &[u8]) -> [u8; 784]
    requires { length room.now ≡ 801 }
    ensures { result ≡ take 784 (drop 1 room.now) }
{
    let mut share = [0u8; 784];
    share.copy_from_slice(&room[1..785]);
    share
}

// its moving part,
fn moving_in(room: &[u8]) -> [u8; 16]
    requires { length room.now ≡ 801 }
    ensures { result ≡ take 16 (drop 785 room.now) }
{
    front(&room[785..801], 16)
}

// and the number of its cipher.
fn cipher_in(room: &[u8]) -> u32
    requires { length room.now ≡ 801 }
    ensures { result ≡ get_or room.now 0 0 }
{
    room[0] as u32
}

// The record that a room holds.
#[tactic(auto, unfolding(crate::specs::Rooms::record_in))]
fn record_in(room: &[u8; 801]) -> Prepared
    ensures { result ≡ record_in room.now }
{
    Prepared {
        cipher: cipher_in(room),
        share: share_in(room),
        tweak: moving_in(room),
    }
}

// A record laid out in a room, in place: a room that is handed out would be on the stack once more.
fn lay_out(cipher: u8, share: &[u8; 784], tweak: &[u8; 16], room: &mut [u8; 801])
    ensures { room.new ≡ laid_out cipher share.now tweak.now }
{
    room[0] = cipher;
    room[1..785].copy_from_slice(share);
    room[785..].copy_from_slice(tweak);
}

// Prepares a key for a cipher: the number, and the record written.
#[unsafe(no_mangle)]
pub extern "C" fn auraski_prepare(cipher: u32, key: &[u8], room: &mut [u8; 801]) -> u32
    ensures { prepared result room.new ≡ prepared_in (prepare_of cipher key.now) }
{
    match prepared::prepare(cipher, key) {
        Ok(made) => {
            lay_out((made.cipher % 256) as u8, &made.share, &made.tweak, room);
            0
        }
        Err(refusal) => {
            *room = [0; 801];
            u32::from(refusal)
        }
    }
}

// ForkSkinny forward.
#[unsafe(no_mangle)]
pub extern "C" fn auraski_fork_prepared(
    cipher: u32,
    key: &[u8; 801],
    tweak: &[u8; 16],
    block: &[u8; 16],
    want: u32,
    half0: &mut [u8; 16],
    half1: &mut [u8; 16],
) -> u32
    ensures { blocks result half0.new half1.new ≡ halves_in (fork_with cipher (record_in key.now) tweak.now block.now want) }
{
    let answer = calls::fork(cipher, &record_in(key), *tweak, *block, want);
    tell_halves(answer, half0, half1)
}

// ForkSkinny back from a half.
#[unsafe(no_mangle)]
pub extern "C" fn auraski_unfork_prepared(
    cipher: u32,
    key: &[u8; 801],
    tweak: &[u8; 16],
    block: &[u8; 16],
    from: u32,
    want: u32,
    input: &mut [u8; 16],
    other: &mut [u8; 16],
) -> u32
    ensures { blocks result input.new other.new ≡ back_in (unfork_with cipher (record_in key.now) tweak.now block.now from want) }
{
    let answer = calls::unfork(cipher, &record_in(key), *tweak, *block, from, want);
    tell_back(answer, input, other)
}

// Seals a body.
#[unsafe(no_mangle)]
pub extern "C" fn auraski_seal_prepared(
    scheme: u32,
    key: &[u8; 801],
    nonce: &[u8],
    header: &[u8],
    body: &[u8],
    room: &mut [u8],
    length: &mut usize,
) -> u32
    ensures { answered result length.new room.new ≡ answer_in (seal_with scheme (record_in key.now) nonce.now header.now body.now room.old) }
{
    let answer = sealing::seal(scheme, &record_in(key), nonce, header, body, room);
    tell(answer, length)
}

// Opens a sealed run.
#[unsafe(no_mangle)]
pub extern "C" fn auraski_open_prepared(
    scheme: u32,
    key: &[u8; 801],
    nonce: &[u8],
    header: &[u8],
    sealed: &[u8],
    room: &mut [u8],
    length: &mut usize,
) -> u32
    ensures { answered result length.new room.new ≡ answer_in (open_with scheme (record_in key.now) nonce.now header.now sealed.now room.old) }
{
    let answer = sealing::open(scheme, &record_in(key), nonce, header, sealed, room);
    tell(answer, length)
}
