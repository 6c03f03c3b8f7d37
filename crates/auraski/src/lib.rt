// The entry points for C: plain numbers and byte runs. The header include/auraski.h tells a C programmer what each call means.
#![tactic(auto)]

pub mod with_prepared;

ghost use Rattle.std.specs.Prelude.{◌≡◌, List, ℕ};
ghost use Rattle.forkskinny.specs.Calls.{fork_result, fork_of, unfork_result, unfork_of};
ghost use Rattle.sealing.specs.Budget.{budget_of};
ghost use Rattle.sealing.specs.Calls.{told, seal_of, open_of};
ghost use Rattle.auraski.specs.Entries.{blocks, halves_in, back_in, answered, answer_in, counted};

use forkskinny::{Forked, Unforked, calls};
use refusals::Refusal;
use sealing::Answer;

// What a block call forward tells: the number, and both halves written, zeros where it is refused.
fn tell_halves(answer: Result<Forked, Refusal>, half0: &mut [u8; 16], half1: &mut [u8; 16]) -> u32
    ensures { blocks result half0.new half1.new ≡ halves_in (fork_result answer) }
{
    match answer {
        Ok(f) => {
            let first = f.half0;
            let second = f.half1;
            *half0 = first;
            *half1 = second;
            0
        }
        Err(refusal) => {
            *half0 = [0; 16];
            *half1 = [0; 16];
            u32::from(refusal)
        }
    }
}

// What a block call back tells: the number, and the input block and the other half written, zeros where it is refused.
fn tell_back(answer: Result<Unforked, Refusal>, input: &mut [u8; 16], other: &mut [u8; 16]) -> u32
    ensures { blocks result input.new other.new ≡ back_in (unfork_result answer) }
{
    match answer {
        Ok(f) => {
            let first = f.input;
            let second = f.other;
            *input = first;
            *other = second;
            0
        }
        Err(refusal) => {
            *input = [0; 16];
            *other = [0; 16];
            u32::from(refusal)
        }
    }
}

// ForkSkinny forward: the number, and both halves written.
#[unsafe(no_mangle)]
pub extern "C" fn auraski_fork(
    cipher: u32,
    key: &[u8; 16],
    tweak: &[u8; 16],
    block: &[u8; 16],
    want: u32,
    half0: &mut [u8; 16],
    half1: &mut [u8; 16],
) -> u32
    ensures { blocks result half0.new half1.new ≡ halves_in (fork_of cipher key.now tweak.now block.now want) }
{
    let answer = calls::fork_by_key(cipher, *key, *tweak, *block, want);
    tell_halves(answer, half0, half1)
}

// ForkSkinny back from a half: the number, and the input block and the other half written.
#[unsafe(no_mangle)]
pub extern "C" fn auraski_unfork(
    cipher: u32,
    key: &[u8; 16],
    tweak: &[u8; 16],
    block: &[u8; 16],
    from: u32,
    want: u32,
    input: &mut [u8; 16],
    other: &mut [u8; 16],
) -> u32
    ensures { blocks result input.new other.new ≡ back_in (unfork_of cipher key.now tweak.now block.now from want) }
{
    let answer = calls::unfork_by_key(cipher, *key, *tweak, *block, from, want);
    tell_back(answer, input, other)
}

// The number of an answer, and its length written; a refusal has none.
fn tell(answer: Result<Answer, Refusal>, length: &mut usize) -> u32
    ensures { (room : List ℕ) → answered result length.new room ≡ answer_in (told answer room) }
{
    let (number, size) = match answer {
        Ok(done) => (0, done.length),
        Err(refusal) => (u32::from(refusal), 0),
    };
    *length = size;
    number
}

// Seals a body: the number, and the length of the sealed run at the front of the room written.
#[unsafe(no_mangle)]
pub extern "C" fn auraski_seal(
    scheme: u32,
    key: &[u8],
    nonce: &[u8],
    header: &[u8],
    body: &[u8],
    room: &mut [u8],
    length: &mut usize,
) -> u32
    ensures { answered result length.new room.new ≡ answer_in (seal_of scheme key.now nonce.now header.now body.now room.old) }
{
    let answer = sealing::seal_by_key(scheme, key, nonce, header, body, room);
    tell(answer, length)
}

// Opens a sealed run: the number, and the length of the body at the front of the room written.
#[unsafe(no_mangle)]
pub extern "C" fn auraski_open(
    scheme: u32,
    key: &[u8],
    nonce: &[u8],
    header: &[u8],
    sealed: &[u8],
    room: &mut [u8],
    length: &mut usize,
) -> u32
    ensures { answered result length.new room.new ≡ answer_in (open_of scheme key.now nonce.now header.now sealed.now room.old) }
{
    let answer = sealing::open_by_key(scheme, key, nonce, header, sealed, room);
    tell(answer, length)
}

// Counts the rounds of a record by its lengths: the number, and the rounds of a seal or an open written.
#[unsafe(no_mangle)]
pub extern "C" fn auraski_rounds(scheme: u32, header: usize, body: usize, rounds: &mut u32) -> u32
    ensures { counted result rounds.new ≡ budget_of scheme header body }
{
    match sealing::rounds_of(scheme, header, body) {
        Ok(count) => {
            *rounds = count;
            0
        }
        Err(refusal) => {
            *rounds = 0;
            u32::from(refusal)
        }
    }
}
