// The calls of the library once more, with the rounds that they tell, which the library's own entry points leave out. For the comparison
// alone (tests/compare), so that it sees the rounds of every call.
#![tactic(auto)]

ghost use Rattle.std.specs.Prelude.{◌≡◌, List, ℕ};
ghost use Rattle.forkskinny.specs.Calls.{fork_of, unfork_of};
ghost use Rattle.refusals.specs.Refusal.{rounds_of};
ghost use Rattle.sealing.specs.Calls.{told, seal_of, open_of};
ghost use Rattle.meter.specs.Entries.{fork_told, unfork_told, call_told};

use forkskinny::calls;
use refusals::Refusal;
use sealing::Answer;

// The rounds that are told beside a refusal's number: a forged run's, and else none.
fn rounds_of(refusal: Refusal) -> u32
    ensures { result ≡ rounds_of refusal }
{
    if let Refusal::Forged(rounds) = refusal {
        rounds
    } else {
        0
    }
}

#[unsafe(no_mangle)]
pub extern "C" fn meter_fork(
    cipher: u32,
    key: &[u8; 16],
    tweak: &[u8; 16],
    block: &[u8; 16],
    want: u32,
    half0: &mut [u8; 16],
    half1: &mut [u8; 16],
    rounds: &mut u32,
) -> u32
    ensures { fork_told result half0.new half1.new rounds.new ≡ fork_of cipher key.now tweak.now block.now want }
{
    match calls::fork_by_key(cipher, *key, *tweak, *block, want) {
        Ok(f) => {
            let first = f.half0;
            let second = f.half1;
            *half0 = first;
            *half1 = second;
            *rounds = f.rounds;
            0
        }
        Err(refusal) => {
            *half0 = [0; 16];
            *half1 = [0; 16];
            *rounds = rounds_of(refusal);
            u32::from(refusal)
        }
    }
}

#[unsafe(no_mangle)]
pub extern "C" fn meter_unfork(
    cipher: u32,
    key: &[u8; 16],
    tweak: &[u8; 16],
    block: &[u8; 16],
    from: u32,
    want: u32,
    input: &mut [u8; 16],
    other: &mut [u8; 16],
    rounds: &mut u32,
) -> u32
    ensures { unfork_told result input.new other.new rounds.new ≡ unfork_of cipher key.now tweak.now block.now from want }
{
    match calls::unfork_by_key(cipher, *key, *tweak, *block, from, want) {
        Ok(u) => {
            let first = u.input;
            let second = u.other;
            *input = first;
            *other = second;
            *rounds = u.rounds;
            0
        }
        Err(refusal) => {
            *input = [0; 16];
            *other = [0; 16];
            *rounds = rounds_of(refusal);
            u32::from(refusal)
        }
    }
}

// The number of an answer, and its length and rounds written: a refusal has no length, and no rounds but those of a forged run.
fn tell(answer: Result<Answer, Refusal>, length: &mut usize, rounds: &mut u32) -> u32
    ensures { (room : List ℕ) → call_told result length.new room rounds.new ≡ told answer room }
{
    match answer {
        Ok(done) => {
            *length = done.length;
            *rounds = done.rounds;
            0
        }
        Err(refusal) => {
            *length = 0;
            *rounds = rounds_of(refusal);
            u32::from(refusal)
        }
    }
}

#[unsafe(no_mangle)]
pub extern "C" fn meter_seal(
    scheme: u32,
    key: &[u8],
    nonce: &[u8],
    header: &[u8],
    body: &[u8],
    room: &mut [u8],
    length: &mut usize,
    rounds: &mut u32,
) -> u32
    ensures { call_told result length.new room.new rounds.new ≡ seal_of scheme key.now nonce.now header.now body.now room.old }
{
    let answer = sealing::seal_by_key(scheme, key, nonce, header, body, room);
    tell(answer, length, rounds)
}

#[unsafe(no_mangle)]
pub extern "C" fn meter_open(
    scheme: u32,
    key: &[u8],
    nonce: &[u8],
    header: &[u8],
    sealed: &[u8],
    room: &mut [u8],
    length: &mut usize,
    rounds: &mut u32,
) -> u32
    ensures { call_told result length.new room.new rounds.new ≡ open_of scheme key.now nonce.now header.now sealed.now room.old }
{
    let answer = sealing::open_by_key(scheme, key, nonce, header, sealed, room);
    tell(answer, length, rounds)
}
