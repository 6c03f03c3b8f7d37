// A job of the desk: read, run, and answered by one line.
#![tactic(auto)]

pub mod sections;

ghost use Rattle.std.specs.Prelude.{◌≡◌, false, IfOk, IfErr};
ghost use Rattle.io.specs.Counts.{IsPrefixLen};
ghost use Rattle.lines.specs.Line.{Puts};
ghost use Rattle.refusals.specs.declared.Refusal.TheVariants.{Job};
ghost use Rattle.sealing.specs.Calls.{told};
ghost use Rattle.job.specs.Job.{is_sound, job_of, printed, byte_of, Direct, Reads};

use refusals::Refusal;
use sealing::{Answer, open_by_key, seal_by_key, view};
use sections::split;

// What a job asks for; on its second byte 0 seals and 1 opens.
#[derive(Clone, Copy, Debug, PartialEq, Eq)]
enum Direction {
    Seal,
    Open,
}

impl TryFrom<u8> for Direction {
    type Error = Refusal;

    ghost try_from_gives = { Direct };

    fn try_from(byte: u8) -> Result<Direction, Refusal> {
        match byte {
            0 => Ok(Direction::Seal),
            1 => Ok(Direction::Open),
            _ => Err(Refusal::Job),
        }
    }
}

// A job that can be taken: what its bytes say.
#[derive(Clone, Copy)]
struct Request<'a> {
    scheme: u32,
    direction: Direction,
    key: &'a [u8],
    nonce: &'a [u8],
    header: &'a [u8],
    body: &'a [u8],
}

// Refused where it can't be taken: too long, without a direction, not four sections in full, or something left over.
fn read(job: &[u8]) -> Result<Request<'_>, Refusal>
    ensures sound { IfOk result (λ r. Reads job.now r.scheme (byte_of r.direction) r.key.now r.nonce.now r.header.now r.body.now) }
    ensures unsound { IfErr result (λ refusal. (refusal ≡ Job) × (is_sound job.now ≡ false)) }
{
    if 16384 < job.len() {
        return Err(Refusal::Job);
    }
    if job.len() < 2 {
        return Err(Refusal::Job);
    }
    let direction = Direction::try_from(job[1])?;
    let (key, rest) = split(&job[2..]).ok_or(Refusal::Job)?;
    let (nonce, rest) = split(rest).ok_or(Refusal::Job)?;
    let (header, rest) = split(rest).ok_or(Refusal::Job)?;
    let (body, rest) = split(rest).ok_or(Refusal::Job)?;
    if !rest.is_empty() {
        return Err(Refusal::Job);
    }
    Ok(Request {
        scheme: u32::from(job[0]),
        direction,
        key,
        nonce,
        header,
        body,
    })
}

// Runs a job into the room, as its sections' seal or open. Refused with 9, before all else, where it can't be taken.
pub fn run(job: &[u8], room: &mut [u8]) -> Result<Answer, Refusal>
    ensures { told result room.new ≡ job_of job.now room.old }
{
    let r = read(job)?;
    match r.direction {
        Direction::Seal => seal_by_key(r.scheme, r.key, r.nonce, r.header, r.body, room),
        Direction::Open => open_by_key(r.scheme, r.key, r.nonce, r.header, r.body, room),
    }
}

// Runs a job and lays its line down at the front of the text; answers how long the line is. The room takes every output of a job, and
// the text, twice as long and 64 bytes, every line.
pub fn answer(job: &[u8], room: &mut [u8; 16384], text: &mut [u8; 32832]) -> usize
    ensures prefix_len { IsPrefixLen result text.new }
    ensures puts { Puts (printed job.now room.old) result text.old text.new }
    ensures room_after { room.new ≡ (job_of job.now room.old).room }
{
    let (number, size) = match run(job, room) {
        Ok(done) => (0, done.length),
        Err(refusal) => (u32::from(refusal), 0),
    };
    let output = view(number, size, room);
    lines::line(number, size, output, text)
}
