// Seal and open, which differ in what they do with their input: the steps that they share, and then each of them.
ghost use Rattle.std.specs.Prelude.{◌≡◌, ◌≢◌, List, ℕ, length, ◌-◌};
ghost use Rattle.prepared.specs.Prepared.{key_in, key_of, Made};
ghost use Rattle.schemes.specs.declared.Scheme.{Scheme};
ghost use Rattle.schemes.specs.Schemes.{scheme_of, Fits};
ghost use Rattle.sealing.specs.Calls.{Told, told, refused, under, seal_under, open_under};
ghost use Rattle.sealing.specs.Keys.{seal_no_key, open_no_key};

use crate::Answer;
use blocks::{clear, front};
use prepared::{Prepared, share_of};
use refusals::Refusal;
use schemes::checks::Lengths;
use schemes::{Scheme, scheme_of};
use walks::{counting, records};

// A call on a record, whose input is a body or a sealed run.
pub(crate) trait Call {
    // What it tells, by scheme, key, nonce, header, input and room.
    ghost tells: { Scheme → List ℕ → List ℕ → List ℕ → List ℕ → List ℕ → Told };

    // Under a scheme, with the share of a key.
    fn run(
        s: Scheme,
        share: &[u8; 784],
        nonce: &[u8],
        header: &[u8],
        input: &[u8],
        room: &mut [u8],
    ) -> Result<Answer, Refusal>
        requires { Fits s × Made s.cipher share.now }
        ensures { told result room.new ≡ tells s (key_in s.cipher share.now) nonce.now header.now input.now room.old };

    // A key of another length is refused before all else.
    ghost no_key: { (s : Scheme) (key nonce header input room : List ℕ) → length key ≢ s.key → refused 2 room ≡ tells s key nonce header input room };
}

// With a prepared key.
pub(crate) fn with<C: Call>(
    scheme: u32,
    key: &Prepared,
    nonce: &[u8],
    header: &[u8],
    input: &[u8],
    room: &mut [u8],
) -> Result<Answer, Refusal>
    ensures { told result room.new ≡ under (scheme_of scheme) (λ s. C.tells s (key_of s.cipher key.now) nonce.now header.now input.now room.old) room.old }
{
    let s = scheme_of(scheme).ok_or(Refusal::Unknown)?;
    if !key.is_admitted(s.cipher) {
        return Err(Refusal::Key);
    }
    C::run(s, &key.share, nonce, header, input, room)
}

// With a key.
pub(crate) fn by_key<C: Call>(
    scheme: u32,
    key: &[u8],
    nonce: &[u8],
    header: &[u8],
    input: &[u8],
    room: &mut [u8],
) -> Result<Answer, Refusal>
    ensures { told result room.new ≡ under (scheme_of scheme) (λ s. C.tells s key.now nonce.now header.now input.now room.old) room.old }
{
    let s = scheme_of(scheme).ok_or(Refusal::Unknown)?;
    if key.len() != s.key {
        return Err(Refusal::Key);
    }
    let share = share_of(s.cipher, front(key, 16));
    C::run(s, &share, nonce, header, input, room)
}

// ---- seal

pub(crate) struct Seal;

impl Call for Seal {
    ghost tells = { seal_under };

    fn run(
        s: Scheme,
        share: &[u8; 784],
        nonce: &[u8],
        header: &[u8],
        body: &[u8],
        room: &mut [u8],
    ) -> Result<Answer, Refusal> {
        let n = ciphers::block_of(s.cipher);
        s.check(Lengths {
            key: s.key, // judged before its share was made or lent
            nonce: nonce.len(),
            header: header.len(),
            body: body.len(),
            short: false,
            more: n,
            room: room.len(),
        })?;
        let rounds = counting::rounds(s.cipher, s.kind, header.len(), body.len());
        records::seal(s.cipher, s.kind, share, nonce, header, body, room);
        Ok(Answer {
            length: body.len() + n,
            rounds,
        })
    }

    ghost no_key = { seal_no_key };
}

// ---- open

pub(crate) struct Open;

impl Call for Open {
    ghost tells = { open_under };

    fn run(
        s: Scheme,
        share: &[u8; 784],
        nonce: &[u8],
        header: &[u8],
        sealed: &[u8],
        room: &mut [u8],
    ) -> Result<Answer, Refusal> {
        let n = ciphers::block_of(s.cipher);
        let length = sealed.len().saturating_sub(n);
        s.check(Lengths {
            key: s.key, // judged before its share was made or lent
            nonce: nonce.len(),
            header: header.len(),
            body: length,
            short: sealed.len() < n,
            more: 0,
            room: room.len(),
        })?;
        let rounds = counting::rounds(s.cipher, s.kind, header.len(), length);
        if !records::open(s.cipher, s.kind, share, nonce, header, sealed, room) {
            clear(room, length);
            return Err(Refusal::Forged(rounds)); // as many as if it were authentic
        }
        Ok(Answer { length, rounds })
    }

    ghost no_key = { open_no_key };
}
