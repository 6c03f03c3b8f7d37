// A key prepared for a cipher: its share of every round, worked out once, to serve many records. Every call takes such a record, and judges
// it before it goes by it.
#![tactic(auto)]

ghost use Rattle.std.specs.Prelude.{◌≡◌, ◌++◌, ◌*◌, ◌≤◌, eqb, length, take, drop};
ghost use Rattle.ciphers.specs.declared.Cipher.TheVariants.{N64T192, N128T256};
ghost use Rattle.modes.specs.Blocks.{same};
ghost use Rattle.prepared.specs.Prepared.{shares_of, share_of, prepare_of, prepared_as, words_in, joined, key_in, admitted};

use blocks::{differences, front};
use ciphers::Cipher;
use refusals::Refusal;

// The tweakey record: the number of its cipher, 49 rows of sixteen cells one after the other, which are the key's share of the rounds, and
// the moving part, the word of the tweak, zeros before a call. (A number, no `Cipher`: a record that is lent may hold any, and what judging
// says of it, `only_admitted` and `one_cipher`, is about every value.)
#[derive(Clone, Copy)]
pub struct Prepared {
    pub cipher: u32,
    pub share: [u8; 784],
    pub tweak: [u8; 16],
}

// ---- preparing

// The first n rows of the share of 64-192, laid in a room: words 1 and 2 xored, word 2 one step on from row to row.
fn lay_64_192(share: &mut [u8; 784], cells: [u8; 48], n: usize)
    requires { (n ≤ 49) × (length share.old ≡ 784) }
    ensures { share.new ≡ take (16 * n) (shares_of N64T192 cells) ++ drop (16 * n) share.old }
{
    let mut c = cells;
    for k in 0..n {
        for j in 0..16 {
            share[16 * k + j] = c[j] ^ c[16 + j];
            c[16 + j] = cells::left_nibble(c[16 + j]);
        }
    }
}

// The share of 128-256: word 1, which is never stepped.
fn lay_128_256(share: &mut [u8; 784], cells: [u8; 48])
    requires { length share.old ≡ 784 }
    ensures { share.new ≡ shares_of N128T256 cells }
{
    for k in 0..49 {
        share[16 * k..16 * k + 16].copy_from_slice(&cells[..16]);
    }
}

// The share of a key.
pub fn share_of(c: Cipher, key: [u8; 16]) -> [u8; 784]
    ensures { result ≡ share_of c key }
{
    let mut share = [0u8; 784];
    let t = ciphers::load_key(c, key);
    let cells = t.cells;
    match c {
        Cipher::N64T192 => lay_64_192(&mut share, cells, 49),
        Cipher::N128T256 => lay_128_256(&mut share, cells),
    }
    share
}

// Prepares a key for the cipher that a number names. Refused with 1 (no such cipher) or 2 (key length), in this order.
pub fn prepare(cipher: u32, key: &[u8]) -> Result<Prepared, Refusal>
    ensures { prepared_as result ≡ prepare_of cipher key.now }
{
    let c = Cipher::try_from(cipher)?;
    if key.len() != 16 {
        return Err(Refusal::Key);
    }
    let share = share_of(c, front(key, 16));
    Ok(Prepared {
        cipher: u32::from(c),
        share,
        tweak: [0u8; 16],
    })
}

// ---- judging

// The cells of the key's two words, from the first two rows of a share of 64-192.
fn words_in(share: &[u8; 784]) -> [u8; 32]
    ensures { result ≡ words_in share.now }
{
    let mut words = [0u8; 32];
    for j in 0..16 {
        let d = share[j] ^ share[16 + j];
        let b = cells::right_nibble(cells::right_nibble(cells::right_nibble(cells::right_nibble(
            d,
        ))));
        words[j] = share[j] ^ b;
        words[16 + j] = b;
    }
    words
}

// Two nibbles to a byte.
fn join(cells: [u8; 32]) -> [u8; 16]
    ensures { result ≡ joined cells }
{
    std::array::from_fn(|i| cells[2 * i] % 16 * 16 + cells[2 * i + 1] % 16)
}

// Where a share of 64-192 is not the one that its key gives, or 0. A nibble of word 2 is as it was after fifteen steps: so fifteen rows
// are made anew, and each of the others is as the one fifteen rows before it.
fn differ_64_192(share: &[u8; 784]) -> u8
    ensures { eqb result 0 ≡ same share.now (share_of N64T192 (key_in N64T192 share.now)) }
{
    let t = ciphers::load_key(Cipher::N64T192, join(words_in(share)));
    let cells = t.cells;
    let mut again = [0u8; 784];
    lay_64_192(&mut again, cells, 15);
    let rows = &share[..];
    let in_first = differences(&rows[..240], &again[..240]);
    let in_rest = differences(&rows[240..], &rows[..544]);
    in_first | in_rest
}

// Of 128-256: every row is as the one before it.
fn differ_128_256(share: &[u8; 784]) -> u8
    ensures { eqb result 0 ≡ same share.now (share_of N128T256 (key_in N128T256 share.now)) }
{
    let rows = &share[..];
    differences(&rows[16..], &rows[..768])
}

fn differ(c: Cipher, share: &[u8; 784]) -> u8
    ensures { eqb result 0 ≡ same share.now (share_of c (key_in c share.now)) }
{
    match c {
        Cipher::N64T192 => differ_64_192(share),
        Cipher::N128T256 => differ_128_256(share),
    }
}

impl Prepared {
    // Whether a record is admitted under a cipher: some key gives it. No byte of its share and of its moving part ends this early.
    pub fn is_admitted(&self, c: Cipher) -> bool
        ensures { result ≡ admitted c self.now }
    {
        if self.cipher != u32::from(c) {
            return false;
        }
        let in_share = differ(c, &self.share);
        let unmoving = [0u8; 16];
        let in_tweak = differences(&self.tweak, &unmoving);
        (in_share | in_tweak) == 0
    }
}
