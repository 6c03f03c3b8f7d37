// The ciphers: their sizes, blocks and keys as cells, the branch constant, and what a block call makes once: the round keys.
#![tactic(auto)]

ghost use Rattle.std.specs.Prelude.{◌≡◌, ◌≤◌, length, replicate};
ghost use Rattle.cells.specs.Cells.{Nibble, Byte};
ghost use Rattle.constants.specs.Constants.{Room};
ghost use Rattle.schedule.specs.declared.Tweakey.{Tweakey};
ghost use Rattle.schedule.specs.Schedule.{RoundKeys};
ghost use Rattle.schedule.specs.Share.{Parts, LastChanged};
ghost use Rattle.ciphers.specs.Ciphers.{number_of, cipher_named, width_of, words_of, init_of, branch_of, block_of, loaded, load, unloaded, unload, cell_of, sixteen, key_cells, tweak_cells, tk, xored, branch_constant, add_branch};

use cells::kinds;
use refusals::Refusal;
use schedule::{LastByte, Tweakey};

// By the bits of the block and of the tweakey, as the paper names its ciphers: 64-192 and 128-256.
#[derive(Clone, Copy, Debug, PartialEq, Eq)]
pub enum Cipher {
    N64T192,
    N128T256,
}

// The number that names a cipher in a call.
impl From<Cipher> for u32 {
    ghost from_gives = { λ c number. number ≡ number_of c };

    fn from(c: Cipher) -> u32 {
        match c {
            Cipher::N64T192 => 1,
            Cipher::N128T256 => 2,
        }
    }
}

// The cipher that a number names in a call; every other number is refused.
impl TryFrom<u32> for Cipher {
    type Error = Refusal;

    ghost try_from_gives = { λ number c. c ≡ cipher_named number };

    fn try_from(number: u32) -> Result<Cipher, Refusal> {
        match number {
            1 => Ok(Cipher::N64T192),
            2 => Ok(Cipher::N128T256),
            _ => Err(Refusal::Unknown),
        }
    }
}

// Bytes of a block, and of a tweak.
pub fn block_of(c: Cipher) -> usize
    ensures { result ≡ block_of c }
{
    match c {
        Cipher::N64T192 => 8,
        Cipher::N128T256 => 16,
    }
}

// Rounds before the fork.
pub fn init_of(c: Cipher) -> usize
    ensures { result ≡ init_of c }
{
    match c {
        Cipher::N64T192 => 17,
        Cipher::N128T256 => 21,
    }
}

// Rounds of a branch.
pub fn branch_of(c: Cipher) -> usize
    ensures { result ≡ branch_of c }
{
    match c {
        Cipher::N64T192 => 23,
        Cipher::N128T256 => 27,
    }
}

// ---- blocks and keys as cells

fn load_nibbles(b: [u8; 16]) -> [[u8; 4]; 4]
    ensures { result ≡ loaded Nibble b }
{
    [
        [b[0] / 16, b[0] % 16, b[1] / 16, b[1] % 16],
        [b[2] / 16, b[2] % 16, b[3] / 16, b[3] % 16],
        [b[4] / 16, b[4] % 16, b[5] / 16, b[5] % 16],
        [b[6] / 16, b[6] % 16, b[7] / 16, b[7] % 16],
    ]
}

fn load_bytes(b: [u8; 16]) -> [[u8; 4]; 4]
    ensures { result ≡ loaded Byte b }
{
    [
        [b[0], b[1], b[2], b[3]],
        [b[4], b[5], b[6], b[7]],
        [b[8], b[9], b[10], b[11]],
        [b[12], b[13], b[14], b[15]],
    ]
}

// A block as a state.
pub fn load_state(c: Cipher, b: [u8; 16]) -> [[u8; 4]; 4]
    ensures { result ≡ load (width_of c) b }
{
    match c {
        Cipher::N64T192 => load_nibbles(b),
        Cipher::N128T256 => load_bytes(b),
    }
}

fn unload_nibbles(s: [[u8; 4]; 4]) -> [u8; 16]
    ensures { result ≡ unloaded Nibble s }
{
    [
        s[0][0] % 16 * 16 + s[0][1] % 16,
        s[0][2] % 16 * 16 + s[0][3] % 16,
        s[1][0] % 16 * 16 + s[1][1] % 16,
        s[1][2] % 16 * 16 + s[1][3] % 16,
        s[2][0] % 16 * 16 + s[2][1] % 16,
        s[2][2] % 16 * 16 + s[2][3] % 16,
        s[3][0] % 16 * 16 + s[3][1] % 16,
        s[3][2] % 16 * 16 + s[3][3] % 16,
        0,
        0,
        0,
        0,
        0,
        0,
        0,
        0,
    ]
}

fn unload_bytes(s: [[u8; 4]; 4]) -> [u8; 16]
    ensures { result ≡ unloaded Byte s }
{
    [
        s[0][0], s[0][1], s[0][2], s[0][3], s[1][0], s[1][1], s[1][2], s[1][3], s[2][0], s[2][1],
        s[2][2], s[2][3], s[3][0], s[3][1], s[3][2], s[3][3],
    ]
}

// A state as a block.
pub fn unload_state(c: Cipher, s: [[u8; 4]; 4]) -> [u8; 16]
    ensures { result ≡ unload (width_of c) s }
{
    match c {
        Cipher::N64T192 => unload_nibbles(s),
        Cipher::N128T256 => unload_bytes(s),
    }
}

fn key_nibbles(key: [u8; 16]) -> [u8; 48]
    ensures { result ≡ key_cells Cipher.N64T192 key (replicate 16 0) }
{
    [
        key[0] / 16,
        key[0] % 16,
        key[1] / 16,
        key[1] % 16,
        key[2] / 16,
        key[2] % 16,
        key[3] / 16,
        key[3] % 16,
        key[4] / 16,
        key[4] % 16,
        key[5] / 16,
        key[5] % 16,
        key[6] / 16,
        key[6] % 16,
        key[7] / 16,
        key[7] % 16,
        key[8] / 16,
        key[8] % 16,
        key[9] / 16,
        key[9] % 16,
        key[10] / 16,
        key[10] % 16,
        key[11] / 16,
        key[11] % 16,
        key[12] / 16,
        key[12] % 16,
        key[13] / 16,
        key[13] % 16,
        key[14] / 16,
        key[14] % 16,
        key[15] / 16,
        key[15] % 16,
        0,
        0,
        0,
        0,
        0,
        0,
        0,
        0,
        0,
        0,
        0,
        0,
        0,
        0,
        0,
        0,
    ]
}

fn key_bytes(key: [u8; 16]) -> [u8; 48]
    ensures { result ≡ key_cells Cipher.N128T256 key (replicate 16 0) }
{
    [
        key[0], key[1], key[2], key[3], key[4], key[5], key[6], key[7], key[8], key[9], key[10],
        key[11], key[12], key[13], key[14], key[15], 0, 0, 0, 0, 0, 0, 0, 0, 0, 0, 0, 0, 0, 0, 0,
        0, 0, 0, 0, 0, 0, 0, 0, 0, 0, 0, 0, 0, 0, 0, 0, 0,
    ]
}

// The key before the first round, and zeros for the tweak.
pub fn load_key(c: Cipher, key: [u8; 16]) -> Tweakey
    ensures { result ≡ tk c key (replicate 16 0) }
{
    match c {
        Cipher::N64T192 => {
            let cells = key_nibbles(key);
            Tweakey { cells, at: 0 }
        }
        Cipher::N128T256 => {
            let cells = key_bytes(key);
            Tweakey { cells, at: 0 }
        }
    }
}

fn tweak_nibbles(tweak: [u8; 16]) -> [u8; 16]
    ensures { result ≡ sixteen (cell_of Nibble tweak) }
{
    [
        tweak[0] / 16,
        tweak[0] % 16,
        tweak[1] / 16,
        tweak[1] % 16,
        tweak[2] / 16,
        tweak[2] % 16,
        tweak[3] / 16,
        tweak[3] % 16,
        tweak[4] / 16,
        tweak[4] % 16,
        tweak[5] / 16,
        tweak[5] % 16,
        tweak[6] / 16,
        tweak[6] % 16,
        tweak[7] / 16,
        tweak[7] % 16,
    ]
}

fn tweak_bytes(tweak: [u8; 16]) -> [u8; 16]
    ensures { result ≡ sixteen (cell_of Byte tweak) }
{
    [
        tweak[0], tweak[1], tweak[2], tweak[3], tweak[4], tweak[5], tweak[6], tweak[7], tweak[8],
        tweak[9], tweak[10], tweak[11], tweak[12], tweak[13], tweak[14], tweak[15],
    ]
}

// ---- the branch constant

fn xor_states(s: [[u8; 4]; 4], t: [[u8; 4]; 4]) -> [[u8; 4]; 4]
    ensures { result ≡ xored s t }
{
    [
        [
            s[0][0] ^ t[0][0],
            s[0][1] ^ t[0][1],
            s[0][2] ^ t[0][2],
            s[0][3] ^ t[0][3],
        ],
        [
            s[1][0] ^ t[1][0],
            s[1][1] ^ t[1][1],
            s[1][2] ^ t[1][2],
            s[1][3] ^ t[1][3],
        ],
        [
            s[2][0] ^ t[2][0],
            s[2][1] ^ t[2][1],
            s[2][2] ^ t[2][2],
            s[2][3] ^ t[2][3],
        ],
        [
            s[3][0] ^ t[3][0],
            s[3][1] ^ t[3][1],
            s[3][2] ^ t[3][2],
            s[3][3] ^ t[3][3],
        ],
    ]
}

fn branch_constant(c: Cipher) -> [[u8; 4]; 4]
    ensures { result ≡ branch_constant (width_of c) }
{
    match c {
        Cipher::N64T192 => [
            [0x1, 0x2, 0x4, 0x9],
            [0x3, 0x6, 0xd, 0xa],
            [0x5, 0xb, 0x7, 0xf],
            [0xe, 0xc, 0x8, 0x1],
        ],
        Cipher::N128T256 => [
            [0x01, 0x02, 0x04, 0x08],
            [0x10, 0x20, 0x41, 0x82],
            [0x05, 0x0a, 0x14, 0x28],
            [0x51, 0xa2, 0x44, 0x88],
        ],
    }
}

// The branch constant xored in.
pub fn add_branch(c: Cipher, s: [[u8; 4]; 4]) -> [[u8; 4]; 4]
    ensures { result ≡ add_branch (width_of c) s }
{
    xor_states(s, branch_constant(c))
}

// ---- what a call makes once

// The keys of the first m rounds, laid on the constants, from a key's share and a tweak. (The cells of a tweak are made in each case: so the
// compiler keeps them together.)
pub fn lay_keys(c: Cipher, keys: &mut [[u8; 8]; 97], m: usize, share: &[u8; 784], tweak: [u8; 16])
    requires { (m ≤ 87) × Room keys.old }
    ensures { (length keys.new ≡ 97) × ((t : Tweakey) → Parts (width_of c) (words_of c) t share.now (tweak_cells c tweak) → RoundKeys (width_of c) (words_of c) m t keys.new) }
{
    match c {
        Cipher::N64T192 => schedule::lay_keys::<kinds::Nibbles>(
            keys,
            m,
            share,
            tweak_nibbles(tweak),
        ),
        Cipher::N128T256 => schedule::lay_keys::<kinds::Bytes>(keys, m, share, tweak_bytes(tweak)),
    }
}

// The keys of the first m rounds, for a tweak whose last byte changed by d.
#[inline(never)]
pub fn change_last(c: Cipher, keys: &mut [[u8; 8]; 97], m: usize, d: u8)
    requires { (m ≤ 87) × (length keys.old ≡ 97) }
    ensures { (length keys.new ≡ 97) × ((t u : Tweakey) → LastChanged (width_of c) (words_of c) d t u → RoundKeys (width_of c) (words_of c) m t keys.old → RoundKeys (width_of c) (words_of c) m u keys.new) }
{
    match c {
        Cipher::N64T192 => kinds::Nibbles::change_last(keys, m, d),
        Cipher::N128T256 => kinds::Bytes::change_last(keys, m, d),
    }
}
