// A state in words and back: a row of four cells is a word, the first cell its lowest byte, and each byte the complement of a cell.
ghost use Rattle.std.specs.Prelude.{◌≡◌, ◌+◌, get_or};
ghost use Rattle.cells.specs.Words.{lane, not8, near, far, pair_of, seen};
ghost use Rattle.rounds.specs.State.{row, sub_by};
ghost use Rattle.rounds.specs.Words.{shown, paired};

use cells::kinds::Cell;

// What a round adds to row 0, and to row 1.
pub fn upper_half(t: &[u8; 8]) -> u32
    ensures { row (lane result) ≡ row (λ j. get_or t.now j 0) }
{
    u32::from_le_bytes([t[0], t[1], t[2], t[3]])
}

pub fn lower_half(t: &[u8; 8]) -> u32
    ensures { row (lane result) ≡ row (λ j. get_or t.now (4 + j) 0) }
{
    u32::from_le_bytes([t[4], t[5], t[6], t[7]])
}

// A row of cells as a word.
fn word_of(r: [u8; 4]) -> u32
    ensures { row (λ j. not8 (lane result j)) ≡ row (λ j. get_or r j 0) }
{
    u32::from_le_bytes(r) ^ 0xffffffff
}

// A state as words.
pub fn words_of(s: [[u8; 4]; 4]) -> [u32; 4]
    ensures { shown result ≡ sub_by (λ b. b) s }
{
    [word_of(s[0]), word_of(s[1]), word_of(s[2]), word_of(s[3])]
}

// A word's cells.
fn row_of(x: u32) -> [u8; 4]
    ensures { result ≡ row (λ j. not8 (lane x j)) }
{
    (x ^ 0xffffffff).to_le_bytes()
}

// The state that words hold.
pub fn state_of(x: [u32; 4]) -> [[u8; 4]; 4]
    ensures { result ≡ shown x }
{
    [row_of(x[0]), row_of(x[1]), row_of(x[2]), row_of(x[3])]
}

fn row_seen<K: Cell>(r: [u8; 4]) -> [u8; 4]
    ensures { result ≡ row (λ j. seen K.width (get_or r j 0)) }
{
    [K::seen(r[0]), K::seen(r[1]), K::seen(r[2]), K::seen(r[3])]
}

// The cells of a state, of two nibbles in a byte the first.
pub fn seen_of<K: Cell>(s: [[u8; 4]; 4]) -> [[u8; 4]; 4]
    ensures { result ≡ sub_by (seen K.width) s }
{
    [
        row_seen::<K>(s[0]),
        row_seen::<K>(s[1]),
        row_seen::<K>(s[2]),
        row_seen::<K>(s[3]),
    ]
}

// ---- two states of nibbles in one, the second in the high nibbles

fn pair_row(a: [u8; 4], b: [u8; 4]) -> [u8; 4]
    ensures { result ≡ row (λ j. pair_of (near (get_or a j 0)) (near (get_or b j 0))) }
{
    [
        a[0] % 16 + b[0] % 16 * 16,
        a[1] % 16 + b[1] % 16 * 16,
        a[2] % 16 + b[2] % 16 * 16,
        a[3] % 16 + b[3] % 16 * 16,
    ]
}

// Two states as one.
pub fn pair_of(s: [[u8; 4]; 4], t: [[u8; 4]; 4]) -> [[u8; 4]; 4]
    ensures { result ≡ paired s t }
{
    [
        pair_row(s[0], t[0]),
        pair_row(s[1], t[1]),
        pair_row(s[2], t[2]),
        pair_row(s[3], t[3]),
    ]
}

fn far_row(r: [u8; 4]) -> [u8; 4]
    ensures { result ≡ row (λ j. far (get_or r j 0)) }
{
    [r[0] / 16, r[1] / 16, r[2] / 16, r[3] / 16]
}

// The second of two states.
pub fn far_of(s: [[u8; 4]; 4]) -> [[u8; 4]; 4]
    ensures { result ≡ sub_by far s }
{
    [far_row(s[0]), far_row(s[1]), far_row(s[2]), far_row(s[3])]
}
