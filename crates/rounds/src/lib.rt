// The steps of a round on a state of four rows, each row a word of four cells, forward and back. (A row turned is a word rotated, and a
// column mixed is four words xored. The cells themselves, `cells::words`, are worked where rounds follow each other, in `runs`: there the
// compiler works the four rows at once.)
// A word holds complements of cells (specs/Words.antt). Forward, what a round adds turns row 2 over; the columns mixed, it is row 0 that is
// turned over, and it is turned back. Back, mixing the columns turns rows 2 and 3 over, and what a round adds turns them back.
#![tactic(auto)]

pub mod words;

ghost use Rattle.std.specs.Prelude.{◌≡◌};
ghost use Rattle.cells.specs.Cells.{Nibble, LowCells};
ghost use Rattle.cells.specs.Words.{lane};
ghost use Rattle.rounds.specs.State.{row, shift_rows, unshift_rows, mix_columns, unmix_columns};
ghost use Rattle.rounds.specs.Words.{lanes, shown, added, linear, unlinear, pair_row, linear_by};

use words::{lower_half, upper_half};

// Rows turn right by 0, 1, 2, 3. (Cells turn right where the word turns left, for the first cell is the lowest byte.)
fn shift_rows(s: [u32; 4]) -> [u32; 4]
    ensures { lanes result ≡ shift_rows (lanes s) }
{
    [
        s[0],
        s[1].rotate_left(8),
        s[2].rotate_left(16),
        s[3].rotate_left(24),
    ]
}

// Rows turn left by 0, 1, 2, 3.
fn unshift_rows(s: [u32; 4]) -> [u32; 4]
    ensures { lanes result ≡ unshift_rows (lanes s) }
{
    [
        s[0],
        s[1].rotate_right(8),
        s[2].rotate_right(16),
        s[3].rotate_right(24),
    ]
}

// Columns (a, b, c, d) become (a ^ c ^ d, a, b ^ c, a ^ c).
fn mix_columns(s: [u32; 4]) -> [u32; 4]
    ensures { lanes result ≡ mix_columns (lanes s) }
{
    [s[0] ^ s[2] ^ s[3], s[0], s[1] ^ s[2], s[0] ^ s[2]]
}

// Columns, back.
fn unmix_columns(s: [u32; 4]) -> [u32; 4]
    ensures { lanes result ≡ unmix_columns (lanes s) }
{
    [s[1], s[2] ^ (s[1] ^ s[3]), s[1] ^ s[3], s[0] ^ s[3]]
}

// A word into each row.
fn add_rows(a: u32, b: u32, c: u32, d: u32, s: [u32; 4]) -> [u32; 4]
    ensures { lanes result ≡ added (row (lane a)) (row (lane b)) (row (lane c)) (row (lane d)) (lanes s) }
{
    [s[0] ^ a, s[1] ^ b, s[2] ^ c, s[3] ^ d]
}

// What follows the cells in a round: constants and key, which t holds but for the 2 in row 2, then rows and columns.
pub fn linear_with(t: &[u8; 8], s: [u32; 4]) -> [u32; 4]
    ensures { shown result ≡ linear t.now (shown s) }
{
    let m = mix_columns(shift_rows(add_rows(upper_half(t), lower_half(t), 0xfffffffd, 0, s)));
    [m[0] ^ 0xffffffff, m[1], m[2], m[3]]
}

// Back: columns and rows, then key and constants.
pub fn unlinear_with(t: &[u8; 8], s: [u32; 4]) -> [u32; 4]
    ensures { shown result ≡ unlinear t.now (shown s) }
{
    add_rows(
        upper_half(t),
        lower_half(t),
        0xfffffffd,
        0xffffffff,
        unshift_rows(unmix_columns(s)),
    )
}

// Two states of nibbles in one, the second in the high nibbles: t is added to the first, u to the second.
pub fn linear_with_both(t: &[u8; 8], u: &[u8; 8], s: [u32; 4]) -> [u32; 4]
    ensures { LowCells Nibble u.now → shown result ≡ linear_by 0x22 (pair_row t.now u.now) (shown s) }
{
    let m = mix_columns(shift_rows(add_rows(
        upper_half(t) ^ (upper_half(u) << 4),
        lower_half(t) ^ (lower_half(u) << 4),
        0xffffffdd,
        0,
        s,
    )));
    [m[0] ^ 0xffffffff, m[1], m[2], m[3]]
}
