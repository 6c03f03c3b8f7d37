// Rounds in a row, forward and back, by the round keys lent, on either kind of cell. (A turn of a loop ends with the cells, four rows in one
// literal: so the compiler works them at once. Forward, the cells of the first round come before the loop and the linear part of the last
// behind it.)
#![tactic(auto)]

pub mod both;

ghost use Rattle.std.specs.Prelude.{◌≡◌, ◌+◌, ◌<◌, ◌≤◌};
ghost use Rattle.cells.specs.Words.{sub_cells, unsub_cells};
ghost use Rattle.rounds.specs.State.{sub_by};
ghost use Rattle.rounds.specs.Words.{shown};
ghost use Rattle.runs.specs.Runs.{Ran, Unran, RanApart};

use cells::kinds::Cell;
use rounds::words::{seen_of, state_of, words_of};
use rounds::{linear_with, unlinear_with};

// The cells of four rows forward. (A call would cost more than what is worked here in some of the loops.)
#[inline(always)]
fn sub_rows<K: Cell>(y: [u32; 4]) -> [u32; 4]
    ensures { shown result ≡ sub_by (sub_cells K.width) (shown y) }
{
    [K::sub(y[0]), K::sub(y[1]), K::sub(y[2]), K::sub(y[3])]
}

// And backward.
#[inline(always)]
fn unsub_rows<K: Cell>(y: [u32; 4]) -> [u32; 4]
    ensures { shown result ≡ sub_by (unsub_cells K.width) (shown y) }
{
    [
        K::unsub(y[0]),
        K::unsub(y[1]),
        K::unsub(y[2]),
        K::unsub(y[3]),
    ]
}

// As many rounds as count says, from round `from` on.
pub fn run<K: Cell>(
    keys: &[[u8; 8]; 97],
    from: usize,
    count: usize,
    s: [[u8; 4]; 4],
) -> [[u8; 4]; 4]
    requires { (0 < count) × (from + count ≤ 87) }
    ensures { Ran K.width (from + count) keys.now from count s result }
{
    let last = count - 1;
    let mut x = sub_rows::<K>(words_of(s));
    for i in 0..last {
        x = sub_rows::<K>(linear_with(&keys[from + i], x));
    }
    seen_of::<K>(state_of(linear_with(&keys[from + last], x)))
}

// These rounds undone, the last one first.
pub fn unrun<K: Cell>(
    keys: &[[u8; 8]; 97],
    from: usize,
    count: usize,
    s: [[u8; 4]; 4],
) -> [[u8; 4]; 4]
    requires { (0 < count) × (from + count ≤ 87) }
    ensures { Unran K.width (from + count) keys.now from count s result }
{
    let mut x = words_of(s);
    for i in (0..count).rev() {
        x = unsub_rows::<K>(unlinear_with(&keys[from + i], x));
    }
    seen_of::<K>(state_of(x))
}

// From a state at the fork both ways, side by side: the first n rounds undone, and `other` as many rounds on as count says, from round
// `from` on.
pub fn run_apart<K: Cell>(
    keys: &[[u8; 8]; 97],
    n: usize,
    from: usize,
    count: usize,
    s: [[u8; 4]; 4],
    other: &mut [[u8; 4]; 4],
) -> [[u8; 4]; 4]
    requires { (0 < n) × (n < count) × (from + count ≤ 87) }
    ensures { RanApart K.width keys.now n from count s result other.old other.new }
{
    let last = count - 1;
    let mut x = words_of(s);
    let mut y = sub_rows::<K>(words_of(*other));
    for i in 0..n {
        x = unsub_rows::<K>(unlinear_with(&keys[n - 1 - i], x));
        y = sub_rows::<K>(linear_with(&keys[from + i], y));
    }
    for i in n..last {
        y = sub_rows::<K>(linear_with(&keys[from + i], y));
    }
    *other = seen_of::<K>(state_of(linear_with(&keys[from + last], y)));
    seen_of::<K>(state_of(x))
}
