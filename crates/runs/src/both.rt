// Two states run side by side, the second from as many rounds later on. Each waits on itself, so that a turn with both takes little longer
// than with one.
ghost use Rattle.std.specs.Prelude.{◌+◌, ◌<◌, ◌≤◌};
ghost use Rattle.runs.specs.Runs.{RanBoth};

use crate::sub_rows;
use cells::kinds::{Bytes, Cell, Nibbles};
use rounds::words::{far_of, pair_of, seen_of, state_of, words_of};
use rounds::{linear_with, linear_with_both};

// A kind of cell of which two states are run at once.
pub trait SideBySide: Cell {
    // Of both as many rounds as count says: of `near` from round `from` on, of `far` those behind them.
    fn run_both(
        keys: &[[u8; 8]; 97],
        from: usize,
        count: usize,
        near: [[u8; 4]; 4],
        far: &mut [[u8; 4]; 4],
    ) -> [[u8; 4]; 4]
        requires { (0 < count) × (from + count + count ≤ 87) }
        ensures { RanBoth Self.width keys.now from count near result far.old far.new };
}

// Bytes take the room of two states.
impl SideBySide for Bytes {
    fn run_both(
        keys: &[[u8; 8]; 97],
        from: usize,
        count: usize,
        near: [[u8; 4]; 4],
        far: &mut [[u8; 4]; 4],
    ) -> [[u8; 4]; 4] {
        let last = count - 1;
        let mut x = sub_rows::<Bytes>(words_of(near));
        let mut y = sub_rows::<Bytes>(words_of(*far));
        for i in 0..last {
            x = sub_rows::<Bytes>(linear_with(&keys[from + i], x));
            y = sub_rows::<Bytes>(linear_with(&keys[from + count + i], y));
        }
        *far = state_of(linear_with(&keys[from + count + last], y));
        state_of(linear_with(&keys[from + last], x))
    }
}

// Of nibbles, one state of bytes serves both.
impl SideBySide for Nibbles {
    fn run_both(
        keys: &[[u8; 8]; 97],
        from: usize,
        count: usize,
        near: [[u8; 4]; 4],
        far: &mut [[u8; 4]; 4],
    ) -> [[u8; 4]; 4] {
        let last = count - 1;
        let mut x = sub_rows::<Nibbles>(words_of(pair_of(near, *far)));
        for i in 0..last {
            x = sub_rows::<Nibbles>(linear_with_both(&keys[from + i], &keys[from + count + i], x));
        }
        let both = state_of(linear_with_both(&keys[from + last], &keys[from + count + last], x));
        *far = far_of(both);
        seen_of::<Nibbles>(both)
    }
}
