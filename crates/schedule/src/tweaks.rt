// The kinds of cells with the tweakeys of their ciphers: three words of nibbles, two words of bytes. The last word is the tweak's.
ghost use Rattle.std.specs.Prelude.{◌≡◌};
ghost use Rattle.cells.specs.Cells.{Words, Two, Three};
ghost use Rattle.schedule.specs.Share.{tweak_step};

use cells::kinds::{Bytes, Cell, Nibbles};

// A kind of cell with the tweakey of its cipher.
pub trait Tweaked: Cell {
    ghost words: { Words };

    // The step of a cell of the tweak's word.
    fn step(x: u8) -> u8
        ensures { result ≡ tweak_step Self.width words x };
}

impl Tweaked for Nibbles {
    ghost words = { Three };

    fn step(x: u8) -> u8 {
        cells::right_nibble(x)
    }
}

impl Tweaked for Bytes {
    ghost words = { Two };

    fn step(x: u8) -> u8 {
        cells::left_byte(x)
    }
}
