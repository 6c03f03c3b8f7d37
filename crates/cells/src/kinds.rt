// The kinds of cells as types, so that code over either kind is written once.
ghost use Rattle.std.specs.Prelude.{◌≡◌};
ghost use Rattle.cells.specs.Cells.{Width, Nibble, Byte};
ghost use Rattle.cells.specs.Words.{Each, sub_cells, unsub_cells, seen};

use crate::words::{sub_bytes, sub_nibbles, unsub_bytes, unsub_nibbles};

// A kind of cell.
pub trait Cell {
    ghost width: { Width };

    // The cells of a word forward: four bytes, or eight nibbles.
    fn sub(y: u32) -> u32
        ensures { Each (sub_cells width) y result };

    // The cells of a word backward.
    fn unsub(y: u32) -> u32
        ensures { Each (unsub_cells width) y result };

    // The cell in a byte of a state: the byte, or its low nibble.
    fn seen(b: u8) -> u8
        ensures { result ≡ seen width b };
}

// Cells of four bits.
pub struct Nibbles;

// Cells of eight bits.
pub struct Bytes;

impl Cell for Nibbles {
    ghost width = { Nibble };

    fn sub(y: u32) -> u32 {
        sub_nibbles(y)
    }

    fn unsub(y: u32) -> u32 {
        unsub_nibbles(y)
    }

    fn seen(b: u8) -> u8 {
        b % 16
    }
}

impl Cell for Bytes {
    ghost width = { Byte };

    fn sub(y: u32) -> u32 {
        sub_bytes(y)
    }

    fn unsub(y: u32) -> u32 {
        unsub_bytes(y)
    }

    fn seen(b: u8) -> u8 {
        b
    }
}
