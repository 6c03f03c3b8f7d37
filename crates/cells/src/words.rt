// The cells by their bits, four bytes or eight nibbles of a word at once, with no table.
// A word holds complements, so that the rule's "both bits are 0" is an `and` of two bits. A byte's steps 1 to 3 move no bit: the shuffles
// after them are put off, and each step looks for its bits where they still stand. (The spelling is the one of which the compiler makes the
// least, four words at once; docs/SPEED.md.)
ghost use Rattle.cells.specs.Cells.{Byte, sub, unsub};
ghost use Rattle.cells.specs.Words.{Each, sub_pair, unsub_pair};

// Four bytes forward.
pub fn sub_bytes(y: u32) -> u32
    ensures { Each (sub Byte) y result }
{
    // Steps 1, 2 and 3; the three shuffles and the last swap at once; step 4, whose bits have come to 4 and 0.
    let a = y ^ (((y >> 3) & 0x11111111) & ((y >> 2) & 0x11111111));
    let b = a ^ ((a << 5) & (a << 4) & 0x40404040) ^ ((a << 5) & (a << 1) & 0x20202020);
    let c = b ^ (((b << 1) & 0x82828282) & (((b >> 2) & 0x02020202) | ((b << 2) & 0x80808080)));
    let d = ((c << 2) & 0xc8c8c8c8)
        | ((c << 5) & 0x20202020)
        | ((c << 1) & 0x10101010)
        | ((c >> 4) & 0x04040404)
        | ((c >> 6) & 0x02020202)
        | ((c >> 2) & 0x01010101);
    d ^ (((c >> 1) & 0x11111111) & ((c & 0x10101010) | ((c >> 7) & 0x01010101)))
}

// Four bytes backward.
pub fn unsub_bytes(y: u32) -> u32
    ensures { Each (unsub Byte) y result }
{
    // Step 4 undone; swap and shuffles at once; steps 3, 2 and 1.
    let a = y ^ (((y >> 3) & 0x11111111) & (((y >> 2) & 0x10101010) | ((y >> 1) & 0x01010101)));
    let b = ((a >> 2) & 0x32323232)
        | ((a >> 5) & 0x01010101)
        | ((a >> 1) & 0x08080808)
        | ((a << 4) & 0x40404040)
        | ((a << 6) & 0x80808080)
        | ((a << 2) & 0x04040404);
    let c = b ^ (((b << 1) & 0x82828282) & (((b >> 2) & 0x02020202) | ((b << 2) & 0x80808080)));
    let d = c ^ ((c << 5) & (c << 4) & 0x40404040) ^ ((c << 5) & (c << 1) & 0x20202020);
    d ^ (((d >> 3) & 0x11111111) & ((d >> 2) & 0x11111111))
}

// Eight nibbles forward.
pub fn sub_nibbles(y: u32) -> u32
    ensures { Each sub_pair y result }
{
    // Bit 0 by bits 2 and 3; bit 3 by 2 and 1 and bit 2 by 1 and 0; bit 1 by 0 and 3; then all bits one place down, the lowest to the top.
    let a = y ^ (((y >> 2) & 0x11111111) & ((y >> 3) & 0x11111111));
    let b = a ^ (((a << 1) & 0xcccccccc) & ((a << 2) & 0xcccccccc));
    let c = b ^ (((b << 1) & 0x22222222) & ((b >> 2) & 0x22222222));
    ((c >> 1) & 0x77777777) | ((c << 3) & 0x88888888)
}

// Eight nibbles backward.
pub fn unsub_nibbles(y: u32) -> u32
    ensures { Each unsub_pair y result }
{
    // The same undone, the last first: bit 2 before bit 3, which looks at it.
    let c = ((y << 1) & 0xeeeeeeee) | ((y >> 3) & 0x11111111);
    let b = c ^ (((c << 1) & 0x22222222) & ((c >> 2) & 0x22222222));
    let a = b ^ (((b << 1) & 0x44444444) & ((b << 2) & 0x44444444));
    let e = a ^ (((a << 1) & 0x88888888) & ((a << 2) & 0x88888888));
    e ^ (((e >> 2) & 0x11111111) & ((e >> 3) & 0x11111111))
}
