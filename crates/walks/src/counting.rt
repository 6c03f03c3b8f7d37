// How many rounds a record runs: by the lengths of its header and body alone, whatever they hold.
ghost use Rattle.std.specs.Prelude.{◌≡◌, ◌≤◌};
ghost use Rattle.modes.specs.Rounds.{head_blocks};
ghost use Rattle.states.specs.Modes.{rounds_of};

use crate::before_last;
use ciphers::Cipher;
use states::Kind;

// The blocks of a header: one, padded, where header and body are empty.
fn head_blocks(n: usize, header: usize, body: usize) -> usize
    requires { (8 ≤ n) × (header ≤ 16777216) }
    ensures { result ≡ head_blocks n header body }
{
    if header == 0 {
        return if body == 0 { 1 } else { 0 };
    }
    before_last(n, header) + 1
}

// A header block has its price, a body block too, and the last one a third.
pub fn rounds(c: Cipher, k: Kind, header: usize, body: usize) -> u32
    requires { (header ≤ 16777216) × (body ≤ 16777216) }
    ensures { result ≡ rounds_of k c header body }
{
    let n = ciphers::block_of(c);
    let p = steps::prices_of(c, k);
    let of_header = head_blocks(n, header, body) as u32 * p.head;
    if body == 0 {
        return of_header;
    }
    of_header + before_last(n, body) as u32 * p.block + p.last
}
