// The end of a run: a block, and leading bytes of a second. Which comes first is the mode's; `ahead` says that the block does.
ghost use Rattle.std.specs.Prelude.{◌≡◌, cond, ◌+◌, ◌≤◌, length, take};
ghost use Rattle.modes.specs.Mode.{join};
ghost use Rattle.walks.specs.Walks.{Put};

use blocks::store;

// Where one of the two begins: behind the other, of k bytes, or at the front.
pub fn begin(behind: bool, k: usize) -> usize
    ensures { (result ≡ cond behind k 0) × (result ≤ k) }
{
    if behind { k } else { 0 }
}

// Both of them, each to its place: n bytes of the block, and l of the second.
pub fn put(ahead: bool, n: usize, l: usize, block: [u8; 16], second: [u8; 16], rest: &mut [u8])
    requires { (l ≤ n) × (n ≤ 16) × (l + n ≤ length rest.old) }
    ensures { Put (join ahead (take n block) (take l second)) (l + n) rest.old rest.new }
{
    let at = begin(!ahead, l);
    let from = begin(ahead, n);
    store(&mut rest[at..], block, n);
    store(&mut rest[from..], second, l);
}
