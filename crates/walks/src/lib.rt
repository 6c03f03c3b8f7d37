// The walks: over a header, over a body to be sealed, over a run to be opened, block by block. They are the same for every mode: records.rt
// and by_name.rt alone name the four.
#![tactic(auto)]

pub mod by_name;
pub mod counting;
pub mod ends;
pub mod headers;
pub mod opening;
pub mod records;
pub mod sealing;

ghost use Rattle.std.specs.Prelude.{◌≡◌, ◌+◌, ◌-◌, ◌*◌, ◌≤◌, ◌<◌};
ghost use Rattle.modes.specs.Blocks.{before_last, full};

// The blocks before the last one, of l bytes.
fn before_last(n: usize, l: usize) -> usize
    requires { 0 < n }
    ensures { result ≡ before_last n l }
{
    l.saturating_sub(1) / n
}

// Where the last one begins.
fn last_block(n: usize, l: usize) -> usize
    requires { 0 < n }
    ensures place { result ≡ before_last n l * n }
    ensures inside { result ≤ l - 1 }
    ensures short { l ≤ result + n }
{
    before_last(n, l) * n
}

// Whether a last block of l bytes is full.
pub fn is_full(n: usize, l: usize) -> bool
    ensures { result ≡ full n l }
{
    n <= l
}
