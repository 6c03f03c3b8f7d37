// Round keys kept from block to block: the schedule is linear, so that they can be corrected where a tweak changes in its last byte alone.
#![tactic(auto)]

ghost use Rattle.std.specs.Prelude.{◌≡◌, true, ◌-◌, ◌<◌, ◌≤◌, take};
ghost use Rattle.constants.specs.Constants.{Room};
ghost use Rattle.prepared.specs.Prepared.{Made};
ghost use Rattle.kept.specs.Kept.{Holds, Keeps, TurnedTo};

use blocks::equal;
use ciphers::Cipher;

// What a room for round keys holds: the keys of so many rounds, under this tweak.
#[derive(Clone, Copy)]
pub struct Kept {
    pub tweak: [u8; 16],
    pub rounds: usize,
}

// The keys of the first m rounds, laid on the constants. (A tweak is lent, so that the checker knows its bytes for bytes.)
fn lay(c: Cipher, share: &[u8; 784], keys: &mut [[u8; 8]; 97], tweak: &[u8; 16], m: usize) -> Kept
    requires { (0 < m) × (m ≤ 87) × Made c share.now × Room keys.old }
    ensures { TurnedTo c share.now tweak.now m result keys.new }
{
    let tweak = *tweak;
    ciphers::lay_keys(c, keys, m, share, tweak);
    Kept { tweak, rounds: m }
}

// Whether two tweaks of n bytes are the same but for the last byte, which may be the same too. (It is put into the old one, so that whole
// blocks are compared: the compiler does that in few steps.)
#[inline(never)]
fn same_but_last(n: usize, old: [u8; 16], tweak: [u8; 16]) -> bool
    requires { (0 < n) × (n ≤ 16) }
    ensures { result ≡ true → take (n - 1) old ≡ take (n - 1) tweak }
{
    let mut near = old;
    near[n - 1] = tweak[n - 1];
    equal(&near[..n], &tweak[..n])
}

// A room with keys in it turned to a tweak, for m rounds at least. Where only the last byte is another one, the keys are corrected; this is so
// from block to block of PAEF, but for one in 256, and SAEF has one tweak for most blocks.
fn turn(
    c: Cipher,
    share: &[u8; 784],
    keys: &mut [[u8; 8]; 97],
    kept: Kept,
    tweak: &[u8; 16],
    m: usize,
) -> Kept
    requires { (0 < m) × (m ≤ 87) × Made c share.now × Holds c share.now kept keys.old }
    ensures { TurnedTo c share.now tweak.now m result keys.new }
{
    let old = kept.tweak;
    let rounds = kept.rounds;
    let n = ciphers::block_of(c);
    if m <= rounds {
        let new = *tweak;
        if same_but_last(n, old, new) {
            let d = old[n - 1] ^ new[n - 1];
            if d != 0 {
                ciphers::change_last(c, keys, rounds, d);
            }
            return Kept { tweak: new, rounds };
        }
    }
    *keys = constants::room();
    lay(c, share, keys, tweak, m)
}

// A room turned to a tweak, for m rounds at least. One in which nothing is kept has the constants.
pub fn turn_to(
    c: Cipher,
    share: &[u8; 784],
    keys: &mut [[u8; 8]; 97],
    kept: Option<Kept>,
    tweak: &[u8; 16],
    m: usize,
) -> Kept
    requires { (0 < m) × (m ≤ 87) × Made c share.now × Keeps c share.now kept keys.old }
    ensures { TurnedTo c share.now tweak.now m result keys.new }
{
    match kept {
        Some(old) => turn(c, share, keys, old, tweak, m),
        None => lay(c, share, keys, tweak, m),
    }
}
