// The tweakey, and the keys that the rounds take of it, laid on the round constants.
// Two rounds step every cell of words 2 and 3 once, and move the cells of a word's upper half and of its lower half among
// themselves; after sixteen rounds each stands where it stood. So cells are stepped where they stand, and only a key is moved.
// What a key gives to all rounds is worked out once, its share: 49 rows of sixteen cells, a row for each step. From call to call only the
// tweak's word, the tweakey's last, is stepped. The room for round keys is `constants::room`.
#![tactic(auto)]

pub mod tweaks;

ghost use Rattle.std.specs.Prelude.{◌≡◌, ℕ, ◌+◌, ◌*◌, ◌<◌, ◌≤◌, map, length, get_or, replicate};
ghost use Rattle.constants.specs.Constants.{Room};
ghost use Rattle.schedule.specs.declared.Tweakey.{Tweakey};
ghost use Rattle.schedule.specs.Schedule.{xor_row, RoundKeys};
ghost use Rattle.schedule.specs.Sixteen.{moved_once, moved, row_laid, pair_laid};
ghost use Rattle.schedule.specs.Share.{tweak_step, Summed, Turn, Parts, LastChanged};
ghost use Rattle.schedule.specs.Change.{cell_laid, CellOn};

use cells::kinds::{Bytes, Nibbles};
use tweaks::Tweaked;

// The tweakey: room for three words of sixteen cells, one after the other, and the number of rounds that it has served.
#[derive(Clone, Copy)]
pub struct Tweakey {
    pub cells: [u8; 48],
    pub at: usize,
}

// What moves from turn to turn: the cells of the tweak's word, and the round at which they stand.
#[derive(Clone, Copy)]
pub struct Moving {
    pub cells: [u8; 16],
    pub at: usize,
}

// ---- sixteen rounds on

// The tweak's cells stepped eight times where they stand; after each step, they and a row of the key's share, xored, are a row of sums. (One
// loop over the cells with all steps inside: so the compiler works sixteen at once.)
fn eight_steps<K: Tweaked>(
    sums: &mut [[u8; 16]; 8],
    share: &[u8; 784],
    row: usize,
    t: [u8; 16],
) -> [u8; 16]
    requires { (row < 42) × (map length sums.old ≡ replicate 8 16) }
    ensures { Summed (tweak_step K.width K.words) row share.now t result sums.new }
{
    let mut c = t;
    for j in 0..16 {
        for k in 0..8 {
            c[j] = K::step(c[j]);
            sums[k][j] = share[16 * (row + k) + j] ^ c[j];
        }
    }
    c
}

// ---- round keys

// Where two rounds move the cells of a word.
fn moved_once(s: [u8; 16]) -> [u8; 16]
    ensures { result ≡ moved_once s }
{
    [
        s[1], s[7], s[0], s[5], s[2], s[6], s[4], s[3], s[9], s[15], s[8], s[13], s[10], s[14],
        s[12], s[11],
    ]
}

// Where n times two rounds move them. (n is written out where it is asked for, so the compiler makes one move of n. By way of m: the checker
// covers no call whose result is laid over its argument.)
fn moved_by(n: usize, s: [u8; 16]) -> [u8; 16]
    ensures { result ≡ moved n s }
{
    let mut r = s;
    for i in 0..n {
        let m = moved_once(r);
        r = m;
    }
    r
}

// The keys of two rounds, the first at `at`: the lower half of s, then the upper one. (Each is stored as a row written out: so the compiler
// moves its cells at once.)
fn lay_pair(keys: &mut [[u8; 8]; 97], at: usize, s: [u8; 16])
    requires { at + 1 < 97 }
    ensures { keys.new ≡ pair_laid at s keys.old }
{
    let a = keys[at];
    keys[at] = [
        a[0] ^ s[8],
        a[1] ^ s[9],
        a[2] ^ s[10],
        a[3] ^ s[11],
        a[4] ^ s[12],
        a[5] ^ s[13],
        a[6] ^ s[14],
        a[7] ^ s[15],
    ];
    let b = keys[at + 1];
    keys[at + 1] = [
        b[0] ^ s[0],
        b[1] ^ s[1],
        b[2] ^ s[2],
        b[3] ^ s[3],
        b[4] ^ s[4],
        b[5] ^ s[5],
        b[6] ^ s[6],
        b[7] ^ s[7],
    ];
}

// The keys of two rounds, 2k + 1 and 2k + 2 after round `at`, from row k of the sums.
fn lay_two(keys: &mut [[u8; 8]; 97], at: usize, k: usize, sum: [u8; 16])
    requires { at + 2 * k + 2 < 97 }
    ensures { keys.new ≡ pair_laid (at + 2 * k + 1) (moved (k + 1) sum) keys.old }
{
    lay_pair(keys, at + 2 * k + 1, moved_by(k + 1, sum));
}

// The tweak's cells go sixteen rounds on, and the keys of these rounds are laid. (Eight calls and no loop: so the compiler knows each move and
// keeps the sums in registers.)
fn sixteen_on<K: Tweaked>(keys: &mut [[u8; 8]; 97], share: &[u8; 784], u: Moving) -> Moving
    requires { (u.at < 81) × (length keys.old ≡ 97) }
    ensures { Turn K.width K.words share.now u result keys.old keys.new }
{
    let mut sums = [[0u8; 16]; 8];
    let at = u.at;
    let cells = eight_steps::<K>(&mut sums, share, at / 2 + 1, u.cells);
    lay_two(keys, at, 0, sums[0]);
    lay_two(keys, at, 1, sums[1]);
    lay_two(keys, at, 2, sums[2]);
    lay_two(keys, at, 3, sums[3]);
    lay_two(keys, at, 4, sums[4]);
    lay_two(keys, at, 5, sums[5]);
    lay_two(keys, at, 6, sums[6]);
    lay_two(keys, at, 7, sums[7]);
    Moving { cells, at: at + 16 }
}

// The key of the first round: the share's first row, and the tweak's cells. (Stored as a row written out, as in `lay_pair`: the compiler takes its
// eight cells in one load.)
fn lay_first(keys: &mut [[u8; 8]; 97], share: &[u8; 784], tweak: [u8; 16])
    ensures { keys.new ≡ row_laid 0 (xor_row share.now tweak) keys.old }
{
    let k = keys[0];
    keys[0] = [
        k[0] ^ (share[0] ^ tweak[0]),
        k[1] ^ (share[1] ^ tweak[1]),
        k[2] ^ (share[2] ^ tweak[2]),
        k[3] ^ (share[3] ^ tweak[3]),
        k[4] ^ (share[4] ^ tweak[4]),
        k[5] ^ (share[5] ^ tweak[5]),
        k[6] ^ (share[6] ^ tweak[6]),
        k[7] ^ (share[7] ^ tweak[7]),
    ];
}

// Turns of sixteen rounds behind the first round, enough for m rounds in all.
fn turns_for(m: usize) -> usize
    requires { m ≤ 87 }
    ensures { (m ≤ 16 * result + 1) × (result ≤ 6) }
{
    (m + 14) / 16
}

// The keys of the first m rounds, and of fewer than sixteen more: from the key's share and the tweak's cells.
pub fn lay_keys<K: Tweaked>(keys: &mut [[u8; 8]; 97], m: usize, share: &[u8; 784], tweak: [u8; 16])
    requires { (m ≤ 87) × Room keys.old }
    ensures { (length keys.new ≡ 97) × ((t : Tweakey) → Parts K.width K.words t share.now tweak → RoundKeys K.width K.words m t keys.new) }
{
    let mut u = Moving {
        cells: tweak,
        at: 0,
    };
    for _ in 0..turns_for(m) {
        u = sixteen_on::<K>(keys, share, u);
    }
    lay_first(keys, share, tweak);
}

// ---- one changed byte of the tweak

// A cell of a round's key changes by x.
fn lay_cell(keys: &mut [[u8; 8]; 97], i: usize, p: usize, x: u8)
    requires { (i < 97) × (p < 8) }
    ensures { keys.new ≡ cell_laid i p x keys.old }
{
    keys[i][p] ^= x;
}

// Turn i of sixteen rounds: the change x of a cell of the tweak goes on, and the keys of the odd rounds are corrected at its places.
fn cell_on<K: Tweaked>(keys: &mut [[u8; 8]; 97], i: usize, places: [usize; 8], x: u8) -> u8
    requires { (i < 6) × (length keys.old ≡ 97) × ((k : ℕ) → k < 8 → get_or places k 0 < 8) }
    ensures { CellOn (tweak_step K.width K.words) places i 8 x keys.old result keys.new }
{
    let mut y = x;
    for k in 0..8 {
        y = K::step(y);
        lay_cell(keys, 16 * i + 2 * k + 1, places[k], y);
    }
    y
}

// The keys where the last byte of a tweak changes: a byte is one cell, or two nibbles.
pub trait LastByte: Tweaked {
    // The keys of the first m rounds, and of fewer than sixteen more, for a tweak whose last byte changed by d.
    fn change_last(keys: &mut [[u8; 8]; 97], m: usize, d: u8)
        requires { (m ≤ 87) × (length keys.old ≡ 97) }
        ensures { (length keys.new ≡ 97) × ((t u : Tweakey) → LastChanged Self.width Self.words d t u → RoundKeys Self.width Self.words m t keys.old → RoundKeys Self.width Self.words m u keys.new) };
}

impl LastByte for Nibbles {
    fn change_last(keys: &mut [[u8; 8]; 97], m: usize, d: u8) {
        let mut x = d / 16;
        let mut y = d % 16;
        for i in 0..turns_for(m) {
            x = cell_on::<Nibbles>(keys, i, [5, 3, 7, 1, 0, 2, 4, 6], x);
            y = cell_on::<Nibbles>(keys, i, [1, 0, 2, 4, 6, 5, 3, 7], y);
        }
    }
}

impl LastByte for Bytes {
    fn change_last(keys: &mut [[u8; 8]; 97], m: usize, d: u8) {
        let mut x = d;
        for i in 0..turns_for(m) {
            x = cell_on::<Bytes>(keys, i, [1, 0, 2, 4, 6, 5, 3, 7], x);
        }
    }
}
