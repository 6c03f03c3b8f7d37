// A cipher and the keys of its rounds, laid in a room that is lent: rounds in a row, the ways to the fork and from it, and a block call, forward
// and back.
ghost use Rattle.std.specs.Prelude.{◌≡◌, List, ℕ, ◌+◌, ◌<◌, ◌≤◌};
ghost use Rattle.schedule.specs.declared.Tweakey.{Tweakey};
ghost use Rattle.runs.specs.Runs.{Ran, Unran, RanBoth, RanApart};
ghost use Rattle.ciphers.specs.Ciphers.{width_of, init_of, branch_of, tk};
ghost use Rattle.forkskinny.specs.declared.Branch.TheVariants.{Near, Far};
ghost use Rattle.forkskinny.specs.ForkSkinny.{start_of, forked, branch, unbranch, unforked};
ghost use Rattle.forkskinny.specs.Reach.{LaidFor, fork_reach, unfork_reach};
ghost use Rattle.forkskinny.specs.Calls.{fork_by, fork_done, unfork_by, unfork_done};
ghost use Rattle.forkskinny.specs.Wanted.{want_of, half_of};

use crate::{
    Branch, Forked, Half, Unforked, Want, enter_branch, rounds_back, rounds_forward, start_of,
};
use cells::kinds;
use ciphers::Cipher;
use runs::both::SideBySide;

#[derive(Clone, Copy)]
pub struct Laid<'a> {
    pub cipher: Cipher,
    pub keys: &'a [[u8; 8]; 97],
}

// The first result of a call, and the second.
#[derive(Clone, Copy)]
struct Both {
    first: [u8; 16],
    second: [u8; 16],
}

impl<'a> Laid<'a> {
    // ---- rounds in a row, those of the cipher's kind of cell. (Which cipher it is, a number says when a call is made: so it is a value, and each
    // of these matches it once.)

    // As many rounds as count says, from round `from` on.
    pub fn run(&self, from: usize, count: usize, s: [[u8; 4]; 4]) -> [[u8; 4]; 4]
        requires { (0 < count) × (from + count ≤ 87) }
        ensures { Ran (width_of self.now.cipher) (from + count) self.now.keys.now from count s result }
    {
        match self.cipher {
            Cipher::N64T192 => runs::run::<kinds::Nibbles>(self.keys, from, count, s),
            Cipher::N128T256 => runs::run::<kinds::Bytes>(self.keys, from, count, s),
        }
    }

    // These rounds undone.
    pub fn unrun(&self, from: usize, count: usize, s: [[u8; 4]; 4]) -> [[u8; 4]; 4]
        requires { (0 < count) × (from + count ≤ 87) }
        ensures { Unran (width_of self.now.cipher) (from + count) self.now.keys.now from count s result }
    {
        match self.cipher {
            Cipher::N64T192 => runs::unrun::<kinds::Nibbles>(self.keys, from, count, s),
            Cipher::N128T256 => runs::unrun::<kinds::Bytes>(self.keys, from, count, s),
        }
    }

    // Two states side by side, `far` from as many rounds later on.
    pub fn run_both(
        &self,
        from: usize,
        count: usize,
        near: [[u8; 4]; 4],
        far: &mut [[u8; 4]; 4],
    ) -> [[u8; 4]; 4]
        requires { (0 < count) × (from + count + count ≤ 87) }
        ensures { RanBoth (width_of self.now.cipher) self.now.keys.now from count near result far.old far.new }
    {
        match self.cipher {
            Cipher::N64T192 => kinds::Nibbles::run_both(self.keys, from, count, near, far),
            Cipher::N128T256 => kinds::Bytes::run_both(self.keys, from, count, near, far),
        }
    }

    // From a state at the fork both ways: the first n rounds undone, and `other` as many on as count says, from round `from` on.
    pub fn run_apart(
        &self,
        n: usize,
        from: usize,
        count: usize,
        s: [[u8; 4]; 4],
        other: &mut [[u8; 4]; 4],
    ) -> [[u8; 4]; 4]
        requires { (0 < n) × (n < count) × (from + count ≤ 87) }
        ensures { RanApart (width_of self.now.cipher) self.now.keys.now n from count s result other.old other.new }
    {
        match self.cipher {
            Cipher::N64T192 => runs::run_apart::<kinds::Nibbles>(
                self.keys, n, from, count, s, other,
            ),
            Cipher::N128T256 => runs::run_apart::<kinds::Bytes>(
                self.keys, n, from, count, s, other,
            ),
        }
    }

    // ---- to the fork and from it

    // The state at the fork.
    fn to_fork(&self, m: [u8; 16]) -> [[u8; 4]; 4]
        ensures { (t : Tweakey) → LaidFor self.now.cipher (init_of self.now.cipher) t self.now.keys.now → result ≡ forked self.now.cipher t m }
    {
        let n = ciphers::init_of(self.cipher);
        self.run(0, n, ciphers::load_state(self.cipher, m))
    }

    // A branch from the state at the fork.
    fn run_branch(&self, b: Branch, s: [[u8; 4]; 4]) -> [u8; 16]
        ensures { (t : Tweakey) → LaidFor self.now.cipher (start_of self.now.cipher b + branch_of self.now.cipher) t self.now.keys.now → result ≡ branch self.now.cipher b t s }
    {
        let c = self.cipher;
        let at = start_of(c, b);
        let n = ciphers::branch_of(c);
        ciphers::unload_state(c, self.run(at, n, enter_branch(c, b, s)))
    }

    // The state at the fork, from a branch's block.
    fn unrun_branch(&self, b: Branch, h: [u8; 16]) -> [[u8; 4]; 4]
        ensures { (t : Tweakey) → LaidFor self.now.cipher (start_of self.now.cipher b + branch_of self.now.cipher) t self.now.keys.now → result ≡ unbranch self.now.cipher b t h }
    {
        let c = self.cipher;
        let at = start_of(c, b);
        let n = ciphers::branch_of(c);
        enter_branch(c, b, self.unrun(at, n, ciphers::load_state(c, h)))
    }

    // The input block, from the state at the fork.
    fn from_fork(&self, s: [[u8; 4]; 4]) -> [u8; 16]
        ensures { (t : Tweakey) → LaidFor self.now.cipher (init_of self.now.cipher) t self.now.keys.now → result ≡ unforked self.now.cipher t s }
    {
        let n = ciphers::init_of(self.cipher);
        ciphers::unload_state(self.cipher, self.unrun(0, n, s))
    }

    // ---- two results at once, their rounds side by side

    // Both halves from the state at the fork.
    fn both_halves(&self, s: [[u8; 4]; 4]) -> Both
        ensures { (t : Tweakey) → LaidFor self.now.cipher (start_of self.now.cipher Far + branch_of self.now.cipher) t self.now.keys.now → (result.first ≡ branch self.now.cipher Near t s) × (result.second ≡ branch self.now.cipher Far t s) }
    {
        let c = self.cipher;
        let at = start_of(c, Branch::Near);
        let n = ciphers::branch_of(c);
        let mut far = enter_branch(c, Branch::Far, s);
        let near = self.run_both(at, n, s, &mut far);
        let first = ciphers::unload_state(c, near);
        let second = ciphers::unload_state(c, far);
        Both { first, second }
    }

    // The input block from the state at the fork, and the block of a branch.
    fn both_ends(&self, b: Branch, s: [[u8; 4]; 4]) -> Both
        ensures { (t : Tweakey) → LaidFor self.now.cipher (start_of self.now.cipher b + branch_of self.now.cipher) t self.now.keys.now → (result.first ≡ unforked self.now.cipher t s) × (result.second ≡ branch self.now.cipher b t s) }
    {
        let c = self.cipher;
        let n = ciphers::init_of(c);
        let at = start_of(c, b);
        let m = ciphers::branch_of(c);
        let mut other = enter_branch(c, b, s);
        let input = self.run_apart(n, at, m, s, &mut other);
        let first = ciphers::unload_state(c, input);
        let second = ciphers::unload_state(c, other);
        Both { first, second }
    }

    // ---- a block call

    // Forward, the halves that are wanted.
    pub fn fork(&self, block: [u8; 16], want: Want) -> Forked
        ensures { (key tweak : List ℕ) → LaidFor self.now.cipher (fork_reach self.now.cipher (want_of want)) (tk self.now.cipher key tweak) self.now.keys.now → fork_done result ≡ fork_by self.now.cipher key tweak block (want_of want) }
    {
        let s = self.to_fork(block);
        let rounds = rounds_forward(self.cipher, want);
        match want {
            Want::First => {
                let half0 = self.run_branch(Half::Zero.branch(), s);
                let half1 = [0; 16];
                Forked {
                    half0,
                    half1,
                    rounds,
                }
            }
            Want::Second => {
                let half0 = [0; 16];
                let half1 = self.run_branch(Half::One.branch(), s);
                Forked {
                    half0,
                    half1,
                    rounds,
                }
            }
            Want::Both => {
                let both = self.both_halves(s);
                let half0 = both.first;
                let half1 = both.second;
                Forked {
                    half0,
                    half1,
                    rounds,
                }
            }
        }
    }

    // Back from a half, what is wanted.
    pub fn unfork(&self, block: [u8; 16], from: Half, want: Want) -> Unforked
        ensures { (key tweak : List ℕ) → LaidFor self.now.cipher (unfork_reach self.now.cipher (half_of from) (want_of want)) (tk self.now.cipher key tweak) self.now.keys.now → unfork_done result ≡ unfork_by self.now.cipher key tweak block (half_of from) (want_of want) }
    {
        let s = self.unrun_branch(from.branch(), block);
        let to = from.other().branch();
        let rounds = rounds_back(self.cipher, want);
        match want {
            Want::First => {
                let input = self.from_fork(s);
                let other = [0; 16];
                Unforked {
                    input,
                    other,
                    rounds,
                }
            }
            Want::Second => {
                let input = [0; 16];
                let other = self.run_branch(to, s);
                Unforked {
                    input,
                    other,
                    rounds,
                }
            }
            Want::Both => {
                let both = self.both_ends(to, s);
                let input = both.first;
                let other = both.second;
                Unforked {
                    input,
                    other,
                    rounds,
                }
            }
        }
    }
}
