// The block calls, under the cipher that a number names: by key, and with a prepared one. Refused with 1 (no such cipher, half or choice), and
// then with 2 (a prepared key that is not one of this cipher's). They take numbers, as `fork_of` and `unfork_of` say what every number is answered.
ghost use Rattle.std.specs.Prelude.{◌≡◌};
ghost use Rattle.prepared.specs.Prepared.{key_in, Made};
ghost use Rattle.forkskinny.specs.Calls.{judged_cipher, fork_by, fork_done, fork_result, fork_of, fork_with, unfork_by, unfork_done, unfork_result, unfork_of, unfork_with};
ghost use Rattle.forkskinny.specs.Wanted.{want_of, half_of};

use crate::{Forked, Half, Keyed, Unforked, Want};
use ciphers::Cipher;
use prepared::Prepared;
use refusals::Refusal;

// The share of a key, to work with it. (The key is lent, so that the checker knows its bytes for bytes.)
fn share_made(c: Cipher, key: &[u8; 16]) -> [u8; 784]
    ensures made { Made c result }
    ensures key { key_in c result ≡ key.now }
{
    prepared::share_of(c, *key)
}

// The cipher that a number names, where it admits a prepared key.
fn judged_cipher(cipher: u32, key: &Prepared) -> Result<Cipher, Refusal>
    ensures { result ≡ judged_cipher cipher key.now }
{
    let c = Cipher::try_from(cipher)?;
    if !key.is_admitted(c) {
        return Err(Refusal::Key);
    }
    Ok(c)
}

// ---- forward

// Under a key whose share is made, or judged. (In a frame of its own, so that its room takes no stack while that is done.)
#[inline(never)]
fn fork_keyed(c: Cipher, share: &[u8; 784], tweak: [u8; 16], block: [u8; 16], want: Want) -> Forked
    requires { Made c share.now }
    ensures { fork_done result ≡ fork_by c (key_in c share.now) tweak block (want_of want) }
{
    Keyed::new(c, share).fork(tweak, block, want)
}

// Half 0 (want 0), half 1 (want 1) or both (want 2) of a block.
pub fn fork_by_key(
    cipher: u32,
    key: [u8; 16],
    tweak: [u8; 16],
    block: [u8; 16],
    want: u32,
) -> Result<Forked, Refusal>
    ensures { fork_result result ≡ fork_of cipher key tweak block want }
{
    let want = Want::try_from(want)?;
    let c = Cipher::try_from(cipher)?;
    let share = share_made(c, &key);
    Ok(fork_keyed(c, &share, tweak, block, want))
}

// The same with a prepared key.
pub fn fork(
    cipher: u32,
    key: &Prepared,
    tweak: [u8; 16],
    block: [u8; 16],
    want: u32,
) -> Result<Forked, Refusal>
    ensures { fork_result result ≡ fork_with cipher key.now tweak block want }
{
    let want = Want::try_from(want)?;
    let c = judged_cipher(cipher, key)?;
    Ok(fork_keyed(c, &key.share, tweak, block, want))
}

// ---- back

// Under a key whose share is made, or judged. (In a frame of its own, too.)
#[inline(never)]
fn unfork_keyed(
    c: Cipher,
    share: &[u8; 784],
    tweak: [u8; 16],
    block: [u8; 16],
    from: Half,
    want: Want,
) -> Unforked
    requires { Made c share.now }
    ensures { unfork_done result ≡ unfork_by c (key_in c share.now) tweak block (half_of from) (want_of want) }
{
    Keyed::new(c, share).unfork(tweak, block, from, want)
}

// From a half (from 0 or 1): the input block (want 0), the other half (want 1) or both (want 2).
pub fn unfork_by_key(
    cipher: u32,
    key: [u8; 16],
    tweak: [u8; 16],
    block: [u8; 16],
    from: u32,
    want: u32,
) -> Result<Unforked, Refusal>
    ensures { unfork_result result ≡ unfork_of cipher key tweak block from want }
{
    let from = Half::try_from(from)?;
    let want = Want::try_from(want)?;
    let c = Cipher::try_from(cipher)?;
    let share = share_made(c, &key);
    Ok(unfork_keyed(c, &share, tweak, block, from, want))
}

// The same with a prepared key.
pub fn unfork(
    cipher: u32,
    key: &Prepared,
    tweak: [u8; 16],
    block: [u8; 16],
    from: u32,
    want: u32,
) -> Result<Unforked, Refusal>
    ensures { unfork_result result ≡ unfork_with cipher key.now tweak block from want }
{
    let from = Half::try_from(from)?;
    let want = Want::try_from(want)?;
    let c = judged_cipher(cipher, key)?;
    Ok(unfork_keyed(c, &key.share, tweak, block, from, want))
}
