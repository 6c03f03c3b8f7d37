// Blocks between the caller's slices and arrays of sixteen bytes, of which the first n count.
#![tactic(auto)]

ghost use Rattle.std.specs.Prelude.{◌≡◌, ◌++◌, ◌≤◌, ◌-◌, eqb, length, take, drop, replicate};
ghost use Rattle.modes.specs.Blocks.{◌⊕◌, pad, same};

// The first k bytes of a part, and zeros behind.
pub fn front(part: &[u8], k: usize) -> [u8; 16]
    requires { (k ≤ 16) × (k ≤ length part.now) }
    ensures { result ≡ take k part.now ++ replicate (16 - k) 0 }
{
    let mut b = [0u8; 16];
    b[..k].copy_from_slice(&part[..k]);
    b
}

// The block at the front of a part: n bytes, or all that there are and padding.
pub fn load(part: &[u8], n: usize) -> [u8; 16]
    requires { n ≤ 16 }
    ensures { take n result ≡ pad n part.now }
{
    if part.len() < n {
        let k = part.len();
        let mut b = front(part, k);
        b[k] = 0x80;
        return b;
    }
    if n == 16 {
        return front(part, 16); // a known length: no call for the copy
    }
    front(part, n)
}

// The first k bytes of a block to the front of the lent tail.
fn put(rest: &mut [u8], block: [u8; 16], k: usize)
    requires { (k ≤ 16) × (k ≤ length rest.old) }
    ensures { rest.new ≡ take k block ++ drop k rest.old }
{
    rest[..k].copy_from_slice(&block[..k]);
}

// The same, a whole block apart.
pub fn store(rest: &mut [u8], block: [u8; 16], k: usize)
    requires { (k ≤ 16) × (k ≤ length rest.old) }
    ensures { rest.new ≡ take k block ++ drop k rest.old }
{
    if k == 16 {
        put(rest, block, 16); // a known length: no call for the copy
        return;
    }
    put(rest, block, k);
}

// Zeros to the first k bytes.
pub fn clear(room: &mut [u8], k: usize)
    requires { k ≤ length room.old }
    ensures { room.new ≡ replicate k 0 ++ drop k room.old }
{
    room[..k].fill(0);
}

// Byte by byte xor.
pub fn xored(a: [u8; 16], b: [u8; 16]) -> [u8; 16]
    ensures { result ≡ a ⊕ b }
{
    std::array::from_fn(|i| a[i] ^ b[i])
}

// The differences of two parts, collected: 0 exactly where they hold the same bytes. No byte ends it early; lengths are no secret.
pub fn differences(a: &[u8], b: &[u8]) -> u8
    ensures { eqb result 0 ≡ same a.now b.now }
{
    if a.len() != b.len() {
        return 1;
    }
    a.iter().zip(b.iter()).fold(0, |d, (x, y)| d | (x ^ y))
}

// Whether two parts hold the same bytes.
pub fn equal(a: &[u8], b: &[u8]) -> bool
    ensures { result ≡ same a.now b.now }
{
    differences(a, b) == 0
}
