// Numbers of four and eight bytes in a slice, the lowest byte first.
#![tactic(auto)]

ghost use Rattle.std.specs.Prelude.{◌≡◌, ℕ, length};
ghost use Rattle.fields.specs.Fields.{lies_inside, inside, four_at, eight_at, put_at, bytes_of};

// The number in the four bytes of s from `at` on, or none if they are not all inside s.
pub fn four_at(s: &[u8], at: usize) -> Option<u32>
    ensures { result ≡ four_at s.now at }
{
    let bytes = s.get(at..)?.first_chunk::<4>()?;
    Some(u32::from_le_bytes(*bytes))
}

// The same for eight bytes. There are two, and two that put: the type of the number goes with the width, and a trait of both types would
// be longer.
pub fn eight_at(s: &[u8], at: usize) -> Option<u64>
    ensures { result ≡ eight_at s.now at }
{
    let bytes = s.get(at..)?.first_chunk::<8>()?;
    Some(u64::from_le_bytes(*bytes))
}

// Puts n into the four bytes of s from `at` on and answers true; if they are not all inside s, changes nothing and answers false.
pub fn put_four(s: &mut [u8], at: usize, n: u32) -> bool
    ensures answer { result ≡ inside 4 s.old at }
    ensures buffer { s.new ≡ put_at 4 s.old at n }
{
    put(s, at, &u32::to_le_bytes(n))
}

// Puts n into the eight bytes of s from `at` on and answers true; if they are not all inside s, changes nothing and answers false.
pub fn put_eight(s: &mut [u8], at: usize, n: u64) -> bool
    ensures answer { result ≡ inside 8 s.old at }
    ensures buffer { s.new ≡ put_at 8 s.old at n }
{
    put(s, at, &u64::to_le_bytes(n))
}

// Whether `width` bytes from `at` on lie inside a slice of `bytes` bytes. The sum of at and width may be too large for a usize.
pub fn lies_inside(bytes: usize, at: usize, width: usize) -> bool
    ensures { result ≡ lies_inside bytes at width }
{
    width <= bytes && at <= bytes - width
}

// Puts the bytes of a number into s from `at` on, and answers like `put_four`.
fn put(s: &mut [u8], at: usize, bytes: &[u8]) -> bool
    ensures answer { result ≡ inside (length bytes.now) s.old at }
    ensures buffer { (width n : ℕ) → bytes.now ≡ bytes_of width n → s.new ≡ put_at width s.old at n }
{
    if !lies_inside(s.len(), at, bytes.len()) {
        return false;
    }
    s[at..at + bytes.len()].copy_from_slice(bytes);
    true
}
