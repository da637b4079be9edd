// Puts text into a buffer: bytes as they are, numbers in decimal, bytes in hexadecimal. Each public function returns where the
// text ends. Without room for all of it, nothing is put, and the function returns where the text would have begun. The buffer and the
// place are parameters, not a struct, and the end is no Option, since the clauses `end` and `out` speak of the buffer that was lent.
#![tactic(auto)]

ghost use Rattle.std.specs.Prelude.{◌≡◌, ◌∷◌, [], ◌+◌, ◌*◌, ◌≤◌, ◌<◌, length};
ghost use Rattle.text.specs.Texts.{digits_of, flag_text, whole_text, hex_digit, hex_of};
ghost use Rattle.text.specs.Puts.{end_after, with_text, Put};

use itoa::Buffer;

// Puts some bytes, as they are.
#[tactic(auto, unfolding(crate::specs::Puts::end_after, crate::specs::Puts::with_text))]
pub fn put(out: &mut [u8], at: usize, s: &[u8]) -> usize
    ensures end { result ≡ end_after (length out.old) at s.now }
    ensures out { out.new ≡ with_text out.old at s.now }
{
    if !fields::lies_inside(out.len(), at, s.len()) {
        return at;
    }
    put_all(out, at, s)
}

// Puts a number in decimal.
#[tactic(auto, using(crate::proofs::Digits::digits_few, crate::proofs::WholeLaws::decimal_is))]
pub fn put_number(out: &mut [u8], at: usize, n: u64) -> usize
    ensures end { result ≡ end_after (length out.old) at (digits_of n) }
    ensures out { out.new ≡ with_text out.old at (digits_of n) }
{
    // Many numbers of a line have one digit, which needs no buffer.
    if n < 10 {
        return put(out, at, &[b'0' + n as u8]);
    }
    let mut digits = Buffer::new();
    put_digits(out, at, digits.format(n).as_bytes())
}

// Puts a whole number in decimal, one below 0 with a minus sign.
#[tactic(auto, using(crate::proofs::WholeLaws::signed_is), unfolding(crate::specs::Texts::whole_text))]
pub fn put_whole(out: &mut [u8], at: usize, z: i64) -> usize
    ensures end { result ≡ end_after (length out.old) at (whole_text z) }
    ensures out { out.new ≡ with_text out.old at (whole_text z) }
{
    if let Ok(n) = u64::try_from(z) {
        return put_number(out, at, n);
    }
    let mut digits = Buffer::new();
    put_digits(out, at, digits.format(z).as_bytes())
}

// `put`, not inlined: where the compiler sees that the digits lie in a buffer of their own, it makes their copy a call of memcpy.
#[inline(never)]
fn put_digits(out: &mut [u8], at: usize, digits: &[u8]) -> usize
    ensures end { result ≡ end_after (length out.old) at digits.now }
    ensures out { out.new ≡ with_text out.old at digits.now }
{
    put(out, at, digits)
}

// Puts a space, then 1 if something is so, 0 if not.
#[tactic(auto, unfolding(crate::specs::Texts::flag_text, crate::specs::Texts::bytes_in))]
pub fn put_flag(out: &mut [u8], at: usize, so: bool) -> usize
    ensures end { result ≡ end_after (length out.old) at (flag_text so) }
    ensures out { out.new ≡ with_text out.old at (flag_text so) }
{
    if so {
        put(out, at, b" 1")
    } else {
        put(out, at, b" 0")
    }
}

// Puts bytes in hexadecimal, two digits each.
#[tactic(auto, using(crate::proofs::HexLaws::length_hex), unfolding(crate::specs::Puts::end_after, crate::specs::Puts::with_text))]
pub fn put_bytes(out: &mut [u8], at: usize, s: &[u8]) -> usize
    ensures end { result ≡ end_after (length out.old) at (hex_of s.now) }
    ensures out { out.new ≡ with_text out.old at (hex_of s.now) }
{
    // Room for one half of the digits, then for the other: twice the length of `s` may be too large for a usize.
    let half = s.len();
    if !fields::lies_inside(out.len(), at, half) {
        return at;
    }
    if !fields::lies_inside(out.len(), at + half, half) {
        return at;
    }
    put_hex(out, at, s)
}

// Byte by byte: `copy_from_slice` is a call of memcpy, which a program in C would have to bring for the library.
fn put_all(out: &mut [u8], at: usize, s: &[u8]) -> usize
    requires { at + length s.now ≤ length out.old }
    ensures { Put out.old at s.now out.new result }
{
    for (i, &b) in s.iter().enumerate() {
        out[at + i] = b;
    }
    at + s.len()
}

fn put_hex(out: &mut [u8], at: usize, s: &[u8]) -> usize
    requires { at + 2 * length s.now ≤ length out.old }
    ensures { Put out.old at (hex_of s.now) out.new result }
{
    let mut end = at;
    for &b in s {
        end = put_pair(out, end, b);
    }
    end
}

// Puts the two hexadecimal digits of a byte.
#[tactic(auto, unfolding(crate::specs::Texts::hex_of))]
fn put_pair(out: &mut [u8], at: usize, b: u8) -> usize
    requires { at + 2 ≤ length out.old }
    ensures { Put out.old at (hex_of (b ∷ [])) out.new result }
{
    put_all(out, at, &[hex_digit(b / 16), hex_digit(b % 16)])
}

// `char::from_digit` gives a char in an Option, which would have to be taken out and cast.
#[tactic(auto, unfolding(crate::specs::Texts::hex_digit))]
fn hex_digit(half: u8) -> u8
    requires { half < 16 }
    ensures { result ≡ hex_digit half }
{
    if half < 10 {
        b'0' + half
    } else {
        b'a' - 10 + half
    }
}
