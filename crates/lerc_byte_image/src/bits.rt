// Bits, high bit first in little-endian 32-bit words.
ghost use Rattle.std.specs.Prelude.{◌≡◌, ◌+◌, ◌*◌, ◌/◌, ◌^◌, ◌<◌, ◌≤◌, length};
ghost use Rattle.lerc_words.specs.Res.{little};
ghost use Rattle.lerc_byte_image.specs.Table.{bits_at};

// the two words at `at` as one number, the first one the higher; past the end they are zeros
fn two_words(s: &[u8], at: usize) -> u64
    ensures { result ≡ little 4 s.now at * 2 ^ 32 + little 4 s.now (at + 4) }
{
    let v = lerc_words::peek(s, at);
    (v << 32) + (v >> 32)
}

// n bits from bit p on of a run that begins at `at`
pub(crate) fn take_bits(s: &[u8], at: usize, p: usize, n: usize) -> u64
    requires { (at ≤ length s.now) × (length s.now ≤ 16777216) × (p ≤ 2 ^ 32) × (n ≤ 32) }
    ensures { result ≡ bits_at s.now at p n }
{
    let v = two_words(s, at + p / 32 * 4);
    ((v << (p % 32)) >> 32) >> (32 - n)
}

// four bytes, the first the lowest
fn quad(a: u8, b: u8, c: u8, d: u8) -> u64
    ensures { result ≡ a + 256 * (b + 256 * (c + 256 * d)) }
{
    a as u64 + 256 * (b as u64 + 256 * (c as u64 + 256 * (d as u64)))
}

// eight bytes from `at` on, which are there
fn eight(s: &[u8], at: usize) -> u64
    requires { at + 8 ≤ length s.now }
    ensures { result ≡ little 8 s.now at }
{
    quad(s[at], s[at + 1], s[at + 2], s[at + 3])
        + 4294967296 * quad(s[at + 4], s[at + 5], s[at + 6], s[at + 7])
}

// 12 bits from bit p on, where the word behind p's is there
pub(crate) fn twelve(s: &[u8], start: usize, p: usize) -> usize
    requires { start + p / 32 * 4 + 8 ≤ length s.now }
    ensures { (result ≡ bits_at s.now start p 12) × (result < 4096) }
{
    let v = eight(s, start + p / 32 * 4);
    let w = (v << 32) + (v >> 32);
    ((w << (p % 32)) >> 52) as usize
}
