// Twice a count times a binary64 word.
ghost use Rattle.std.specs.Prelude.{◌≡◌, ◌+◌, ◌*◌, ◌^◌, ◌<◌};
ghost use Rattle.lerc_numeric.specs.Numeric.{scaled};
ghost use Rattle.lerc_numeric.specs.Inside as Inside;

use super::machine;
use super::parts::{exponent, significand};
use super::round::{digits, low, pack};

// m * q without its i lowest digits, its last digit 1 where anything was cut off.
fn product(m: u64, q: u64, i: u64) -> u64
    requires { (m * q < 2 ^ (64 + i)) × (q < 2 ^ 32) × (i < 32) }
    ensures { result ≡ Inside.jam (m * q) i }
{
    let p = low(m, i) * q;
    let r = low(p, i);
    let top = (m >> i) * q + (p >> i);
    if r == 0 { top } else { top + (1 - top % 2) }
}

// 2 * q * a, by the machine where a is finite
pub fn scale(a: u64, q: u32) -> u64
    ensures { result ≡ scaled a q }
{
    if machine::takes(a) {
        machine::scale(a, q)
    } else {
        scale_words(a, q)
    }
}

// over whole numbers
pub(crate) fn scale_words(a: u64, q: u32) -> u64
    ensures { result ≡ scaled a q }
{
    let m = significand(a);
    let e = exponent(a);
    let n = q as u64;
    let s = digits(m) + digits(n);
    let sign = a - a % 0x8000_0000_0000_0000;
    if s <= 64 {
        sign + pack(m * n, e + 1)
    } else {
        let i = s - 64;
        sign + pack(product(m, n, i), i + (e + 1))
    }
}
