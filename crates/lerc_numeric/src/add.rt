// Sums of binary64 words.
ghost use Rattle.std.specs.Prelude.{◌≡◌, ◌+◌, ◌-◌, ◌*◌, ◌%◌, ◌^◌, ◌≤◌, ◌<◌, min};
ghost use Rattle.lerc_numeric.specs.Numeric.{bits64, sig, exp, mag, sum};
ghost use Rattle.lerc_numeric.specs.Inside as Inside;

use super::machine;
use super::parts::{exponent, significand};
use super::round::{INFINITY, jam, pack};

// Two magnitudes over one power of two: small stands for the lesser one's digits.
#[derive(Clone, Copy)]
struct Aligned {
    big: u64,
    small: u64,
    e: u64,
}

// For a magnitude of a that is no less than b's. Its digits are moved up by 10 at most, so that they fit in a word and
// at least 9 digits are rounded away wherever one of b's was cut off.
fn align(a: u64, b: u64) -> Aligned
    requires { exp b ≤ exp a }
    ensures { (result.big ≡ sig a * 2 ^ min (exp a - exp b) 10)
        × (result.small ≡ Inside.jam (sig b) (exp a - exp b - 10))
        × (result.e ≡ exp b + (exp a - exp b - 10)) }
{
    let e = exponent(b);
    let d = exponent(a) - e;
    let m = significand(a);
    let s = significand(b);
    if d <= 10 {
        Aligned {
            big: m << d,
            small: jam(s, 0),
            e: e,
        }
    } else {
        Aligned {
            big: m << 10,
            small: jam(s, d - 10),
            e: e + (d - 10),
        }
    }
}

fn total(a: u64, b: u64) -> u64
    requires { b % 2 ^ 63 ≤ a % 2 ^ 63 }
    ensures { result ≡ bits64 (mag a + mag b) }
{
    let t = align(a, b);
    pack(t.big + t.small, t.e)
}

fn rest(a: u64, b: u64) -> u64
    requires { b % 2 ^ 63 ≤ a % 2 ^ 63 }
    ensures { result ≡ bits64 (mag a - mag b) }
{
    let t = align(a, b);
    pack(t.big - t.small, t.e)
}

// a + b, by the machine where both are finite
pub fn plus(a: u64, b: u64) -> u64
    ensures { result ≡ sum a b }
{
    if machine::takes(a) & machine::takes(b) {
        machine::plus(a, b)
    } else {
        plus_words(a, b)
    }
}

// Over whole numbers. Of one sign an infinity needs no test: whatever it is added to, the total is rounded to it.
pub(crate) fn plus_words(a: u64, b: u64) -> u64
    ensures { result ≡ sum a b }
{
    let x = a % 0x8000_0000_0000_0000;
    let y = b % 0x8000_0000_0000_0000;
    let s = a - x;
    let t = b - y;
    if s == t {
        if x < y {
            s + total(b, a)
        } else {
            s + total(a, b)
        }
    } else if x < y {
        if y == INFINITY { b } else { t + rest(b, a) }
    } else if y < x {
        if x == INFINITY { a } else { s + rest(a, b) }
    } else {
        0
    }
}
