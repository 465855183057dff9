// Whole numbers: an error that is one when doubled, and the words of a kind of integers, none of them negative.
ghost use Rattle.std.specs.Prelude.{◌≡◌};
ghost use Rattle.lerc_numeric.specs.Whole as Whole;

use super::kinds::modulus;
use super::parts::{exponent, significand};

// twice the number w, where that is a whole number from 1 to 2^20, else 0
pub fn twice_whole(w: u64) -> u64
    ensures { result ≡ Whole.twice_whole w }
{
    if 0x8000_0000_0000_0000 <= w {
        return 0;
    }
    let e = exponent(w);
    // twice it is less than 1
    if e < 1021 {
        return 0;
    }
    // twice it is 2^53 or more
    if 1073 < e {
        return 0;
    }
    let d = 1073 - e;
    let m = significand(w);
    let q = m >> d;
    if 0x10_0000 < q {
        return 0;
    }
    if q << d == m { q } else { 0 }
}

// a word of a kind of integers as a number, 2^32 more, so that none is negative; 0 for other kinds
pub fn raised(w: u64, kind: u32) -> u64
    ensures { result ≡ Whole.raised kind w }
{
    if 6 <= kind {
        return 0;
    }
    let m = modulus(kind);
    let v = w & (m - 1);
    if kind % 2 == 0 {
        if m / 2 <= v {
            0x1_0000_0000 + v - m
        } else {
            0x1_0000_0000 + v
        }
    } else {
        0x1_0000_0000 + v
    }
}
