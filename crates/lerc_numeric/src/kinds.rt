// The kinds of samples: their sizes, their words as binary64, their ranges.
ghost use Rattle.std.specs.Prelude.{◌≡◌, ◌^◌, ◌<◌};
ghost use Rattle.lerc_numeric.specs.Numeric.{exp};
ghost use Rattle.lerc_numeric.specs.Kinds as Kind;

use super::parts::{exponent, significand};
use super::round::pack;
use super::single::widen;

// bytes of a word of the kind
pub fn size(kind: u32) -> usize
    ensures { result ≡ Kind.type_size kind }
{
    if kind < 2 {
        1
    } else if kind < 4 {
        2
    } else if kind < 7 {
        4
    } else {
        8
    }
}

// how many words a kind of integers has
pub(crate) fn modulus(kind: u32) -> u64
    requires { kind < 6 }
    ensures { result ≡ Kind.modulus kind }
{
    if kind < 2 {
        0x100
    } else if kind < 4 {
        0x1_0000
    } else {
        0x1_0000_0000
    }
}

// a word of a kind of integers as a binary64
fn integer(v: u64, kind: u32) -> u64
    requires kind_bound { kind < 6 }
    requires v_bound { v < Kind.modulus kind }
    ensures { result ≡ Kind.integer kind v }
{
    let m = modulus(kind);
    if kind % 2 == 0 {
        if m / 2 <= v {
            0x8000_0000_0000_0000 + pack(m - v, 1074)
        } else {
            pack(v, 1074)
        }
    } else {
        pack(v, 1074)
    }
}

// a stored word as a binary64; of a word wider than its kind the lowest bytes count
pub fn number(v: u64, kind: u32) -> u64
    ensures { result ≡ Kind.value_of kind v }
{
    if kind < 6 {
        integer(v % modulus(kind), kind)
    } else if kind == 6 {
        widen(v % 0x1_0000_0000)
    } else {
        v
    }
}

// the magnitude of w, cut to a whole number: 1 is 2^1074 units
pub(crate) fn whole(w: u64) -> u64
    requires { exp w < 1074 }
    ensures { result ≡ Kind.whole w }
{
    let e = exponent(w);
    if e <= 1010 {
        0
    } else {
        significand(w) >> (1074 - e)
    }
}

// the first magnitude that a kind of integers does not hold, by the sign
pub(crate) fn bound(kind: u32, negative: bool) -> u64
    requires { kind < 6 }
    ensures { result ≡ Kind.bound kind negative }
{
    let m = modulus(kind);
    if kind % 2 == 0 {
        if negative { m / 2 + 1 } else { m / 2 }
    } else {
        if negative { 1 } else { m }
    }
}
