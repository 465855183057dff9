// binary32 words out of binary64 words, and back.
ghost use Rattle.std.specs.Prelude.{◌≡◌, true, ℕ, ◌^◌, ◌<◌, length, get_or};
ghost use Rattle.lerc_numeric.specs.Inside as Inside;
ghost use Rattle.lerc_numeric.specs.Kinds.{narrowed, widened};
ghost use Rattle.lerc_numeric.specs.Steps.{mapped};

use super::parts::{exponent, significand};
use super::round::{nearest, pack};

// v to the nearest binary32, without its sign. A binary32's unit is 2^925 of a binary64's: from the exponent 896 = 925 - 29 on
// 24 of 53 digits are kept, below it fewer, and below 862 none.
fn unsigned(v: u64) -> u64
    ensures { result ≡ Inside.unsigned32 v }
{
    if v % 0x8000_0000_0000_0000 / 0x10_0000_0000_0000 == 2047 {
        return 0x7f80_0000 + v % 0x10_0000_0000_0000 / 0x2000_0000;
    }
    let m = significand(v);
    let e = exponent(v);
    if 896 <= e {
        if 254 <= e - 896 {
            0x7f80_0000
        } else {
            (e - 896) * 0x80_0000 + nearest(m, 29)
        }
    } else if e <= 861 {
        0
    } else {
        nearest(m, 925 - e)
    }
}

// from 2^-126 on and below 2^128
pub(crate) fn is_normal(v: u64) -> bool
    ensures { result ≡ Inside.normal32 v }
{
    let x = v % 0x8000_0000_0000_0000;
    (0x3810_0000_0000_0000 <= x) & (x < 0x47f0_0000_0000_0000)
}

// There one sum rounds field and digits at once: half a unit less one is added, and one more where the last digit kept is odd.
// A binary32's field is 896 less, and its sign stands 3 bits nearer to the field.
fn round_normal(v: u64, sign: u64) -> u64
    requires { (Inside.normal32 v ≡ true) × (sign ≡ Inside.sign_of v) }
    ensures { result ≡ narrowed v }
{
    let y = (v + 0xfff_ffff + v / 0x2000_0000 % 2) / 0x2000_0000;
    y - (0x1_c000_0000 + sign * 0x3_8000_0000)
}

// the same where the sign is not known: it is put back, so that there is no branch to guess
fn round_signed(v: u64) -> u64
    requires { Inside.normal32 v ≡ true }
    ensures { result ≡ narrowed v }
{
    let x = v % 0x8000_0000_0000_0000;
    v / 0x8000_0000_0000_0000 * 0x8000_0000 + round_normal(x, 0)
}

// apart from `narrow`, so that its quick branch is small
fn narrow_any(v: u64) -> u32
    ensures { result ≡ narrowed v }
{
    (v / 0x8000_0000_0000_0000 * 0x8000_0000 + unsigned(v)) as u32
}

// the nearest binary32; too large becomes infinity
pub fn narrow(v: u64) -> u32
    ensures { result ≡ narrowed v }
{
    if is_normal(v) {
        round_signed(v) as u32
    } else {
        narrow_any(v)
    }
}

// normal words of one sign, which is known
pub(crate) fn narrow_alike(sign: u64, words: &mut [u64])
    requires { (k : ℕ) → k < length words.old → (Inside.normal32 (get_or words.old k 0) ≡ true) × (sign ≡ Inside.sign_of (get_or words.old k 0)) }
    ensures { words.new ≡ mapped narrowed words.old words.old }
{
    // no word's own sign is read
    for word in words.iter_mut() {
        *word = round_normal(*word, sign);
    }
}

fn each_normal(words: &[u64]) -> bool
    ensures { result ≡ true → (k : ℕ) → k < length words.now → Inside.normal32 (get_or words.now k 0) ≡ true }
{
    // each is asked, so that the loop can be made wide: `Iterator::all` stops at the first that is not
    let mut all = true;
    for word in words {
        all &= is_normal(*word);
    }
    all
}

// normal words of either sign
fn narrow_normal(words: &mut [u64])
    requires { (k : ℕ) → k < length words.old → Inside.normal32 (get_or words.old k 0) ≡ true }
    ensures { words.new ≡ mapped narrowed words.old words.old }
{
    // no word is asked whether it is normal
    for word in words.iter_mut() {
        *word = round_signed(*word);
    }
}

fn narrow_each(words: &mut [u64])
    ensures { words.new ≡ mapped narrowed words.old words.old }
{
    // each word is asked, and has the quick branch where it is normal
    for word in words.iter_mut() {
        *word = if is_normal(*word) {
            round_signed(*word)
        } else {
            narrow_any(*word) as u64
        };
    }
}

// Most words are normal, so a look at all of them first pays: then none is asked again, and the loop can be made wide.
pub(crate) fn narrow_words(words: &mut [u64])
    ensures { words.new ≡ mapped narrowed words.old words.old }
{
    if each_normal(words) {
        narrow_normal(&mut words[..]);
    } else {
        narrow_each(&mut words[..]);
    }
}

// a binary32 word as a binary64, exactly
pub(crate) fn widen(v: u64) -> u64
    requires { v < 2 ^ 32 }
    ensures { result ≡ widened v }
{
    let sign = v / 0x8000_0000 * 0x8000_0000_0000_0000;
    let x = v % 0x8000_0000 / 0x80_0000;
    let t = v % 0x80_0000;
    if x == 255 {
        sign + (0x7ff0_0000_0000_0000 + t * 0x2000_0000)
    } else if x == 0 {
        sign + pack(t, 925)
    } else {
        sign + pack(0x80_0000 + t, x - 1 + 925)
    }
}
