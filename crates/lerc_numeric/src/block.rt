// The steps of a block at once.
ghost use Rattle.std.specs.Prelude.{◌≡◌, true, ℕ, ◌-◌, ◌%◌, ◌^◌, ◌≤◌, ◌<◌, min};
ghost use Rattle.std.specs.Int.Bits.{bit_and};
ghost use Rattle.lerc_numeric.specs.Inside.{normal32, sign_of};
ghost use Rattle.lerc_numeric.specs.Kinds.{narrowed};
ghost use Rattle.lerc_numeric.specs.Steps.{step_of, mapped};

use super::clamp::{step, step_words};
use super::machine;
use super::single::{is_normal, narrow_alike, narrow_words};

// the largest count of so many bits
fn largest(bits: usize) -> u32
    ensures { result ≡ 2 ^ min bits 32 - 1 }
{
    if bits < 32 {
        ((1u64 << bits) - 1) as u32
    } else {
        0xffff_ffff
    }
}

fn all_words(offset: u64, error: u64, top: u64, low: u32, counts: &[u32], out: &mut [u64])
    ensures { out.new ≡ mapped (λ c. step_of offset error top (bit_and c low)) counts.now out.old }
{
    for k in 0..out.len().min(counts.len()) {
        out[k] = step_words(offset, error, top, counts[k] & low);
    }
}

// The steps of all counts to the front of `out`, as many as both have. Of a count wider than `bits` bits the lowest bits count.
pub fn steps(offset: u64, error: u64, top: u64, bits: usize, counts: &[u32], out: &mut [u64])
    ensures { out.new ≡ mapped (λ c. step_of offset error top (c % 2 ^ bits)) counts.now out.old }
{
    let low = largest(bits);
    if machine::takes_step(offset, error, top) {
        machine::steps(offset, error, top, low, counts, &mut out[..])
    } else {
        all_words(offset, error, top, low, counts, &mut out[..])
    }
}

// The sign of all steps, 1 where they are negative, if the error is not and the first and the last step are normal binary32 of
// one sign: then the others lie between them. Else 2.
fn normal_sign(offset: u64, error: u64, top: u64, low: u32) -> u64
    ensures { result < 2 → (q : ℕ) → q ≤ low → (normal32 (step_of offset error top q) ≡ true) × (result ≡ sign_of (step_of offset error top q)) }
{
    let a = step(offset, error, top, 0);
    let b = step(offset, error, top, low);
    let sign = a / 0x8000_0000_0000_0000;
    let alike = sign == b / 0x8000_0000_0000_0000;
    if (error < 0x8000_0000_0000_0000) & alike & is_normal(a) & is_normal(b) {
        sign
    } else {
        2
    }
}

// the same steps, each rounded to a binary32
pub fn single_steps(offset: u64, error: u64, top: u64, bits: usize, counts: &[u32], out: &mut [u64])
    ensures { out.new ≡ mapped (λ c. narrowed (step_of offset error top (c % 2 ^ bits))) counts.now out.old }
{
    steps(offset, error, top, bits, counts, &mut out[..]);
    let n = out.len().min(counts.len());
    let sign = normal_sign(offset, error, top, largest(bits));
    if sign < 2 {
        narrow_alike(sign, &mut out[..n]);
    } else {
        narrow_words(&mut out[..n]);
    }
}
