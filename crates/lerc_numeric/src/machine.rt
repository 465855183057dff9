// The machine's own binary64, for finite operands: here alone does the reader use it.
ghost use Rattle.std.specs.Prelude.{◌≡◌, true, ◌*◌, ◌<◌, pos};
ghost use Rattle.std.specs.Int.Bits.{bit_and};
ghost use Rattle.std.specs.Float.{binary64};
ghost use Rattle.std.specs.Float.Ieee.{add, mul, of_bits, of_int};
ghost use Rattle.lerc_numeric.specs.Inside.{error_end};
ghost use Rattle.lerc_numeric.specs.Numeric.{field, sum, scaled, lesser};
ghost use Rattle.lerc_numeric.specs.Steps.{step_of, mapped};

use super::order::is_finite;

// `false` where the float unit is not to be trusted: then all is computed over whole numbers. No promise tells which it is,
// so every proof but that of `takes` is one for both.
const TRUSTED: bool = true;

// 2^991: no count of 32 bits makes the product of a lesser error infinite
const ERROR_END: u64 = 0x7de0_0000_0000_0000;

// whether the machine may have this operand; it never has one that is not finite
pub(crate) fn takes(w: u64) -> bool
    ensures { result ≡ true → field w < 2047 }
{
    if TRUSTED { is_finite(w) } else { false }
}

// whether it may have the operands of a step
pub(crate) fn takes_step(offset: u64, error: u64, top: u64) -> bool
    ensures { result ≡ true → (field offset < 2047) × (error < error_end) × (field top < 2047) }
{
    takes(offset) & takes(top) & (error < ERROR_END)
}

// a + b, rounded once
pub(crate) fn plus(a: u64, b: u64) -> u64
    requires { (field a < 2047) × (field b < 2047) }
    ensures { result ≡ sum a b }
{
    f64::to_bits(f64::from_bits(a) + f64::from_bits(b))
}

// 2 * q * a, rounded once: twice a count of 32 bits is exact
pub(crate) fn scale(a: u64, q: u32) -> u64
    requires { field a < 2047 }
    ensures { result ≡ scaled a q }
{
    let twice = 2 * q as u64;
    f64::to_bits(f64::from_bits(a) * (twice as f64))
}

// offset + 2 * q * error, rounded twice. Twice such an error is exact: a loop takes it once, and a count of 32 bits becomes a
// float as it is, which the machine does for two at a time.
fn moved(offset: u64, error: u64, q: u32) -> f64
    requires { (field offset < 2047) × (error < error_end) }
    ensures { result ≡ add binary64 (of_bits binary64 offset) (mul binary64 (of_bits binary64 error) (of_int binary64 (pos (2 * q)))) }
{
    let e = f64::from_bits(error);
    f64::from_bits(offset) + (e + e) * (q as f64)
}

// the lesser of offset + 2 * q * error and top, the second on a tie
pub(crate) fn step(offset: u64, error: u64, top: u64, q: u32) -> u64
    requires { (field offset < 2047) × (error < error_end) × (field top < 2047) }
    ensures { result ≡ lesser (sum offset (scaled error q)) top }
{
    let v = moved(offset, error, q);
    if v < f64::from_bits(top) {
        f64::to_bits(v)
    } else {
        top
    }
}

// no step is clamped
fn steps_free(offset: u64, error: u64, low: u32, counts: &[u32], out: &mut [u64])
    requires { (field offset < 2047) × (error < error_end) }
    ensures { out.new ≡ mapped (λ c. sum offset (scaled error (bit_and c low))) counts.now out.old }
{
    for k in 0..out.len().min(counts.len()) {
        out[k] = f64::to_bits(moved(offset, error, counts[k] & low));
    }
}

fn steps_clamped(offset: u64, error: u64, top: u64, low: u32, counts: &[u32], out: &mut [u64])
    requires { (field offset < 2047) × (error < error_end) × (field top < 2047) }
    ensures { out.new ≡ mapped (λ c. step_of offset error top (bit_and c low)) counts.now out.old }
{
    for k in 0..out.len().min(counts.len()) {
        out[k] = step(offset, error, top, counts[k] & low);
    }
}

// The steps of all counts, of each the bits of `low`: the largest is that of `low`, and where it is below the maximum, all are.
pub(crate) fn steps(offset: u64, error: u64, top: u64, low: u32, counts: &[u32], out: &mut [u64])
    requires { (field offset < 2047) × (error < error_end) × (field top < 2047) }
    ensures { out.new ≡ mapped (λ c. step_of offset error top (bit_and c low)) counts.now out.old }
{
    if moved(offset, error, low) < f64::from_bits(top) {
        steps_free(offset, error, low, counts, &mut out[..])
    } else {
        steps_clamped(offset, error, top, low, counts, &mut out[..])
    }
}
