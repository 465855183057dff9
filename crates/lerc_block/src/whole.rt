// Steps of kinds of integers by whole numbers, a block at once: where an error is half a whole number, no float is needed.
// A number is counted from -2^32 on, so that none is negative.
ghost use Rattle.std.specs.Prelude.{◌≡◌, false, ℕ, ◌+◌, ◌*◌, ◌%◌, ◌^◌, ◌≤◌, ◌<◌, min, length, get_or};
ghost use Rattle.lerc_words.specs.Lists.{over, tabulate};
ghost use Rattle.lerc_words.specs.Res.{each};
ghost use Rattle.lerc_block.specs.Plan.{offset_value};
ghost use Rattle.lerc_block.specs.Check.{OffsetHeld};
ghost use Rattle.lerc_block.specs.Steps.{step_word, StepsTried, CountsOf};

use super::plan::StoredOffset;

fn largest(counts: &[u32]) -> u32
    ensures { (i : ℕ) → get_or counts.now i 0 ≤ result }
{
    // in this order, and no `Iterator::max`, which takes more instructions on 64 counts
    let mut most = 0;
    for count in counts {
        most = (*count).max(most);
    }
    most
}

// whether a step passes the maximum: the largest count of `bits` bits is asked first, then the largest that there is
fn passes(counts: &[u32], bits: usize, base: u64, step: u64, last: u64) -> bool
    requires { (base < 2 ^ 33) × (step ≤ 2 ^ 20) × CountsOf bits counts.now }
    ensures { result ≡ false → (i : ℕ) → base + step * get_or counts.now i 0 ≤ last }
{
    let low: u64 = (1 << bits) - 1;
    if base + step * low <= last {
        return false;
    }
    let most = largest(counts) as u64;
    last < base + step * most
}

// no step passes the maximum
fn whole_free(counts: &[u32], base: u64, step: u64, size: usize, out: &mut [u64])
    requires { (length counts.now ≤ length out.old) × (base < 2 ^ 33) × (step ≤ 2 ^ 20) × (size ≤ 4) }
    ensures { out.new ≡ over (tabulate (length counts.now) (λ k. (base + step * get_or counts.now k 0) % 2 ^ (8 * size))) out.old }
{
    let low: u64 = (1 << (8 * size)) - 1;
    for (k, count) in counts.iter().enumerate() {
        let q = *count as u64;
        // a word has at most 32 bits: of the product the lower 32 are enough, and these a wide loop has at a third of the cost
        out[k] = (base + (step * q & 0xffff_ffff)) & low;
    }
}

fn whole_clamped(counts: &[u32], base: u64, step: u64, last: u64, size: usize, out: &mut [u64])
    requires { (length counts.now ≤ length out.old) × (base < 2 ^ 33) × (step ≤ 2 ^ 20) × (size ≤ 4) }
    ensures { out.new ≡ over (tabulate (length counts.now) (λ k. min (base + step * get_or counts.now k 0) last % 2 ^ (8 * size))) out.old }
{
    let low: u64 = (1 << (8 * size)) - 1;
    for (k, count) in counts.iter().enumerate() {
        let q = *count as u64;
        out[k] = last.min(base + step * q) & low;
    }
}

// the words of counts of `bits` bits, of a kind of integers, and whether they could be had so; else nothing is written
pub(crate) fn whole_steps(
    counts: &[u32],
    bits: usize,
    kind: u32,
    error: u64,
    top: u64,
    offset: StoredOffset,
    out: &mut [u64],
) -> bool
    requires { (length counts.now ≤ length out.old) × (kind < 6) × OffsetHeld kind offset × CountsOf bits counts.now }
    ensures { StepsTried (each (step_word kind error top (offset_value offset)) counts.now) result out.old out.new }
{
    let step = lerc_numeric::twice_whole(error);
    if step == 0 {
        return false;
    }
    if 6 <= offset.kind {
        return false;
    }
    let Ok(t) = lerc_samples::stored(top, kind) else {
        return false;
    };
    let base = lerc_numeric::raised(offset.word, offset.kind);
    let last = lerc_numeric::raised(t, kind);
    let size = lerc_numeric::size(kind);
    if passes(counts, bits, base, step, last) {
        whole_clamped(counts, base, step, last, size, &mut out[..]);
    } else {
        whole_free(counts, base, step, size, &mut out[..]);
    }
    true
}
