// One block: the words of its tile's valid pixels.
#![tactic(auto)]

ghost use Rattle.std.specs.Prelude.{◌≡◌, ◌≤◌, length};
ghost use Rattle.lerc_words.specs.Res.{marked, each};
ghost use Rattle.lerc_bits.specs.Unpacking.{value_bits};
ghost use Rattle.lerc_block.specs.Block.{level_block, read_block_says, BlockRead};
ghost use Rattle.lerc_block.specs.Plan.{offset_value, stepped_words, ended, planned_block};
ghost use Rattle.lerc_block.specs.Steps.{step_word, BlockConverted, StepsTried, CountsOf};
ghost use Rattle.lerc_block.specs.Check.{OffsetHeld, Sound};
ghost use Rattle.lerc_block.specs.declared.plan.Form.TheVariants as Form;

use lerc_bits::Plan;
use lerc_words::Refusal;

mod checks;
mod heads;
mod plan;
mod whole;

pub use checks::check_block;
pub use plan::{BlockPlan, Form, Steps, StoredOffset, block_end, inspect_block, plan_end};

// low bits 3: the offset is stored once, and not at all where there is no pixel
fn read_level(
    offset: StoredOffset,
    next: usize,
    kind: u32,
    n: usize,
    words: &mut [u64],
) -> Result<usize, Refusal>
    requires { n ≤ length words.old }
    ensures { BlockRead (level_block next kind (offset_value offset) n) result words.old words.new }
{
    if n == 0 {
        return Ok(next);
    }
    let v = lerc_samples::stored(lerc_numeric::number(offset.word, offset.kind), kind)?;
    lerc_slices::fill(v, &mut words[..n]);
    Ok(next)
}

// the word of count q
fn step(q: u32, kind: u32, error: u64, top: u64, offset: u64) -> Result<u64, Refusal>
    ensures { result ≡ step_word kind error top offset q }
{
    lerc_samples::stored(lerc_numeric::step(offset, error, top, q), kind)
}

// the words of all counts, which end at `next`; the first that does not fit decides
fn convert(
    counts: &[u32],
    next: usize,
    kind: u32,
    error: u64,
    top: u64,
    offset: u64,
    out: &mut [u64],
) -> Result<usize, Refusal>
    requires { length counts.now ≤ length out.old }
    ensures { BlockConverted (each (step_word kind error top offset) counts.now) next result out.old out.new }
{
    for (k, count) in counts.iter().enumerate() {
        out[k] = step(*count, kind, error, top, offset)?;
    }
    Ok(next)
}

// the words of all counts, kept aside until all of them fit
fn convert_aside(
    counts: &[u32],
    next: usize,
    kind: u32,
    error: u64,
    top: u64,
    offset: u64,
    words: &mut [u64],
) -> Result<usize, Refusal>
    requires { (length counts.now ≤ 256) × (length counts.now ≤ length words.old) }
    ensures { BlockRead (ended next (each (step_word kind error top offset) counts.now)) result words.old words.new }
{
    let n = counts.len();
    let mut spare = [0u64; 256];
    convert(counts, next, kind, error, top, offset, &mut spare)?;
    lerc_slices::copy(&spare, &mut words[..n]);
    Ok(next)
}

// the words of counts of `bits` bits at once, where none can fail; else nothing is written
fn convert_all(
    counts: &[u32],
    bits: usize,
    kind: u32,
    error: u64,
    top: u64,
    offset: StoredOffset,
    words: &mut [u64],
) -> bool
    requires { (length counts.now ≤ length words.old) × OffsetHeld kind offset × CountsOf bits counts.now }
    ensures { StepsTried (each (step_word kind error top (offset_value offset)) counts.now) result words.old words.new }
{
    if kind < 6 {
        return whole::whole_steps(counts, bits, kind, error, top, offset, &mut words[..]);
    }
    let value = lerc_numeric::number(offset.word, offset.kind);
    if kind == 6 {
        lerc_numeric::single_steps(value, error, top, bits, counts, &mut words[..]);
    } else {
        lerc_numeric::steps(value, error, top, bits, counts, &mut words[..]);
    }
    true
}

// the words of counts of `bits` bits, at once where that is sure, else one by one
fn convert_counts(
    counts: &[u32],
    bits: usize,
    next: usize,
    kind: u32,
    error: u64,
    top: u64,
    offset: StoredOffset,
    words: &mut [u64],
) -> Result<usize, Refusal>
    requires { (length counts.now ≤ 256) × (length counts.now ≤ length words.old) × OffsetHeld kind offset × CountsOf bits counts.now }
    ensures { BlockRead (ended next (each (step_word kind error top (offset_value offset)) counts.now)) result words.old words.new }
{
    if convert_all(counts, bits, kind, error, top, offset, &mut words[..]) {
        return Ok(next);
    }
    let value = lerc_numeric::number(offset.word, offset.kind);
    convert_aside(counts, next, kind, error, top, value, &mut words[..])
}

// the width of a plan's values
fn value_bits(p: Plan) -> usize
    ensures { result ≡ value_bits p }
{
    if p.entries == 0 { p.width } else { p.bits }
}

// low bits 1
fn read_steps(
    s: &[u8],
    steps: Steps,
    next: usize,
    kind: u32,
    error: u64,
    top: u64,
    n: usize,
    words: &mut [u64],
) -> Result<usize, Refusal>
    requires { (n ≤ 256) × (n ≤ length words.old) × Sound s.now kind n (Form.Stepped steps) }
    ensures { BlockRead (ended next (stepped_words s.now kind error top n steps)) result words.old words.new }
{
    let plan = steps.counts;
    if plan.n != n {
        return Err(Refusal { number: 8, at: 0 });
    }
    let mut counts = [0u32; 256];
    lerc_bits::decode_plan(s, plan, &mut counts)?;
    let bits = value_bits(plan);
    let offset = steps.offset;
    convert_counts(&counts[..n], bits, next, kind, error, top, offset, words)
}

// the words that a plan leads to
fn read_planned(
    s: &[u8],
    p: BlockPlan,
    kind: u32,
    error: u64,
    top: u64,
    n: usize,
    words: &mut [u64],
) -> Result<usize, Refusal>
    requires { (n ≤ 256) × (n ≤ length words.old) × Sound s.now kind n p.form }
    ensures { BlockRead (planned_block s.now kind error top n p) result words.old words.new }
{
    let form = p.form;
    match form {
        Form::Raw(at) => {
            lerc_words::words(s, at, lerc_numeric::size(kind), &mut words[..n]);
            Ok(p.next)
        }
        Form::Zero => {
            lerc_slices::fill(0, &mut words[..n]);
            Ok(p.next)
        }
        Form::Level(offset) => read_level(offset, p.next, kind, n, &mut words[..]),
        Form::Stepped(steps) => read_steps(s, steps, p.next, kind, error, top, n, &mut words[..]),
    }
}

// the words of the block at `at`, whatever its head
fn read_any(
    s: &[u8],
    at: usize,
    kind: u32,
    error: u64,
    maximum: u64,
    x: usize,
    n: usize,
    words: &mut [u64; 256],
) -> Result<usize, Refusal>
    ensures { BlockRead (read_block_says s.now at kind error maximum x n) result words.old words.new }
{
    let p = plan::plan_block(s, at, kind, x, n)?;
    read_planned(s, p, kind, error, maximum, n, words)
}

// what `read_block` answers; a refusal tells no place
fn read_words(
    s: &[u8],
    at: usize,
    kind: u32,
    error: u64,
    maximum: u64,
    x: usize,
    n: usize,
    words: &mut [u64; 256],
) -> Result<usize, Refusal>
    ensures { BlockRead (read_block_says s.now at kind error maximum x n) result words.old words.new }
{
    if let Some(usual) = heads::usual_head(s, at, kind, x) {
        if usual.n == n {
            return read_steps(s, usual.steps(), usual.end, kind, error, maximum, n, words);
        }
    }
    read_any(s, at, kind, error, maximum, x, n, words)
}

// the words of the block at `at` to the front of `words`, or a refusal at its flag byte, which leaves them
pub fn read_block(
    s: &[u8],
    at: usize,
    kind: u32,
    error: u64,
    maximum: u64,
    x: usize,
    n: usize,
    words: &mut [u64; 256],
) -> Result<usize, Refusal>
    ensures { BlockRead (marked at (read_block_says s.now at kind error maximum x n)) result words.old words.new }
{
    let got = read_words(s, at, kind, error, maximum, x, n, words);
    lerc_words::marked(got, at)
}
