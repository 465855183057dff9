// Where a block's words stand, and how they are coded: all that stands in front of them, read in one place.
ghost use Rattle.std.specs.Prelude.{◌≡◌, ◌≤◌};
ghost use Rattle.lerc_words.specs.Res.{marked};
ghost use Rattle.lerc_numeric.specs.Numeric.{finite};
ghost use Rattle.lerc_numeric.specs.Kinds.{value_of};
ghost use Rattle.lerc_block.specs.Plan.{finite_word, raw_plan, stepped_plan, offset_plan, plan_says, plan_end};
ghost use Rattle.lerc_block.specs.Check.{read_flag};

use super::heads::usual_head;
use lerc_bits::Plan;
use lerc_words::Refusal;

// An offset as it stands in the blob: a word of a kind.
#[derive(Clone, Copy)]
pub struct StoredOffset {
    pub word: u64,
    pub kind: u32,
}

// An offset, and the packed counts of steps from it.
#[derive(Clone, Copy)]
pub struct Steps {
    pub offset: StoredOffset,
    pub counts: Plan,
}

// How a block's words are coded: raw from a place on, zeros, one offset, or an offset and counts.
#[derive(Clone, Copy)]
pub enum Form {
    Raw(usize),
    Zero,
    Level(StoredOffset),
    Stepped(Steps),
}

#[derive(Clone, Copy)]
pub struct BlockPlan {
    pub form: Form,
    // where the next block begins
    pub next: usize,
}

// the flag of a tile that begins in column x and has n valid pixels
fn flag_at(s: &[u8], at: usize, x: usize, n: usize) -> Result<u64, Refusal>
    ensures { result ≡ read_flag s.now at x n }
{
    if 256 < n {
        return Err(Refusal { number: 8, at: 0 });
    }
    let flag = lerc_words::marked(lerc_words::word(s, at, 1), 0)?;
    if flag / 4 % 16 != x as u64 / 8 % 16 {
        return Err(Refusal { number: 8, at: 0 });
    }
    Ok(flag)
}

// whether the word is a finite number; every word of a kind of integers is
pub(crate) fn finite_word(word: u64, kind: u32) -> bool
    ensures { result ≡ finite (value_of kind word) }
{
    if kind < 6 {
        return true;
    }
    if kind == 6 {
        return word / 0x80_0000 % 256 != 255;
    }
    lerc_numeric::is_finite(word)
}

// the word of a kind at `at`, a finite number
fn finite_at(s: &[u8], at: usize, kind: u32) -> Result<u64, Refusal>
    ensures { result ≡ finite_word kind s.now at }
{
    let word = lerc_words::marked(lerc_words::word(s, at, lerc_numeric::size(kind)), 0)?;
    if finite_word(word, kind) {
        return Ok(word);
    }
    Err(Refusal { number: 8, at: 0 })
}

// low bits 0
fn inspect_raw(len: usize, at: usize, kind: u32, n: usize) -> Result<BlockPlan, Refusal>
    requires { (n ≤ 256) × (at ≤ len) }
    ensures { result ≡ raw_plan len at kind n }
{
    let whole = n * lerc_numeric::size(kind);
    if len - at < whole {
        return Err(Refusal { number: 1, at: 0 });
    }
    Ok(BlockPlan {
        form: Form::Raw(at),
        next: at + whole,
    })
}

// low bits 1, behind the offset
fn inspect_steps(s: &[u8], at: usize, offset: StoredOffset) -> Result<BlockPlan, Refusal>
    ensures { result ≡ stepped_plan s.now at offset }
{
    let counts = lerc_words::marked(lerc_bits::inspect(s, at), 0)?;
    let next = counts.next;
    let steps = Steps { offset, counts };
    Ok(BlockPlan {
        form: Form::Stepped(steps),
        next,
    })
}

// low bits 1 and 3
fn inspect_offset(s: &[u8], at: usize, kind: u32, flag: u32) -> Result<BlockPlan, Refusal>
    ensures { result ≡ offset_plan s.now at kind flag }
{
    let k = lerc_samples::offset_kind(kind, flag / 64)?;
    let word = finite_at(s, at, k)?;
    let offset = StoredOffset { word, kind: k };
    let next = at + lerc_numeric::size(k);
    if flag % 4 == 3 {
        return Ok(BlockPlan {
            form: Form::Level(offset),
            next,
        });
    }
    inspect_steps(s, next, offset)
}

// the plan of the block at `at`; a refusal tells no place
pub(crate) fn plan_block(
    s: &[u8],
    at: usize,
    kind: u32,
    x: usize,
    n: usize,
) -> Result<BlockPlan, Refusal>
    ensures { result ≡ plan_says s.now at kind x n }
{
    let flag = flag_at(s, at, x, n)?;
    if flag % 4 == 0 {
        return inspect_raw(s.len(), at + 1, kind, n);
    }
    if flag % 4 == 2 {
        return Ok(BlockPlan {
            form: Form::Zero,
            next: at + 1,
        });
    }
    inspect_offset(s, at + 1, kind, flag as u32)
}

// the plan of the block at `at`, of a tile that begins in column x and has n valid pixels; its values are not looked at.
// A refusal is at the flag byte
pub fn inspect_block(
    s: &[u8],
    at: usize,
    kind: u32,
    x: usize,
    n: usize,
) -> Result<BlockPlan, Refusal>
    ensures { result ≡ marked at (plan_says s.now at kind x n) }
{
    let found = plan_block(s, at, kind, x, n);
    lerc_words::marked(found, at)
}

// where a block ends, if its plan is accepted
pub fn plan_end(found: Result<BlockPlan, Refusal>) -> Result<usize, Refusal>
    ensures { result ≡ plan_end found }
{
    found.map(|plan| plan.next)
}

// where the block at `at` ends, by all that stands in front of its values
pub fn block_end(s: &[u8], at: usize, kind: u32, x: usize, n: usize) -> Result<usize, Refusal>
    ensures { result ≡ plan_end (marked at (plan_says s.now at kind x n)) }
{
    if n <= 256 {
        if let Some(usual) = usual_head(s, at, kind, x) {
            return Ok(usual.end);
        }
    }
    plan_end(inspect_block(s, at, kind, x, n))
}
