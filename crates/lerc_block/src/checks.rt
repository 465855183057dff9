// Whether a block is accepted, without its values: where every value fits, none is computed.
ghost use Rattle.std.specs.Prelude.{◌≡◌, ℕ, ◌≤◌};
ghost use Rattle.lerc_words.specs.Res.{marked};
ghost use Rattle.lerc_block.specs.declared.plan.Form.TheVariants as Form;
ghost use Rattle.lerc_block.specs.Block.{next_block, read_block_says};
ghost use Rattle.lerc_block.specs.Plan.{stepped_words, ended, planned_block};
ghost use Rattle.lerc_block.specs.Check.{steps_fit, Sound};

use super::heads::usual_head;
use super::plan::{BlockPlan, Form, Steps, plan_block};
use super::read_steps;
use lerc_words::Refusal;

// whether no step can fail to be stored; a step of integers cannot where their maximum can be stored
fn steps_fit(kind: u32, error: u64, top: u64) -> bool
    ensures { result ≡ steps_fit kind error top }
{
    if 6 <= kind {
        return true;
    }
    if 0x8000_0000_0000_0000 <= error {
        return false;
    }
    lerc_samples::stored(top, kind).is_ok()
}

// low bits 1, whose values are not computed where they cannot fail
fn check_steps(
    s: &[u8],
    steps: Steps,
    next: usize,
    kind: u32,
    error: u64,
    top: u64,
    n: usize,
) -> Result<usize, Refusal>
    requires { (n ≤ 256) × Sound s.now kind n (Form.Stepped steps) }
    ensures { result ≡ next_block (ended next (stepped_words s.now kind error top n steps)) }
{
    if !steps_fit(kind, error, top) {
        let mut words = [0u64; 256];
        return read_steps(s, steps, next, kind, error, top, n, &mut words);
    }
    let counts = steps.counts;
    if counts.n != n {
        return Err(Refusal { number: 8, at: 0 });
    }
    lerc_bits::check_plan(s, counts)?;
    Ok(next)
}

// what `read_planned` answers, without the words; an offset can always be stored
fn check_planned(
    s: &[u8],
    p: BlockPlan,
    kind: u32,
    error: u64,
    top: u64,
    n: usize,
) -> Result<usize, Refusal>
    requires { (n ≤ 256) × Sound s.now kind n p.form }
    ensures { result ≡ next_block (planned_block s.now kind error top n p) }
{
    let form = p.form;
    match form {
        Form::Raw(_at) => Ok(p.next),
        Form::Zero => Ok(p.next),
        Form::Level(_offset) => Ok(p.next),
        Form::Stepped(steps) => check_steps(s, steps, p.next, kind, error, top, n),
    }
}

// what `read_any` answers, without the words
fn check_any(
    s: &[u8],
    at: usize,
    kind: u32,
    error: u64,
    maximum: u64,
    x: usize,
    n: usize,
) -> Result<usize, Refusal>
    ensures { result ≡ next_block (read_block_says s.now at kind error maximum x n) }
{
    let p = plan_block(s, at, kind, x, n)?;
    check_planned(s, p, kind, error, maximum, n)
}

// what `read_words` answers, without the words
fn check_words(
    s: &[u8],
    at: usize,
    kind: u32,
    error: u64,
    maximum: u64,
    x: usize,
    n: usize,
) -> Result<usize, Refusal>
    ensures { result ≡ next_block (read_block_says s.now at kind error maximum x n) }
{
    if steps_fit(kind, error, maximum) {
        if let Some(usual) = usual_head(s, at, kind, x) {
            if usual.n == n {
                return Ok(usual.end);
            }
        }
    }
    check_any(s, at, kind, error, maximum, x, n)
}

// what `read_block` answers, without the words
pub fn check_block(
    s: &[u8],
    at: usize,
    kind: u32,
    error: u64,
    maximum: u64,
    x: usize,
    n: usize,
) -> Result<usize, Refusal>
    ensures { result ≡ next_block (marked at (read_block_says s.now at kind error maximum x n)) }
{
    let got = check_words(s, at, kind, error, maximum, x, n);
    lerc_words::marked(got, at)
}
