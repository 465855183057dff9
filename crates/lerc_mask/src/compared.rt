// Whether a slice holds the mask that a section of runs gives; nothing is written.
ghost use Rattle.std.specs.Prelude.{◌≡◌, List, ℕ, ◌+◌, ◌≤◌, length};
ghost use Rattle.lerc_words.specs.Res.{ok};
ghost use Rattle.lerc_slices.specs.Slices.{begins_with};
ghost use Rattle.lerc_mask.specs.Mask.{mask_runs, decoded, RunsCompared};
ghost use Rattle.lerc_mask.specs.Passes.{meet_on};

use super::{MASK_FIELD, RunPlace, Step, bytes_for, check, read_step};
use lerc_words::Refusal;
use std::ops::ControlFlow;

// How long the mask is that a section of runs gives, and whether a slice begins with it.
#[derive(Clone, Copy, Debug, PartialEq, Eq)]
pub struct RunsFound {
    pub length: usize,
    pub same: bool,
}

// second pass, one run: whether its bytes are held at `made`; the place behind it, or whether all are held
fn meet_run(
    s: &[u8],
    at: usize,
    made: usize,
    left: usize,
    held: &[u8],
) -> ControlFlow<bool, RunPlace>
    requires { made + left ≤ length held.now }
    ensures { result ≡ meet_on s.now at made left held.now }
{
    let run = read_step(s, at, left);
    match run {
        Step::Copy(n) => {
            let from = at + 2;
            let next = from + n;
            let end = made + n;
            if !lerc_slices::begins_with(&held[made..end], &s[from..next]) {
                return ControlFlow::Break(false);
            }
            ControlFlow::Continue(RunPlace {
                at: next,
                made: end,
            })
        }
        Step::Repeat(n) => {
            let end = made + n;
            if !lerc_slices::all_bytes(s[at + 2], &held[made..end]) {
                return ControlFlow::Break(false);
            }
            ControlFlow::Continue(RunPlace {
                at: at + 3,
                made: end,
            })
        }
        Step::End => ControlFlow::Break(true),
        Step::Wrong => ControlFlow::Break(false),
    }
}

// second pass: the bytes of all runs are held
fn is_held(s: &[u8], want: usize, held: &[u8]) -> bool
    requires { want ≤ length held.now }
    ensures { (m : List ℕ) → mask_runs want s.now ≡ ok m → result ≡ begins_with m held.now }
{
    let mut place = RunPlace { at: 0, made: 0 };
    loop {
        match meet_run(s, place.at, place.made, want - place.made, held) {
            ControlFlow::Continue(next) => {
                place = next;
            }
            ControlFlow::Break(same) => return same,
        }
    }
}

// as `decode`, but the mask is compared with what is held, and nothing is written
pub fn compare(
    section: &[u8],
    pixels: usize,
    valid: usize,
    held: &[u8],
) -> Result<RunsFound, Refusal>
    ensures { RunsCompared (decoded section.now pixels valid (length held.now)) result held.now }
{
    let want = bytes_for(pixels);
    if held.len() < want {
        return Err(Refusal { number: 5, at: 0 });
    }
    if check(section, pixels, valid) {
        return Ok(RunsFound {
            length: want,
            same: is_held(section, want, held),
        });
    }
    Err(Refusal {
        number: 6,
        at: MASK_FIELD,
    })
}
