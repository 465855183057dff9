// One byte of the mask, sought in the runs that give it: nothing is unrolled.
ghost use Rattle.std.specs.Prelude.{◌≡◌};
ghost use Rattle.lerc_mask.specs.Seek.{begin_at, seek_on, sought};

use super::{Step, read_step};

// A place between two runs: where the next one stands, and how many bytes of the mask came before it.
#[derive(Clone, Copy)]
pub struct RunPlace {
    pub at: usize,
    pub made: usize,
}

// A byte of the mask, and the place of the run that gives it.
#[derive(Clone, Copy)]
pub struct RunFound {
    pub place: RunPlace,
    pub byte: u8,
}

// No ControlFlow of an Option, with which `byte_from` takes one instruction more for every two runs.
// One run: it gives the byte, or it ends at a place with so many bytes that come before it, or no run is there.
#[derive(Clone, Copy)]
enum Sought {
    Byte(u8),
    Behind(usize, usize),
    Nowhere,
}

// the place, or the front where byte i, or the whole mask, ends before it
fn begin_at(want: usize, from: RunPlace, i: usize) -> RunPlace
    ensures { result ≡ begin_at want from i }
{
    if (from.made <= i) & (from.made <= want) {
        return from;
    }
    RunPlace { at: 0, made: 0 }
}

// the run at `at`, for the byte that is k bytes behind its first
fn seek_run(s: &[u8], at: usize, left: usize, k: usize) -> Sought
    ensures { result ≡ seek_on s.now at left k }
{
    let run = read_step(s, at, left);
    match run {
        Step::Copy(n) => {
            let from = at + 2;
            if k < n {
                return Sought::Byte(s[from + k]);
            }
            Sought::Behind(from + n, n)
        }
        Step::Repeat(n) => {
            if k < n {
                return Sought::Byte(s[at + 2]);
            }
            Sought::Behind(at + 3, n)
        }
        Step::End => Sought::Nowhere,
        Step::Wrong => Sought::Nowhere,
    }
}

// byte i of the mask of `want` bytes that a section gives, and the place of its run: run by run from a place on, or from the
// front where that is behind it; 0 where the runs end, or are wrong, before it
pub fn byte_from(section: &[u8], want: usize, from: RunPlace, i: usize) -> RunFound
    ensures { result ≡ sought want section.now from i }
{
    let mut place = begin_at(want, from, i);
    loop {
        let run = seek_run(section, place.at, want - place.made, i - place.made);
        match run {
            Sought::Byte(byte) => return RunFound { place, byte },
            Sought::Behind(next, n) => {
                place = RunPlace {
                    at: next,
                    made: place.made + n,
                };
            }
            Sought::Nowhere => return RunFound { place, byte: 0 },
        }
    }
}
