// The ranges of each depth: read from a blob, judged by value, stored as words.
#![tactic(auto)]

ghost use Rattle.std.specs.Prelude.{◌≡◌, false, ℕ, ◌+◌, ◌*◌, ◌≤◌, ◌<◌, ◌^◌, min, get_or};
ghost use Rattle.lerc_words.specs.Lists.{all_to};
ghost use Rattle.lerc_numeric.specs.Numeric as Word;
ghost use Rattle.lerc_numeric.specs.Kinds.{type_size, value_of};
ghost use Rattle.lerc_header.specs.Limits.{depth_limit};
ghost use Rattle.lerc_ranges.specs.Ranges as Rules;

use lerc_header::{DEPTHS, HEADER, Header, pair_right};
use lerc_numeric::{is_finite, number, same, size};
use lerc_samples::stored;
use lerc_words::{Refusal, peek};

#[derive(Clone, Copy, Debug, PartialEq, Eq)]
pub struct Ranges {
    pub at: usize,
    pub constant: bool,
    pub min: [u64; DEPTHS],
    pub max: [u64; DEPTHS],
}

// the depths that an array has
fn within(depth: u32) -> usize
    ensures { result ≡ min depth depth_limit }
{
    (depth as usize).min(DEPTHS)
}

// numbers of the kind from `at` on, one for each depth; the entries past the depth are `rest`
fn numbers(s: &[u8], at: usize, kind: u32, depth: usize, rest: u64) -> [u64; DEPTHS]
    requires { (depth ≤ depth_limit) × (at < 2 ^ 33) }
    ensures { result ≡ Rules.by_depth depth (Rules.number_at kind s.now at) rest }
{
    let mut out = [rest; DEPTHS];
    let step = size(kind);
    for i in 0..depth {
        out[i] = number(peek(s, at + i * step), kind);
    }
    out
}

fn all_same(low: &[u64; DEPTHS], high: &[u64; DEPTHS], depth: usize) -> bool
    requires { depth ≤ depth_limit }
    ensures { result ≡ all_to depth (λ i. Word.same (get_or low.now i 0) (get_or high.now i 0)) }
{
    low[..depth]
        .iter()
        .zip(&high[..depth])
        .all(|(a, b)| same(*a, *b))
}

fn pairs_right(depth: usize, r: Ranges) -> bool
    requires { depth ≤ depth_limit }
    ensures { result ≡ Rules.pairs_right depth r }
{
    r.min[..depth]
        .iter()
        .zip(&r.max[..depth])
        .all(|(low, high)| pair_right(*low, *high))
}

// the first depth whose pair is wrong
fn first_wrong(depth: usize, r: Ranges) -> usize
    requires { depth ≤ depth_limit }
    ensures { result ≡ Rules.first_wrong depth r }
{
    for i in 0..depth {
        if !pair_right(r.min[i], r.max[i]) {
            return i;
        }
    }
    depth
}

// where the first wrong number of ranges that are not right begins
fn wrong_number(h: Header, r: Ranges) -> usize
    requires { (h.depth ≤ depth_limit) × (Rules.pairs_right h.depth r ≡ false) }
    ensures { result ≡ Rules.wrong_number_at h r }
{
    let i = first_wrong(h.depth as usize, r);
    let minimum = HEADER + h.mask as usize + i * size(h.kind);
    if is_finite(r.min[i]) {
        return minimum + width(h);
    }
    minimum
}

// ranges by value: the pairs below the depth
pub fn pairs(depth: u32, r: Ranges) -> Result<(), Refusal>
    ensures { result ≡ Rules.pairs_said (Rules.pairs_says depth r) }
{
    if pairs_right(within(depth), r) {
        Ok(())
    } else {
        Err(Refusal { number: 7, at: 0 })
    }
}

// minimum and maximum are the same: the header's, for every depth
fn uniform(h: Header) -> Ranges
    ensures { result ≡ Rules.uniform_ranges h }
{
    Ranges {
        at: HEADER + h.mask as usize,
        constant: true,
        min: [h.min; DEPTHS],
        max: [h.max; DEPTHS],
    }
}

// the bytes of a number for each depth
fn width(h: Header) -> usize
    requires { h.depth ≤ depth_limit }
    ensures { (result ≡ h.depth * type_size h.kind) × (result ≤ depth_limit * 8) }
{
    h.depth as usize * size(h.kind)
}

// the minima, then the maxima
fn coded(s: &[u8], h: Header) -> Ranges
    requires { h.depth ≤ depth_limit }
    ensures { result ≡ Rules.coded_ranges s.now h }
{
    let at = HEADER + h.mask as usize;
    let depth = h.depth as usize;
    let width = width(h);
    let min = numbers(s, at, h.kind, depth, h.min);
    let max = numbers(s, at + width, h.kind, depth, h.max);
    let constant = all_same(&min, &max, depth);
    Ranges {
        at: at + width + width,
        constant,
        min,
        max,
    }
}

// The ranges in the bytes of a blob that was opened: its header is not held to the rules again, but no array has more depths (4).
// All must fit before a number is judged.
pub fn ranges_in(s: &[u8], h: Header) -> Result<Ranges, Refusal>
    ensures { result ≡ Rules.ranges_in_says s.now h }
{
    if DEPTHS < h.depth as usize {
        return Err(Refusal { number: 4, at: 0 });
    }
    if same(h.min, h.max) {
        return Ok(uniform(h));
    }
    let width = width(h);
    if s.len() < HEADER + h.mask as usize + width + width {
        return Err(Refusal {
            number: 1,
            at: HEADER + h.mask as usize,
        });
    }
    let ranges = coded(s, h);
    if !pairs_right(h.depth as usize, ranges) {
        return Err(Refusal {
            number: 7,
            at: wrong_number(h, ranges),
        });
    }
    Ok(ranges)
}

// whatever `valid` is
pub fn read_ranges(blob: &[u8], h: Header) -> Result<Ranges, Refusal>
    ensures { result ≡ Rules.read_ranges_says blob.now h }
{
    h.held(blob.len())?;
    let size = h.size as usize;
    ranges_in(&blob[..size], h)
}

// the first `depth` values as stored words; the entries past the depth are 0
pub fn convert(values: [u64; DEPTHS], depth: u32, kind: u32) -> Result<[u64; DEPTHS], Refusal>
    ensures { result ≡ Rules.constants_said (Rules.constant_words depth kind values) }
{
    let n = within(depth);
    let mut words = [0; DEPTHS];
    for i in 0..n {
        words[i] = stored(values[i], kind)?;
    }
    Ok(words)
}
