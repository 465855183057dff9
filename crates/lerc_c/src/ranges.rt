// Ranges as an array of 64-bit numbers, and back.
ghost use Rattle.std.specs.Prelude.{◌≡◌, ℕ, ◌≤◌, length};
ghost use Rattle.lerc_words.specs.Lists.{over};
ghost use Rattle.lerc_c.specs.Records as Record;

use super::records::put;
use lerc_header::DEPTHS;
use lerc_ranges::Ranges;
use lerc_words::Refusal;

// where the maxima stand, and how many numbers ranges have
const MAXIMA: usize = 2 + DEPTHS;

pub(crate) const RANGES: usize = 2 + 2 * DEPTHS;

pub(crate) fn put_ranges(r: Ranges, out: &mut [u64])
    requires { Record.ranges_room ≤ length out.old }
    ensures { out.new ≡ over (Record.ranges_numbers r) out.old }
{
    let front = [r.at as u64, r.constant as u64];
    put(&front, 0, &mut out[..]);
    put(&r.min, 2, &mut out[..]);
    put(&r.max, MAXIMA, &mut out[..]);
}

// ranges out of their record; a constant mark that is neither 0 nor 1: 3
pub(crate) fn ranges_from(l: &[u64]) -> Result<Ranges, Refusal>
    requires { Record.ranges_room ≤ length l.now }
    ensures { result ≡ Record.ranges_from l.now }
{
    if 1 < l[1] {
        return Err(Refusal { number: 3, at: 0 });
    }
    let mut min = [0u64; DEPTHS];
    let mut max = [0u64; DEPTHS];
    put(&l[2..MAXIMA], 0, &mut min);
    put(&l[MAXIMA..RANGES], 0, &mut max);
    Ok(Ranges {
        at: l[0] as usize,
        constant: l[1] == 1,
        min,
        max,
    })
}
