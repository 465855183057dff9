// The mask in force, compared with what the spare holds; nothing is written.
ghost use Rattle.std.specs.Prelude.{◌≡◌, List, ℕ, ◌≤◌, length};
ghost use Rattle.lerc_header.specs.Header.{shape_of, ranges_at};
ghost use Rattle.lerc_header.specs.Shape as Sizes;
ghost use Rattle.lerc_header.specs.Shape.{mask_length};
ghost use Rattle.lerc_validity.specs.Validity as Masks;

use super::{Mask, take_kept};
use lerc_header::{HEADER, Header};
use lerc_mask::MASK_FIELD;
use lerc_words::Refusal;

// Which mask is in force, and whether the spare holds it where it is a new one.
#[derive(Clone, Copy, Debug, PartialEq, Eq)]
pub struct MaskFound {
    pub mask: Mask,
    pub same: bool,
}

// as `put_uniform`
fn meet_uniform(h: Header, n: usize, byte: u8, spare: &[u8]) -> Result<MaskFound, Refusal>
    requires { (n ≡ mask_length (shape_of h)) × (n ≤ length spare.now) }
    ensures { Masks.Compared (Masks.uniform h byte) result spare.now }
{
    if h.mask != 0 {
        return Err(Refusal { number: 6, at: 0 });
    }
    Ok(MaskFound {
        mask: Mask::Spare(n),
        same: lerc_slices::all_bytes(byte, &spare[..n]),
    })
}

// the kept mask, whatever the spare holds
fn meet_kept(
    h: Header,
    pixels: usize,
    n: usize,
    reuse: bool,
    kept: &[u8],
) -> Result<MaskFound, Refusal>
    requires { (pixels ≡ Sizes.pixels (shape_of h)) × (n ≡ mask_length (shape_of h)) × (n ≤ length kept.now) }
    ensures { (spare : List ℕ) → Masks.Compared (Masks.kept h reuse kept.now) result spare }
{
    let mask = take_kept(h, pixels, n, reuse, kept)?;
    Ok(MaskFound { mask, same: true })
}

// as `unroll`; the place is taken off a refusal
fn meet_runs(s: &[u8], h: Header, pixels: usize, spare: &[u8]) -> Result<MaskFound, Refusal>
    requires { (pixels ≡ Sizes.pixels (shape_of h)) × (ranges_at h ≤ length s.now) × (mask_length (shape_of h) ≤ length spare.now) }
    ensures { Masks.Compared (Masks.unrolled s.now h) result spare.now }
{
    let end = HEADER + h.mask as usize;
    let found = lerc_mask::compare(&s[HEADER..end], pixels, h.valid as usize, spare);
    let runs = lerc_words::marked(found, 0)?;
    Ok(MaskFound {
        mask: Mask::Spare(runs.length),
        same: runs.same,
    })
}

// as `find`
fn meet(
    s: &[u8],
    h: Header,
    pixels: usize,
    n: usize,
    reuse: bool,
    kept: &[u8],
    spare: &[u8],
) -> Result<MaskFound, Refusal>
    requires { (pixels ≡ Sizes.pixels (shape_of h)) × (n ≡ mask_length (shape_of h)) × (ranges_at h ≤ length s.now) × (n ≤ length kept.now) × (n ≤ length spare.now) }
    ensures { Masks.Compared (Masks.mask_in s.now h reuse kept.now) result spare.now }
{
    if h.valid == 0 {
        return meet_uniform(h, n, 0, spare);
    }
    if h.valid as usize == pixels {
        return meet_uniform(h, n, 255, spare);
    }
    if h.mask == 0 {
        return meet_kept(h, pixels, n, reuse, kept);
    }
    meet_runs(s, h, pixels, spare)
}

// As `find_mask`, but the spare is compared and not written.
pub fn compare_mask(
    s: &[u8],
    h: Header,
    reuse: bool,
    kept: &[u8],
    spare: &[u8],
) -> Result<MaskFound, Refusal>
    ensures { Masks.Compared (Masks.find_says s.now h reuse kept.now (length spare.now)) result spare.now }
{
    let pixels = h.rows as usize * h.columns as usize;
    let n = (pixels + 7) / 8;
    let room = (n <= kept.len()) & (n <= spare.len());
    if !room {
        return Err(Refusal { number: 5, at: 0 });
    }
    if s.len() < HEADER + h.mask as usize {
        return Err(Refusal { number: 1, at: 0 });
    }
    let found = meet(s, h, pixels, n, reuse, kept, spare);
    lerc_words::marked(found, MASK_FIELD)
}
