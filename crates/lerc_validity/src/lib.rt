// The mask in force: new or reused, and the part of a slice that holds it.
#![tactic(auto)]

ghost use Rattle.std.specs.Prelude.{◌≡◌, List, ℕ, ◌+◌, ◌≤◌, length};
ghost use Rattle.lerc_header.specs.Header.{shape_of, ranges_at};
ghost use Rattle.lerc_header.specs.Shape as Sizes;
ghost use Rattle.lerc_header.specs.Shape.{mask_length};
ghost use Rattle.lerc_validity.specs.Validity as Masks;

use lerc_header::{HEADER, Header};
use lerc_mask::MASK_FIELD;
use lerc_words::Refusal;

mod compared;

pub use compared::{MaskFound, compare_mask};

// Which mask is in force, and how long it is.
#[derive(Clone, Copy, Debug, PartialEq, Eq)]
pub enum Mask {
    Kept(usize),
    Spare(usize),
}

// all pixels alike: no section may stand beside that
fn put_uniform(h: Header, n: usize, byte: u8, spare: &mut [u8]) -> Result<Mask, Refusal>
    requires { (n ≡ mask_length (shape_of h)) × (n ≤ length spare.old) }
    ensures { Masks.Prepared (Masks.uniform h byte) result spare.old spare.new }
{
    if h.mask != 0 {
        return Err(Refusal { number: 6, at: 0 });
    }
    lerc_slices::fill(byte, &mut spare[..n]);
    Ok(Mask::Spare(n))
}

// the kept mask, where the caller allows it and its pixels number `valid`; whatever the spare holds, it stays
fn take_kept(h: Header, pixels: usize, n: usize, reuse: bool, kept: &[u8]) -> Result<Mask, Refusal>
    requires { (pixels ≡ Sizes.pixels (shape_of h)) × (n ≡ mask_length (shape_of h)) × (n ≤ length kept.now) }
    ensures { (spare : List ℕ) → Masks.Prepared (Masks.kept h reuse kept.now) result spare spare }
{
    if !reuse {
        return Err(Refusal { number: 6, at: 0 });
    }
    if lerc_mask::count(kept, pixels) != h.valid as usize {
        return Err(Refusal { number: 6, at: 0 });
    }
    Ok(Mask::Kept(n))
}

// the answer of the section's reader; the place is taken off a refusal, since all of a mask's have one
fn from_runs(answer: Result<usize, Refusal>) -> Result<Mask, Refusal>
    ensures { result ≡ Masks.from_runs answer }
{
    let n = lerc_words::marked(answer, 0)?;
    Ok(Mask::Spare(n))
}

// the mask of the section, which is checked whole before a byte is written
fn unroll(s: &[u8], h: Header, pixels: usize, spare: &mut [u8]) -> Result<Mask, Refusal>
    requires { (pixels ≡ Sizes.pixels (shape_of h)) × (ranges_at h ≤ length s.now) × (mask_length (shape_of h) ≤ length spare.old) }
    ensures { Masks.Prepared (Masks.unrolled s.now h) result spare.old spare.new }
{
    let end = HEADER + h.mask as usize;
    let answer = lerc_mask::decode(&s[HEADER..end], pixels, h.valid as usize, spare);
    from_runs(answer)
}

// the mask, where there is room for it and its section lies in s
fn find(
    s: &[u8],
    h: Header,
    pixels: usize,
    n: usize,
    reuse: bool,
    kept: &[u8],
    spare: &mut [u8],
) -> Result<Mask, Refusal>
    requires { (pixels ≡ Sizes.pixels (shape_of h)) × (n ≡ mask_length (shape_of h)) × (ranges_at h ≤ length s.now) × (n ≤ length kept.now) × (n ≤ length spare.old) }
    ensures { Masks.Prepared (Masks.mask_in s.now h reuse kept.now) result spare.old spare.new }
{
    if h.valid == 0 {
        return put_uniform(h, n, 0, spare);
    }
    if h.valid as usize == pixels {
        return put_uniform(h, n, 255, spare);
    }
    if h.mask == 0 {
        return take_kept(h, pixels, n, reuse, kept);
    }
    unroll(s, h, pixels, spare)
}

// Finds the mask in the bytes of a blob that was opened: its header is not held to the rules again.
// Both slices must have room (5), and the section must lie in the bytes (1). A breach of its rules (6) is told at the count of
// mask bytes.
pub fn find_mask(
    s: &[u8],
    h: Header,
    reuse: bool,
    kept: &[u8],
    spare: &mut [u8],
) -> Result<Mask, Refusal>
    ensures { Masks.Prepared (Masks.find_says s.now h reuse kept.now (length spare.old)) result spare.old spare.new }
{
    let pixels = h.rows as usize * h.columns as usize;
    let n = (pixels + 7) / 8;
    let room = (n <= kept.len()) & (n <= spare.len());
    if !room {
        return Err(Refusal { number: 5, at: 0 });
    }
    if s.len() < HEADER + h.mask as usize {
        return Err(Refusal { number: 1, at: 0 });
    }
    let found = find(s, h, pixels, n, reuse, kept, spare);
    lerc_words::marked(found, MASK_FIELD)
}

// Finds the mask of a blob whose header is h, and says where it stands: a reused one in `kept`, a new one in `spare`.
// Both must have room, reuse or not (5); after a refusal the spare is as it was.
pub fn prepare_mask(
    blob: &[u8],
    h: Header,
    reuse: bool,
    kept: &[u8],
    spare: &mut [u8],
) -> Result<Mask, Refusal>
    ensures { Masks.Prepared (Masks.prepare_says blob.now h reuse kept.now (length spare.old)) result spare.old spare.new }
{
    let e = h.held(blob.len())?;
    let size = e.size;
    find_mask(&blob[..size], h, reuse, kept, spare)
}

// the first n bytes, or nothing where there are fewer
fn first_of<'a>(s: &'a [u8], n: usize) -> &'a [u8]
    ensures { (result.now ≡ Masks.first_of n s.now) × (result.ref_ptr ≡ s.entry.ref_ptr) }
{
    if n <= s.len() { &s[..n] } else { &s[..0] }
}

// The mask that `prepare_mask` said: the front of one of the two slices, and which; after a refusal nothing.
pub fn mask_in_force<'a>(kept: &'a [u8], spare: &'a [u8], said: Result<Mask, Refusal>) -> &'a [u8]
    ensures { (result.now ≡ Masks.in_force said kept.now spare.now) × (result.ref_ptr ≡ Masks.stands_in said kept.entry.ref_ptr spare.entry.ref_ptr) }
{
    match said {
        Ok(Mask::Kept(n)) => first_of(kept, n),
        Ok(Mask::Spare(n)) => first_of(spare, n),
        Err(_why) => &kept[..0],
    }
}
