// One blob, header, mask, ranges and body, in two steps: staging checks all and writes neither image nor kept mask, publishing
// finds staging's answer again and then writes.
#![tactic(auto)]

ghost use Rattle.std.specs.Prelude.{◌≡◌, true, ℕ, ◌≤◌, length};
ghost use Rattle.lerc_words.specs.Res.{ok, fail, refuse};
ghost use Rattle.lerc_words.specs.Lists.{over};
ghost use Rattle.lerc_header.specs.Header.{header_says, shape_of};
ghost use Rattle.lerc_header.specs.Shape.{block_count};
ghost use Rattle.lerc_image.specs.Own.{own_mask};
ghost use Rattle.lerc_validity.specs.Validity.{in_force};
ghost use Rattle.lerc.specs.Meaning.{body_says};
ghost use Rattle.lerc.specs.Parts.{Ready, MaskFits, Behind, StagedBehind, given_body, PublishedBehind, not_held, has_room};
ghost use Rattle.lerc.specs.Read.{room, WholeRead};
ghost use Rattle.lerc.specs.Stage.{same_mask, same_staged, is_answer, StageRead, Publishing};

use lerc_header::{Extent, Header};
use lerc_validity::Mask;
use lerc_words::Refusal;

mod body;
mod linear;

// Which kind of body a blob has.
#[derive(Clone, Copy, Debug, PartialEq, Eq)]
pub enum BodyKind {
    Empty,
    Constant,
    Raw,
    Blocks,
    Huffman,
}

// What staging found: the header, the kind of body, how many blocks it has and where it ends, and the mask in force. A caller of
// `publish` may hand in a mask that is refused, which staging never gives.
#[derive(Clone, Copy, Debug, PartialEq, Eq)]
pub struct Staged {
    pub header: Header,
    pub body: BodyKind,
    pub blocks: usize,
    pub end: usize,
    pub mask: Result<Mask, Refusal>,
}

// Where the body ends, and how many words were written.
#[derive(Clone, Copy, Debug, PartialEq, Eq)]
pub struct Published {
    pub end: usize,
    pub words: usize,
}

// The header that was read, how many blocks the body has, and where it ends.
#[derive(Clone, Copy, Debug, PartialEq, Eq)]
pub struct Whole {
    pub header: Header,
    pub blocks: usize,
    pub end: usize,
}

// ---- the answer given, and the one that staging gives

// a refused mask is that of no answer
fn same_mask(a: Result<Mask, Refusal>, b: Result<Mask, Refusal>) -> bool
    ensures { result ≡ same_mask a b }
{
    let Ok(a) = a else {
        return false;
    };
    let Ok(b) = b else {
        return false;
    };
    match a {
        Mask::Kept(n) => match b {
            Mask::Kept(k) => n == k,
            Mask::Spare(_k) => false,
        },
        Mask::Spare(n) => match b {
            Mask::Kept(_k) => false,
            Mask::Spare(k) => n == k,
        },
    }
}

fn same_staged(a: Staged, b: Staged) -> bool
    ensures { result ≡ same_staged a b }
{
    (a.header == b.header)
        & (a.body == b.body)
        & (a.blocks == b.blocks)
        & (a.end == b.end)
        & same_mask(a.mask, b.mask)
}

// the answer given is the one that staging gives
fn is_answer(given: Result<Staged, Refusal>, found: Staged) -> bool
    ensures { result ≡ is_answer given found }
{
    match given {
        Ok(a) => same_staged(a, found),
        Err(_why) => false,
    }
}

// ---- stage

// a kept mask, a spare, a list and an image of such lengths are long enough
fn has_room(e: Extent, kept: usize, spare: usize, list: usize, image: usize) -> bool
    ensures { result ≡ has_room e kept spare list image }
{
    (e.mask <= kept) & (e.mask <= spare) & (e.blocks <= list) & (e.cells <= image)
}

// behind an accepted mask: the body, all of it checked before the list is written
fn stage_behind<'a>(
    s: &[u8],
    h: Header,
    said: Mask,
    kept: &'a [u8],
    spare: &'a [u8],
    list: &mut [usize],
) -> Result<Staged, Refusal>
    requires { (Ready s.now h (in_force (ok said) kept.now spare.now)) × (block_count (shape_of h) ≤ length list.old) }
    ensures { StagedBehind (body_says s.now h (in_force (ok said) kept.now spare.now)) h (ok said) result list.old list.new }
{
    let mask = lerc_validity::mask_in_force(kept, spare, Ok(said));
    let body = body::check_body(s, h, mask, true)?;
    body::list_body(s, h, mask, body, &mut list[..]);
    Ok(body.answer(h, said))
}

// the mask section (6), then what stands behind it
fn stage_masked(
    blob: &[u8],
    h: Header,
    reuse: bool,
    kept: &[u8],
    spare: &mut [u8],
    list: &mut [usize],
    image: &[u64],
) -> Result<Staged, Refusal>
    requires { (header_says blob.now ≡ ok h) × (room h (record { kept = kept.now; spare = spare.old; list = list.old; image = image.now }) ≡ true) }
    ensures { StageRead blob.now reuse result (record { kept = kept.now; spare = spare.old; list = list.old; image = image.now }) spare.new list.new }
{
    let size = h.size as usize;
    let s = &blob[..size];
    let said = lerc_validity::find_mask(s, h, reuse, kept, &mut spare[..])?;
    stage_behind(s, h, said, kept, &spare[..], &mut list[..])
}

// All checking of one blob: header (1 to 4, 13), room of every lent slice, the image's too (5), mask (6), body (1, 7 to 10).
// The spare then holds a new mask that was accepted, and the list the starts of a body in blocks that was. Image and kept mask
// are only looked at.
pub fn stage(
    blob: &[u8],
    reuse: bool,
    kept: &[u8],
    spare: &mut [u8],
    list: &mut [usize],
    image: &[u64],
) -> Result<Staged, Refusal>
    ensures { StageRead blob.now reuse result (record { kept = kept.now; spare = spare.old; list = list.old; image = image.now }) spare.new list.new }
{
    let opened = lerc_header::open_blob(blob)?;
    let h = opened.header;
    let e = opened.extent;
    if !has_room(e, kept.len(), spare.len(), list.len(), image.len()) {
        return Err(Refusal { number: 5, at: 0 });
    }
    stage_masked(blob, h, reuse, kept, &mut spare[..], &mut list[..], image)
}

// ---- publish

fn not_given() -> Refusal
    ensures { result ≡ refuse 3 }
{
    Refusal { number: 3, at: 0 }
}

// a new mask is kept; a reused one already is
fn keep(said: Mask, kept: &mut [u8], spare: &[u8])
    requires { MaskFits (ok said) kept.old spare.now }
    ensures { kept.new ≡ over (in_force (ok said) kept.old spare.now) kept.old }
{
    match said {
        Mask::Spare(n) => lerc_slices::copy(&spare[..n], &mut kept[..]),
        Mask::Kept(_n) => {}
    }
}

// Where the spare does not hold the blob's mask this ends in a refusal: the body's own, judged by that mask, else 3.
fn refuse_changed(s: &[u8], h: Header) -> Refusal
    requires { (h.valid ≡ 0 → ⊥) → Ready s.now h (own_mask s.now h) }
    ensures { fail result ≡ not_held (body_says s.now h (own_mask s.now h)) }
{
    if h.valid == 0 {
        return not_given();
    }
    match body::check_body(s, h, &s[..0], false) {
        Ok(_body) => not_given(),
        Err(why) => why,
    }
}

// behind a mask that both hold: staging's answer is found again and compared, the list too, and then all is written
fn publish_behind(
    s: &[u8],
    h: Header,
    said: Mask,
    given: Result<Staged, Refusal>,
    kept: &mut [u8],
    spare: &[u8],
    list: &[usize],
    image: &mut [u64],
) -> Result<Published, Refusal>
    requires { Behind s.now h (ok said) kept.old spare.now list.now image.old }
    ensures { PublishedBehind (given_body (body_says s.now h (in_force (ok said) kept.old spare.now)) h (ok said) given list.now) h (in_force (ok said) kept.old spare.now) result kept.old kept.new image.old image.new }
{
    let mask = lerc_validity::mask_in_force(&kept[..], spare, Ok(said));
    let body = body::check_body(s, h, mask, true)?;
    let found = body.answer(h, said);
    let is_given = is_answer(given, found) & body::is_listed(s, h, mask, body, list);
    if !is_given {
        return Err(not_given());
    }
    body::write_body(s, h, mask, body, list, &mut image[..]);
    keep(said, &mut kept[..], spare);
    Ok(Published {
        end: found.end,
        words: h.valid as usize * h.depth as usize,
    })
}

// the mask section (6), compared with the spare, then what stands behind it
fn publish_masked(
    blob: &[u8],
    h: Header,
    reuse: bool,
    given: Result<Staged, Refusal>,
    kept: &mut [u8],
    spare: &[u8],
    list: &[usize],
    image: &mut [u64],
) -> Result<Published, Refusal>
    requires { (header_says blob.now ≡ ok h) × (room h (record { kept = kept.old; spare = spare.now; list = list.now; image = image.old }) ≡ true) }
    ensures { Publishing blob.now reuse given result (record { kept = kept.old; spare = spare.now; list = list.now; image = image.old }) kept.new image.new }
{
    let size = h.size as usize;
    let s = &blob[..size];
    let found = lerc_validity::compare_mask(s, h, reuse, &kept[..], spare)?;
    if found.same {
        publish_behind(
            s,
            h,
            found.mask,
            given,
            &mut kept[..],
            spare,
            list,
            &mut image[..],
        )
    } else {
        Err(refuse_changed(s, h))
    }
}

// Writes a blob that was staged: the valid cells of the image, and last the kept mask. All is checked before anything is written,
// and a refusal changes nothing. It refuses what staging would (1 to 10, 13), then an answer, a spare or a list that staging did
// not give for these inputs (3).
pub fn publish(
    blob: &[u8],
    reuse: bool,
    given: Result<Staged, Refusal>,
    kept: &mut [u8],
    spare: &[u8],
    list: &[usize],
    image: &mut [u64],
) -> Result<Published, Refusal>
    ensures { Publishing blob.now reuse given result (record { kept = kept.old; spare = spare.now; list = list.now; image = image.old }) kept.new image.new }
{
    let again = lerc_header::open_blob(blob)?;
    let e = again.extent;
    if has_room(e, kept.len(), spare.len(), list.len(), image.len()) {
        publish_masked(
            blob,
            again.header,
            reuse,
            given,
            &mut kept[..],
            spare,
            list,
            &mut image[..],
        )
    } else {
        Err(Refusal { number: 5, at: 0 })
    }
}

// ---- both

// A whole read in one call: stage, then publish, and nothing else.
pub fn read(
    blob: &[u8],
    reuse: bool,
    kept: &mut [u8],
    spare: &mut [u8],
    list: &mut [usize],
    image: &mut [u64],
) -> Result<Whole, Refusal>
    ensures { WholeRead blob.now reuse result (record { kept = kept.old; spare = spare.old; list = list.old; image = image.old }) (record { kept = kept.new; spare = spare.new; list = list.new; image = image.new }) }
{
    let found = stage(
        blob,
        reuse,
        &kept[..],
        &mut spare[..],
        &mut list[..],
        &image[..],
    )?;
    let done = publish(
        blob,
        reuse,
        Ok(found),
        &mut kept[..],
        &spare[..],
        &list[..],
        &mut image[..],
    )?;
    Ok(Whole {
        header: found.header,
        blocks: found.blocks,
        end: done.end,
    })
}
