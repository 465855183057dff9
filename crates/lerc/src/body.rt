// The body of a blob whose header and mask were accepted: all checking first, then writing that cannot fail.
ghost use Rattle.std.specs.Prelude.{◌≡◌, List, ℕ, ◌≤◌, length};
ghost use Rattle.lerc_words.specs.Res.{ok, refuse, placed};
ghost use Rattle.lerc_header.specs.Limits.{depth_limit};
ghost use Rattle.lerc_header.specs.Header.{shape_of, extent_of, held};
ghost use Rattle.lerc_header.specs.Shape.{block_count};
ghost use Rattle.lerc_image.specs.Blocks.{all_blocks};
ghost use Rattle.lerc_image.specs.Walk.{walk_of};
ghost use Rattle.lerc.specs.Meaning.{missing_word_at, raw_body, block_body, huffman_body, constant_body, swept_body, body_says};
ghost use Rattle.lerc.specs.Parts.{Ready, answer_of, staged_by, mask_by, with_words, body_in, list_after, list_holds, image_after, Checked, ToWrite, Writable};

use super::{BodyKind, Staged, linear};
use lerc_header::{DEPTHS, HEADER, Header, Shape};
use lerc_image::Walked;
use lerc_ranges::Ranges;
use lerc_sweep::Way;
use lerc_validity::Mask;
use lerc_words::Refusal;

// What a body is, where its words or blocks begin, and where it ends.
#[derive(Clone, Copy)]
pub(crate) enum BodyFound {
    Empty,
    Constant {
        end: usize,
    },
    Raw {
        at: usize,
        end: usize,
    },
    Blocks {
        at: usize,
        count: usize,
        end: usize,
    },
    Huffman {
        delta: bool,
        mode: usize,
        end: usize,
    },
}

// A body that was checked. `words` are the words of a constant body, and the maxima of another.
#[derive(Clone, Copy)]
pub(crate) struct BodyChecked {
    found: BodyFound,
    words: [u64; DEPTHS],
}

impl BodyChecked {
    // what staging answers, where this mask is in force
    pub(crate) fn answer(self, header: Header, mask: Mask) -> Staged
        ensures { result ≡ answer_of header (ok mask) self.found }
    {
        let found = self.found;
        match found {
            BodyFound::Empty => tell(header, mask, BodyKind::Empty, 0, HEADER),
            BodyFound::Constant { end } => tell(header, mask, BodyKind::Constant, 0, end),
            BodyFound::Raw { at: _at, end } => tell(header, mask, BodyKind::Raw, 0, end),
            BodyFound::Blocks {
                at: _at,
                count,
                end,
            } => tell(header, mask, BodyKind::Blocks, count, end),
            BodyFound::Huffman {
                delta: _delta,
                mode: _mode,
                end,
            } => tell(header, mask, BodyKind::Huffman, 0, end),
        }
    }
}

fn tell(header: Header, mask: Mask, body: BodyKind, blocks: usize, end: usize) -> Staged
    ensures { result ≡ staged_by header (ok mask) body blocks end }
{
    Staged {
        header,
        body,
        blocks,
        end,
        mask: Ok(mask),
    }
}

fn shape(h: Header) -> Shape
    ensures { result ≡ shape_of h }
{
    Shape {
        rows: h.rows as usize,
        columns: h.columns as usize,
        depth: h.depth as usize,
        side: h.side as usize,
    }
}

// the minimum of each depth, stored: 9
fn check_constant(h: Header, r: Ranges) -> Result<BodyChecked, Refusal>
    requires { (h.depth ≤ depth_limit) × (length r.min ≡ depth_limit) }
    ensures { (s m : List ℕ) → Checked (constant_body h r) s h m result }
{
    let low = r.min;
    let words = lerc_ranges::convert(low, h.depth, h.kind)?;
    Ok(BodyChecked {
        found: BodyFound::Constant { end: r.at },
        words,
    })
}

// 1, at the first word that is not whole
fn missing_word(len: usize, at: usize, kind: u32) -> Refusal
    ensures { result ≡ placed (missing_word_at len at kind) (refuse 1) }
{
    if len < at {
        return Refusal { number: 1, at };
    }
    let size = lerc_numeric::size(kind);
    Refusal {
        number: 1,
        at: at + (len - at) / size * size,
    }
}

// raw words, which must all fit: 1
fn check_raw(s: &[u8], h: Header, at: usize) -> Result<BodyFound, Refusal>
    requires { held h (length s.now) ≡ ok (extent_of h) }
    ensures { (m words : List ℕ) → Checked (raw_body s.now h at) s.now h m (with_words words result) }
{
    let bytes = h.valid as usize * h.depth as usize * lerc_numeric::size(h.kind);
    if s.len() < bytes {
        return Err(missing_word(s.len(), at, h.kind));
    }
    if s.len() - bytes < at {
        return Err(missing_word(s.len(), at, h.kind));
    }
    Ok(BodyFound::Raw {
        at,
        end: at + bytes,
    })
}

// Blocks (1, 8, 9), judged by a mask that is held, or else by the one that stands in the blob.
fn judge_blocks(
    s: &[u8],
    h: Header,
    maxima: &[u64; DEPTHS],
    at: usize,
    mask: &[u8],
    lent: bool,
) -> Result<Walked, Refusal>
    requires { Ready s.now h (mask_by s.now h lent mask.now) }
    ensures { result ≡ walk_of h (all_blocks s.now h maxima.now (mask_by s.now h lent mask.now) at) }
{
    if lent {
        return lerc_image::check_tiles(s, h, mask, maxima, at);
    }
    lerc_image::check_own_tiles(s, h, maxima, at)
}

fn check_blocks(
    s: &[u8],
    h: Header,
    maxima: &[u64; DEPTHS],
    at: usize,
    mask: &[u8],
    lent: bool,
) -> Result<BodyFound, Refusal>
    requires { Ready s.now h (mask_by s.now h lent mask.now) }
    ensures { Checked (block_body s.now h maxima.now (mask_by s.now h lent mask.now) at) s.now h (mask_by s.now h lent mask.now) (with_words maxima.now result) }
{
    let walked = judge_blocks(s, h, maxima, at, mask, lent)?;
    Ok(BodyFound::Blocks {
        at,
        count: walked.blocks,
        end: walked.end,
    })
}

// a Huffman image, all of whose symbols must be right (1, 8); which pixels are valid does not matter, only how many
fn check_huffman(s: &[u8], h: Header, delta: bool, mode: usize) -> Result<BodyFound, Refusal>
    requires { (held h (length s.now) ≡ ok (extent_of h)) × (length s.now ≡ h.size) }
    ensures { (m words : List ℕ) → Checked (huffman_body s.now h delta mode) s.now h m (with_words words result) }
{
    let end = lerc_byte_image::check(s, h, mode)?;
    Ok(BodyFound::Huffman { delta, mode, end })
}

// the body that sweep and mode byte announce
fn check_swept(
    s: &[u8],
    h: Header,
    ranges: Ranges,
    mask: &[u8],
    lent: bool,
) -> Result<BodyFound, Refusal>
    requires { Ready s.now h (mask_by s.now h lent mask.now) }
    ensures { Checked (swept_body s.now h ranges (mask_by s.now h lent mask.now)) s.now h (mask_by s.now h lent mask.now) (with_words ranges.max result) }
{
    let way = lerc_sweep::read_sweep(s, ranges.at, h.kind, h.error)?;
    match way {
        Way::Raw(at) => check_raw(s, h, at),
        Way::Blocks(at) => check_blocks(s, h, &ranges.max, at, mask, lent),
        Way::Huffman { delta, mode } => check_huffman(s, h, delta, mode),
    }
}

// What the body is: empty, constant, raw, in blocks or a Huffman image. Nothing is written.
pub(crate) fn check_body(
    s: &[u8],
    h: Header,
    mask: &[u8],
    lent: bool,
) -> Result<BodyChecked, Refusal>
    requires { Ready s.now h (mask_by s.now h lent mask.now) }
    ensures { Checked (body_says s.now h (mask_by s.now h lent mask.now)) s.now h (mask_by s.now h lent mask.now) result }
{
    if h.valid == 0 {
        return Ok(BodyChecked {
            found: BodyFound::Empty,
            words: [0; DEPTHS],
        });
    }
    let r = lerc_ranges::ranges_in(s, h)?;
    if r.constant {
        return check_constant(h, r);
    }
    let found = check_swept(s, h, r, mask, lent)?;
    let words = r.max;
    Ok(BodyChecked { found, words })
}

// The list of a checked body in blocks; another has none.
pub(crate) fn list_body(s: &[u8], h: Header, mask: &[u8], body: BodyChecked, list: &mut [usize])
    requires { (ToWrite s.now h mask.now body.words body.found) × (block_count (shape_of h) ≤ length list.old) }
    ensures { list.new ≡ list_after (body_in s.now h mask.now body.words body.found) list.old }
{
    let found = body.found;
    match found {
        BodyFound::Blocks {
            at,
            count: _n,
            end: _end,
        } => lerc_image::list_tiles(s, h, mask, at, &mut list[..]),
        BodyFound::Empty => {}
        BodyFound::Constant { end: _end } => {}
        BodyFound::Raw { at: _at, end: _end } => {}
        BodyFound::Huffman {
            delta: _delta,
            mode: _mode,
            end: _end,
        } => {}
    }
}

// Whether the list begins with the starts of a checked body; one without blocks has none.
pub(crate) fn is_listed(s: &[u8], h: Header, mask: &[u8], body: BodyChecked, list: &[usize]) -> bool
    requires { (ToWrite s.now h mask.now body.words body.found) × (block_count (shape_of h) ≤ length list.now) }
    ensures { result ≡ list_holds (body_in s.now h mask.now body.words body.found) list.now }
{
    let found = body.found;
    match found {
        BodyFound::Blocks {
            at,
            count: _n,
            end: _end,
        } => lerc_image::are_listed(s, h, mask, at, list),
        BodyFound::Empty => true,
        BodyFound::Constant { end: _end } => true,
        BodyFound::Raw { at: _at, end: _end } => true,
        BodyFound::Huffman {
            delta: _delta,
            mode: _mode,
            end: _end,
        } => true,
    }
}

// The image of a checked body, whose blocks begin as the list says; nothing is left that could be refused.
pub(crate) fn write_body(
    s: &[u8],
    h: Header,
    mask: &[u8],
    body: BodyChecked,
    list: &[usize],
    image: &mut [u64],
)
    requires { Writable s.now h mask.now body.words body.found list.now image.old }
    ensures { image.new ≡ image_after (body_in s.now h mask.now body.words body.found) h mask.now image.old }
{
    let found = body.found;
    let words = body.words;
    let form = shape(h);
    let size = lerc_numeric::size(h.kind);
    match found {
        BodyFound::Constant { end: _end } => {
            linear::write_constant(form, &words, mask, &mut image[..])
        }
        BodyFound::Raw { at, end: _end } => {
            linear::write_raw(form, s, at, size, mask, &mut image[..])
        }
        BodyFound::Blocks {
            at: _at,
            count: _n,
            end: _end,
        } => lerc_image::fill_tiles(s, h, mask, &words, list, &mut image[..]),
        BodyFound::Huffman {
            delta,
            mode,
            end: _end,
        } => lerc_byte_image::write(s, h, mode, delta, mask, &mut image[..]),
        BodyFound::Empty => {}
    }
}
