// The program's text for the bytes that it reads: a blob's cells, or for a refusal one line with its number and its place.
// No mask is reused.
#![tactic(auto)]

ghost use Rattle.std.specs.Prelude.{ℕ, ◌≤◌};
ghost use Rattle.lerc_header.specs.Header.{shape_of};
ghost use Rattle.lerc_header.specs.Shape.{cells};
ghost use Rattle.lerc_text.specs.Text.{Put, valid_in, word_in};
ghost use Rattle.lerc_program.specs.Program.{cells_most, image_text, refusal_text, program_text, Answered};
ghost use Rattle.lerc_program.specs.Parts.{Ready};

use lerc_header::Header;
use lerc_words::Refusal;

// the largest blob that is read
pub const BYTES: usize = 16384;

// the largest image; it has no more blocks, and its mask an eighth of that
const CELLS: usize = 4096;

const MASK: usize = 512;

// the longest text is shorter: 31 bytes for a cell, and four lines more
pub const TEXT: usize = 131072;

fn refuse(why: Refusal, out: &mut [u8]) -> usize
    ensures { Put out.old 0 (refusal_text why) result out.new }
{
    lerc_text::put_refusal(&mut out[..], 0, why.number, why.at)
}

fn put_image(
    h: Header,
    blocks: usize,
    end: usize,
    mask: &[u8],
    image: &[u64],
    out: &mut [u8],
) -> usize
    requires { cells (shape_of h) ≤ cells_most }
    ensures { Put out.old 0 (image_text h blocks end (valid_in h.depth mask.now) (word_in image.now)) result out.new }
{
    let cells = h.rows as usize * h.columns as usize * h.depth as usize;
    let p = lerc_text::put_shape(&mut out[..], 0, h.columns, h.rows, h.depth, h.kind, h.valid);
    let p = lerc_text::put_line(&mut out[..], p, b"blocks ", blocks as u64);
    let p = lerc_text::put_cells(&mut out[..], p, cells, h.depth as usize, mask, image);
    lerc_text::put_line(&mut out[..], p, b"end ", end as u64)
}

// A whole read into lent zeros, which have room for as many cells as the program takes: more are refused by it (5).
fn decode(
    blob: &[u8],
    kept: &mut [u8],
    spare: &mut [u8],
    list: &mut [usize],
    image: &mut [u64],
    out: &mut [u8],
) -> usize
    requires { Ready blob.now (record { kept = kept.old; spare = spare.old; list = list.old; image = image.old }) }
    ensures { Put out.old 0 (program_text blob.now) result out.new }
{
    let answer = lerc::read(
        blob,
        false,
        &mut kept[..],
        &mut spare[..],
        &mut list[..],
        &mut image[..],
    );
    match answer {
        Ok(whole) => put_image(
            whole.header,
            whole.blocks,
            whole.end,
            &kept[..],
            &image[..],
            &mut out[..],
        ),
        Err(why) => refuse(why, &mut out[..]),
    }
}

// the text at the start of `out`, as much as there is room for
fn put_answer(input: &[u8], out: &mut [u8]) -> usize
    ensures { Put out.old 0 (program_text input.now) result out.new }
{
    if BYTES < input.len() {
        return refuse(Refusal { number: 4, at: 0 }, &mut out[..]);
    }
    let mut kept = [0u8; MASK];
    let mut spare = [0u8; MASK];
    let mut list = [0usize; CELLS];
    let mut image = [0u64; CELLS];
    decode(
        input,
        &mut kept,
        &mut spare,
        &mut list,
        &mut image,
        &mut out[..],
    )
}

// The text that the rules give for an input: its first bytes and its length; every byte behind it is as it was.
pub fn answer(input: &[u8], out: &mut [u8; TEXT]) -> usize
    ensures { Answered input.now out.old result out.new }
{
    put_answer(input, &mut out[..])
}
