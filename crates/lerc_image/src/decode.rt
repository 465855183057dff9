// All blocks of a body: checked, listed, compared with a list and filled, each by itself, and all at once.
ghost use Rattle.std.specs.Prelude.{◌≡◌, ℕ, ◌≤◌, length};
ghost use Rattle.lerc_words.specs.Lists.{over};
ghost use Rattle.lerc_slices.specs.Slices.{begins_with};
ghost use Rattle.lerc_image.specs.Blocks.{all_blocks};
ghost use Rattle.lerc_image.specs.Walk.{walk_of};
ghost use Rattle.lerc_image.specs.Tiles.{checked_tiles, head_starts, listed_tiles, tiles_listed, listed_image, filled_tiles, starts_from, image_from, written_list, written_image, Tiled, tiles_says};
ghost use Rattle.lerc_image.specs.Parts.{BodyAsked};

use super::{
    Position, Walked, all_valid, check_blocks, end_at, has_room, list_starts, put_at, valid_here,
};
use lerc_header::{DEPTHS, Extent, Header};
use lerc_words::Refusal;

// Every block at its listed start to the image; one that is refused leaves it.
fn fill_listed(
    s: &[u8],
    h: Header,
    e: Extent,
    maxima: &[u64; DEPTHS],
    mask: &[u8],
    list: &[usize],
    image: &mut [u64],
)
    requires { (BodyAsked h e) × (e.blocks ≤ length list.now) × (e.cells ≤ length image.old) }
    ensures { image.new ≡ listed_image s.now h maxima.now mask.now list.now image.old }
{
    let shape = e.shape;
    let mut p = Position::start();
    let full = all_valid(h.valid, e.pixels, mask);
    let mut valid: usize = 0;
    let words = &mut [0u64; 256];
    for n in 0..e.blocks {
        let t = p.current(shape);
        valid = valid_here(shape, t, mask, full, valid);
        let at = list[n];
        let _put = put_at(s, at, h, shape, n, t, valid, maxima, mask, words, image);
        p = p.advance(shape);
    }
}

// Each block from `at` on: its start to the list, its words to the image. At the first that is refused it ends.
fn write_blocks(
    s: &[u8],
    at: usize,
    h: Header,
    e: Extent,
    maxima: &[u64; DEPTHS],
    mask: &[u8],
    list: &mut [usize],
    image: &mut [u64],
)
    requires { (BodyAsked h e) × (e.blocks ≤ length list.old) × (e.cells ≤ length image.old) }
    ensures list_after { list.new ≡ over (starts_from s.now h maxima.now mask.now e.blocks 0 at) list.old }
    ensures image_after { image.new ≡ image_from s.now h maxima.now mask.now e.blocks 0 at image.old }
{
    let shape = e.shape;
    let mut p = Position::start();
    let mut next = at;
    let full = all_valid(h.valid, e.pixels, mask);
    let mut valid: usize = 0;
    let words = &mut [0u64; 256];
    for n in 0..e.blocks {
        list[n] = next;
        let t = p.current(shape);
        valid = valid_here(shape, t, mask, full, valid);
        let got = put_at(s, next, h, shape, n, t, valid, maxima, mask, words, image);
        let Ok(end) = got else {
            return;
        };
        next = end;
        p = p.advance(shape);
    }
}

// Every block is checked before the list and the image are written.
fn decode_blocks(
    s: &[u8],
    at: usize,
    h: Header,
    e: Extent,
    maxima: &[u64; DEPTHS],
    mask: &[u8],
    list: &mut [usize],
    image: &mut [u64],
) -> Result<Walked, Refusal>
    requires { (BodyAsked h e) × (e.blocks ≤ length list.old) × (e.cells ≤ length image.old) }
    ensures { Tiled (all_blocks s.now h maxima.now mask.now at) h mask.now result list.old list.new image.old image.new }
{
    let checked = check_blocks(s, at, h, e, maxima, mask)?;
    write_blocks(s, at, h, e, maxima, mask, &mut list[..], &mut image[..]);
    Ok(checked)
}

// Whether the list begins with the start of each block, as the heads give them; none behind a head that cannot be read.
fn starts_listed(s: &[u8], at: usize, h: Header, e: Extent, mask: &[u8], list: &[usize]) -> bool
    requires { (BodyAsked h e) × (e.blocks ≤ length list.now) }
    ensures { result ≡ begins_with (head_starts s.now h mask.now e.blocks 0 at) list.now }
{
    let shape = e.shape;
    let mut p = Position::start();
    let mut start = at;
    for k in 0..e.blocks {
        if list[k] != start {
            return false;
        }
        let t = p.current(shape);
        let Ok(end) = end_at(s, start, h.kind, shape, t, mask) else {
            return true;
        };
        start = end;
        p = p.advance(shape);
    }
    true
}

// Every block from `at` on, judged with its values: 3, 4, 1, 5, then block by block 1, 8, 9. Nothing is written.
pub fn check_tiles(
    blob: &[u8],
    h: Header,
    mask: &[u8],
    maxima: &[u64; DEPTHS],
    at: usize,
) -> Result<Walked, Refusal>
    ensures { result ≡ walk_of h (checked_tiles blob.now h mask.now maxima.now at) }
{
    let e = h.held(blob.len())?;
    if mask.len() < e.mask {
        return Err(Refusal { number: 5, at: 0 });
    }
    let size = e.size;
    check_blocks(&blob[..size], at, h, e, maxima, mask)
}

// The start of each block from `at` on, read from the heads alone. Nothing is refused: without room nothing is written.
pub fn list_tiles(blob: &[u8], h: Header, mask: &[u8], at: usize, list: &mut [usize])
    ensures { list.new ≡ listed_tiles blob.now h mask.now at list.old }
{
    let Ok(e) = h.held(blob.len()) else {
        return;
    };
    let room = (e.mask <= mask.len()) & (e.blocks <= list.len());
    if !room {
        return;
    }
    let size = e.size;
    list_starts(&blob[..size], at, h, e, mask, &mut list[..]);
}

// Whether the list begins with the start of each block from `at` on, as the heads give them. Nothing is written; without room it does not.
pub fn are_listed(blob: &[u8], h: Header, mask: &[u8], at: usize, list: &[usize]) -> bool
    ensures { result ≡ tiles_listed blob.now h mask.now at list.now }
{
    let Ok(e) = h.held(blob.len()) else {
        return false;
    };
    let fits = (e.mask <= mask.len()) & (e.blocks <= list.len());
    if !fits {
        return false;
    }
    let size = e.size;
    starts_listed(&blob[..size], at, h, e, mask, list)
}

// Each block at its listed start to the image; one that is refused leaves it. Nothing is refused: without room nothing is written.
pub fn fill_tiles(
    blob: &[u8],
    h: Header,
    mask: &[u8],
    maxima: &[u64; DEPTHS],
    list: &[usize],
    image: &mut [u64],
)
    ensures { image.new ≡ filled_tiles blob.now h mask.now maxima.now list.now image.old }
{
    let Ok(e) = h.held(blob.len()) else {
        return;
    };
    if !has_room(e, mask.len(), list.len(), image.len()) {
        return;
    }
    let size = e.size;
    fill_listed(&blob[..size], h, e, maxima, mask, list, &mut image[..]);
}

// Each block from `at` on: its start to the list, its words to the image, up to the first that is refused. Nothing is refused here:
// without room nothing is written.
pub fn write_tiles(
    blob: &[u8],
    h: Header,
    mask: &[u8],
    maxima: &[u64; DEPTHS],
    at: usize,
    list: &mut [usize],
    image: &mut [u64],
)
    ensures list_after { list.new ≡ written_list blob.now h mask.now maxima.now at list.old (length image.old) }
    ensures image_after { image.new ≡ written_image blob.now h mask.now maxima.now at (length list.old) image.old }
{
    let Ok(e) = h.held(blob.len()) else {
        return;
    };
    if !has_room(e, mask.len(), list.len(), image.len()) {
        return;
    }
    let size = e.size;
    let bytes = &blob[..size];
    write_blocks(bytes, at, h, e, maxima, mask, &mut list[..], &mut image[..]);
}

// All blocks from `at` on: 3, 4, 1, 5, then block by block 1, 8, 9.
pub fn decode_tiles(
    blob: &[u8],
    h: Header,
    mask: &[u8],
    maxima: &[u64; DEPTHS],
    at: usize,
    list: &mut [usize],
    image: &mut [u64],
) -> Result<Walked, Refusal>
    ensures { Tiled (tiles_says blob.now h mask.now maxima.now at (length list.old) (length image.old)) h mask.now result list.old list.new image.old image.new }
{
    let e = h.held(blob.len())?;
    if !has_room(e, mask.len(), list.len(), image.len()) {
        return Err(Refusal { number: 5, at: 0 });
    }
    let size = e.size;
    decode_blocks(
        &blob[..size],
        at,
        h,
        e,
        maxima,
        mask,
        &mut list[..],
        &mut image[..],
    )
}
