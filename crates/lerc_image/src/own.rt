// Every block judged by the mask that stands coded in the blob itself, with no slice to unroll it into.
ghost use Rattle.std.specs.Prelude.{◌≡◌, ℕ, ◌+◌, ◌-◌, ◌/◌, ◌%◌, ◌^◌, ◌≤◌, ◌<◌, eqb, get_or};
ghost use Rattle.lerc_words.specs.Res.{marked};
ghost use Rattle.lerc_header.specs.Limits.{depth_limit, side_limit};
ghost use Rattle.lerc_block.specs.Block.{read_block_says, next_block};
ghost use Rattle.lerc_mask.specs.Seek.{given, OnWay};
ghost use Rattle.lerc_image.specs.Geometry.{valid_in_tile};
ghost use Rattle.lerc_image.specs.Blocks.{all_blocks};
ghost use Rattle.lerc_image.specs.Walk.{walk_of};
ghost use Rattle.lerc_image.specs.Parts.{TileIn, BodyAsked};
ghost use Rattle.lerc_image.specs.Own.{own_tiles, mask_by, RowsOnWay, RowCounted, OwnAsked};

use super::{Position, Tile, Walked};
use lerc_header::{DEPTHS, Extent, HEADER, Header, Shape};
use lerc_mask::RunPlace;
use lerc_words::Refusal;

// The rows of a tile at most.
const ROWS: usize = 16;

// How many pixels of a row are valid, and where the runs stand behind it.
#[derive(Clone, Copy)]
struct RowFound {
    place: RunPlace,
    found: usize,
}

// Pixel k of a byte, as a number.
fn bit_of(byte: u8, k: usize) -> usize
    requires { k < 8 }
    ensures { result ≡ byte / 2 ^ (7 - k) % 2 }
{
    (byte as usize >> (7 - k)) % 2
}

// How many of the n pixels from `first` on are valid by the runs, sought from a place on.
fn count_row(section: &[u8], want: usize, first: usize, n: usize, from: RunPlace) -> RowFound
    requires { OnWay want section.now from × (first + n < 2 ^ 64) }
    ensures { RowCounted want section.now first n result }
{
    let mut place = from;
    let mut found: usize = 0;
    for k in 0..n {
        let pixel = first + k;
        let got = lerc_mask::byte_from(section, want, place, pixel / 8);
        found += bit_of(got.byte, pixel % 8);
        place = got.place;
    }
    RowFound { place, found }
}

// How many pixels of a tile are valid by the runs. Each row goes on from its own place, which the tile before has left.
fn count_tile(
    h: Shape,
    t: Tile,
    section: &[u8],
    want: usize,
    places: &mut [RunPlace; ROWS],
) -> usize
    requires { TileIn h t × (t.h ≤ side_limit) × RowsOnWay want section.now places.old }
    ensures { (result ≡ valid_in_tile h (given want section.now) t) × RowsOnWay want section.now places.new }
{
    let mut first = t.y * h.columns + t.x;
    let mut found: usize = 0;
    for row in 0..t.h {
        let got = count_row(section, want, first, t.w, places[row]);
        places[row] = got.place;
        found += got.found;
        first += h.columns;
    }
    found
}

// How many pixels of a tile are valid. Above depth 0 the block before has the same tile, and `before` is its number; where `full`,
// every pixel of the image is.
fn valid_own(
    h: Shape,
    t: Tile,
    section: &[u8],
    want: usize,
    full: bool,
    before: usize,
    places: &mut [RunPlace; ROWS],
) -> usize
    requires { OwnAsked h t want section.now full before places.old }
    ensures { (result ≡ valid_in_tile h (mask_by full want section.now) t) × RowsOnWay want section.now places.new }
{
    if 0 < t.d {
        return before;
    }
    if full {
        return t.h * t.w;
    }
    count_tile(h, t, section, want, places)
}

// The block of a tile with `valid` valid pixels at a place, as it is judged. `check_at` says the same: with one caller each the
// compiler puts both in line.
fn judge_at(
    s: &[u8],
    at: usize,
    h: Header,
    t: Tile,
    valid: usize,
    maxima: &[u64; DEPTHS],
) -> Result<usize, Refusal>
    requires { t.d < depth_limit }
    ensures { result ≡ next_block (marked at (read_block_says s.now at h.kind h.error (get_or maxima.now t.d 0) t.x valid)) }
{
    let depth = t.d;
    let most = maxima[depth];
    lerc_block::check_block(s, at, h.kind, h.error, most, t.x, valid)
}

// Every block, judged with its values by the mask that a section of runs gives: how many, and where the last one ends.
fn check_own(
    s: &[u8],
    at: usize,
    h: Header,
    e: Extent,
    maxima: &[u64; DEPTHS],
    section: &[u8],
) -> Result<Walked, Refusal>
    requires { BodyAsked h e }
    ensures { result ≡ walk_of h (all_blocks s.now h maxima.now (mask_by (eqb h.valid e.pixels) e.mask section.now) at) }
{
    let shape = e.shape;
    let want = e.mask;
    let full = h.valid as usize == e.pixels;
    let mut p = Position::start();
    let mut next = at;
    let mut valid: usize = 0;
    let places = &mut [RunPlace { at: 0, made: 0 }; ROWS];
    for _ in 0..e.blocks {
        let t = p.current(shape);
        valid = valid_own(shape, t, section, want, full, valid, places);
        next = judge_at(s, next, h, t, valid, maxima)?;
        p = p.advance(shape);
    }
    Ok(Walked {
        blocks: e.blocks,
        end: next,
    })
}

// Every block from `at` on, judged with its values by the blob's own mask: 3, 4, 1, then block by block 1, 8, 9. Nothing is written.
pub fn check_own_tiles(
    blob: &[u8],
    h: Header,
    maxima: &[u64; DEPTHS],
    at: usize,
) -> Result<Walked, Refusal>
    ensures { result ≡ walk_of h (own_tiles blob.now h maxima.now at) }
{
    let e = h.held(blob.len())?;
    let size = e.size;
    let end = e.ranges;
    let s = &blob[..size];
    check_own(s, at, h, e, maxima, &s[HEADER..end])
}
