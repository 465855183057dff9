// Tiles of an image, its blocks by number, walking them and filling one.
#![tactic(auto)]

ghost use Rattle.std.specs.Prelude.{◌≡◌, ℕ, ◌+◌, ◌*◌, ◌^◌, ◌≤◌, ◌<◌, min, length, get_or, take};
ghost use Rattle.std.specs.Int.Count.{ones};
ghost use Rattle.lerc_words.specs.Lists.{over, total};
ghost use Rattle.lerc_header.specs.Shape.{Shaped, block_count, cells};
ghost use Rattle.lerc_image.specs.Geometry.{HasTile, tile_here, next_of, position_of, valid_in_tile};
ghost use Rattle.lerc_image.specs.Fill.{Filled};
ghost use Rattle.lerc_image.specs.Blocks.{block_at, all_blocks};
ghost use Rattle.lerc_header.specs.Limits.{depth_limit};
ghost use Rattle.lerc_image.specs.Walk.{BlocksWalked, body_walked, walk_of};
ghost use Rattle.lerc_image.specs.Tiles.{head_starts};
ghost use Rattle.lerc_image.specs.Parts.{TileIn, BodyAsked, Asked, has_room, ones_apart, is_square, all_valid, CountAsked, BlockTile, FillAsked, cursor_of, cursor_next, BlockScattered, BlockPut, BlockFilled, BodyListed};
ghost use Rattle.lerc_block.specs.Block.{read_block_says, next_block};
ghost use Rattle.lerc_words.specs.Res.{marked};
ghost use Rattle.lerc_block.specs.Plan.{plan_at, plan_end};

use lerc_header::{DEPTHS, Extent, Header, Shape};
use lerc_ranges::Ranges;
use lerc_sweep::Way;
use lerc_words::Refusal;

mod decode;
mod own;
mod put;

pub use decode::{are_listed, check_tiles, decode_tiles, fill_tiles, list_tiles, write_tiles};
pub use own::check_own_tiles;

#[derive(Clone, Copy)]
pub struct Tile {
    pub x: usize,
    pub y: usize,
    pub w: usize,
    pub h: usize,
    pub d: usize,
}

#[derive(Clone, Copy)]
pub struct Position {
    pub x: usize,
    pub y: usize,
    pub d: usize,
}

// A pixel of a tile, and its column there.
#[derive(Clone, Copy)]
struct Cursor {
    pixel: usize,
    column: usize,
}

// How many blocks, and where the last one ends.
#[derive(Clone, Copy, Debug, PartialEq, Eq)]
pub struct Walked {
    pub blocks: usize,
    pub end: usize,
}

fn lesser(a: usize, b: usize) -> usize
    ensures { result ≡ min a b }
{
    if a < b { a } else { b }
}

impl Position {
    fn start() -> Position
        ensures { result ≡ record { x = 0; y = 0; d = 0 } }
    {
        Position { x: 0, y: 0, d: 0 }
    }

    // the position of block n
    fn of(h: Shape, n: usize) -> Position
        requires shaped { Shaped h }
        requires n_bound { n < block_count h }
        ensures { result ≡ position_of h n }
    {
        let across = (h.columns + h.side - 1) / h.side;
        let t = n / h.depth;
        Position {
            x: t % across * h.side,
            y: t / across * h.side,
            d: n % h.depth,
        }
    }

    // the tile here, cut at the right and lower edge
    fn current(self, h: Shape) -> Tile
        requires shaped { Shaped h }
        requires has_tile { HasTile h self }
        ensures { result ≡ tile_here h self }
    {
        Tile {
            x: self.x,
            y: self.y,
            w: lesser(h.side, h.columns - self.x),
            h: lesser(h.side, h.rows - self.y),
            d: self.d,
        }
    }

    // depth first, then x, then y
    fn advance(self, h: Shape) -> Position
        requires shaped { Shaped h }
        requires has_tile { HasTile h self }
        ensures { result ≡ next_of h self }
    {
        if self.d + 1 < h.depth {
            return Position {
                x: self.x,
                y: self.y,
                d: self.d + 1,
            };
        }
        let t = self.current(h);
        if self.x + t.w < h.columns {
            return Position {
                x: self.x + t.w,
                y: self.y,
                d: 0,
            };
        }
        Position {
            x: 0,
            y: self.y + t.h,
            d: 0,
        }
    }
}

impl Cursor {
    // the first pixel of a tile
    fn first(h: Shape, t: Tile) -> Cursor
        requires { TileIn h t }
        ensures { result ≡ cursor_of h t 0 }
    {
        Cursor {
            pixel: t.y * h.columns + t.x,
            column: 0,
        }
    }

    // the next pixel of a tile w wide, row by row
    fn step(self, w: usize, columns: usize) -> Cursor
        requires { (self.column < w) × (w ≤ columns) × (self.pixel + columns < 2 ^ 64) }
        ensures { result ≡ cursor_next w columns self }
    {
        if self.column + 1 < w {
            return Cursor {
                pixel: self.pixel + 1,
                column: self.column + 1,
            };
        }
        Cursor {
            pixel: self.pixel + 1 + (columns - w),
            column: 0,
        }
    }
}

fn wide(x: u8) -> u64
    ensures { result ≡ x }
{
    x as u64
}

// The bits of eight bytes, each `step` behind the one before, side by side in one number.
fn side_by_side(mask: &[u8], at: usize, step: usize) -> u64
    requires { (at + 7 * step < length mask.now) × (at + 8 * step < 2 ^ 64) }
    ensures { ones result ≡ total 8 (ones_apart mask.now at step) }
{
    let mut bits: u64 = 0;
    let mut k = at;
    for _ in 0..8usize {
        bits = bits * 256 + wide(mask[k]);
        k += step;
    }
    bits
}

// A tile of eight rows that are a byte of the mask each.
fn is_square(h: Shape, t: Tile) -> bool
    ensures { result ≡ is_square h t }
{
    (t.w == 8) & (t.h == 8) & (t.x % 8 == 0) & (h.columns % 8 == 0)
}

// How many pixels of a tile are valid, row by row.
fn count_rows(h: Shape, t: Tile, mask: &[u8]) -> usize
    requires { TileIn h t }
    ensures { result ≡ valid_in_tile h mask.now t }
{
    let mut first = t.y * h.columns + t.x;
    let mut found: usize = 0;
    for _ in 0..t.h {
        found += lerc_mask::count_from(mask, first, t.w);
        first += h.columns;
    }
    found
}

// How many pixels of a tile are valid. Most tiles are squares, whose rows are counted at once.
fn count_valid(h: Shape, t: Tile, mask: &[u8]) -> usize
    requires { TileIn h t }
    ensures { result ≡ valid_in_tile h mask.now t }
{
    let step = h.columns / 8;
    let end = (t.y + 8) * step;
    if is_square(h, t) & (end <= mask.len()) {
        return lerc_mask::ones_word(side_by_side(mask, t.y * step + t.x / 8, step));
    }
    count_rows(h, t, mask)
}

// Every pixel is valid. Only where the header says so is the mask counted.
fn all_valid(valid: u32, pixels: usize, mask: &[u8]) -> bool
    ensures { result ≡ all_valid valid pixels mask.now }
{
    if valid as usize != pixels {
        return false;
    }
    lerc_mask::count(mask, pixels) == pixels
}

// How many pixels of a tile are valid. Above depth 0 the block before has the same tile, and `before` is its number; where `full`,
// every pixel of the image is.
fn valid_here(h: Shape, t: Tile, mask: &[u8], full: bool, before: usize) -> usize
    requires { CountAsked h t mask.now full before }
    ensures { result ≡ valid_in_tile h mask.now t }
{
    if 0 < t.d {
        return before;
    }
    if full {
        return t.h * t.w;
    }
    count_valid(h, t, mask)
}

// The words of block `number`, whose tile is `t`, at its valid cells; how many.
fn scatter(
    h: Shape,
    t: Tile,
    number: usize,
    mask: &[u8],
    words: &[u64; 256],
    image: &mut [u64],
) -> usize
    requires { Asked h t number image.old }
    ensures { BlockScattered h number mask.now words.now image.old result image.new }
{
    let size = t.h * t.w;
    let mut at = Cursor::first(h, t);
    let mut used: usize = 0;
    for _ in 0..size {
        if lerc_mask::is_valid(mask, at.pixel) {
            image[at.pixel * h.depth + t.d] = words[used];
            used += 1;
        }
        at = at.step(t.w, h.columns);
    }
    used
}

// Block n at a place, whose tile is `t` with `valid` valid pixels: its words to the image once it is accepted; where the next begins.
fn put_at(
    s: &[u8],
    at: usize,
    h: Header,
    shape: Shape,
    n: usize,
    t: Tile,
    valid: usize,
    maxima: &[u64; DEPTHS],
    mask: &[u8],
    words: &mut [u64; 256],
    image: &mut [u64],
) -> Result<usize, Refusal>
    requires { (BlockTile h shape n t) × (valid ≡ valid_in_tile shape mask.now t) × (cells shape ≤ length image.old) }
    ensures { BlockPut shape mask.now n (block_at s.now h maxima.now mask.now n at) result image.old image.new }
{
    let depth = t.d;
    let top = maxima[depth];
    let next = lerc_block::read_block(s, at, h.kind, h.error, top, t.x, valid, words)?;
    put::put_tile(shape, t, n, valid, mask, words, &mut image[..]);
    Ok(next)
}

// Block n at its listed start, of a blob whose header is held.
fn fill_number(
    blob: &[u8],
    h: Header,
    e: Extent,
    maxima: &[u64; DEPTHS],
    mask: &[u8],
    list: &[usize],
    n: usize,
    image: &mut [u64],
) -> Result<usize, Refusal>
    requires { FillAsked h e n blob.now list.now image.old }
    ensures { BlockFilled e.shape mask.now n (block_at (take e.size blob.now) h maxima.now mask.now n (get_or list.now n 0)) result image.old image.new }
{
    let size = e.size;
    let s = &blob[..size];
    let at = list[n];
    let shape = e.shape;
    let p = Position::of(shape, n);
    let t = p.current(shape);
    let valid = count_valid(shape, t, mask);
    let words = &mut [0u64; 256];
    put_at(s, at, h, shape, n, t, valid, maxima, mask, words, image)?;
    Ok(valid)
}

// A mask, a list and an image of such lengths are long enough.
fn has_room(e: Extent, mask: usize, list: usize, image: usize) -> bool
    ensures { result ≡ has_room e mask list image }
{
    (e.mask <= mask) & (e.blocks <= list) & (e.cells <= image)
}

// Block `number` of a blob, at its listed start; the image is written once the block is accepted.
pub fn fill(
    blob: &[u8],
    h: Header,
    ranges: Ranges,
    mask: &[u8],
    list: &[usize],
    number: usize,
    image: &mut [u64],
) -> Result<usize, Refusal>
    ensures { Filled blob.now h ranges mask.now list.now number result image.old image.new }
{
    let e = h.held(blob.len())?;
    if e.blocks <= number {
        return Err(Refusal { number: 11, at: 0 });
    }
    if !has_room(e, mask.len(), list.len(), image.len()) {
        return Err(Refusal { number: 5, at: 0 });
    }
    lerc_ranges::pairs(h.depth, ranges)?;
    fill_number(blob, h, e, &ranges.max, mask, list, number, &mut image[..])
}

// The block of a tile with `valid` valid pixels at a place, as it is judged: where the next begins.
fn check_at(
    s: &[u8],
    at: usize,
    h: Header,
    t: Tile,
    valid: usize,
    maxima: &[u64; DEPTHS],
) -> Result<usize, Refusal>
    requires { t.d < depth_limit }
    ensures { result ≡ next_block (marked at (read_block_says s.now at h.kind h.error (get_or maxima.now t.d 0) t.x valid)) }
{
    let plane = t.d;
    let top = maxima[plane];
    lerc_block::check_block(s, at, h.kind, h.error, top, t.x, valid)
}

// Every block, judged with its values: how many, and where the last one ends.
fn check_blocks(
    s: &[u8],
    at: usize,
    h: Header,
    e: Extent,
    maxima: &[u64; DEPTHS],
    mask: &[u8],
) -> Result<Walked, Refusal>
    requires { BodyAsked h e }
    ensures { result ≡ walk_of h (all_blocks s.now h maxima.now mask.now at) }
{
    let shape = e.shape;
    let mut p = Position::start();
    let mut next = at;
    let full = all_valid(h.valid, e.pixels, mask);
    let mut valid: usize = 0;
    for _ in 0..e.blocks {
        let t = p.current(shape);
        valid = valid_here(shape, t, mask, full, valid);
        next = check_at(s, next, h, t, valid, maxima)?;
        p = p.advance(shape);
    }
    Ok(Walked {
        blocks: e.blocks,
        end: next,
    })
}

// Where the block of tile `t` at a place ends. Only a raw block is as long as its tile has valid pixels, so only for one are they counted.
fn end_at(s: &[u8], at: usize, kind: u32, h: Shape, t: Tile, mask: &[u8]) -> Result<usize, Refusal>
    requires { TileIn h t }
    ensures { result ≡ plan_end (marked at (plan_at s.now at kind t.x (valid_in_tile h mask.now t))) }
{
    if lerc_words::bytes(s, at, 1) % 4 != 0 {
        return lerc_block::block_end(s, at, kind, t.x, 0);
    }
    let valid = count_valid(h, t, mask);
    lerc_block::block_end(s, at, kind, t.x, valid)
}

// The start of each block, read from the heads alone; none behind a head that cannot be read.
fn list_starts(s: &[u8], at: usize, h: Header, e: Extent, mask: &[u8], list: &mut [usize])
    requires { (BodyAsked h e) × (e.blocks ≤ length list.old) }
    ensures { list.new ≡ over (head_starts s.now h mask.now e.blocks 0 at) list.old }
{
    let shape = e.shape;
    let mut p = Position::start();
    let mut start = at;
    for k in 0..e.blocks {
        list[k] = start;
        let t = p.current(shape);
        let Ok(end) = end_at(s, start, h.kind, shape, t, mask) else {
            return;
        };
        start = end;
        p = p.advance(shape);
    }
}

// Two passes over the blocks: every one is checked before the list is written.
fn walk_blocks(
    s: &[u8],
    at: usize,
    h: Header,
    e: Extent,
    maxima: &[u64; DEPTHS],
    mask: &[u8],
    list: &mut [usize],
) -> Result<Walked, Refusal>
    requires { (BodyAsked h e) × (e.blocks ≤ length list.old) }
    ensures { BodyListed h (all_blocks s.now h maxima.now mask.now at) result list.old list.new }
{
    let checked = check_blocks(s, at, h, e, maxima, mask)?;
    list_starts(s, at, h, e, mask, &mut list[..]);
    Ok(checked)
}

// A body that is neither empty nor constant.
fn walk_body(
    s: &[u8],
    at: usize,
    h: Header,
    e: Extent,
    maxima: &[u64; DEPTHS],
    mask: &[u8],
    list: &mut [usize],
) -> Result<Walked, Refusal>
    requires { (BodyAsked h e) × (e.blocks ≤ length list.old) }
    ensures { BodyListed h (body_walked s.now h maxima.now mask.now at) result list.old list.new }
{
    let way = lerc_sweep::read_sweep(s, at, h.kind, h.error)?;
    match way {
        Way::Raw(_start) => Err(Refusal { number: 10, at }),
        Way::Blocks(start) => walk_blocks(s, start, h, e, maxima, mask, &mut list[..]),
        Way::Huffman {
            delta: _delta,
            mode,
        } => Err(Refusal {
            number: 10,
            at: mode,
        }),
    }
}

// Every block of a blob checked, then the list of their starts.
pub fn walk(
    blob: &[u8],
    h: Header,
    ranges: Ranges,
    mask: &[u8],
    list: &mut [usize],
) -> Result<Walked, Refusal>
    ensures { BlocksWalked blob.now h ranges mask.now result list.old list.new }
{
    let e = h.held(blob.len())?;
    let room = (e.mask <= mask.len()) & (e.blocks <= list.len());
    if !room {
        return Err(Refusal { number: 5, at: 0 });
    }
    lerc_ranges::pairs(h.depth, ranges)?;
    let coded = (0 < h.valid) & !ranges.constant;
    if !coded {
        return Err(Refusal { number: 10, at: 0 });
    }
    let size = e.size;
    let at = ranges.at;
    walk_body(&blob[..size], at, h, e, &ranges.max, mask, &mut list[..])
}
