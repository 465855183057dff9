// The header of a blob: its fields, the rules it is held to, and the sizes that follow from it.
#![tactic(auto)]

ghost use Rattle.std.specs.Prelude.{◌≡◌, ℕ, ◌+◌, ◌*◌, ◌<◌, ◌≤◌, length};
ghost use Rattle.lerc_words.specs.Res.{little};
ghost use Rattle.lerc_header.specs.Shape as Sizes;
ghost use Rattle.lerc_header.specs.Header as Rules;
ghost use Rattle.lerc_header.specs.Limits.{sideways, side_limit};

use lerc_words::Refusal;

// The most depths an image may have, and so the length of every array by depth.
pub const DEPTHS: usize = 64;

// The bytes of a header; the mask section begins behind them.
pub const HEADER: usize = 70;

// The other ceilings.
const SIDEWAYS: u32 = 4096;

const CELLS: u64 = 4_194_304;

const SIDE: u32 = 16;

const SIZE: u32 = 16_777_216;

// The key, and above it the first two bytes of the version: eight bytes are compared at once.
const KEY: u64 = 0x4_2032_6372_654C;

const VERSION: u32 = 4;

// The bits of -0.0, the least with a sign, and of infinity, the least without one that are not finite.
const SIGN: u64 = 0x8000_0000_0000_0000;

const INFINITE: u64 = 0x7FF0_0000_0000_0000;

#[derive(Clone, Copy, Debug, PartialEq, Eq)]
pub struct Header {
    pub rows: u32,
    pub columns: u32,
    pub depth: u32,
    pub valid: u32,
    pub side: u32,
    pub size: u32,
    pub kind: u32,
    pub error: u64,
    pub min: u64,
    pub max: u64,
    pub mask: u32,
}

// All that the geometry of an image depends on.
#[derive(Clone, Copy, Debug, PartialEq, Eq)]
pub struct Shape {
    pub rows: usize,
    pub columns: usize,
    pub depth: usize,
    pub side: usize,
}

// What follows from a header that keeps the rules.
#[derive(Clone, Copy, Debug, PartialEq, Eq)]
pub struct Extent {
    pub shape: Shape,
    pub pixels: usize,
    pub cells: usize,
    pub mask: usize,
    pub blocks: usize,
    pub ranges: usize,
    pub size: usize,
}

// A header, and what follows from it.
#[derive(Clone, Copy, Debug, PartialEq, Eq)]
pub struct Opened {
    pub header: Header,
    pub extent: Extent,
}

// sign clear and below 2^1023, the binary64 0x7FE0_0000_0000_0000; -0.0 has the sign
fn error_right(e: u64) -> bool
    ensures { result ≡ Rules.error_right e }
{
    e < 0x7FE0_0000_0000_0000
}

// both finite, the maximum not less than the minimum: by their signs, since bits without one rise with the number
pub fn pair_right(low: u64, high: u64) -> bool
    ensures { result ≡ Rules.pair_right low high }
{
    if low < SIGN {
        if high < INFINITE {
            return low <= high;
        }
        return (low == 0) & (high == SIGN);
    }
    if SIGN + INFINITE <= low {
        return false;
    }
    if high < INFINITE {
        return true;
    }
    (SIGN <= high) & (high <= low)
}

// The fields have 32 bits, so that no product or sum of two wraps in 64. The pair, which branches, is judged last.
fn fields_right(h: Header) -> bool
    ensures { result ≡ Rules.fields_right h }
{
    let right = (0 < h.rows)
        & (0 < h.columns)
        & (0 < h.depth)
        & (0 < h.side)
        & (h.valid as u64 <= h.rows as u64 * h.columns as u64)
        & (h.kind <= 7)
        & error_right(h.error)
        & (HEADER as u64 + h.mask as u64 <= h.size as u64);
    if right {
        pair_right(h.min, h.max)
    } else {
        false
    }
}

// The three factors are judged before their product, which would wrap.
fn within_ceilings(h: Header) -> bool
    ensures { result ≡ Rules.within_ceilings h }
{
    let factors = (h.rows <= SIDEWAYS) & (h.columns <= SIDEWAYS) & (h.depth as usize <= DEPTHS);
    if factors {
        (h.rows as u64 * h.columns as u64 * h.depth as u64 <= CELLS)
            & (h.side <= SIDE)
            & (h.size <= SIZE)
    } else {
        false
    }
}

// how many strips of a side cover a length
fn strips(side: usize, n: usize) -> usize
    requires { (0 < side) × (side ≤ side_limit) × (n ≤ sideways) }
    ensures { result ≡ Sizes.strips side n }
{
    (n + side - 1) / side
}

fn measure(h: Header) -> Extent
    requires { Sizes.Shaped (Rules.shape_of h) }
    ensures { result ≡ Rules.extent_of h }
{
    let rows = h.rows as usize;
    let columns = h.columns as usize;
    let depth = h.depth as usize;
    let side = h.side as usize;
    let pixels = rows * columns;
    Extent {
        shape: Shape {
            rows,
            columns,
            depth,
            side,
        },
        pixels,
        cells: pixels * depth,
        mask: (pixels + 7) / 8,
        blocks: strips(side, rows) * strips(side, columns) * depth,
        ranges: HEADER + h.mask as usize,
        size: h.size as usize,
    }
}

impl Header {
    // the sizes that follow, where the header keeps the rules and a slice of `len` bytes holds its blob
    pub fn held(self, len: usize) -> Result<Extent, Refusal>
        ensures { result ≡ Rules.held self len }
    {
        if !fields_right(self) {
            return Err(Refusal { number: 3, at: 0 });
        }
        if !within_ceilings(self) {
            return Err(Refusal { number: 4, at: 0 });
        }
        if len < self.size as usize {
            return Err(Refusal { number: 1, at: 0 });
        }
        Ok(measure(self))
    }
}

// four bytes, the first the lowest
fn four(a: u8, b: u8, c: u8, d: u8) -> u32
    ensures { result ≡ a + 256 * (b + 256 * (c + 256 * d)) }
{
    a as u32 + 256 * (b as u32 + 256 * (c as u32 + 256 * (d as u32)))
}

// the four bytes at `at`, which are there
fn quad(b: &[u8], at: usize) -> u32
    requires { at + 4 ≤ length b.now }
    ensures { result ≡ little 4 b.now at }
{
    four(b[at], b[at + 1], b[at + 2], b[at + 3])
}

// and the eight
fn eight(b: &[u8], at: usize) -> u64
    requires { at + 8 ≤ length b.now }
    ensures { result ≡ little 8 b.now at }
{
    quad(b, at) as u64 + 0x1_0000_0000 * (quad(b, at + 4) as u64)
}

fn key_right(b: &[u8]) -> bool
    requires { Rules.header_bytes ≤ length b.now }
    ensures { result ≡ Rules.key_right b.now }
{
    (eight(b, 0) == KEY) & (quad(b, 6) == VERSION)
}

fn fields(b: &[u8]) -> Header
    requires { Rules.header_bytes ≤ length b.now }
    ensures { result ≡ Rules.header_of b.now }
{
    Header {
        rows: quad(b, 14),
        columns: quad(b, 18),
        depth: quad(b, 22),
        valid: quad(b, 26),
        side: quad(b, 30),
        size: quad(b, 34),
        kind: quad(b, 38),
        error: eight(b, 42),
        min: eight(b, 50),
        max: eight(b, 58),
        mask: quad(b, 66),
    }
}

// the checksum at 10 is that of the bytes behind it, up to the size
fn checksum_right(b: &[u8], size: usize) -> bool
    requires { (14 ≤ size) × (size ≤ length b.now) }
    ensures { result ≡ Rules.checksum_right b.now size }
{
    quad(b, 10) == lerc_checksum::checksum(&b[14..size])
}

// The header of a blob and the sizes that follow from it; what was accepted here need not be held to the rules again.
pub fn open_blob(blob: &[u8]) -> Result<Opened, Refusal>
    ensures { result ≡ Rules.open_says blob.now }
{
    if blob.len() < HEADER {
        return Err(Refusal { number: 1, at: 0 });
    }
    if !key_right(blob) {
        return Err(Refusal { number: 2, at: 0 });
    }
    let header = fields(blob);
    let extent = header.held(blob.len())?;
    if !checksum_right(blob, extent.size) {
        return Err(Refusal { number: 13, at: 0 });
    }
    Ok(Opened { header, extent })
}

// the header alone
pub fn read_header(blob: &[u8]) -> Result<Header, Refusal>
    ensures { result ≡ Rules.header_says blob.now }
{
    let opened = open_blob(blob)?;
    Ok(opened.header)
}

// Whether the header of a blob is accepted, says this kind and depth, and declares all of the bytes.
// Sizes that follow are not measured, and no header is handed out: so a pack of many tiles is judged in few steps.
pub fn is_tile(blob: &[u8], kind: u32, depth: u32) -> bool
    ensures { result ≡ Rules.is_tile blob.now kind depth }
{
    if blob.len() < HEADER {
        return false;
    }
    let h = fields(blob);
    let said = (kind == h.kind) & (depth == h.depth) & (blob.len() == h.size as usize);
    if !said {
        return false;
    }
    if !key_right(blob) {
        return false;
    }
    if !within_ceilings(h) {
        return false;
    }
    if !fields_right(h) {
        return false;
    }
    checksum_right(blob, blob.len())
}
