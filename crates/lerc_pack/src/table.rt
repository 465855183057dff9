// The table of contents: version and count, then the entries, each with its blob.
ghost use Rattle.std.specs.Prelude.{◌≡◌, suc, ◌+◌, ◌*◌, ◌≤◌, length, leb};
ghost use Rattle.lerc_words.specs.Res.{little};
ghost use Rattle.lerc_pack.specs.Contents.{entry_place, body_end, tile_limit, matches};
ghost use Rattle.lerc_pack.specs.Pack as Reading;
ghost use Rattle.lerc_pack.specs.Parts.{key_of, entries_right};

use super::{ENTRY, Entry, HEAD, TILES};
use lerc_words::peek;

// The most depths that an entry may say.
const DEPTHS: u32 = 64;

// how many tiles the pack says it has
pub(crate) fn count_of(pack: &[u8]) -> usize
    ensures { result ≡ Reading.count_of pack.now }
{
    (peek(pack, 0) / 0x1_0000_0000) as usize
}

// Version and zeros are the lower four bytes.
pub(crate) fn head_right(pack: &[u8]) -> bool
    ensures { result ≡ Reading.head_right pack.now }
{
    let count = count_of(pack);
    (HEAD <= pack.len())
        & (peek(pack, 0) % 0x1_0000_0000 == 1)
        & (count <= TILES)
        & (HEAD + ENTRY * count <= pack.len())
}

// whether a slice so long has the bytes of the i-th entry
pub(crate) fn holds_entry(len: usize, i: usize) -> bool
    ensures { result ≡ leb (entry_place (suc i)) len }
{
    if len < HEAD {
        return false;
    }
    i < (len - HEAD) / ENTRY
}

// four bytes, the first the lowest
fn quad(a: u8, b: u8, c: u8, d: u8) -> u64
    ensures { result ≡ a + 256 * (b + 256 * (c + 256 * d)) }
{
    a as u64 + 256 * (b as u64 + 256 * (c as u64 + 256 * (d as u64)))
}

// eight bytes from `at` on, which are there: no end is tested, as `peek` would
fn eight(s: &[u8], at: usize) -> u64
    requires { at + 8 ≤ length s.now }
    ensures { result ≡ little 8 s.now at }
{
    quad(s[at], s[at + 1], s[at + 2], s[at + 3])
        + 4294967296 * quad(s[at + 4], s[at + 5], s[at + 6], s[at + 7])
}

// the i-th entry, whose bytes are there
pub(crate) fn entry_at(pack: &[u8], i: usize) -> Entry
    requires { entry_place (suc i) ≤ length pack.now }
    ensures { result ≡ Reading.entry_at pack.now i }
{
    let at = HEAD + ENTRY * i;
    let front = eight(pack, at);
    let back = eight(pack, at + 8);
    Entry {
        row: (front % 65536) as u16,
        column: (front / 65536 % 65536) as u16,
        kind: (front / 0x1_0000_0000 % 256) as u32,
        depth: (front / 0x100_0000_0000 % 256) as u32 + 1,
        start: (back % 0x1_0000_0000) as usize,
        length: (back / 0x1_0000_0000) as usize,
    }
}

// "two zero bytes"
fn zeros_right(pack: &[u8], i: usize) -> bool
    requires { entry_place (suc i) ≤ length pack.now }
    ensures { result ≡ Reading.zeros_right (Reading.entry_part pack.now i) }
{
    eight(pack, HEAD + ENTRY * i) / 0x1_0000_0000_0000 == 0
}

// row and column, of two bytes each, as one number
fn key(row: u16, column: u16) -> usize
    ensures { result ≡ key_of row column }
{
    row as usize * 65536 + column as usize
}

// the header of an entry's blob is accepted, and says its kind, depth and length
fn matched(pack: &[u8], e: Entry) -> bool
    requires { body_end e ≤ length pack.now }
    ensures { result ≡ matches e (Reading.body_of pack.now e) }
{
    let start = e.start;
    let end = e.start + e.length;
    lerc_header::is_tile(&pack[start..end], e.kind, e.depth)
}

// All entries in one pass: `at` is where the next body begins, `least` the least key that may follow.
pub(crate) fn entries_right(pack: &[u8], count: usize) -> bool
    requires { (count ≤ tile_limit) × (entry_place count ≤ length pack.now) }
    ensures { result ≡ entries_right pack.now count }
{
    let mut at = HEAD + ENTRY * count;
    let mut least = 0;
    for i in 0..count {
        let e = entry_at(pack, i);
        let right = zeros_right(pack, i)
            & (e.depth <= DEPTHS)
            & (e.start == at)
            & (least <= key(e.row, e.column))
            & (e.start + e.length <= pack.len());
        if !right {
            return false;
        }
        if !matched(pack, e) {
            return false;
        }
        at = e.start + e.length;
        least = key(e.row, e.column) + 1;
    }
    at == pack.len()
}
