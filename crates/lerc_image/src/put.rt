// The words of a block to the image, row by row of its tile.
ghost use Rattle.std.specs.Prelude.{◌≡◌, true, ℕ, ◌+◌, ◌*◌, ◌/◌, ◌≤◌, length};
ghost use Rattle.lerc_words.specs.Lists.{count};
ghost use Rattle.lerc_image.specs.Geometry.{valid_in_tile};
ghost use Rattle.lerc_image.specs.Paint.{scattered};
ghost use Rattle.lerc_image.specs.Parts.{Asked, RowIn, rowed, every_one, bit_set, is_square, FullScattered};

use super::{Tile, is_square, scatter};
use lerc_header::Shape;

// Eight words beside each other.
fn copy_eight(words: &[u64; 256], from: usize, at: usize, image: &mut [u64])
    requires { (from + 8 ≤ 256) × (at + 8 ≤ length image.old) }
    ensures { image.new ≡ rowed every_one words.now from 1 at 8 image.old }
{
    image[at] = words[from];
    image[at + 1] = words[from + 1];
    image[at + 2] = words[from + 2];
    image[at + 3] = words[from + 3];
    image[at + 4] = words[from + 4];
    image[at + 5] = words[from + 5];
    image[at + 6] = words[from + 6];
    image[at + 7] = words[from + 7];
}

// A row of w words, `depth` apart in the image.
fn copy_row(
    words: &[u64; 256],
    from: usize,
    w: usize,
    depth: usize,
    start: usize,
    image: &mut [u64],
)
    requires { RowIn from w depth start image.old }
    ensures { image.new ≡ rowed every_one words.now from depth start w image.old }
{
    let mut at = start;
    for c in 0..w {
        image[at] = words[from + c];
        at += depth;
    }
}

// The words of a tile without invalid pixels.
fn copy_rows(h: Shape, t: Tile, number: usize, words: &[u64; 256], image: &mut [u64])
    requires { Asked h t number image.old }
    ensures { FullScattered h t number words.now image.old image.new }
{
    let mut start = (t.y * h.columns + t.x) * h.depth + t.d;
    let mut used: usize = 0;
    for _row in 0..t.h {
        copy_row(words, used, t.w, h.depth, start, &mut image[..]);
        start += h.columns * h.depth;
        used += t.w;
    }
}

// The same where a row is eight words beside each other.
fn copy_eights(h: Shape, t: Tile, number: usize, words: &[u64; 256], image: &mut [u64])
    requires { Asked h t number image.old × (t.w ≡ 8) × (h.depth ≡ 1) }
    ensures { FullScattered h t number words.now image.old image.new }
{
    let mut start = t.y * h.columns + t.x;
    let mut used: usize = 0;
    for _ in 0..t.h {
        copy_eight(words, used, start, &mut image[..]);
        start += h.columns;
        used += 8;
    }
}

// A row of eight pixels whose bits are one byte of the mask: the words from `from` on at its valid ones; how many were used so far.
// Every cell is written, an invalid one with its own word: so there is no branch to guess.
fn scatter_byte(
    byte: u8,
    words: &[u64; 256],
    from: usize,
    depth: usize,
    start: usize,
    image: &mut [u64],
) -> usize
    requires { RowIn from 8 depth start image.old }
    ensures { (result ≡ from + count 8 (bit_set byte)) × (image.new ≡ rowed (bit_set byte) words.now from depth start 8 image.old) }
{
    let bits = byte as usize;
    let mut at = start;
    let mut used = from;
    for c in 0..8usize {
        let bit = (bits << c) / 128 % 2;
        let old = image[at];
        let new = words[used];
        image[at] = if bit == 1 { new } else { old };
        used += bit;
        at += depth;
    }
    used
}

// A tile of eight rows that are a byte of the mask each.
fn scatter_square(
    h: Shape,
    t: Tile,
    number: usize,
    mask: &[u8],
    words: &[u64; 256],
    image: &mut [u64],
)
    requires { Asked h t number image.old × (is_square h t ≡ true) × ((t.y + 8) * (h.columns / 8) ≤ length mask.now) }
    ensures { image.new ≡ scattered h mask.now number words.now image.old }
{
    let step = h.columns / 8;
    let mut k = t.y * step + t.x / 8;
    let mut first = (t.y * h.columns + t.x) * h.depth + t.d;
    let mut used: usize = 0;
    for _ in 0..8usize {
        used = scatter_byte(mask[k], words, used, h.depth, first, &mut image[..]);
        k += step;
        first += h.columns * h.depth;
    }
}

// The words of block `number`, whose tile is `t` with `valid` valid pixels, at its valid cells: by rows where all are valid or a
// row is a byte of the mask.
pub(crate) fn put_tile(
    h: Shape,
    t: Tile,
    number: usize,
    valid: usize,
    mask: &[u8],
    words: &[u64; 256],
    image: &mut [u64],
)
    requires { Asked h t number image.old × (valid ≡ valid_in_tile h mask.now t) }
    ensures { image.new ≡ scattered h mask.now number words.now image.old }
{
    if valid == t.h * t.w {
        if (t.w == 8) & (h.depth == 1) {
            copy_eights(h, t, number, words, &mut image[..]);
            return;
        }
        copy_rows(h, t, number, words, &mut image[..]);
        return;
    }
    if valid == 0 {
        return;
    }
    let step = h.columns / 8;
    let end = (t.y + 8) * step;
    if is_square(h, t) & (end <= mask.len()) {
        scatter_square(h, t, number, mask, words, &mut image[..]);
        return;
    }
    let _used = scatter(h, t, number, mask, words, &mut image[..]);
}
