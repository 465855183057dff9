// The valid cells of a Huffman image, written; nothing is left that could be refused.
ghost use Rattle.std.specs.Prelude.{◌≡◌, ℕ, ◌+◌, ◌-◌, ◌*◌, ◌/◌, ◌%◌, ◌<◌, ◌≤◌, true, false, List, length, slice_index};
ghost use Rattle.lerc_words.specs.Res.{after};
ghost use Rattle.lerc_header.specs.Limits.{depth_limit};
ghost use Rattle.lerc_header.specs.Header.{shape_of};
ghost use Rattle.lerc_header.specs.Shape.{pixels, cells, Shaped};
ghost use Rattle.lerc_mask.specs.Mask.{valid_below};
ghost use Rattle.lerc_image.specs.Geometry.{is_valid_cell};
ghost use Rattle.lerc_image.specs.Paint.{painted};
ghost use Rattle.lerc_image.specs.Cells.{within};
ghost use Rattle.lerc_byte_image.specs.Table.{table_at};
ghost use Rattle.lerc_byte_image.specs.Prediction.{less_of, byte_word};
ghost use Rattle.lerc_byte_image.specs.Image.{spot, symbol_no, by_table};
ghost use Rattle.lerc_byte_image.specs.Parts.{table_by, Behind, Ready};
ghost use Rattle.lerc_byte_image.specs.ImageParts.{Asked, plain_run, guess, strip, chained, plane_upto, plane_word};

use super::table::Range;
use super::{symbols, table};
use lerc_header::{Header, Shape};

// What the symbols are found by, and the kind of the words.
#[derive(Clone, Copy)]
struct Coding {
    range: Range,
    start: usize,
    kind: u32,
}

// what is taken off: 128 for kind 0
fn less_of(kind: u32) -> u8
    ensures { result ≡ less_of kind }
{
    if kind == 0 { 128 } else { 0 }
}

// symbol and prediction, added modulo 256, less what is taken off
fn byte_of(entry: usize, predicted: u8, less: u8) -> u8
    ensures { result ≡ (entry % 256 + predicted + (256 - less)) % 256 }
{
    let symbol = (entry % 256) as u8;
    let sum = std::num::wrapping_add_u8(symbol, predicted);
    std::num::wrapping_sub_u8(sum, less)
}

// ---- mode 2

// n symbols from bit p on, without prediction, to the cells from `base` on; gives the bit behind them
fn put_plain(
    s: &[u8],
    by: Coding,
    lengths: &[u32],
    codes: &[u32],
    quick: &[u16],
    p: usize,
    base: usize,
    n: usize,
    image: &mut [u64],
) -> usize
    requires { Ready s.now (table_by by.range by.start lengths.now codes.now) quick.now p × (base + n ≤ length image.old) }
    ensures image_after { image.new ≡ painted image.old (within base n) (plain_run s.now (table_by by.range by.start lengths.now codes.now) by.kind p base) }
    ensures value { result ≡ spot s.now (table_by by.range by.start lengths.now codes.now) p n }
{
    let stop = symbols::stop_of(s.len(), by.start);
    let less = less_of(by.kind);
    let mut q = p;
    for k in 0..n {
        let e = symbols::entry(s, by.range, by.start, lengths, codes, quick, stop, q);
        image[base + k] = byte_of(e, 0, less) as u64;
        q += e / 256;
    }
    q
}

// pixel by pixel
fn write_plain_masked(
    h: Shape,
    s: &[u8],
    by: Coding,
    lengths: &[u32],
    codes: &[u32],
    quick: &[u16],
    mask: &[u8],
    image: &mut [u64],
)
    requires { Asked h s.now (table_by by.range by.start lengths.now codes.now) quick.now 0 image.old }
    ensures { image.new ≡ painted image.old (is_valid_cell h mask.now) (byte_word h by.kind false mask.now (symbol_no s.now (table_by by.range by.start lengths.now codes.now) 0)) }
{
    let pixels = h.rows * h.columns;
    let mut base = 0;
    let mut p = 0;
    for q in 0..pixels {
        if lerc_mask::is_valid(mask, q) {
            p = put_plain(
                s,
                by,
                lengths,
                codes,
                quick,
                p,
                base,
                h.depth,
                &mut image[..],
            );
        }
        base += h.depth;
    }
}

// where all pixels are valid, the symbols are those of the cells in order
fn write_plain(
    h: Shape,
    s: &[u8],
    by: Coding,
    lengths: &[u32],
    codes: &[u32],
    quick: &[u16],
    mask: &[u8],
    image: &mut [u64],
)
    requires { Asked h s.now (table_by by.range by.start lengths.now codes.now) quick.now 0 image.old }
    ensures { image.new ≡ painted image.old (is_valid_cell h mask.now) (byte_word h by.kind false mask.now (symbol_no s.now (table_by by.range by.start lengths.now codes.now) 0)) }
{
    let pixels = h.rows * h.columns;
    if lerc_mask::count(mask, pixels) == pixels {
        let n = pixels * h.depth;
        put_plain(s, by, lengths, codes, quick, 0, 0, n, &mut image[..]);
        return;
    }
    write_plain_masked(h, s, by, lengths, codes, quick, mask, &mut image[..]);
}

// ---- mode 1

// the last value where the left pixel is valid, else the word above where that is, else the last value
fn predict(
    columns: usize,
    depth: usize,
    mask: &[u8],
    i: usize,
    x: usize,
    cell: usize,
    last: u8,
    image: &[u64],
) -> u8
    requires { (x ≡ i % columns) × (cell < length image.now) × (columns ≤ i → columns * depth ≤ cell) }
    ensures { result ≡ guess columns mask.now i last (slice_index image.now (cell - columns * depth) % 256) }
{
    if 0 < x {
        if lerc_mask::is_valid(mask, i - 1) {
            return last;
        }
    }
    if columns <= i {
        if lerc_mask::is_valid(mask, i - columns) {
            return (image[cell - columns * depth] % 256) as u8;
        }
    }
    last
}

// n pixels from pixel i on, one depth of each: the first is predicted by `first`, each other by the one before; gives the bit behind them
fn put_row(
    s: &[u8],
    by: Coding,
    lengths: &[u32],
    codes: &[u32],
    quick: &[u16],
    first: u8,
    p: usize,
    depth: usize,
    d: usize,
    i: usize,
    n: usize,
    image: &mut [u64],
) -> usize
    requires { Ready s.now (table_by by.range by.start lengths.now codes.now) quick.now p × (d < depth) × (depth ≤ depth_limit) × ((i + n) * depth ≤ length image.old) }
    ensures image_after { image.new ≡ painted image.old (strip depth d i n) (λ c. chained by.kind (symbol_no s.now (table_by by.range by.start lengths.now codes.now) p) first (c / depth - i + 1)) }
    ensures value { result ≡ spot s.now (table_by by.range by.start lengths.now codes.now) p n }
{
    let stop = symbols::stop_of(s.len(), by.start);
    let less = less_of(by.kind);
    let mut last = first;
    let mut q = p;
    let mut cell = i * depth + d;
    for _ in 0..n {
        let e = symbols::entry(s, by.range, by.start, lengths, codes, quick, stop, q);
        last = byte_of(e, last, less);
        image[cell] = last as u64;
        q += e / 256;
        cell += depth;
    }
    q
}

// one depth without an invalid pixel: row by row; the first pixel of a row is predicted by the one above
fn write_full_plane(
    h: Shape,
    s: &[u8],
    by: Coding,
    lengths: &[u32],
    codes: &[u32],
    quick: &[u16],
    p: usize,
    d: usize,
    image: &mut [u64],
) -> usize
    requires { Asked h s.now (table_by by.range by.start lengths.now codes.now) quick.now p image.old × (d < h.depth) }
    ensures by_index { (m : List ℕ) → valid_below (pixels h) m ≡ pixels h → image.new ≡ painted image.old (plane_upto h m d (pixels h)) (plane_word h by.kind m s.now (table_by by.range by.start lengths.now codes.now) p) }
    ensures value { result ≡ spot s.now (table_by by.range by.start lengths.now codes.now) p (pixels h) }
{
    let mut first = 0;
    let mut q = p;
    let mut i = 0;
    for _ in 0..h.rows {
        q = put_row(
            s,
            by,
            lengths,
            codes,
            quick,
            first,
            q,
            h.depth,
            d,
            i,
            h.columns,
            &mut image[..],
        );
        first = (image[i * h.depth + d] % 256) as u8;
        i += h.columns;
    }
    q
}

// one depth: pixel by pixel
fn write_masked_plane(
    h: Shape,
    s: &[u8],
    by: Coding,
    lengths: &[u32],
    codes: &[u32],
    quick: &[u16],
    mask: &[u8],
    p: usize,
    d: usize,
    image: &mut [u64],
) -> usize
    requires { Asked h s.now (table_by by.range by.start lengths.now codes.now) quick.now p image.old × (d < h.depth) }
    ensures image_after { image.new ≡ painted image.old (plane_upto h mask.now d (pixels h)) (plane_word h by.kind mask.now s.now (table_by by.range by.start lengths.now codes.now) p) }
    ensures value { result ≡ spot s.now (table_by by.range by.start lengths.now codes.now) p (valid_below (pixels h) mask.now) }
{
    let pixels = h.rows * h.columns;
    let stop = symbols::stop_of(s.len(), by.start);
    let less = less_of(by.kind);
    let mut last = 0;
    let mut q = p;
    let mut x = 0;
    let mut cell = d;
    for i in 0..pixels {
        if lerc_mask::is_valid(mask, i) {
            let e = symbols::entry(s, by.range, by.start, lengths, codes, quick, stop, q);
            let predicted = predict(h.columns, h.depth, mask, i, x, cell, last, &image[..]);
            last = byte_of(e, predicted, less);
            image[cell] = last as u64;
            q += e / 256;
        }
        x = next_column(h.columns, x);
        cell += h.depth;
    }
    q
}

// the column behind column x
fn next_column(columns: usize, x: usize) -> usize
    requires { x < columns }
    ensures { result ≡ (x + 1) % columns }
{
    if x + 1 < columns { x + 1 } else { 0 }
}

// depth by depth
fn write_delta(
    h: Shape,
    s: &[u8],
    by: Coding,
    lengths: &[u32],
    codes: &[u32],
    quick: &[u16],
    mask: &[u8],
    image: &mut [u64],
)
    requires { Asked h s.now (table_by by.range by.start lengths.now codes.now) quick.now 0 image.old }
    ensures { image.new ≡ painted image.old (is_valid_cell h mask.now) (byte_word h by.kind true mask.now (symbol_no s.now (table_by by.range by.start lengths.now codes.now) 0)) }
{
    let pixels = h.rows * h.columns;
    let full = lerc_mask::count(mask, pixels) == pixels;
    let mut p = 0;
    for d in 0..h.depth {
        if full {
            p = write_full_plane(h, s, by, lengths, codes, quick, p, d, &mut image[..]);
        } else {
            p = write_masked_plane(h, s, by, lengths, codes, quick, mask, p, d, &mut image[..]);
        }
    }
}

// ---- both

// every valid cell, by a table
fn write_cells(
    h: Shape,
    s: &[u8],
    by: Coding,
    lengths: &[u32],
    codes: &[u32],
    delta: bool,
    mask: &[u8],
    image: &mut [u64],
)
    requires { Shaped h × Behind s.now (table_by by.range by.start lengths.now codes.now) 0 × (cells h ≤ length image.old) }
    ensures { image.new ≡ painted image.old (is_valid_cell h mask.now) (byte_word h by.kind delta mask.now (symbol_no s.now (table_by by.range by.start lengths.now codes.now) 0)) }
{
    let mut quick = [0u16; 4096];
    symbols::make_quick(by.range, by.start, lengths, codes, &mut quick);
    if delta {
        write_delta(h, s, by, lengths, codes, &quick, mask, &mut image[..]);
    } else {
        write_plain(h, s, by, lengths, codes, &quick, mask, &mut image[..]);
    }
}

// every valid cell, by the table at `at`; behind a table that is refused nothing is written
pub(crate) fn write_image(
    s: &[u8],
    h: Header,
    form: Shape,
    at: usize,
    delta: bool,
    mask: &[u8],
    image: &mut [u64],
)
    requires { (form ≡ shape_of h) × (length s.now ≤ 16777216) × (at ≤ length s.now) × Shaped form × (cells form ≤ length image.old) }
    ensures { image.new ≡ after (table_at s.now at) image.old (by_table s.now h delta mask.now image.old) }
{
    let mut lengths = [0u32; 256];
    let mut codes = [0u32; 256];
    if let Ok(found) = table::read_table(s, at, &mut lengths, &mut codes) {
        let range = found.range;
        let few = range.count;
        let by = Coding {
            range,
            start: found.start,
            kind: h.kind,
        };
        write_cells(
            form,
            s,
            by,
            &lengths[..few],
            &codes[..few],
            delta,
            mask,
            &mut image[..],
        );
    }
}
