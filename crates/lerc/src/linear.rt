// Bodies without blocks, written pixel by pixel.
ghost use Rattle.std.specs.Prelude.{◌≡◌, ℕ, ◌+◌, ◌*◌, ◌-◌, ◌≤◌, ◌<◌, length, get_or};
ghost use Rattle.lerc_words.specs.Res.{little};
ghost use Rattle.lerc_header.specs.Limits.{depth_limit};
ghost use Rattle.lerc_header.specs.Shape.{cells, Shaped};
ghost use Rattle.lerc_mask.specs.Mask.{valid_below};
ghost use Rattle.lerc_image.specs.Geometry.{is_valid_cell};
ghost use Rattle.lerc_image.specs.Paint.{painted};
ghost use Rattle.lerc_image.specs.Cells.{within};
ghost use Rattle.lerc.specs.Linear.{depth_word, raw_word, RawAsked};

use lerc_header::Shape;

// one pixel of a constant body: a word for each depth; one word alone is no copy's worth
fn put_constant(words: &[u64], depth: usize, base: usize, image: &mut [u64])
    requires { (depth ≤ length words.now) × (base + depth ≤ length image.old) }
    ensures { image.new ≡ painted image.old (within base depth) (λ c. get_or words.now (c - base) 0) }
{
    if depth == 1 {
        image[base] = words[0];
    } else {
        let end = base + depth;
        lerc_slices::copy(&words[..depth], &mut image[base..end]);
    }
}

// every valid pixel of a constant body; where all are valid, the mask is not asked again
pub(crate) fn write_constant(h: Shape, words: &[u64], mask: &[u8], image: &mut [u64])
    requires { Shaped h × (cells h ≤ length image.old) × (depth_limit ≤ length words.now) }
    ensures { image.new ≡ painted image.old (is_valid_cell h mask.now) (depth_word h words.now) }
{
    let pixels = h.rows * h.columns;
    let full = lerc_mask::count(mask, pixels) == pixels;
    let mut base = 0;
    for p in 0..pixels {
        if full || lerc_mask::is_valid(mask, p) {
            put_constant(words, h.depth, base, &mut image[..]);
        }
        base += h.depth;
    }
}

// one pixel of a raw body: the words that stand in s from `at` on
fn put_raw(s: &[u8], at: usize, size: usize, depth: usize, base: usize, image: &mut [u64])
    requires { (size ≤ 8) × (at + depth * size ≤ length s.now) × (base + depth ≤ length image.old) }
    ensures { image.new ≡ painted image.old (within base depth) (λ c. little size s.now (at + (c - base) * size)) }
{
    let mut from = at;
    for d in 0..depth {
        image[base + d] = lerc_words::bytes(s, from, size);
        from += size;
    }
}

// every valid pixel of a raw body, one by one
fn write_raw_masked(h: Shape, s: &[u8], at: usize, size: usize, mask: &[u8], image: &mut [u64])
    requires { RawAsked h s.now at size mask.now image.old }
    ensures { image.new ≡ painted image.old (is_valid_cell h mask.now) (raw_word s.now at size h mask.now) }
{
    let pixels = h.rows * h.columns;
    let mut base = 0;
    let mut from = at;
    for p in 0..pixels {
        if lerc_mask::is_valid(mask, p) {
            put_raw(s, from, size, h.depth, base, &mut image[..]);
            from += h.depth * size;
        }
        base += h.depth;
    }
}

// every valid pixel of a raw body; where all are valid, its words are those of the cells in order
pub(crate) fn write_raw(h: Shape, s: &[u8], at: usize, size: usize, mask: &[u8], image: &mut [u64])
    requires { RawAsked h s.now at size mask.now image.old }
    ensures { image.new ≡ painted image.old (is_valid_cell h mask.now) (raw_word s.now at size h mask.now) }
{
    let pixels = h.rows * h.columns;
    if lerc_mask::count(mask, pixels) == pixels {
        lerc_words::words(s, at, size, &mut image[..pixels * h.depth]);
        return;
    }
    write_raw_masked(h, s, at, size, mask, &mut image[..]);
}
