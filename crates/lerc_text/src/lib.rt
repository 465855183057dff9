// The program's text, put into a lent buffer: each function puts its text at a place, as much as there is room for,
// and answers the place behind it.
#![tactic(auto)]

ghost use Rattle.std.specs.Prelude.{◌≡◌, List, [], ◌∷◌, ◌++◌, ℕ, ◌+◌, ◌/◌, ◌<◌, get_or};
ghost use Rattle.lerc_text.specs.Text.{Put, decimal, field, line, refusal_line, shape_line, cell_line, cell_lines, valid_in, word_in};

fn put_byte(out: &mut [u8], at: usize, b: u8) -> usize
    ensures { Put out.old at (b ∷ []) result out.new }
{
    if at < out.len() {
        out[at] = b;
        return at + 1;
    }
    out.len()
}

fn put_text(out: &mut [u8], at: usize, s: &[u8]) -> usize
    ensures { Put out.old at s.now result out.new }
{
    let mut p = at.min(out.len());
    for b in s {
        p = put_byte(&mut out[..], p, *b);
    }
    p
}

// the character of a digit
fn digit(v: u64) -> u8
    requires { v < 10 }
    ensures { result ≡ 48 + v }
{
    48 + v as u8
}

// the digits are found from the last, in an array that has room for the longest number
fn put_number(out: &mut [u8], at: usize, n: u64) -> usize
    ensures { Put out.old at (decimal n) result out.new }
{
    let mut found = [0u8; 20];
    let mut k = 19;
    let mut rest = n;
    while 9 < rest {
        found[k] = digit(rest % 10);
        rest /= 10;
        k -= 1;
    }
    found[k] = digit(rest);
    put_text(&mut out[..], at, &found[k..])
}

fn put_field(out: &mut [u8], at: usize, label: &[u8], n: u64) -> usize
    ensures { Put out.old at (field label.now n) result out.new }
{
    let p = put_text(&mut out[..], at, label);
    put_number(&mut out[..], p, n)
}

// a label and a number
pub fn put_line(out: &mut [u8], at: usize, label: &[u8], n: u64) -> usize
    ensures { Put out.old at (line label.now n) result out.new }
{
    let p = put_field(&mut out[..], at, label, n);
    put_byte(&mut out[..], p, 10)
}

// the only line of a blob that was refused
pub fn put_refusal(out: &mut [u8], at: usize, number: u32, place: usize) -> usize
    ensures { Put out.old at (refusal_line number place) result out.new }
{
    let p = put_field(&mut out[..], at, b"refused ", number as u64);
    put_line(&mut out[..], p, b" at ", place as u64)
}

// the first line of a blob that was read
pub fn put_shape(
    out: &mut [u8],
    at: usize,
    columns: u32,
    rows: u32,
    depth: u32,
    kind: u32,
    valid: u32,
) -> usize
    ensures { Put out.old at (shape_line columns rows depth kind valid) result out.new }
{
    let p = put_field(&mut out[..], at, b"width ", columns as u64);
    let p = put_field(&mut out[..], p, b" height ", rows as u64);
    let p = put_field(&mut out[..], p, b" depth ", depth as u64);
    let p = put_field(&mut out[..], p, b" kind ", kind as u64);
    let p = put_field(&mut out[..], p, b" valid ", valid as u64);
    put_byte(&mut out[..], p, 10)
}

// a cell's word, or a dash where its pixel is not valid
fn put_cell(out: &mut [u8], at: usize, cell: usize, valid: bool, word: u64) -> usize
    ensures { Put out.old at (cell_line cell valid word) result out.new }
{
    let p = put_field(&mut out[..], at, b"cell ", cell as u64);
    let p = put_byte(&mut out[..], p, 32);
    if valid {
        let p = put_number(&mut out[..], p, word);
        return put_byte(&mut out[..], p, 10);
    }
    let p = put_byte(&mut out[..], p, 45);
    put_byte(&mut out[..], p, 10)
}

// the pixel of a cell; 0 where there is no depth
fn pixel_of(cell: usize, depth: usize) -> usize
    ensures { result ≡ cell / depth }
{
    if depth == 0 { 0 } else { cell / depth }
}

// a cell's word; 0 past the end
fn word_at(image: &[u64], cell: usize) -> u64
    ensures { result ≡ get_or image.now cell 0 }
{
    image.get(cell).copied().unwrap_or(0)
}

// a line for each of the first `count` cells
pub fn put_cells(
    out: &mut [u8],
    at: usize,
    count: usize,
    depth: usize,
    mask: &[u8],
    image: &[u64],
) -> usize
    ensures { Put out.old at (cell_lines count (valid_in depth mask.now) (word_in image.now)) result out.new }
{
    let mut p = at.min(out.len());
    for cell in 0..count {
        let valid = lerc_mask::is_valid(mask, pixel_of(cell, depth));
        p = put_cell(&mut out[..], p, cell, valid, word_at(image, cell));
    }
    p
}
