// The symbols of a Huffman image: most by a table of their first bits, the others by going through the codes.
ghost use Rattle.std.specs.Prelude.{◌≡◌, ℕ, ◌+◌, ◌-◌, ◌*◌, ◌/◌, ◌^◌, ◌<◌, ◌≤◌, length, replicate};
ghost use Rattle.lerc_words.specs.Res.{Res, ok, fail};
ghost use Rattle.lerc_byte_image.specs.Table.{bits_at, length_of, code_of};
ghost use Rattle.lerc_byte_image.specs.Symbols.{first_of, bits_there, agrees, symbol_at, symbols_from, coded_at};
ghost use Rattle.lerc_byte_image.specs.Image.{ended};
ghost use Rattle.lerc_byte_image.specs.Parts.{table_by, Kept, Behind, entry_of, Quick, Ready};
ghost use Rattle.lerc_byte_image.specs.SymbolParts.{glanced, begun, Found, Put, bits_in, end_within, end_from};

use super::table::Range;
use super::{bits, table};
use lerc_words::Refusal;

// ---- by going through the codes

// a code that agrees with the 32 bits of w, of which only the first `there` count
fn is_begun(w: u64, there: usize, len: u32, code: u32) -> bool
    requires { len ≤ 32 }
    ensures { result ≡ begun w there len code }
{
    if len == 0 {
        return false;
    }
    let len = len as usize;
    let n = if len < there { len } else { there };
    code as u64 >> (len - n) == w >> (32 - n)
}

// the first code that agrees with the bits from bit p on; their count where none does
fn seek(s: &[u8], range: Range, start: usize, lengths: &[u32], codes: &[u32], p: usize) -> usize
    requires { Behind s.now (table_by range start lengths.now codes.now) p }
    ensures { result ≡ first_of range.count (agrees s.now (table_by range start lengths.now codes.now) p) }
{
    let w = bits::take_bits(s, start, p, 32);
    let there = (s.len() - start) / 4 * 32 - p;
    let n = range.count;
    for k in 0..n {
        if is_begun(w, there, lengths[k], codes[k]) {
            return k;
        }
    }
    n
}

// a code that agrees with them, sought from code `hint` downwards; the first of all where none there does
fn seek_near(
    s: &[u8],
    range: Range,
    start: usize,
    lengths: &[u32],
    codes: &[u32],
    p: usize,
    hint: usize,
) -> usize
    requires { Behind s.now (table_by range start lengths.now codes.now) p }
    ensures { Found s.now (table_by range start lengths.now codes.now) p result }
{
    let w = bits::take_bits(s, start, p, 32);
    let there = (s.len() - start) / 4 * 32 - p;
    let near = if hint < range.count { hint + 1 } else { 0 };
    for k in (0..near).rev() {
        if is_begun(w, there, lengths[k], codes[k]) {
            return k;
        }
    }
    seek(s, range, start, lengths, codes, p)
}

// the entry of the code at bit p; 0 where there is none, or not all of it
fn seek_entry(
    s: &[u8],
    range: Range,
    start: usize,
    lengths: &[u32],
    codes: &[u32],
    p: usize,
    hint: usize,
) -> usize
    requires { Behind s.now (table_by range start lengths.now codes.now) p }
    ensures { result ≡ entry_of s.now (table_by range start lengths.now codes.now) p }
{
    let k = seek_near(s, range, start, lengths, codes, p, hint);
    if k == range.count {
        return 0;
    }
    let len = lengths[k] as usize;
    let there = (s.len() - start) / 4 * 32 - p;
    if there < len {
        return 0;
    }
    len * 256 + (range.first + k) % range.size
}

// why there is no symbol at bit p: no code begins the bits (8), or they end before it does (1)
fn missing(
    s: &[u8],
    range: Range,
    start: usize,
    lengths: &[u32],
    codes: &[u32],
    p: usize,
) -> Refusal
    requires behind { Behind s.now (table_by range start lengths.now codes.now) p }
    requires p_value { entry_of s.now (table_by range start lengths.now codes.now) p ≡ 0 }
    ensures { symbol_at s.now (table_by range start lengths.now codes.now) p ≡ fail result }
{
    let k = seek(s, range, start, lengths, codes, p);
    if k == range.count {
        return Refusal { number: 8, at: 0 };
    }
    Refusal { number: 1, at: 0 }
}

// ---- by the first bits

// every entry of a part; std's `fill` puts the last one by itself, and is slower
fn put_entry(entry: u16, part: &mut [u16])
    ensures { part.new ≡ replicate (length part.old) entry }
{
    for place in part.iter_mut() {
        *place = entry;
    }
}

// what code k adds to the table: the entries that it begins, or for a long code a hint
fn put_code(len: usize, code: usize, symbol: usize, k: usize, quick: &mut [u16])
    requires { (len ≤ 32) × (code < 2 ^ len) × (symbol < 256) × (k < 256) × (length quick.old ≡ 4096) }
    ensures { Put len code (len * 256 + symbol) quick.old quick.new }
{
    if len == 0 {
        return;
    }
    if 12 < len {
        quick[code >> (len - 12)] = k as u16;
        return;
    }
    let base = code << (12 - len);
    let end = base + (1 << (12 - len));
    put_entry((len * 256 + symbol) as u16, &mut quick[base..end]);
}

// a table by the first 12 bits, which begins as zeros
pub(crate) fn make_quick(
    range: Range,
    start: usize,
    lengths: &[u32],
    codes: &[u32],
    quick: &mut [u16],
)
    requires { Kept (table_by range start lengths.now codes.now) × Quick (table_by range start lengths.now codes.now) quick.old }
    ensures { Quick (table_by range start lengths.now codes.now) quick.new }
{
    for k in 0..range.count {
        let symbol = (range.first + k) % range.size;
        put_code(
            lengths[k] as usize,
            codes[k] as usize,
            symbol,
            k,
            &mut quick[..],
        );
    }
}

// the bits for which a whole word stands behind theirs
pub(crate) fn stop_of(len: usize, start: usize) -> usize
    requires { (start ≤ len) × (len ≤ 16777216) }
    ensures { result ≡ (len - start) / 4 * 32 - 32 }
{
    let words = (len - start) / 4;
    if words == 0 {
        return 0;
    }
    words * 32 - 32
}

// what the table has for the 12 bits from bit p on; 0 where a whole word behind theirs is not there
fn glance(s: &[u8], start: usize, quick: &[u16], stop: usize, p: usize) -> usize
    requires { (start ≤ length s.now) × (length s.now ≤ 16777216) × (stop ≡ bits_there s.now start - 32) × (length quick.now ≡ 4096) }
    ensures { result ≡ glanced s.now start quick.now p }
{
    if p < stop {
        return quick[bits::twelve(s, start, p)] as usize;
    }
    0
}

// the entry of the code at bit p; 0 where there is none, or not all of it
pub(crate) fn entry(
    s: &[u8],
    range: Range,
    start: usize,
    lengths: &[u32],
    codes: &[u32],
    quick: &[u16],
    stop: usize,
    p: usize,
) -> usize
    requires { Ready s.now (table_by range start lengths.now codes.now) quick.now p × (stop ≡ bits_there s.now start - 32) }
    ensures { result ≡ entry_of s.now (table_by range start lengths.now codes.now) p }
{
    let e = glance(s, start, quick, stop, p);
    if 256 <= e {
        return e;
    }
    seek_entry(s, range, start, lengths, codes, p, e)
}

// ---- all symbols

// n symbols from the first bit on, of which only the ends are looked at: the bit behind the last
fn count_bits(
    s: &[u8],
    range: Range,
    start: usize,
    lengths: &[u32],
    codes: &[u32],
    quick: &[u16],
    n: usize,
) -> Result<usize, Refusal>
    requires { Ready s.now (table_by range start lengths.now codes.now) quick.now 0 }
    ensures { result ≡ bits_in (symbols_from s.now (table_by range start lengths.now codes.now) n 0) }
{
    let stop = stop_of(s.len(), start);
    let mut p = 0;
    for _ in 0..n {
        let e = glance(s, start, quick, stop, p);
        if 256 <= e {
            p += e / 256;
        } else {
            let f = seek_entry(s, range, start, lengths, codes, p, e);
            if f == 0 {
                return Err(missing(s, range, start, lengths, codes, p));
            }
            p += f / 256;
        }
    }
    Ok(p)
}

// the word behind the last symbol's must fit (1)
fn end_at(len: usize, start: usize, bits: usize) -> Result<usize, Refusal>
    requires { (start ≤ len) × (len ≤ 16777216) × (bits ≤ 2 ^ 32) }
    ensures { result ≡ end_within len start bits }
{
    let size = ((bits + 31) / 32 + 1) * 4;
    if len - start < size {
        return Err(Refusal { number: 1, at: 0 });
    }
    Ok(start + size)
}

// n symbols behind a table, and the word after
fn check_coded(
    s: &[u8],
    range: Range,
    start: usize,
    lengths: &[u32],
    codes: &[u32],
    n: usize,
) -> Result<usize, Refusal>
    requires { Behind s.now (table_by range start lengths.now codes.now) 0 }
    ensures { result ≡ end_from s.now (table_by range start lengths.now codes.now) n }
{
    let mut quick = [0u16; 4096];
    make_quick(range, start, lengths, codes, &mut quick);
    let bits = count_bits(s, range, start, lengths, codes, &quick, n)?;
    end_at(s.len(), start, bits)
}

// the table at `at` and n symbols behind it; a refusal tells no place
pub(crate) fn check_symbols(s: &[u8], at: usize, n: usize) -> Result<usize, Refusal>
    requires { (length s.now ≤ 16777216) × (at ≤ length s.now) }
    ensures { result ≡ ended (coded_at s.now at n) }
{
    let mut lengths = [0u32; 256];
    let mut codes = [0u32; 256];
    let found = table::read_table(s, at, &mut lengths, &mut codes)?;
    let range = found.range;
    let few = range.count;
    check_coded(s, range, found.start, &lengths[..few], &codes[..few], n)
}
