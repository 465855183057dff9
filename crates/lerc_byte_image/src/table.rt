// The table of a Huffman image, front to back.
ghost use Rattle.std.specs.Prelude.{◌≡◌, ◌<◌, ◌≤◌, true, ◌++◌, length, drop};
ghost use Rattle.lerc_words.specs.Lists.{all_to};
ghost use Rattle.lerc_byte_image.specs.Table.{range_at, codes_at, table_at};
ghost use Rattle.lerc_byte_image.specs.TableParts.{sizes_at, bits_of, all_short, LengthsRead, CodesAsked, Few, apart, clear, RestAsked, rest_at};
ghost use Rattle.lerc_byte_image.specs.Parts.{table_said};

use super::bits;
use lerc_words::Refusal;

// How many symbols there are, the first that has a length, and how many have one.
#[derive(Clone, Copy)]
pub(crate) struct Range {
    pub(crate) size: usize,
    pub(crate) first: usize,
    pub(crate) count: usize,
}

// Where the codes stand, and how many bits they have.
#[derive(Clone, Copy)]
struct CodesPlace {
    next: usize,
    bits: usize,
}

// Lengths and codes stand in slices of their own; the symbols' bits begin at `start`.
#[derive(Clone, Copy)]
pub(crate) struct TableHead {
    pub(crate) range: Range,
    pub(crate) start: usize,
}

// size, first and end, behind a version that was right
fn read_sizes(s: &[u8], at: usize) -> Result<Range, Refusal>
    requires { at ≤ 16777216 }
    ensures { result ≡ sizes_at s.now at }
{
    let size = lerc_words::marked(lerc_words::word(s, at + 4, 4), 0)?;
    if 256 < size {
        return Err(Refusal { number: 8, at: 0 });
    }
    let first = lerc_words::marked(lerc_words::word(s, at + 8, 4), 0)?;
    if size <= first {
        return Err(Refusal { number: 8, at: 0 });
    }
    let end = lerc_words::marked(lerc_words::word(s, at + 12, 4), 0)?;
    if end <= first {
        return Err(Refusal { number: 8, at: 0 });
    }
    if size < end - first {
        return Err(Refusal { number: 8, at: 0 });
    }
    Ok(Range {
        size: size as usize,
        first: first as usize,
        count: (end - first) as usize,
    })
}

// the four integers, each judged as it is read
fn read_range(s: &[u8], at: usize) -> Result<Range, Refusal>
    requires { at ≤ 16777216 }
    ensures { result ≡ range_at s.now at }
{
    let version = lerc_words::marked(lerc_words::word(s, at, 4), 0)?;
    if version < 2 {
        return Err(Refusal { number: 8, at: 0 });
    }
    read_sizes(s, at)
}

// no length is above 32
fn all_short(lengths: &[u32]) -> bool
    ensures { result ≡ all_short lengths.now }
{
    for len in lengths {
        if 32 < *len {
            return false;
        }
    }
    true
}

// the bits of all codes
fn sum(lengths: &[u32]) -> usize
    requires { (length lengths.now ≤ 256) × (all_short lengths.now ≡ true) }
    ensures { result ≡ bits_of (length lengths.now) lengths.now }
{
    let mut bits = 0;
    for len in lengths {
        bits += *len as usize;
    }
    bits
}

// n lengths, packed counts that are read whole and then judged
fn read_lengths(s: &[u8], at: usize, n: usize, lengths: &mut [u32]) -> Result<CodesPlace, Refusal>
    requires { length lengths.old ≡ 256 }
    ensures { LengthsRead s.now at n result lengths.new }
{
    let mut counts = [0u32; 256];
    let found = lerc_words::marked(lerc_bits::decode(s, at, &mut counts), 0)?;
    let few = found.n;
    if few != n {
        return Err(Refusal { number: 8, at: 0 });
    }
    let part = &counts[..n];
    if !all_short(part) {
        return Err(Refusal { number: 8, at: 0 });
    }
    let bits = sum(part);
    if bits == 0 {
        return Err(Refusal { number: 8, at: 0 });
    }
    lengths[..n].copy_from_slice(part);
    Ok(CodesPlace {
        next: found.next,
        bits,
    })
}

// the code of each length, one behind the other from `at` on
fn read_codes(s: &[u8], at: usize, lengths: &[u32], codes: &mut [u32])
    requires { CodesAsked s.now at lengths.now codes.old }
    ensures { codes.new ≡ codes_at s.now at (length lengths.now) lengths.now ++ drop (length lengths.now) codes.old }
{
    let mut p = 0;
    for k in 0..lengths.len() {
        let len = lengths[k] as usize;
        codes[k] = bits::take_bits(s, at, p, len) as u32;
        p += len;
    }
}

// two codes, of which neither begins the other: the bits that both have are not alike
fn are_apart(len: u32, code: u32, len2: u32, code2: u32) -> bool
    requires { (len ≤ 32) × (len2 ≤ 32) }
    ensures { result ≡ apart len code len2 code2 }
{
    if len == 0 {
        return true;
    }
    if len2 == 0 {
        return true;
    }
    if len <= len2 {
        return code2 as u64 >> (len2 - len) != code as u64;
    }
    code as u64 >> (len - len2) != code2 as u64
}

// code k and no code before it begin one another
fn is_clear(lengths: &[u32], codes: &[u32], k: usize) -> bool
    requires { Few lengths.now codes.now × (k < length lengths.now) }
    ensures { result ≡ clear lengths.now codes.now k }
{
    let len = lengths[k];
    let code = codes[k];
    for i in 0..k {
        if !are_apart(lengths[i], codes[i], len, code) {
            return false;
        }
    }
    true
}

// no code begins another
fn is_prefix_free(lengths: &[u32], codes: &[u32]) -> bool
    requires { Few lengths.now codes.now }
    ensures { result ≡ all_to (length lengths.now) (clear lengths.now codes.now) }
{
    for k in 0..lengths.len() {
        if !is_clear(lengths, codes, k) {
            return false;
        }
    }
    true
}

// what stands behind the lengths: the run of the codes must fit (1), and no code begin another (8)
fn read_rest(
    s: &[u8],
    range: Range,
    next: usize,
    bits: usize,
    lengths: &[u32],
    codes: &mut [u32],
) -> Result<TableHead, Refusal>
    requires { RestAsked s.now range next bits lengths.now codes.old }
    ensures { table_said result lengths.now codes.new ≡ rest_at s.now range next lengths.now }
{
    let size = (bits + 31) / 32 * 4;
    if s.len() - next < size {
        return Err(Refusal { number: 1, at: 0 });
    }
    read_codes(s, next, lengths, &mut codes[..]);
    if !is_prefix_free(lengths, &codes[..lengths.len()]) {
        return Err(Refusal { number: 8, at: 0 });
    }
    Ok(TableHead {
        range,
        start: next + size,
    })
}

// the table at `at`: lengths and codes to the front of two arrays; a refusal tells no place
pub(crate) fn read_table(
    s: &[u8],
    at: usize,
    lengths: &mut [u32],
    codes: &mut [u32],
) -> Result<TableHead, Refusal>
    requires { (length s.now ≤ 16777216) × (at ≤ length s.now) × (length lengths.old ≡ 256) × (length codes.old ≡ 256) }
    ensures { table_said result lengths.new codes.new ≡ table_at s.now at }
{
    let range = read_range(s, at)?;
    let n = range.count;
    let found = read_lengths(s, at + 16, n, &mut lengths[..])?;
    read_rest(
        s,
        range,
        found.next,
        found.bits,
        &lengths[..n],
        &mut codes[..],
    )
}
