// Packed counts: bit-stuffed runs and lookup tables.
#![tactic(auto)]

ghost use Rattle.std.specs.Prelude.{◌≡◌, ◌++◌, true, ◌+◌, ◌-◌, ◌%◌, ◌^◌, ◌≤◌, length, drop};
ghost use Rattle.std.proofs.lemmas.List.Edits.{sets};
ghost use Rattle.lerc_words.specs.Res.{marked};
ghost use Rattle.lerc_bits.specs.Bits.{run_bytes, index_width, plain_plan, table_plan, fits, tabled, plan, digits, run, chosen, all_below, unpacked, keeps, counts_by, counts, CountsDecoded, PlanKept};
ghost use Rattle.lerc_bits.specs.Unpacking.{begun};

use lerc_words::Refusal;

mod checks;

pub use checks::{check, check_plan};

// where packed counts stand: n values, or n indices into a table of `entries` values
#[derive(Clone, Copy)]
pub struct Plan {
    pub n: usize,
    // the width of a value
    pub bits: usize,
    // 0 where there is no table
    pub entries: usize,
    // where the table's values start
    pub table: usize,
    // where the n values or indices start, and the width of each
    pub at: usize,
    pub width: usize,
    // where they end
    pub next: usize,
}

// how many counts, and where they end
#[derive(Clone, Copy, Debug, PartialEq, Eq)]
pub struct Counts {
    pub n: usize,
    pub next: usize,
}

fn run_bytes(n: usize, bits: usize) -> usize
    requires { (n ≤ 256) × (bits ≤ 31) }
    ensures { (result ≡ run_bytes n bits) × (result ≤ 992) }
{
    (n * bits + 7) / 8
}

// the least w with 2^w at least `entries`
fn index_width(entries: usize) -> usize
    requires { (1 ≤ entries) × (entries ≤ 255) }
    ensures { (result ≡ index_width entries) × (result ≤ 8) }
{
    (64 - u64::leading_zeros(entries as u64 - 1)) as usize
}

fn plan_plain(len: usize, n: usize, bits: usize, at: usize) -> Result<Plan, Refusal>
    requires { (n ≤ 256) × (bits ≤ 31) × (at ≤ len) }
    ensures { result ≡ fits len (plain_plan n bits at) }
{
    let size = run_bytes(n, bits);
    if len - at < size {
        return Err(Refusal { number: 1, at: 0 });
    }
    Ok(Plan {
        n,
        bits,
        entries: 0,
        table: at,
        at,
        width: bits,
        next: at + size,
    })
}

fn plan_table(
    len: usize,
    n: usize,
    bits: usize,
    entries: usize,
    table: usize,
) -> Result<Plan, Refusal>
    requires { (n ≤ 256) × (bits ≤ 31) × (1 ≤ entries) × (entries ≤ 255) × (table ≤ len) }
    ensures { result ≡ fits len (table_plan n bits entries table) }
{
    let width = index_width(entries);
    let first = run_bytes(entries - 1, bits);
    let size = first + run_bytes(n, width);
    if len - table < size {
        return Err(Refusal { number: 1, at: 0 });
    }
    let at = table + first;
    Ok(Plan {
        n,
        bits,
        entries,
        table,
        at,
        width,
        next: table + size,
    })
}

// bit 5 is set: a table comes first
fn inspect_table(s: &[u8], at: usize, n: usize, bits: usize) -> Result<Plan, Refusal>
    requires { (n ≤ 256) × (bits ≤ 31) }
    ensures { result ≡ tabled s.now at n bits }
{
    if bits == 0 {
        return Err(Refusal { number: 8, at: 0 });
    }
    let entries = lerc_words::marked(lerc_words::word(s, at, 1), 0)?;
    if entries < 2 {
        return Err(Refusal { number: 8, at: 0 });
    }
    plan_table(s.len(), n, bits, entries as usize, at + 1)
}

// where the packed counts at `start` stand; a refusal tells no place
fn find(s: &[u8], start: usize) -> Result<Plan, Refusal>
    ensures { result ≡ plan s.now start }
{
    let h = lerc_words::marked(lerc_words::word(s, start, 1), 0)?;
    if 3 <= h / 64 {
        return Err(Refusal { number: 8, at: 0 });
    }
    let size: usize = 4 >> (h / 64);
    let n = lerc_words::marked(lerc_words::word(s, start + 1, size), 0)?;
    if 256 < n {
        return Err(Refusal { number: 8, at: 0 });
    }
    let at = start + 1 + size;
    let bits = (h % 32) as usize;
    if h / 32 % 2 == 0 {
        return plan_plain(s.len(), n as usize, bits, at);
    }
    inspect_table(s, at, n as usize, bits)
}

// where the packed counts at `start` stand; their values are not looked at. A refusal is at their first byte
pub fn inspect(s: &[u8], start: usize) -> Result<Plan, Refusal>
    ensures { result ≡ marked start (plan s.now start) }
{
    let found = find(s, start);
    lerc_words::marked(found, start)
}

// the lowest value in a word
fn lowest(v: u64, bits: usize) -> u32
    requires { bits ≤ 31 }
    ensures { result ≡ v % 2 ^ bits }
{
    let base: u64 = 1 << bits;
    (v % base) as u32
}

// four values of a word, lowest bit first, to the places from k on
fn put_four(v: u64, bits: usize, k: usize, out: &mut [u32])
    requires { (bits ≤ 16) × (k + 4 ≤ length out.old) }
    ensures { out.new ≡ sets out.old k (digits v 4 bits) }
{
    out[k] = lowest(v, bits);
    let b = v >> bits;
    out[k + 1] = lowest(b, bits);
    let c = b >> bits;
    out[k + 2] = lowest(c, bits);
    let d = c >> bits;
    out[k + 3] = lowest(d, bits);
}

// values of at most eight bits, eight from each word: a group starts on a byte; `step_by` takes 3 instructions more a call
fn unpack_eights(s: &[u8], at: usize, n: usize, bits: usize, out: &mut [u32])
    requires { (n ≤ 256) × (bits ≤ 8) × (at ≤ length s.now) × (n ≤ length out.old) }
    ensures { out.new ≡ begun s.now at n bits (n - n % 8) out.old }
{
    let mut place = at;
    let mut k = 0;
    while k + 8 <= n {
        let v = lerc_words::peek(s, place);
        put_four(v, bits, k, &mut out[..]);
        put_four(v >> (4 * bits), bits, k + 4, &mut out[..]);
        place += bits;
        k += 8;
    }
}

// values of at most sixteen bits, four from each word: a group starts on a byte or in its middle;
// `step_by` takes 27 instructions more for 64 values
fn unpack_fours(s: &[u8], at: usize, n: usize, bits: usize, out: &mut [u32])
    requires { (n ≤ 256) × (bits ≤ 16) × (at ≤ length s.now) × (n ≤ length out.old) }
    ensures { out.new ≡ begun s.now at n bits (n - n % 4) out.old }
{
    let mut bit = 0;
    let mut k = 0;
    while k + 4 <= n {
        let v = lerc_words::peek(s, at + bit / 8);
        let r = bit % 8;
        put_four(v >> r, bits, k, &mut out[..]);
        bit += 4 * bits;
        k += 4;
    }
}

// the values from `first` on, one by one, behind those that stand there already
fn unpack_from(s: &[u8], at: usize, first: usize, n: usize, bits: usize, out: &mut [u32])
    requires first_le_n { (first ≤ n) × (n ≤ 256) × (bits ≤ 31) × (at ≤ length s.now) × (n ≤ length out.old) }
    requires out_value { out.old ≡ begun s.now at n bits first out.old }
    ensures { out.new ≡ begun s.now at n bits n out.old }
{
    let mut bit = first * bits;
    for k in first..n {
        let v = lerc_words::peek(s, at + bit / 8);
        let r = bit % 8;
        out[k] = lowest(v >> r, bits);
        bit += bits;
    }
}

// n values of `bits` bits each, lowest bit first, from the byte at `at` on
fn unpack(s: &[u8], at: usize, n: usize, bits: usize, out: &mut [u32])
    requires { (n ≤ 256) × (bits ≤ 31) × (at ≤ length s.now) × (n ≤ length out.old) }
    ensures { out.new ≡ run s.now at n bits ++ drop n out.old }
{
    if 16 < bits {
        unpack_from(s, at, 0, n, bits, &mut out[..]);
        return;
    }
    if 8 < bits {
        unpack_fours(s, at, n, bits, &mut out[..]);
        unpack_from(s, at, n - n % 4, n, bits, &mut out[..]);
        return;
    }
    unpack_eights(s, at, n, bits, &mut out[..]);
    unpack_from(s, at, n - n % 8, n, bits, &mut out[..]);
}

fn all_below(index: &[u32], n: usize, entries: usize) -> bool
    requires { n ≤ length index.now }
    ensures { result ≡ all_below n entries index.now }
{
    index[..n].iter().all(|i| (*i as usize) < entries)
}

fn look_up(table: &[u32], index: &[u32], n: usize, entries: usize, out: &mut [u32])
    requires n_in_bounds { (n ≤ length index.now) × (entries ≤ length table.now) × (n ≤ length out.old) }
    requires index_value { all_below n entries index.now ≡ true }
    ensures { out.new ≡ chosen n table.now index.now ++ drop n out.old }
{
    for k in 0..n {
        let i = index[k] as usize;
        out[k] = table[i];
    }
}

// what the indices name, unless one of them is too large
fn decode_table(s: &[u8], p: Plan, out: &mut [u32; 256]) -> Result<Counts, Refusal>
    requires { PlanKept (length s.now) p × (1 ≤ p.entries) }
    ensures { CountsDecoded (unpacked s.now p) result out.old out.new }
{
    let mut table = [0u32; 256];
    unpack(s, p.table, p.entries - 1, p.bits, &mut table[1..]);
    let mut index = [0u32; 256];
    unpack(s, p.at, p.n, p.width, &mut index);
    if all_below(&index, p.n, p.entries) {
        look_up(&table, &index, p.n, p.entries, out);
        return Ok(Counts {
            n: p.n,
            next: p.next,
        });
    }
    Err(Refusal { number: 8, at: 0 })
}

// whether a plan keeps to its bounds in a slice of `len` bytes, as each that `inspect` gives does
fn keeps_bounds(len: usize, p: Plan) -> bool
    ensures { result ≡ keeps len p }
{
    let sized = (p.n <= 256) & (p.bits <= 31) & (p.width <= 31) & (p.entries <= 255);
    let placed = (p.table <= p.at) & (p.at <= p.next) & (p.next <= len);
    sized & placed
}

// the counts of a plan: their values to the front of `out`, or a refusal, which leaves `out` and is at 0: a plan by value has no place
pub fn decode_plan(s: &[u8], p: Plan, out: &mut [u32; 256]) -> Result<Counts, Refusal>
    ensures { CountsDecoded (counts_by s.now p) result out.old out.new }
{
    if !keeps_bounds(s.len(), p) {
        return Err(Refusal { number: 8, at: 0 });
    }
    if p.entries == 0 {
        unpack(s, p.at, p.n, p.width, out);
        return Ok(Counts {
            n: p.n,
            next: p.next,
        });
    }
    decode_table(s, p, out)
}

// packed counts at `start`: their values to the front of `out`, or a refusal at `start`, which leaves `out`
pub fn decode(s: &[u8], start: usize, out: &mut [u32; 256]) -> Result<Counts, Refusal>
    ensures { CountsDecoded (marked start (counts s.now start)) result out.old out.new }
{
    // no `?`: twenty instructions more for each table, since it takes the plan's first word apart
    let p = match inspect(s, start) {
        Ok(p) => p,
        Err(why) => return Err(why),
    };
    let got = decode_plan(s, p, out);
    lerc_words::marked(got, start)
}
