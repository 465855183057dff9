// The checksum of a blob's bytes: two sums of 16-bit words, in one pass.
#![tactic(auto)]

ghost use Rattle.std.specs.Prelude.{◌≡◌, ◌+◌, ◌*◌, ◌^◌, ◌≤◌, ◌<◌, length};
ghost use Rattle.lerc_checksum.specs.Checksum as Rule;
ghost use Rattle.lerc_checksum.specs.Parts.{run, four_words, low_words, lanes_of, lane_sum, gathered, Gathers, RoomFor, Small};

// A group's words: so many keep the second sum within 32 bits.
const GROUP: usize = 359;

// One in the upper lane of two.
const LANE: u64 = 0x1_0000_0000;

// The sum of the words, and the sum of the running sums.
#[derive(Clone, Copy)]
struct Sums {
    first: u32,
    second: u32,
}

// Sums of quads of words, two lanes of 32 bits to a number: the first and third word of each quad,
// the second and fourth, and the running sums of both.
#[derive(Clone, Copy)]
struct Lanes {
    even: u64,
    odd: u64,
    both: u64,
}

// first byte high
fn pair(high: u8, low: u8) -> u32
    ensures { (result ≡ 256 * high + low) × (result < 65536) }
{
    256 * (high as u32) + low as u32
}

// the k-th word
fn word(s: &[u8], k: usize) -> u32
    requires { 2 * k + 2 ≤ length s.now }
    ensures { (result ≡ Rule.word s.now k) × (result < 65536) }
{
    pair(s[2 * k], s[2 * k + 1])
}

// four words from the k-th on, the first highest; by bytes, which compile to one load
fn four_words(s: &[u8], k: usize) -> u64
    requires { 2 * (k + 4) ≤ length s.now }
    ensures { result ≡ four_words s.now k }
{
    let at = 2 * k;
    u64::from_be_bytes([
        s[at],
        s[at + 1],
        s[at + 2],
        s[at + 3],
        s[at + 4],
        s[at + 5],
        s[at + 6],
        s[at + 7],
    ])
}

// the low word of either half, in a lane each
fn low_words(v: u64) -> u64
    ensures { result ≡ low_words v }
{
    v / LANE % 65536 * LANE + v % 65536
}

// the j-th quad from the k-th word on, after those before it
fn add_quad(s: &[u8], k: usize, j: usize, l: Lanes) -> Lanes
    requires { (2 * (k + 4 * (j + 1)) ≤ length s.now) × (4 * (j + 1) ≤ Rule.group_words) × (l ≡ lanes_of s.now k j) }
    ensures { result ≡ lanes_of s.now k (j + 1) }
{
    let v = four_words(s, k + 4 * j);
    let even = l.even + low_words(v / 65536);
    let odd = l.odd + low_words(v);
    Lanes {
        even,
        odd,
        both: l.both + even + odd,
    }
}

// m quads from the k-th word on; two to a turn, which halves the tests
fn count_quads(s: &[u8], k: usize, m: usize) -> Lanes
    requires { (2 * (k + 4 * m) ≤ length s.now) × (4 * m ≤ Rule.group_words) }
    ensures { result ≡ lanes_of s.now k m }
{
    let mut lanes = Lanes {
        even: 0,
        odd: 0,
        both: 0,
    };
    for i in 0..m / 2 {
        lanes = add_quad(s, k, 2 * i + 1, add_quad(s, k, 2 * i, lanes));
    }
    if m % 2 == 0 {
        return lanes;
    }
    add_quad(s, k, m - 1, lanes)
}

// both lanes together
fn lane_sum(x: u64) -> u64
    ensures { result ≡ lane_sum x }
{
    x / LANE + x % LANE
}

// what m quads make of the sums before them
fn gather(l: Lanes, m: usize, t: Sums) -> Sums
    requires { Gathers m l t }
    ensures { result ≡ gathered m l t }
{
    let odd = lane_sum(l.odd);
    // the running sums count all four words of a quad as often as the first
    let excess = odd + 2 * (l.even % LANE + l.odd % LANE);
    let first = t.first as u64;
    let second = t.second as u64 + 4 * (m as u64) * first + 4 * lane_sum(l.both);
    Sums {
        first: (first + lane_sum(l.even) + odd) as u32,
        second: (second - excess) as u32,
    }
}

// n words from the k-th on, one at a time
fn count_rest(s: &[u8], k: usize, n: usize, t: Sums) -> Sums
    requires { (2 * (k + n) ≤ length s.now) × RoomFor n t }
    ensures { result ≡ run s.now k n t }
{
    let mut sums = t;
    for i in 0..n {
        let first = sums.first + word(s, k + i);
        sums = Sums {
            first,
            second: sums.second + first,
        };
    }
    sums
}

// at most a group of words from the k-th on
fn count_words(s: &[u8], k: usize, n: usize, t: Sums) -> Sums
    requires { (2 * (k + n) ≤ length s.now) × (n ≤ Rule.group_words) × Small t }
    ensures { result ≡ run s.now k n t }
{
    let m = n / 4;
    let sums = gather(count_quads(s, k, m), m, t);
    count_rest(s, k + 4 * m, n - 4 * m, sums)
}

fn fold(x: u32) -> u32
    ensures { result ≡ Rule.fold x }
{
    x % 65536 + x / 65536
}

fn fold_both(t: Sums) -> Sums
    ensures { result ≡ Rule.folded t }
{
    Sums {
        first: fold(t.first),
        second: fold(t.second),
    }
}

// all whole words, folded after each group
fn count_groups(s: &[u8], words: usize) -> Sums
    requires { 2 * words ≤ length s.now }
    ensures { result ≡ Rule.closed_to s.now words }
{
    let mut sums = Sums {
        first: 65535,
        second: 65535,
    };
    for k in (0..words).step_by(GROUP) {
        let n = GROUP.min(words - k);
        sums = fold_both(count_words(s, k, n, sums));
    }
    sums
}

// an odd last byte is a word by itself, high over zero
fn count_last(s: &[u8], t: Sums) -> Sums
    requires { Small t }
    ensures { result ≡ Rule.with_last s.now t }
{
    let n = s.len();
    if n % 2 == 0 {
        return t;
    }
    let first = t.first + pair(s[n - 1], 0);
    Sums {
        first,
        second: t.second + first,
    }
}

// the second sum above the first; what either has past 16 bits is lost, or falls into the other
fn join(t: Sums) -> u32
    ensures { result ≡ Rule.joined t }
{
    t.second % 65536 * 65536 | t.first
}

// the checksum of these bytes
pub fn checksum(s: &[u8]) -> u32
    ensures { result ≡ Rule.checksum s.now }
{
    let whole = count_groups(s, s.len() / 2);
    let all = count_last(s, whole);
    join(fold_both(all))
}
