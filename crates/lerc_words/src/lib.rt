// Little-endian words, and the refusal that every answer carries.
#![tactic(auto)]

ghost use Rattle.std.specs.Prelude.{◌≡◌, ℕ, ◌+◌, ◌-◌, ◌*◌, ◌^◌, ◌≤◌, ◌<◌, min, length};
ghost use Rattle.lerc_words.specs.Res.{little, placed, marked, refusal_of, word_says};
ghost use Rattle.lerc_words.specs.Lists.{tabulate};

#[derive(Clone, Copy, Debug, PartialEq, Eq)]
pub struct Refusal {
    pub number: u32,
    // where in the bytes; 0 where no place is told
    pub at: usize,
}

impl Refusal {
    // the same number at a place
    pub fn at(self, place: usize) -> Refusal
        ensures { result ≡ placed place self }
    {
        Refusal {
            number: self.number,
            at: place,
        }
    }

    // why it was refused; number 0 where it was not
    pub fn of<A>(answer: &Result<A, Refusal>) -> Refusal
        ensures { result ≡ refusal_of answer.now }
    {
        match answer {
            Ok(_a) => Refusal { number: 0, at: 0 },
            Err(why) => *why,
        }
    }
}

// the same answer, refused at a place
pub fn marked<A>(answer: Result<A, Refusal>, place: usize) -> Result<A, Refusal>
    ensures { result ≡ marked place answer }
{
    answer.map_err(|why| why.at(place))
}

// eight bytes from `at` on, which are there; by bytes, which compile to one load
fn eight(s: &[u8], at: usize) -> u64
    requires { at + 8 ≤ length s.now }
    ensures { result ≡ little 8 s.now at }
{
    u64::from_le_bytes([
        s[at],
        s[at + 1],
        s[at + 2],
        s[at + 3],
        s[at + 4],
        s[at + 5],
        s[at + 6],
        s[at + 7],
    ])
}

// the bytes from `at` to the end, of which there are fewer than eight
fn tail(s: &[u8], at: usize) -> u64
    requires { length s.now < at + 8 }
    ensures { result ≡ little 8 s.now at }
{
    let mut v: u64 = 0;
    for k in (at..s.len()).rev() {
        v = v * 256 + u64::from(s[k]);
    }
    v
}

// eight bytes from `at` on; past the end they count as zero
pub fn peek(s: &[u8], at: usize) -> u64
    ensures { result ≡ little 8 s.now at }
{
    if s.len() < 8 {
        return tail(s, at);
    }
    if s.len() - 8 < at {
        return tail(s, at);
    }
    eight(s, at)
}

// `size` bytes from `at` on, at most eight; past the end they count as zero
pub fn bytes(s: &[u8], at: usize, size: usize) -> u64
    ensures { result ≡ little (min size 8) s.now at }
{
    let v = peek(s, at);
    if 8 <= size {
        return v;
    }
    let base: u64 = 1 << (8 * size);
    v % base
}

// the word of `size` bytes at `at`; more than eight bytes, or past the end: 1 at its first byte
pub fn word(s: &[u8], at: usize, size: usize) -> Result<u64, Refusal>
    ensures { result ≡ marked at (word_says s.now at size) }
{
    if 8 < size {
        return Err(Refusal { number: 1, at });
    }
    if s.len() < size {
        return Err(Refusal { number: 1, at });
    }
    if s.len() - size < at {
        return Err(Refusal { number: 1, at });
    }
    Ok(bytes(s, at, size))
}

// how many of n words have eight bytes from their first on; none of words that have more than eight
fn inside(end: usize, at: usize, size: usize, n: usize) -> usize
    ensures { (result ≤ n) × ((k : ℕ) → k < result → (size ≤ 8) × (at + k * size + 8 ≤ end)) }
{
    if 8 < size {
        return 0;
    }
    if end < 8 {
        return 0;
    }
    if end - 8 < at {
        return 0;
    }
    if size == 0 {
        return n;
    }
    let few = (end - 8 - at) / size + 1;
    few.min(n)
}

// the bits of `size` bytes, at most eight
fn low_bits(size: usize) -> u64
    ensures { result ≡ 2 ^ (8 * min size 8) - 1 }
{
    if size < 8 {
        let base: u64 = 1 << (8 * size);
        return base - 1;
    }
    0xffff_ffff_ffff_ffff
}

// words that have eight bytes each from their first on: the end is not asked for
fn words_inside(s: &[u8], at: usize, size: usize, out: &mut [u64])
    requires { (k : ℕ) → k < length out.old → (size ≤ 8) × (at + k * size + 8 ≤ length s.now) }
    ensures { out.new ≡ tabulate (length out.old) (λ k. little (min size 8) s.now (at + k * size)) }
{
    let low = low_bits(size);
    let mut place = at;
    for word in out.iter_mut() {
        *word = eight(s, place) & low;
        place += size;
    }
}

// `size` bytes on, but not past the end: all words there are 0
fn onward(place: usize, size: usize, end: usize) -> usize
    requires { place ≤ end }
    ensures { result ≡ min (place + size) end }
{
    place + size.min(end - place)
}

// words that may pass the end, where the place stays
fn words_rest(s: &[u8], at: usize, size: usize, out: &mut [u64])
    ensures { out.new ≡ tabulate (length out.old) (λ k. little (min size 8) s.now (at + k * size)) }
{
    let end = s.len();
    let mut place = at.min(end);
    for word in out.iter_mut() {
        *word = bytes(s, place, size);
        place = onward(place, size, end);
    }
}

// words of `size` bytes each, at most eight, one after the other from `at` on, to all of `out`; past the end bytes count as zero
pub fn words(s: &[u8], at: usize, size: usize, out: &mut [u64])
    ensures { out.new ≡ tabulate (length out.old) (λ k. little (min size 8) s.now (at + k * size)) }
{
    let few = inside(s.len(), at, size, out.len());
    words_inside(s, at, size, &mut out[..few]);
    words_rest(s, at + few * size, size, &mut out[few..]);
}
