// Huffman byte images: blobs that Esri's encoder (liblerc 4.0.0) wrote, with the cells its decoder gave, and blobs made from the words of
// the rules, accepted or refused with number and place. data/names lists them; tests/huffman/make.py has the form of the other files.
// A blob is staged and published, and then, from the start again, read whole; some are walked, or one block is filled. Each slice is
// filled with its mark before the call. After it every entry is looked at: it must hold what the case says, or still its mark. The line
// of a case has each answer, and then "same" or the first entry of each slice that differs. The cases called "planted" have expectations
// that are wrong, and their lines must say so.
#![tactic(auto)]

ghost use Rattle.std.specs.Prelude.{◌≤◌, ◌<◌};

use lerc::Staged;
use lerc_fields::{fields, quad};
use lerc_header::{DEPTHS, Header};
use lerc_input::{read_full, read_next};
use lerc_ranges::Ranges;
use lerc_words::{Refusal, bytes, peek};
use std::fs::File;
use std::io;
use std::io::Read;
use std::rt::Files;

// 20 numbers of 4 bytes
const HEAD: usize = 80;

// room for the largest case
const BYTES: usize = 131200;

const REST: usize = 66000;

const MASKS: usize = 32800;

const BLOCKS: usize = 4200;

const CELLS: usize = 262200;

const KEPT: u8 = 0xA5;

const SPARE: u8 = 0x3C;

const NOWHERE: usize = 0x1234_5678_9ABC;

const MARK: u64 = 0xFEED_FACE_CAFE;

// a prime below 2^32
const PRIME: u64 = 4294967291;

#[derive(Clone, Copy, Default)]
struct Tally {
    cases: usize,
    same: usize,
}

impl Tally {
    fn plus(self, t: Tally) -> Tally {
        Tally {
            cases: add(self.cases, t.cases),
            same: add(self.same, t.same),
        }
    }
}

#[derive(Clone, Copy)]
enum Operation {
    // with publish
    Stage,
    Read,
    Walk,
    Fill,
}

// An answer: a refusal, or what the operation reports.
#[derive(Clone, Copy, PartialEq, Eq)]
enum Said {
    Refused {
        number: u32,
        at: usize,
    },
    Accepted {
        blocks: usize,
        end: usize,
        words: usize,
    },
}

fn refused(why: Refusal) -> Said {
    Said::Refused {
        number: why.number,
        at: why.at,
    }
}

// The head of a case. First the bytes of its parts and the slices' lengths; then how many bytes of each mask, starts and cells the
// expectation has; then the answer. Where a header is given by value the body begins at `body`.
#[derive(Clone, Copy)]
struct Case {
    blob: usize,
    rest: usize,
    flags: usize,
    lent_kept: usize,
    lent_spare: usize,
    lent_list: usize,
    lent_image: usize,
    before: usize,
    kept: usize,
    spare: usize,
    starts: usize,
    cells: usize,
    depth: usize,
    body: usize,
    // the refusal that is wanted, if one is
    refusal: Option<Refusal>,
    place: usize,
    blocks: usize,
    end: usize,
    words: usize,
    sum: usize,
}

impl Case {
    fn reuses(self) -> bool {
        self.flags % 2 == 1
    }

    fn is_summed(self) -> bool {
        self.flags / 2 % 2 == 1
    }

    fn walks(self) -> bool {
        self.flags / 4 % 2 == 1
    }

    fn fills(self) -> bool {
        self.flags / 8 % 2 == 1
    }

    // where the parts of the expectation begin
    fn spare_at(self) -> usize {
        add(self.before, self.kept)
    }

    fn starts_at(self) -> usize {
        add(self.spare_at(), self.spare)
    }

    fn words_at(self) -> usize {
        add(self.starts_at(), quads(self.starts))
    }

    // a whole read does not report words
    fn words_of(self, operation: Operation) -> usize {
        match operation {
            Operation::Read => 0,
            _ => self.words,
        }
    }

    // the answer that is wanted
    fn wanted(self, operation: Operation) -> Said {
        if let Some(why) = self.refusal {
            return refused(why);
        }
        Said::Accepted {
            blocks: self.blocks,
            end: self.end,
            words: self.words_of(operation),
        }
    }

    // no answer is as wanted where an acceptance is to have a place, or a refusal to report something
    fn is_met_by(self, operation: Operation, said: Said) -> bool {
        let words = self.words_of(operation);
        let is_plain = match self.refusal {
            Some(_why) => (self.blocks == 0) & (self.end == 0) & (words == 0),
            None => self.place == 0,
        };
        is_plain & (said == self.wanted(operation))
    }
}

// numbers here are far below the bounds
fn add(a: usize, b: usize) -> usize {
    a % 1_000_000_000 + b % 1_000_000_000
}

// the bytes of k entries of 4 bytes
fn quads(k: usize) -> usize {
    4 * (k % 1_000_000_000)
}

// `min` by itself leaves open that the image has room for so many (`slice_bounds-call_lent-end-5` of `run`)
fn lesser(a: usize, b: usize) -> usize
    ensures { (result ≤ a) × (result ≤ b) }
{
    a.min(b)
}

fn field(head: &[u8; HEAD], at: usize) -> usize {
    quad(head, at) as usize
}

// the number of a refusal is 0 where none is wanted
fn refusal_in(head: &[u8; HEAD]) -> Option<Refusal> {
    match quad(head, 56) {
        0 => None,
        number => Some(Refusal {
            number,
            at: field(head, 60),
        }),
    }
}

fn case_of(head: &[u8; HEAD]) -> Case {
    Case {
        blob: field(head, 0),
        rest: field(head, 4),
        flags: field(head, 8),
        lent_kept: field(head, 12),
        lent_spare: field(head, 16),
        lent_list: field(head, 20),
        lent_image: field(head, 24),
        before: field(head, 28),
        kept: field(head, 32),
        spare: field(head, 36),
        starts: field(head, 40),
        cells: field(head, 44),
        depth: field(head, 48),
        body: field(head, 52),
        refusal: refusal_in(head),
        place: field(head, 60),
        blocks: field(head, 64),
        end: field(head, 68),
        words: field(head, 72),
        sum: field(head, 76),
    }
}

// one pair for every depth
fn ranges(c: Case, h: Header) -> Ranges {
    Ranges {
        at: c.body,
        constant: false,
        min: [h.min; DEPTHS],
        max: [h.max; DEPTHS],
    }
}

// entry k of a mask that begins with n bytes of the expectation
fn wanted_byte(expect: &[u8], from: usize, n: usize, k: usize, mark: u8) -> u8 {
    if n <= k {
        return mark;
    }
    (peek(expect, add(from, k)) % 256) as u8
}

fn wanted_start(expect: &[u8], c: Case, k: usize) -> usize {
    if c.starts <= k {
        return NOWHERE;
    }
    quad(expect, add(c.starts_at(), quads(k))) as usize
}

// the byte where the cell's pixel is valid, elsewhere the mark
fn wanted_word(expect: &[u8], c: Case, cell: usize) -> u64 {
    if c.depth == 0 {
        return MARK;
    }
    if c.cells <= cell {
        return MARK;
    }
    let pixel = cell / c.depth;
    let mask = peek(expect, add(c.before, pixel / 8)) % 256;
    if (mask >> (7 - pixel % 8)) % 2 == 0 {
        return MARK;
    }
    bytes(expect, add(c.words_at(), cell), 1)
}

// the first byte that is not as wanted
fn other_byte(have: &[u8], expect: &[u8], from: usize, n: usize, mark: u8) -> Option<usize> {
    have.iter()
        .enumerate()
        .position(|(k, b)| *b != wanted_byte(expect, from, n, k, mark))
}

fn other_start(have: &[usize], expect: &[u8], c: Case) -> Option<usize> {
    have.iter()
        .enumerate()
        .position(|(k, start)| *start != wanted_start(expect, c, k))
}

fn other_word(have: &[u64], expect: &[u8], c: Case) -> Option<usize> {
    have.iter()
        .enumerate()
        .position(|(k, word)| *word != wanted_word(expect, c, k))
}

fn with_piece(sum: u64, piece: u64) -> u64
    requires { (sum < 4294967291) × (piece < 65536) }
    ensures { result < 4294967291 }
{
    (sum * 2147483629 + piece) % PRIME
}

fn with_word(sum: u64, w: u64) -> u64
    requires { sum < 4294967291 }
    ensures { result < 4294967291 }
{
    let a = with_piece(sum, w % 65536);
    let b = with_piece(a, (w >> 16) % 65536);
    let c = with_piece(b, (w >> 32) % 65536);
    with_piece(c, (w >> 48) % 65536)
}

// of a large image, whose words are not stored
fn sum_of(have: &[u64]) -> u64 {
    let mut sum = 0;
    for word in have {
        sum = with_word(sum, *word);
    }
    sum
}

// whether all entries are as wanted; if not, the first that differs is told
fn told(rt: &impl Print, label: &str, other: Option<usize>) -> io::Result<bool> {
    if let Some(k) = other {
        print!(rt; "{label}{k}")?;
    }
    Ok(other.is_none())
}

fn is_same_image(rt: &impl Print, have: &[u64], expect: &[u8], c: Case) -> io::Result<bool> {
    if c.is_summed() {
        let is_same = sum_of(have) == c.sum as u64;
        if !is_same {
            print!(rt; " sum differs")?;
        }
        return Ok(is_same);
    }
    told(rt, " differs at cell ", other_word(have, expect, c))
}

fn print_said(rt: &impl Print, said: Said, operation: Operation) -> io::Result<()> {
    match said {
        Said::Refused { number, at } => print!(rt; " refused {number} at {at}"),
        Said::Accepted { blocks, end, words } => match operation {
            Operation::Fill => print!(rt; " words {words}"),
            Operation::Stage => print!(rt; " blocks {blocks} end {end} words {words}"),
            _ => print!(rt; " blocks {blocks} end {end}"),
        },
    }
}

fn name_of(operation: Operation) -> &'static str {
    match operation {
        Operation::Stage => "staged",
        Operation::Read => "read",
        Operation::Walk => "walked",
        Operation::Fill => "filled",
    }
}

// whether nothing differs
fn judge(
    rt: &impl Print,
    c: Case,
    operation: Operation,
    said: Said,
    expect: &[u8],
    kept: &[u8],
    spare: &[u8],
    list: &[usize],
    image: &[u64],
) -> io::Result<bool> {
    print!(rt; " {}", name_of(operation))?;
    print_said(rt, said, operation)?;
    let wanted = c.wanted(operation);
    let answered = c.is_met_by(operation, said);
    if !answered {
        print!(rt; " and not")?;
        print_said(rt, wanted, operation)?;
    }
    let kept = other_byte(kept, expect, c.before, c.kept, KEPT);
    let spare = other_byte(spare, expect, c.spare_at(), c.spare, SPARE);
    let masks = told(rt, " differs at kept ", kept)? & told(rt, " differs at spare ", spare)?;
    let starts = told(rt, " differs at start ", other_start(list, expect, c))?;
    let words = is_same_image(rt, image, expect, c)?;
    let is_same = answered & masks & starts & words;
    if is_same {
        print!(rt; " same")?;
    }
    Ok(is_same)
}

// the case's bytes, then marks
fn mark(kept: &mut [u8], expect: &[u8], n: usize) {
    for (k, b) in kept.iter_mut().enumerate() {
        *b = wanted_byte(expect, 0, n, k, KEPT);
    }
}

// What was staged, published, with both answers as one. First comes an answer that staging did not give, which must be 3.
// The slices stay apart through the calls: to lend fields of one record behind a `&mut` side by side gets no proof.
fn finish(
    blob: &[u8],
    reuse: bool,
    given: Result<Staged, Refusal>,
    kept: &mut [u8],
    spare: &[u8],
    list: &[usize],
    image: &mut [u64],
) -> Said {
    let found = match given {
        Ok(found) => found,
        Err(why) => return refused(why),
    };
    let none = Err(Refusal { number: 0, at: 0 });
    let forged = lerc::publish(
        blob,
        reuse,
        none,
        &mut kept[..],
        spare,
        list,
        &mut image[..],
    );
    let why = Refusal::of(&forged);
    let is_refused = (why.number == 3) & (why.at == 0);
    if !is_refused {
        return refused(why);
    }
    match lerc::publish(blob, reuse, given, kept, spare, list, image) {
        Ok(done) => Said::Accepted {
            blocks: found.blocks,
            end: done.end,
            words: done.words,
        },
        Err(why) => refused(why),
    }
}

fn stage(
    c: Case,
    blob: &[u8],
    kept: &mut [u8],
    spare: &mut [u8],
    list: &mut [usize],
    image: &mut [u64],
) -> Said {
    let reuse = c.reuses();
    let given = lerc::stage(blob, reuse, kept, &mut spare[..], &mut list[..], image);
    finish(blob, reuse, given, kept, spare, list, image)
}

fn read(
    c: Case,
    blob: &[u8],
    kept: &mut [u8],
    spare: &mut [u8],
    list: &mut [usize],
    image: &mut [u64],
) -> Said {
    match lerc::read(blob, c.reuses(), kept, spare, list, image) {
        Ok(found) => Said::Accepted {
            blocks: found.blocks,
            end: found.end,
            words: 0,
        },
        Err(why) => refused(why),
    }
}

fn walk(c: Case, blob: &[u8], mask: &[u8], list: &mut [usize]) -> Said {
    let h = fields(blob);
    match lerc_image::walk(blob, h, ranges(c, h), mask, list) {
        Ok(found) => Said::Accepted {
            blocks: found.blocks,
            end: found.end,
            words: 0,
        },
        Err(why) => refused(why),
    }
}

// block 0
fn fill(c: Case, blob: &[u8], mask: &[u8], list: &[usize], image: &mut [u64]) -> Said {
    let h = fields(blob);
    match lerc_image::fill(blob, h, ranges(c, h), mask, list, 0, image) {
        Ok(words) => Said::Accepted {
            blocks: 0,
            end: 0,
            words,
        },
        Err(why) => refused(why),
    }
}

fn call(
    c: Case,
    operation: Operation,
    blob: &[u8],
    kept: &mut [u8],
    spare: &mut [u8],
    list: &mut [usize],
    image: &mut [u64],
) -> Said {
    match operation {
        Operation::Stage => stage(c, blob, kept, spare, list, image),
        Operation::Read => read(c, blob, kept, spare, list, image),
        Operation::Walk => walk(c, blob, kept, list),
        Operation::Fill => fill(c, blob, kept, list, image),
    }
}

fn call_lent(
    rt: &impl Print,
    c: Case,
    operation: Operation,
    blob: &[u8],
    expect: &[u8],
    kept: &mut [u8],
    spare: &mut [u8],
    list: &mut [usize],
    image: &mut [u64],
) -> io::Result<bool> {
    mark(&mut kept[..], expect, c.before);
    let said = call(
        c,
        operation,
        blob,
        &mut kept[..],
        &mut spare[..],
        &mut list[..],
        &mut image[..],
    );
    judge(rt, c, operation, said, expect, kept, spare, list, image)
}

// the list before the call: a fill is given the start of block 0
fn starts(c: Case, operation: Operation, expect: &[u8]) -> [usize; BLOCKS] {
    let mut out = [NOWHERE; BLOCKS];
    if let Operation::Fill = operation {
        out[0] = wanted_start(expect, c, 0);
    }
    out
}

fn run(
    rt: &impl Print,
    c: Case,
    operation: Operation,
    blob: &[u8],
    expect: &[u8],
) -> io::Result<bool> {
    let mut kept = [KEPT; MASKS];
    let mut spare = [SPARE; MASKS];
    let mut list = starts(c, operation, expect);
    let mut image = [MARK; CELLS];
    let k = c.lent_kept.min(MASKS);
    let s = c.lent_spare.min(MASKS);
    let l = c.lent_list.min(BLOCKS);
    let i = lesser(c.lent_image, CELLS);
    call_lent(
        rt,
        c,
        operation,
        blob,
        expect,
        &mut kept[..k],
        &mut spare[..s],
        &mut list[..l],
        &mut image[..i],
    )
}

// whether nothing differs
fn run_all(rt: &impl Print, c: Case, blob: &[u8], expect: &[u8]) -> io::Result<bool> {
    if c.walks() {
        return run(rt, c, Operation::Walk, blob, expect);
    }
    if c.fills() {
        return run(rt, c, Operation::Fill, blob, expect);
    }
    let staged = run(rt, c, Operation::Stage, blob, expect)?;
    let read = run(rt, c, Operation::Read, blob, expect)?;
    Ok(staged & read)
}

fn one(rt: &impl Print, from: &mut impl Read) -> io::Result<bool> {
    let mut head = [0u8; HEAD];
    read_full(from, &mut head[..])?;
    let c = case_of(&head);
    let mut blob = [0u8; BYTES];
    let n = read_next(from, c.blob, &mut blob[..])?;
    let mut expect = [0u8; REST];
    let m = read_next(from, c.rest, &mut expect[..])?;
    run_all(rt, c, &blob[..n], &expect[..m])
}

fn line(rt: &impl Print, from: &mut impl Read, name: &str, i: usize) -> io::Result<bool> {
    print!(rt; "{name} {i}")?;
    let is_same = one(rt, from)?;
    println!(rt)?;
    Ok(is_same)
}

// how many are as wanted
fn lines(rt: &impl Print, from: &mut impl Read, name: &str, cases: usize) -> io::Result<usize> {
    let mut same = 0;
    for i in 0..cases {
        if line(rt, from, name, i)? {
            same += 1;
        }
    }
    Ok(same)
}

fn print_tally(rt: &impl Print, name: &str, t: Tally) -> io::Result<()> {
    println!(rt; "{name} cases {} same {}", t.cases, t.same)
}

fn file(rt: &(impl Files + Print), name: &str, cases: usize) -> io::Result<Tally> {
    let Ok(mut from) = File::open(rt, name) else {
        return Ok(Tally { cases, same: 0 });
    };
    let same = lines(rt, &mut from, name, cases)?;
    let t = Tally { cases, same };
    print_tally(rt, name, t)?;
    Ok(t)
}

fn main(rt: HostRuntime) -> io::Result<()> {
    let mut all = Tally::default();
    all = all.plus(file(&rt, "esri", 39)?);
    all = all.plus(file(&rt, "probes", 19)?);
    all = all.plus(file(&rt, "accepted", 206)?);
    all = all.plus(file(&rt, "refused", 844)?);
    all = all.plus(file(&rt, "others", 105)?);
    all = all.plus(file(&rt, "planted", 15)?);
    print_tally(&rt, "all", all)
}
