// Whole reads: blobs that Esri's encoder (liblerc 4.0.0) wrote, or made by hand for its decoder, with the cells its decoder gave,
// and blobs that the rules refuse, with number and place. data/names lists them; tests/read/make.py has the form of the other files.
// Each slice is filled with its mark before the call. After it every entry is looked at: it must hold what the case says, or still
// its mark. The line of a case has the answer, and then "same" or the first entry of each slice that differs. The cases called
// "planted" have expectations that are wrong, and their lines must say so.
#![tactic(auto)]

ghost use Rattle.std.specs.Prelude.{◌≤◌, ◌<◌};

use lerc::{Staged, Whole};
use lerc_fields::quad;
use lerc_input::{read_full, read_next};
use lerc_words::{Refusal, bytes, peek};
use std::fs::File;
use std::io;
use std::io::Read;
use std::rt::Files;

// 18 numbers of 4 bytes
const HEAD: usize = 72;

// room for the largest case
const BYTES: usize = 131200;

const REST: usize = 82000;

const MASKS: usize = 32800;

const BLOCKS: usize = 4200;

const CELLS: usize = 262200;

const KEPT: u8 = 0xA5;

const SPARE: u8 = 0x3C;

const NOWHERE: usize = 0x1234_5678_9ABC;

const MARK: u64 = 0xFEED_FACE_CAFE;

// a prime below 2^32
const PRIME: u64 = 4294967291;

#[derive(Clone, Copy, Default)]
struct Tally {
    cases: usize,
    same: usize,
}

impl Tally {
    fn plus(self, t: Tally) -> Tally {
        Tally {
            cases: add(self.cases, t.cases),
            same: add(self.same, t.same),
        }
    }
}

// The head of a case. First the bytes of its parts and the slices' lengths; then how many bytes of each mask, starts and cells the
// expectation has.
#[derive(Clone, Copy)]
struct Case {
    blob: usize,
    rest: usize,
    flags: usize,
    lent_kept: usize,
    lent_spare: usize,
    lent_list: usize,
    lent_image: usize,
    before: usize,
    kept: usize,
    spare: usize,
    starts: usize,
    cells: usize,
    depth: usize,
    size: usize,
    // the refusal that is wanted, if one is
    refusal: Option<Refusal>,
    end: usize,
    sum: usize,
}

impl Case {
    fn reuses(self) -> bool {
        self.flags % 2 == 1
    }

    // the kept mask is that of the call before
    fn carries(self) -> bool {
        self.flags / 2 % 2 == 1
    }

    fn is_summed(self) -> bool {
        self.flags / 4 % 2 == 1
    }

    // where the parts of the expectation begin
    fn spare_at(self) -> usize {
        add(self.before, self.kept)
    }

    fn starts_at(self) -> usize {
        add(self.spare_at(), self.spare)
    }

    fn words_at(self) -> usize {
        add(self.starts_at(), stride(self.starts, 4))
    }
}

// numbers here are far below the bounds
fn add(a: usize, b: usize) -> usize {
    a % 1_000_000_000 + b % 1_000_000_000
}

// k entries of 1, 2, 4 or 8 bytes
fn stride(k: usize, size: usize) -> usize {
    let n = k % 1_000_000_000;
    match size {
        1 => n,
        2 => 2 * n,
        4 => 4 * n,
        _ => 8 * n,
    }
}

// `min` by itself leaves open that the image has room for so many (`slice_bounds-read_lent-end-5` of `run`)
fn lesser(a: usize, b: usize) -> usize
    ensures { (result ≤ a) × (result ≤ b) }
{
    a.min(b)
}

fn field(head: &[u8; HEAD], at: usize) -> usize {
    quad(head, at) as usize
}

// the number of a refusal is 0 where none is wanted
fn refusal_in(head: &[u8; HEAD]) -> Option<Refusal> {
    match quad(head, 56) {
        0 => None,
        number => Some(Refusal {
            number,
            at: field(head, 60),
        }),
    }
}

fn case_of(head: &[u8; HEAD]) -> Case {
    Case {
        blob: field(head, 0),
        rest: field(head, 4),
        flags: field(head, 8),
        lent_kept: field(head, 12),
        lent_spare: field(head, 16),
        lent_list: field(head, 20),
        lent_image: field(head, 24),
        before: field(head, 28),
        kept: field(head, 32),
        spare: field(head, 36),
        starts: field(head, 40),
        cells: field(head, 44),
        depth: field(head, 48),
        size: field(head, 52),
        refusal: refusal_in(head),
        end: field(head, 64),
        sum: field(head, 68),
    }
}

// entry k of a mask that begins with n bytes of the expectation
fn wanted_byte(expect: &[u8], from: usize, n: usize, k: usize, mark: u8) -> u8 {
    if n <= k {
        return mark;
    }
    (peek(expect, add(from, k)) % 256) as u8
}

fn wanted_start(expect: &[u8], c: Case, k: usize) -> usize {
    if c.starts <= k {
        return NOWHERE;
    }
    quad(expect, add(c.starts_at(), stride(k, 4))) as usize
}

// Esri's word where the cell's pixel is valid, elsewhere the mark
fn wanted_word(expect: &[u8], c: Case, cell: usize) -> u64 {
    if c.depth == 0 {
        return MARK;
    }
    if c.cells <= cell {
        return MARK;
    }
    let pixel = cell / c.depth;
    let mask = peek(expect, add(c.before, pixel / 8)) % 256;
    if (mask >> (7 - pixel % 8)) % 2 == 0 {
        return MARK;
    }
    let at = add(c.words_at(), stride(cell, c.size));
    bytes(expect, at, c.size)
}

// the first byte that is not as wanted
fn other_byte(have: &[u8], expect: &[u8], from: usize, n: usize, mark: u8) -> Option<usize> {
    have.iter()
        .enumerate()
        .position(|(k, b)| *b != wanted_byte(expect, from, n, k, mark))
}

fn other_start(have: &[usize], expect: &[u8], c: Case) -> Option<usize> {
    have.iter()
        .enumerate()
        .position(|(k, start)| *start != wanted_start(expect, c, k))
}

fn other_word(have: &[u64], expect: &[u8], c: Case) -> Option<usize> {
    have.iter()
        .enumerate()
        .position(|(k, word)| *word != wanted_word(expect, c, k))
}

fn with_piece(sum: u64, piece: u64) -> u64
    requires { (sum < 4294967291) × (piece < 65536) }
    ensures { result < 4294967291 }
{
    (sum * 2147483629 + piece) % PRIME
}

fn with_word(sum: u64, w: u64) -> u64
    requires { sum < 4294967291 }
    ensures { result < 4294967291 }
{
    let a = with_piece(sum, w % 65536);
    let b = with_piece(a, (w >> 16) % 65536);
    let c = with_piece(b, (w >> 32) % 65536);
    with_piece(c, (w >> 48) % 65536)
}

// of a large image, whose words are not stored
fn sum_of(have: &[u64]) -> u64 {
    let mut sum = 0;
    for word in have {
        sum = with_word(sum, *word);
    }
    sum
}

// whether all entries are as wanted; if not, the first that differs is told
fn told(rt: &impl Print, label: &str, other: Option<usize>) -> io::Result<bool> {
    if let Some(k) = other {
        print!(rt; "{label}{k}")?;
    }
    Ok(other.is_none())
}

fn is_same_image(rt: &impl Print, have: &[u64], expect: &[u8], c: Case) -> io::Result<bool> {
    if c.is_summed() {
        let is_same = sum_of(have) == c.sum as u64;
        if !is_same {
            print!(rt; " sum differs")?;
        }
        return Ok(is_same);
    }
    told(rt, " differs at cell ", other_word(have, expect, c))
}

fn is_same_answer(answer: Result<Whole, Refusal>, c: Case) -> bool {
    match answer {
        Ok(found) => c.refusal.is_none() & (found.blocks == c.starts) & (found.end == c.end),
        Err(why) => c.refusal == Some(why),
    }
}

fn print_refusal(rt: &impl Print, label: &str, why: Refusal) -> io::Result<()> {
    print!(rt; "{label}{} at {}", why.number, why.at)
}

fn print_answer(rt: &impl Print, answer: Result<Whole, Refusal>) -> io::Result<()> {
    match answer {
        Ok(found) => print!(rt; " blocks {} end {}", found.blocks, found.end),
        Err(why) => print_refusal(rt, " refused ", why),
    }
}

fn print_wanted(rt: &impl Print, c: Case) -> io::Result<()> {
    if let Some(why) = c.refusal {
        return print_refusal(rt, " and not refused ", why);
    }
    print!(rt; " and not blocks {} end {}", c.starts, c.end)
}

// whether nothing differs
fn judge(
    rt: &impl Print,
    c: Case,
    answer: Result<Whole, Refusal>,
    expect: &[u8],
    kept: &[u8],
    spare: &[u8],
    list: &[usize],
    image: &[u64],
) -> io::Result<bool> {
    print_answer(rt, answer)?;
    let said = is_same_answer(answer, c);
    if !said {
        print_wanted(rt, c)?;
    }
    let kept = other_byte(kept, expect, c.before, c.kept, KEPT);
    let spare = other_byte(spare, expect, c.spare_at(), c.spare, SPARE);
    let masks = told(rt, " differs at kept ", kept)? & told(rt, " differs at spare ", spare)?;
    let starts = told(rt, " differs at start ", other_start(list, expect, c))?;
    let words = is_same_image(rt, image, expect, c)?;
    let is_same = said & masks & starts & words;
    if is_same {
        print!(rt; " same")?;
    }
    Ok(is_same)
}

// the case's bytes, then marks
fn mark(kept: &mut [u8], expect: &[u8], n: usize) {
    for (k, b) in kept.iter_mut().enumerate() {
        *b = wanted_byte(expect, 0, n, k, KEPT);
    }
}

// what is kept before the call
fn prepare(c: Case, expect: &[u8], kept: &mut [u8]) {
    if c.carries() {
        return;
    }
    mark(kept, expect, c.before);
}

// What was staged, published, with both answers as one. First comes an answer that staging did not give, which must be 3.
// The slices stay apart through the calls: to lend fields of one record behind a `&mut` side by side gets no proof.
fn finish(
    blob: &[u8],
    reuse: bool,
    given: Result<Staged, Refusal>,
    kept: &mut [u8],
    spare: &[u8],
    list: &[usize],
    image: &mut [u64],
) -> Result<Whole, Refusal> {
    let found = given?;
    let none = Err(Refusal { number: 0, at: 0 });
    let forged = lerc::publish(
        blob,
        reuse,
        none,
        &mut kept[..],
        spare,
        list,
        &mut image[..],
    );
    let why = Refusal::of(&forged);
    let is_refused = (why.number == 3) & (why.at == 0);
    if !is_refused {
        return Err(why);
    }
    let done = lerc::publish(blob, reuse, given, kept, spare, list, image)?;
    Ok(Whole {
        header: found.header,
        blocks: found.blocks,
        end: done.end,
    })
}

fn read_lent(
    rt: &impl Print,
    c: Case,
    blob: &[u8],
    expect: &[u8],
    kept: &mut [u8],
    spare: &mut [u8],
    list: &mut [usize],
    image: &mut [u64],
) -> io::Result<bool> {
    prepare(c, expect, &mut kept[..]);
    let reuse = c.reuses();
    let given = lerc::stage(blob, reuse, kept, &mut spare[..], &mut list[..], image);
    let answer = finish(
        blob,
        reuse,
        given,
        &mut kept[..],
        spare,
        list,
        &mut image[..],
    );
    judge(rt, c, answer, expect, kept, spare, list, image)
}

fn run(rt: &impl Print, c: Case, blob: &[u8], expect: &[u8], kept: &mut [u8]) -> io::Result<bool> {
    let mut spare = [SPARE; MASKS];
    let mut list = [NOWHERE; BLOCKS];
    let mut image = [MARK; CELLS];
    let k = c.lent_kept.min(kept.len());
    let s = c.lent_spare.min(MASKS);
    let l = c.lent_list.min(BLOCKS);
    let i = lesser(c.lent_image, CELLS);
    read_lent(
        rt,
        c,
        blob,
        expect,
        &mut kept[..k],
        &mut spare[..s],
        &mut list[..l],
        &mut image[..i],
    )
}

fn one(rt: &impl Print, from: &mut impl Read, kept: &mut [u8]) -> io::Result<bool> {
    let mut head = [0u8; HEAD];
    read_full(from, &mut head[..])?;
    let c = case_of(&head);
    let mut blob = [0u8; BYTES];
    let n = read_next(from, c.blob, &mut blob[..])?;
    let mut expect = [0u8; REST];
    let m = read_next(from, c.rest, &mut expect[..])?;
    run(rt, c, &blob[..n], &expect[..m], kept)
}

fn line(
    rt: &impl Print,
    from: &mut impl Read,
    name: &str,
    i: usize,
    kept: &mut [u8],
) -> io::Result<bool> {
    print!(rt; "{name} {i}")?;
    let is_same = one(rt, from, kept)?;
    println!(rt)?;
    Ok(is_same)
}

// how many are as wanted
fn lines(
    rt: &impl Print,
    from: &mut impl Read,
    name: &str,
    cases: usize,
    kept: &mut [u8],
) -> io::Result<usize> {
    let mut same = 0;
    for i in 0..cases {
        if line(rt, from, name, i, &mut kept[..])? {
            same += 1;
        }
    }
    Ok(same)
}

fn print_tally(rt: &impl Print, name: &str, t: Tally) -> io::Result<()> {
    println!(rt; "{name} cases {} same {}", t.cases, t.same)
}

fn file(rt: &(impl Files + Print), name: &str, cases: usize) -> io::Result<Tally> {
    let Ok(mut from) = File::open(rt, name) else {
        return Ok(Tally { cases, same: 0 });
    };
    let mut kept = [KEPT; MASKS];
    let same = lines(rt, &mut from, name, cases, &mut kept[..])?;
    let t = Tally { cases, same };
    print_tally(rt, name, t)?;
    Ok(t)
}

fn main(rt: HostRuntime) -> io::Result<()> {
    let mut all = Tally::default();
    all = all.plus(file(&rt, "v4", 198)?);
    all = all.plus(file(&rt, "v4-crafted", 78)?);
    all = all.plus(file(&rt, "v4-bands", 24)?);
    all = all.plus(file(&rt, "v4-published", 7)?);
    all = all.plus(file(&rt, "v4-large", 4)?);
    all = all.plus(file(&rt, "probes", 80)?);
    all = all.plus(file(&rt, "beyond", 16)?);
    all = all.plus(file(&rt, "rules", 71)?);
    all = all.plus(file(&rt, "refused", 386)?);
    all = all.plus(file(&rt, "damaged", 78)?);
    all = all.plus(file(&rt, "planted", 11)?);
    print_tally(&rt, "all", all)
}
