// Stored packs and calls: packs opened, with all their entries and bodies, and written again from these; entries and bodies by number;
// calls of the writer. data/names says of each what is right or wrong; tests/pack/make.py has the form of the other files. It wrote
// them, and the lines that must come out, from the words of the rules. The line of a case has the answer and a sum of what was read
// or of the whole output, then "same" or what was expected. The output has its marks before the call: a refusal must leave them all,
// and a pack those behind it. The cases called "planted" have expectations that are wrong, and their lines must say so.
#![tactic(auto)]

use lerc_fields::quad;
use lerc_input::{read_full, read_next};
use lerc_pack::Entry;
use lerc_words::{Refusal, peek};
use std::fs::File;
use std::io::Read;
use std::rt::Files;
use std::{array, io};

// 14 numbers of 4 bytes and 3 of 8 bytes
const HEAD: usize = 80;

// room for the largest pack and the largest output
const BYTES: usize = 70000;

// room for rows, columns and lengths as they are stored
const REST: usize = 4096;

const SLOTS: usize = 300;

const TILES: usize = 256;

const SHOWN: usize = 32;

const MARK: u8 = 0xA5;

// a prime below 2^32
const PRIME: u64 = 4294967291;

#[derive(Clone, Copy, Default)]
struct Tally {
    cases: usize,
    same: usize,
}

impl Tally {
    fn plus(self, t: Tally) -> Tally {
        Tally {
            cases: add(self.cases, t.cases),
            same: add(self.same, t.same),
        }
    }
}

#[derive(Clone, Copy)]
enum Operation {
    Open,
    Read,
    Write,
}

impl Operation {
    fn of(number: u32) -> Operation {
        match number {
            0 => Operation::Open,
            1 => Operation::Read,
            _ => Operation::Write,
        }
    }
}

// The head of a case: which bytes of the slice are others than in the case before, and how many are lent; then what the writer is
// given, then what must come out, then the count and the number of an entry.
#[derive(Clone, Copy)]
struct Case {
    operation: Operation,
    at: usize,
    piece: usize,
    changed: usize,
    lent: usize,
    rows: usize,
    columns: usize,
    lengths: usize,
    from: usize,
    bodies: usize,
    room: usize,
    // the refusal that is wanted, if one is
    refusal: Option<Refusal>,
    place: usize,
    sum: u64,
    count: usize,
    index: usize,
    value: usize,
}

impl Case {
    fn columns_at(self) -> usize {
        twice(self.rows)
    }

    fn lengths_at(self) -> usize {
        add(self.columns_at(), twice(self.columns))
    }

    fn rest(self) -> usize {
        add(self.lengths_at(), eightfold(self.lengths))
    }

    // how many bytes must be written
    fn written(self) -> usize {
        match self.refusal {
            None => self.value,
            Some(_) => 0,
        }
    }
}

// What came out: whether it was refused, how many tiles or bytes; and a sum.
#[derive(Clone, Copy)]
struct Found {
    refusal: Option<Refusal>,
    value: usize,
    sum: u64,
}

impl Found {
    // nothing is as wanted where an acceptance is to have a place
    fn is_wanted(self, c: Case) -> bool {
        let is_plain = c.refusal.is_some() | (c.place == 0);
        is_plain & (self.refusal == c.refusal) & (self.value == c.value) & (self.sum == c.sum)
    }
}

// numbers here are far below the bounds
fn add(a: usize, b: usize) -> usize {
    a % 1_000_000_000 + b % 1_000_000_000
}

fn twice(k: usize) -> usize {
    2 * (k % 1_000_000_000)
}

fn eightfold(k: usize) -> usize {
    8 * (k % 1_000_000_000)
}

fn print_refusal(rt: &impl Print, label: &str, why: Refusal) -> io::Result<()> {
    print!(rt; "{label}{} at {}", why.number, why.at)
}

fn field(head: &[u8; HEAD], at: usize) -> usize {
    quad(head, at) as usize
}

// the number of a refusal is 0 where none is wanted
fn refusal_in(head: &[u8; HEAD]) -> Option<Refusal> {
    match quad(head, 44) {
        0 => None,
        number => Some(Refusal {
            number,
            at: field(head, 48),
        }),
    }
}

fn case_of(head: &[u8; HEAD]) -> Case {
    Case {
        operation: Operation::of(quad(head, 0)),
        at: field(head, 4),
        piece: field(head, 8),
        changed: field(head, 12),
        lent: field(head, 16),
        rows: field(head, 20),
        columns: field(head, 24),
        lengths: field(head, 28),
        from: field(head, 32),
        bodies: field(head, 36),
        room: field(head, 40),
        refusal: refusal_in(head),
        place: field(head, 48),
        sum: u64::from(quad(head, 52)),
        count: peek(head, 56) as usize,
        index: peek(head, 64) as usize,
        value: peek(head, 72) as usize,
    }
}

fn with_piece(sum: u64, piece: u64) -> u64 {
    (sum % PRIME * 2147483629 + piece % 65536 + 1) % PRIME
}

fn with_word(sum: u64, w: u64) -> u64 {
    let a = with_piece(sum, w);
    let b = with_piece(a, w >> 16);
    let c = with_piece(b, w >> 32);
    with_piece(c, w >> 48)
}

fn sum_of(s: &[u8]) -> u64 {
    s.iter().fold(0, |sum, b| with_piece(sum, u64::from(*b)))
}

fn with_entry(sum: u64, e: Entry, body: u64) -> u64 {
    let a = with_word(sum, e.row as u64);
    let b = with_word(a, e.column as u64);
    let c = with_word(b, e.kind as u64);
    let d = with_word(c, e.depth as u64);
    let f = with_word(d, e.start as u64);
    let g = with_word(f, e.length as u64);
    with_word(g, body)
}

fn print_entry(rt: &impl Print, e: Entry, body: u64) -> io::Result<()> {
    print!(rt; " row {} column {} kind {}", e.row, e.column, e.kind)?;
    print!(rt; " depth {} start {} length {}", e.depth, e.start, e.length)?;
    print!(rt; " sum {body}")
}

fn accepted(value: usize, sum: u64) -> Found {
    Found {
        refusal: None,
        value,
        sum,
    }
}

fn refused(why: Refusal, value: usize, sum: u64) -> Found {
    Found {
        refusal: Some(why),
        value,
        sum,
    }
}

fn print_why(rt: &impl Print, why: Refusal) -> io::Result<()> {
    print_refusal(rt, " refused ", why)
}

fn print_one(rt: &impl Print, pack: &[u8], count: usize, i: usize) -> io::Result<()> {
    match lerc_pack::entry_in(pack, count, i) {
        Ok(e) => print_entry(rt, e, sum_of(lerc_pack::body_in(pack, count, i))),
        Err(why) => print_why(rt, why),
    }
}

// an entry and its body, whose length counts even where the entry is refused
fn read_one(pack: &[u8], count: usize, i: usize, sum: u64) -> Found {
    let body = lerc_pack::body_in(pack, count, i);
    let n = body.len();
    match lerc_pack::entry_in(pack, count, i) {
        Ok(e) => accepted(n, with_entry(sum, e, sum_of(body))),
        Err(why) => refused(why, n, sum),
    }
}

// of many entries the first ones are shown; the sum is of all
fn tell_entry(rt: &impl Print, pack: &[u8], count: usize, i: usize, sum: u64) -> io::Result<u64> {
    if i < SHOWN {
        print!(rt; "\n  {i}")?;
        print_one(rt, pack, count, i)?;
    }
    let one = read_one(pack, count, i, sum);
    Ok(one.sum)
}

fn tell_entries(rt: &impl Print, pack: &[u8], count: usize) -> io::Result<u64> {
    let mut sum = 0;
    for i in 0..count {
        sum = tell_entry(rt, pack, count, i, sum)?;
    }
    Ok(sum)
}

// all zeros where it is refused
fn entry_of(pack: &[u8], count: usize, i: usize) -> Entry {
    lerc_pack::entry_in(pack, count, i).unwrap_or(Entry {
        row: 0,
        column: 0,
        kind: 0,
        depth: 0,
        start: 0,
        length: 0,
    })
}

fn rows_of(pack: &[u8], count: usize) -> [u16; TILES] {
    array::from_fn(|i| entry_of(pack, count, i).row)
}

fn columns_of(pack: &[u8], count: usize) -> [u16; TILES] {
    array::from_fn(|i| entry_of(pack, count, i).column)
}

fn lengths_of(pack: &[u8], count: usize) -> [usize; TILES] {
    array::from_fn(|i| entry_of(pack, count, i).length)
}

// byte k of an output that begins with n bytes of a pack
fn wanted_byte(pack: &[u8], n: usize, k: usize) -> u8 {
    if n <= k {
        return MARK;
    }
    (peek(pack, k) % 256) as u8
}

// the first byte that is not as wanted
fn other_byte(out: &[u8], pack: &[u8], n: usize) -> Option<usize> {
    out.iter()
        .enumerate()
        .position(|(k, b)| *b != wanted_byte(pack, n, k))
}

// whether all bytes are as wanted; if not, the first that differs is told
fn is_as_wanted(rt: &impl Print, out: &[u8], pack: &[u8], n: usize) -> io::Result<bool> {
    let other = other_byte(out, pack, n);
    if let Some(k) = other {
        print!(rt; " differs at byte {k}")?;
    }
    Ok(other.is_none())
}

// whether the entries and bodies that are read are written as the pack that they are from
fn is_written_so(rt: &impl Print, pack: &[u8], count: usize, out: &mut [u8]) -> io::Result<bool> {
    let rows = rows_of(pack, count);
    let columns = columns_of(pack, count);
    let lengths = lengths_of(pack, count);
    let n = count.min(TILES);
    let from = (8 + 16 * n).min(pack.len());
    let said = lerc_pack_writer::write_pack(
        &rows[..n],
        &columns[..n],
        &lengths[..n],
        &pack[from..],
        &mut out[..],
    );
    if let Err(why) = said {
        print_refusal(rt, " and again refused ", why)?;
        return Ok(false);
    }
    is_as_wanted(rt, &out[..], pack, pack.len())
}

fn is_written_again(rt: &impl Print, pack: &[u8], count: usize) -> io::Result<bool> {
    let mut out = [MARK; BYTES];
    let room = pack.len().min(BYTES);
    is_written_so(rt, pack, count, &mut out[..room])
}

fn open(rt: &impl Print, pack: &[u8]) -> io::Result<Found> {
    let count = match lerc_pack::open_pack(pack) {
        Ok(count) => count,
        Err(why) => {
            print_why(rt, why)?;
            return Ok(refused(why, 0, 0));
        }
    };
    print!(rt; " opened {count}")?;
    let sum = tell_entries(rt, pack, count)?;
    print!(rt; "\n ")?;
    Ok(accepted(count, sum))
}

fn judge(rt: &impl Print, c: Case, have: Found) -> io::Result<bool> {
    print!(rt; " sum {}", have.sum)?;
    if have.is_wanted(c) {
        return Ok(true);
    }
    match c.refusal {
        Some(why) => print_refusal(rt, " and not refused ", why)?,
        None => print!(rt; " and not value {}", c.value)?,
    }
    print!(rt; " sum {}", c.sum)?;
    Ok(false)
}

fn run_open(rt: &impl Print, c: Case, pack: &[u8]) -> io::Result<bool> {
    let have = open(rt, pack)?;
    let is_same = judge(rt, c, have)?;
    if have.refusal.is_some() {
        return Ok(is_same);
    }
    Ok(is_same & is_written_again(rt, pack, have.value)?)
}

fn run_read(rt: &impl Print, c: Case, pack: &[u8]) -> io::Result<bool> {
    print_one(rt, pack, c.count, c.index)?;
    judge(rt, c, read_one(pack, c.count, c.index, 0))
}

// rows or columns as they are stored from `at` on
fn shorts(rest: &[u8], at: usize) -> [u16; SLOTS] {
    array::from_fn(|k| (peek(rest, add(at, twice(k))) % 65536) as u16)
}

fn words(rest: &[u8], at: usize) -> [usize; SLOTS] {
    array::from_fn(|k| peek(rest, add(at, eightfold(k))) as usize)
}

fn write(c: Case, bodies: &[u8], rest: &[u8], out: &mut [u8]) -> Result<usize, Refusal> {
    let rows = shorts(rest, 0);
    let columns = shorts(rest, c.columns_at());
    let lengths = words(rest, c.lengths_at());
    lerc_pack_writer::write_pack(
        &rows[..c.rows.min(SLOTS)],
        &columns[..c.columns.min(SLOTS)],
        &lengths[..c.lengths.min(SLOTS)],
        bodies,
        out,
    )
}

fn found_of(rt: &impl Print, said: Result<usize, Refusal>, sum: u64) -> io::Result<Found> {
    match said {
        Ok(n) => {
            print!(rt; " written {n}")?;
            Ok(accepted(n, sum))
        }
        Err(why) => {
            print_why(rt, why)?;
            Ok(refused(why, 0, sum))
        }
    }
}

fn write_lent(
    rt: &impl Print,
    c: Case,
    pack: &[u8],
    rest: &[u8],
    out: &mut [u8],
) -> io::Result<bool> {
    let from = c.from.min(pack.len());
    let end = c.bodies.min(pack.len() - from) + from;
    let said = write(c, &pack[from..end], rest, &mut out[..]);
    let is_same = judge(rt, c, found_of(rt, said, sum_of(&out[..]))?)?;
    Ok(is_same & is_as_wanted(rt, &out[..], pack, c.written())?)
}

fn run_write(rt: &impl Print, c: Case, pack: &[u8], rest: &[u8]) -> io::Result<bool> {
    let mut out = [MARK; BYTES];
    let room = c.room.min(BYTES);
    write_lent(rt, c, pack, rest, &mut out[..room])
}

fn run(rt: &impl Print, c: Case, pack: &[u8], rest: &[u8]) -> io::Result<bool> {
    match c.operation {
        Operation::Open => run_open(rt, c, pack),
        Operation::Read => run_read(rt, c, pack),
        Operation::Write => run_write(rt, c, pack, rest),
    }
}

// the first n bytes over and over
fn repeat(n: usize, into: &mut [u8]) {
    if n == 0 {
        return;
    }
    for k in n..into.len() {
        into[k] = into[k - n];
    }
}

// what is another pack than that of the case before
fn change(from: &mut impl Read, c: Case, slice: &mut [u8]) -> io::Result<()> {
    let at = c.at.min(slice.len());
    let end = c.changed.min(slice.len() - at) + at;
    let n = read_next(from, c.piece, &mut slice[at..end])?;
    repeat(n, &mut slice[at..end]);
    Ok(())
}

fn one(rt: &impl Print, from: &mut impl Read, slice: &mut [u8]) -> io::Result<bool> {
    let mut head = [0u8; HEAD];
    read_full(from, &mut head[..])?;
    let c = case_of(&head);
    change(from, c, &mut slice[..])?;
    let mut rest = [0u8; REST];
    let m = read_next(from, c.rest(), &mut rest[..])?;
    let n = c.lent.min(slice.len());
    run(rt, c, &slice[..n], &rest[..m])
}

// whether nothing differs
fn line(
    rt: &impl Print,
    from: &mut impl Read,
    name: &str,
    i: usize,
    slice: &mut [u8],
) -> io::Result<bool> {
    print!(rt; "{name} {i}")?;
    let is_same = one(rt, from, slice)?;
    if is_same {
        print!(rt; " same")?;
    }
    println!(rt)?;
    Ok(is_same)
}

// how many are as wanted
fn lines(
    rt: &impl Print,
    from: &mut impl Read,
    name: &str,
    cases: usize,
    slice: &mut [u8],
) -> io::Result<usize> {
    let mut same = 0;
    for i in 0..cases {
        if line(rt, from, name, i, &mut slice[..])? {
            same += 1;
        }
    }
    Ok(same)
}

fn print_tally(rt: &impl Print, name: &str, t: Tally) -> io::Result<()> {
    println!(rt; "{name} cases {} same {}", t.cases, t.same)
}

fn file(rt: &(impl Files + Print), name: &str, cases: usize) -> io::Result<Tally> {
    let Ok(mut from) = File::open(rt, name) else {
        return Ok(Tally { cases, same: 0 });
    };
    let mut slice = [0u8; BYTES];
    let same = lines(rt, &mut from, name, cases, &mut slice[..])?;
    let t = Tally { cases, same };
    print_tally(rt, name, t)?;
    Ok(t)
}

fn main(rt: HostRuntime) -> io::Result<()> {
    let mut all = Tally::default();
    all = all.plus(file(&rt, "accepted", 65)?);
    all = all.plus(file(&rt, "refused", 317)?);
    all = all.plus(file(&rt, "entries", 117)?);
    all = all.plus(file(&rt, "written", 39)?);
    all = all.plus(file(&rt, "unwritten", 226)?);
    all = all.plus(file(&rt, "large", 76)?);
    all = all.plus(file(&rt, "planted", 18)?);
    print_tally(&rt, "all", all)
}
