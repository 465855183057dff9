// Stored refusals: each case is a call of one of the six operations, and its line has the number and the place that the answer carries.
// tests/place/make.py wrote the cases and the lines from the words of the rules; data/names says of each what is wrong and which
// sentence gives its place. A case is a head, the mask that is lent and the bytes of a blob. The header by value has the fields as
// they stand there, whatever is lent of them, and the ranges by value come from the head alone: no operation's answer goes into the
// call of another. Some calls are accepted, so that a reader that refuses all does not write these lines.
#![tactic(auto)]

use lerc_fields::{fields, quad};
use lerc_header::{DEPTHS, Header};
use lerc_input::{read_full, read_next};
use lerc_ranges::Ranges;
use lerc_words::{Refusal, peek};
use std::fs::File;
use std::io;
use std::io::Read;

const CASES: usize = 1161;

// 8 numbers of 4 bytes and 8 of 8 bytes
const HEAD: usize = 96;

// room for the largest case
const BYTES: usize = 4096;

const MASKS: usize = 64;

const BLOCKS: usize = 512;

const CELLS: usize = 1024;

// what the list has but for the block that is asked for
const NOWHERE: usize = 0x1234_5678_9ABC;

#[derive(Clone, Copy)]
enum Operation {
    Header,
    Mask,
    Ranges,
    Walk,
    Fill,
    Read,
}

impl Operation {
    fn of(number: u32) -> Operation {
        match number {
            0 => Operation::Header,
            1 => Operation::Mask,
            2 => Operation::Ranges,
            3 => Operation::Walk,
            4 => Operation::Fill,
            _ => Operation::Read,
        }
    }

    fn name(self) -> &'static str {
        match self {
            Operation::Header => "header",
            Operation::Mask => "mask",
            Operation::Ranges => "ranges",
            Operation::Walk => "walk",
            Operation::Fill => "fill",
            Operation::Read => "read",
        }
    }
}

// The head of a case: the operation, the lengths of what is lent, then what is given by value.
#[derive(Clone, Copy)]
struct Case {
    operation: Operation,
    flags: usize,
    blob: usize,
    lent: usize,
    mask: usize,
    spare: usize,
    list: usize,
    image: usize,
    number: usize,
    start: usize,
    at: usize,
    low: u64,
    high: u64,
    other: usize,
    other_low: u64,
    other_high: u64,
}

impl Case {
    fn reuses(self) -> bool {
        self.flags % 2 == 1
    }

    // one pair for every depth but one, which has another
    fn ranges(self) -> Ranges {
        Ranges {
            at: self.at,
            constant: self.flags / 2 % 2 == 1,
            min: spread(self.low, self.other, self.other_low),
            max: spread(self.high, self.other, self.other_high),
        }
    }
}

fn spread(all: u64, other: usize, v: u64) -> [u64; DEPTHS] {
    let mut out = [all; DEPTHS];
    if other < DEPTHS {
        out[other] = v;
    }
    out
}

// a list with one block's start
fn starts(number: usize, start: usize) -> [usize; BLOCKS] {
    let mut out = [NOWHERE; BLOCKS];
    if number < BLOCKS {
        out[number] = start;
    }
    out
}

fn case_of(head: &[u8; HEAD]) -> Case {
    Case {
        operation: Operation::of(quad(head, 0)),
        flags: quad(head, 4) as usize,
        blob: quad(head, 8) as usize,
        lent: quad(head, 12) as usize,
        mask: quad(head, 16) as usize,
        spare: quad(head, 20) as usize,
        list: quad(head, 24) as usize,
        image: quad(head, 28) as usize,
        number: peek(head, 32) as usize,
        start: peek(head, 40) as usize,
        at: peek(head, 48) as usize,
        low: peek(head, 56),
        high: peek(head, 64),
        other: peek(head, 72) as usize,
        other_low: peek(head, 80),
        other_high: peek(head, 88),
    }
}

fn header(blob: &[u8]) -> Refusal {
    Refusal::of(&lerc_header::read_header(blob))
}

fn prepare(c: Case, h: Header, blob: &[u8], kept: &[u8]) -> Refusal {
    let mut spare = [0u8; MASKS];
    let spare = &mut spare[..c.spare.min(MASKS)];
    let said = lerc_validity::prepare_mask(blob, h, c.reuses(), kept, spare);
    Refusal::of(&said)
}

fn ranges(h: Header, blob: &[u8]) -> Refusal {
    Refusal::of(&lerc_ranges::read_ranges(blob, h))
}

fn walk(c: Case, h: Header, blob: &[u8], mask: &[u8]) -> Refusal {
    let mut list = [NOWHERE; BLOCKS];
    let list = &mut list[..c.list.min(BLOCKS)];
    let said = lerc_image::walk(blob, h, c.ranges(), mask, list);
    Refusal::of(&said)
}

fn fill(c: Case, h: Header, blob: &[u8], mask: &[u8]) -> Refusal {
    let list = starts(c.number, c.start);
    let mut image = [0u64; CELLS];
    let list = &list[..c.list.min(BLOCKS)];
    let image = &mut image[..c.image.min(CELLS)];
    let said = lerc_image::fill(blob, h, c.ranges(), mask, list, c.number, image);
    Refusal::of(&said)
}

fn read(c: Case, blob: &[u8], kept: &mut [u8]) -> Refusal {
    let mut spare = [0u8; MASKS];
    let mut list = [NOWHERE; BLOCKS];
    let mut image = [0u64; CELLS];
    let spare = &mut spare[..c.spare.min(MASKS)];
    let list = &mut list[..c.list.min(BLOCKS)];
    let image = &mut image[..c.image.min(CELLS)];
    let said = lerc::read(blob, c.reuses(), kept, spare, list, image);
    Refusal::of(&said)
}

// what the operation says of the bytes that are lent, `h` by value
fn call(c: Case, h: Header, blob: &[u8], mask: &mut [u8]) -> Refusal {
    let operation = c.operation;
    match operation {
        Operation::Header => header(blob),
        Operation::Mask => prepare(c, h, blob, mask),
        Operation::Ranges => ranges(h, blob),
        Operation::Walk => walk(c, h, blob, mask),
        Operation::Fill => fill(c, h, blob, mask),
        Operation::Read => read(c, blob, mask),
    }
}

// whether it is a refusal
fn print_answer(rt: &impl Print, why: Refusal) -> io::Result<bool> {
    if why.number == 0 {
        println!(rt; " accepted")?;
        return Ok(false);
    }
    println!(rt; " refused {} at {}", why.number, why.at)?;
    Ok(true)
}

fn run(rt: &impl Print, c: Case, blob: &[u8], mask: &mut [u8]) -> io::Result<bool> {
    print!(rt; " {}", c.operation.name())?;
    let n = c.lent.min(blob.len());
    let why = call(c, fields(blob), &blob[..n], mask);
    print_answer(rt, why)
}

fn one(rt: &impl Print, from: &mut impl Read, i: usize) -> io::Result<bool> {
    print!(rt; "{i}")?;
    let mut head = [0u8; HEAD];
    read_full(from, &mut head[..])?;
    let c = case_of(&head);
    let mut mask = [0u8; MASKS];
    let m = read_next(from, c.mask, &mut mask[..])?;
    let mut blob = [0u8; BYTES];
    let n = read_next(from, c.blob, &mut blob[..])?;
    run(rt, c, &blob[..n], &mut mask[..m])
}

// how many were refused
fn lines(rt: &impl Print, from: &mut impl Read) -> io::Result<usize> {
    let mut refused = 0;
    for i in 0..CASES {
        if one(rt, from, i)? {
            refused += 1;
        }
    }
    Ok(refused)
}

fn main(rt: HostRuntime) -> io::Result<()> {
    let Ok(mut from) = File::open(&rt, "cases") else {
        return println!(rt; "missing");
    };
    let refused = lines(&rt, &mut from)?;
    println!(rt; "cases {CASES} refused {refused}")
}
