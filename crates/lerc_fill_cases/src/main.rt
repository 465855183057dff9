// Blobs in blocks that Esri's encoder (liblerc 4.0.0) wrote, or made by hand for its decoder, and the cells its decoder gave.
// File 2i of data is blob i and file 2i + 1 its expected cells; data/names says where each came from, tests/fill/make.py its form.
// Every block is filled in a scattered order, with repeats and refused numbers between, into an image of marked words.
// The valid cells must then hold Esri's words, and all others the mark. The last blobs are planted: beside each is an expectation
// that is wrong, and the line must say so.
#![tactic(auto)]

ghost use Rattle.std.specs.Prelude.{◌≤◌, ◌<◌, length, IfOk};

use lerc_header::Header;
use lerc_image::Walked;
use lerc_ranges::Ranges;
use lerc_validity::Mask;
use lerc_words::{Refusal, bytes};
use std::fmt::InlineText;
use std::fs::File;
use std::io;
use std::rt::Files;

const BLOBS: usize = 108;

const BYTES: usize = 16384;

const BLOCKS: usize = 4096;

// more than the cells of any blob here
const ROOM: usize = 4104;

const MARK: u64 = 0xFEED_FACE_CAFE;

// a prime above every count of blocks: its multiples reach each number once
const STRIDE: usize = 10007;

#[derive(Clone, Copy, Default)]
struct Tally {
    blocks: usize,
    words: usize,
    same: usize,
}

impl Tally {
    fn plus(self, t: Tally) -> Tally {
        Tally {
            blocks: add(self.blocks, t.blocks),
            words: add(self.words, t.words),
            same: add(self.same, t.same),
        }
    }
}

// What the fills said: words over all numbers once, and whether the numbers past the last were refused by 11.
#[derive(Clone, Copy)]
struct Said {
    words: usize,
    refused: bool,
}

// What every fill of a blob is lent.
#[derive(Clone, Copy)]
struct Body<'a> {
    blob: &'a [u8],
    header: Header,
    ranges: Ranges,
    mask: &'a [u8],
}

impl Body<'_> {
    fn fill(&self, list: &[usize], number: usize, image: &mut [u64]) -> Result<usize, Refusal> {
        lerc_image::fill(
            self.blob,
            self.header,
            self.ranges,
            self.mask,
            list,
            number,
            image,
        )
    }
}

// numbers here are far below the bounds
fn add(a: usize, b: usize) -> usize {
    a % 1_000_000_000 + b % 1_000_000_000
}

fn refuse(rt: &impl Print, step: &str, why: Refusal) -> io::Result<Tally> {
    print!(rt; "{step}{}", why.number)?;
    Ok(Tally::default())
}

// the two bytes of a field: no blob here is larger
fn field(expect: &[u8], at: usize) -> usize
    ensures { result < 65536 }
{
    (lerc_words::peek(expect, at) % 65536) as usize
}

fn size_of(kind: usize) -> usize
    ensures { result ≤ 8 }
{
    match kind {
        0 | 1 => 1,
        2 | 3 => 2,
        4..=6 => 4,
        _ => 8,
    }
}

fn times(a: usize, b: usize) -> usize
    requires { (a < 65536) × (b < 65536) }
    ensures { result < 4294967296 }
{
    a * b
}

// What a cell must hold: Esri's word where its pixel is valid, elsewhere the mark.
fn wanted(expect: &[u8], cell: usize) -> u64
    requires { cell < 4104 }
{
    let pixels = times(field(expect, 16), field(expect, 20));
    let depth = field(expect, 24);
    if depth == 0 {
        return MARK;
    }
    let pixel = cell / depth;
    if pixels <= pixel {
        return MARK;
    }
    let bit = bytes(expect, 48 + pixel / 8, 1) >> (7 - pixel % 8);
    if bit % 2 == 0 {
        return MARK;
    }
    let size = size_of(field(expect, 12));
    bytes(expect, 48 + (pixels + 7) / 8 + times(cell, size), size)
}

// the first cell that does not hold what it must
fn first_other(expect: &[u8], image: &[u64; ROOM]) -> Option<usize> {
    for (cell, word) in image.iter().enumerate() {
        if *word != wanted(expect, cell) {
            return Some(cell);
        }
    }
    None
}

fn is_refused(said: Result<usize, Refusal>) -> bool {
    match said {
        Ok(_words) => false,
        Err(why) => why.number == 11,
    }
}

// a refusal counts as more words than a blob can have
fn words_of(said: Result<usize, Refusal>) -> usize {
    match said {
        Ok(words) => words,
        Err(why) => 1_000_000 * why.number as usize,
    }
}

// the number that comes k-th
fn scattered(k: usize, count: usize) -> usize
    requires { (k < 4096) × (0 < count) }
{
    (k * STRIDE + 7) % count
}

// The k-th number, between one that came before and two that Esri's count of blocks is to refuse.
fn fill_step(
    body: &Body<'_>,
    list: &[usize],
    expect: &[u8],
    k: usize,
    count: usize,
    image: &mut [u64],
) -> Said
    requires { (k < count) × (count ≤ 4096) }
{
    let past = field(expect, 32);
    let at = body.fill(list, past, &mut image[..]);
    let number = scattered(k, count);
    let said = body.fill(list, number, &mut image[..]);
    let again = scattered(k / 2, count);
    let _same = body.fill(list, again, &mut image[..]);
    let later = body.fill(list, past + 5, &mut image[..]);
    Said {
        words: words_of(said),
        refused: is_refused(at) & is_refused(later),
    }
}

fn fill_all(body: &Body<'_>, list: &[usize], expect: &[u8], count: usize, image: &mut [u64]) -> Said
    requires { count ≤ 4096 }
{
    let mut all = Said {
        words: 0,
        refused: true,
    };
    for k in 0..count {
        let said = fill_step(body, list, expect, k, count, &mut image[..]);
        all = Said {
            words: add(all.words, said.words),
            refused: all.refused & said.refused,
        };
    }
    all
}

// whether every cell is right and every number past the last was refused
fn judge(rt: &impl Print, expect: &[u8], image: &[u64; ROOM], refused: bool) -> io::Result<bool> {
    if !refused {
        print!(rt; " a number past the last is not refused")?;
        return Ok(false);
    }
    if let Some(cell) = first_other(expect, image) {
        print!(rt; " differs at cell {cell}")?;
        return Ok(false);
    }
    print!(rt; " same")?;
    Ok(true)
}

fn fill_masked(rt: &impl Print, body: &Body<'_>, expect: &[u8]) -> io::Result<Tally> {
    let mut list = [0usize; BLOCKS];
    let walked = lerc_image::walk(
        body.blob,
        body.header,
        body.ranges,
        body.mask,
        &mut list[..],
    );
    let Walked { blocks, end } = match walked {
        Ok(walked) => walked,
        Err(why) => return refuse(rt, " walk refused ", why),
    };
    print!(rt; " blocks {blocks} end {end}")?;
    if BLOCKS < blocks {
        return Ok(Tally::default());
    }
    let mut image = [MARK; ROOM];
    let said = fill_all(body, &list, expect, blocks, &mut image[..]);
    let words = said.words;
    print!(rt; " words {words}")?;
    let is_same = judge(rt, expect, &image, said.refused)?;
    Ok(Tally {
        blocks,
        words,
        same: usize::from(is_same),
    })
}

fn report(rt: &impl Print, blob: &[u8], expect: &[u8]) -> io::Result<Tally> {
    let h = match lerc_header::read_header(blob) {
        Ok(h) => h,
        Err(why) => return refuse(rt, " header refused ", why),
    };
    let kept = [0u8; 512];
    let mut spare = [0u8; 512];
    let said = lerc_validity::prepare_mask(blob, h, false, &kept, &mut spare);
    let Ok(Mask::Spare(_n)) = said else {
        return refuse(rt, " mask refused ", Refusal::of(&said));
    };
    let mask = lerc_validity::mask_in_force(&kept, &spare, said);
    let ranges = match lerc_ranges::read_ranges(blob, h) {
        Ok(ranges) => ranges,
        Err(why) => return refuse(rt, " ranges refused ", why),
    };
    let body = Body {
        blob,
        header: h,
        ranges,
        mask,
    };
    fill_masked(rt, &body, expect)
}

// the bytes of a file; none if it is missing
fn load(rt: &impl Files, i: usize, into: &mut [u8; BYTES]) -> io::Result<usize>
    ensures { IfOk result (λ n. n ≤ length into.new) }
{
    let name = InlineText::<20>::of(format_args!("{i:03}"));
    let Ok(mut file) = File::open(rt, name.as_str()) else {
        return Ok(0);
    };
    lerc_input::read_full(&mut file, &mut into[..])
}

fn one(rt: &(impl Files + Print), i: usize) -> io::Result<Tally>
    requires { i < 108 }
{
    print!(rt; "{i}")?;
    let mut blob = [0u8; BYTES];
    let n = load(rt, 2 * i, &mut blob)?;
    let mut expect = [0u8; BYTES];
    let m = load(rt, 2 * i + 1, &mut expect)?;
    let t = report(rt, &blob[..n], &expect[..m])?;
    println!(rt)?;
    Ok(t)
}

fn print_total(rt: &impl Print, all: Tally) -> io::Result<()> {
    let Tally {
        blocks,
        words,
        same,
    } = all;
    println!(rt; "blobs {BLOBS} blocks {blocks} words {words} same {same}")
}

fn main(rt: HostRuntime) -> io::Result<()> {
    let mut all = Tally::default();
    for i in 0..BLOBS {
        all = all.plus(one(&rt, i)?);
    }
    print_total(&rt, all)
}
