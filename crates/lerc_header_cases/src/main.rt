// Stored headers and ranges: of each record of standard input, what the readers say, in a line.
// A record is its size (4 bytes), another length (4 bytes) and a blob. tests/header/make.py wrote them, and the lines.
#![tactic(auto)]

ghost use Rattle.std.specs.Prelude.{◌<◌, ◌≤◌, length};

use lerc_fields::{fields, quad};
use lerc_header::{DEPTHS, Header};
use lerc_ranges::Ranges;
use std::io;

fn say_header(rt: &impl Print, blob: &[u8]) -> io::Result<()> {
    let h = match lerc_header::read_header(blob) {
        Ok(h) => h,
        Err(why) => return print!(rt; "refused {}", why.number),
    };
    print!(rt; "rows {} columns {} depth {}", h.rows, h.columns, h.depth)?;
    print!(rt; " valid {} side {} size {}", h.valid, h.side, h.size)?;
    print!(rt; " kind {} error {}", h.kind, h.error)?;
    print!(rt; " min {} max {} mask {}", h.min, h.max, h.mask)
}

// what follows from a header by value, beside a slice of another length
fn say_held(rt: &impl Print, h: Header, len: usize) -> io::Result<()> {
    let e = match h.held(len) {
        Ok(e) => e,
        Err(why) => return print!(rt; " held refused {}", why.number),
    };
    print!(rt; " held pixels {} cells {}", e.pixels, e.cells)?;
    print!(rt; " mask {} blocks {}", e.mask, e.blocks)?;
    print!(rt; " ranges {} size {}", e.ranges, e.size)
}

fn say_pair(rt: &impl Print, name: &str, r: &Ranges, i: usize) -> io::Result<()> {
    if i < DEPTHS {
        print!(rt; "{name} {} {}", r.min[i], r.max[i])?;
    }
    Ok(())
}

// the pairs of the first depth, the middle one and the last one, and the last entry of all
fn say_pairs(rt: &impl Print, r: &Ranges, depth: usize) -> io::Result<()> {
    say_pair(rt, " first", r, 0)?;
    say_pair(rt, " middle", r, depth / 2)?;
    if 0 < depth {
        say_pair(rt, " top", r, depth - 1)?;
    }
    say_pair(rt, " last", r, DEPTHS - 1)
}

// where the body begins, and the mark of a constant one
fn say_place(rt: &impl Print, at: usize, constant: bool) -> io::Result<()> {
    print!(rt; " at {at} constant {}", u8::from(constant))
}

fn say_ranges(rt: &impl Print, blob: &[u8], h: Header) -> io::Result<()> {
    print!(rt; " ranges")?;
    match lerc_ranges::read_ranges(blob, h) {
        Ok(ranges) => {
            say_place(rt, ranges.at, ranges.constant)?;
            say_pairs(rt, &ranges, h.depth as usize)
        }
        Err(why) => {
            print!(rt; " refused {}", why.number)?;
            say_place(rt, 0, false)
        }
    }
}

fn say_record(rt: &impl Print, record: &[u8]) -> io::Result<()> {
    if record.len() < 8 {
        return Ok(());
    }
    let len = quad(record, 4);
    let blob = &record[8..];
    let h = fields(blob);
    say_header(rt, blob)?;
    say_held(rt, h, len as usize)?;
    say_ranges(rt, blob, h)?;
    println!(rt)
}

// the bytes of the first record
fn record_length(s: &[u8]) -> usize
    requires { 0 < length s.now }
    ensures { (0 < result) × (result ≤ length s.now) }
{
    let Ok(size) = lerc_words::word(s, 0, 4) else {
        return s.len();
    };
    if size < 131072 {
        let length = 8 + size as usize;
        return length.min(s.len());
    }
    s.len()
}

fn say_all(rt: &impl Print, s: &[u8]) -> io::Result<()> {
    let mut rest = s;
    while !rest.is_empty() {
        let (record, others) = rest.split_at(record_length(rest));
        say_record(rt, record)?;
        rest = others;
    }
    Ok(())
}

fn main(rt: HostRuntime) -> io::Result<()> {
    let mut input = [0u8; 131072];
    let n = lerc_input::read_full(&mut rt.stdin(), &mut input)?;
    say_all(&rt, &input[..n])
}
