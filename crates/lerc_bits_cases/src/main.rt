// Stored packed counts: of each record of standard input, the plan and the counts, or why they are refused.
// A record is its size (2 bytes), the start (1 byte) and the bytes. tests/bits/make.py wrote them, and what is to be said of them.
#![tactic(auto)]

ghost use Rattle.std.specs.Prelude.{◌<◌, ◌≤◌, length};

use lerc_bits::Counts;
use std::io;

// what an entry holds before the call
const MARK: u32 = 4_000_000_000;

fn say_plan(rt: &impl Print, s: &[u8], start: usize) -> io::Result<()> {
    print!(rt; "plan")?;
    let p = match lerc_bits::inspect(s, start) {
        Ok(p) => p,
        Err(why) => return print!(rt; " refused {}", why.number),
    };
    print!(rt; " {} {} {} {}", p.n, p.bits, p.entries, p.table)?;
    print!(rt; " {} {} {}", p.at, p.width, p.next)
}

// the first n entries, and how many of the others hold what they held
fn say_entries(rt: &impl Print, out: &[u32; 256], n: usize) -> io::Result<()> {
    let (counts, others) = out.split_at(n.min(out.len()));
    for v in counts {
        print!(rt; " {v}")?;
    }
    let kept = others.iter().filter(|v| **v == MARK).count();
    print!(rt; " kept {kept}")
}

// planted: an entry behind the first two is not kept, and must be missing in the count
fn say_planted(rt: &impl Print) -> io::Result<()> {
    let mut out = [MARK; 256];
    out[200] = 7;
    print!(rt; "planted")?;
    say_entries(rt, &out, 2)?;
    println!(rt)
}

fn say_counts(rt: &impl Print, s: &[u8], start: usize) -> io::Result<()> {
    let mut out = [MARK; 256];
    match lerc_bits::decode(s, start, &mut out) {
        Ok(Counts { n, next }) => {
            print!(rt; "counts {n} {next}")?;
            say_entries(rt, &out, n)
        }
        Err(why) => {
            print!(rt; "refused {}", why.number)?;
            say_entries(rt, &out, 0)
        }
    }
}

fn say_record(rt: &impl Print, record: &[u8]) -> io::Result<()> {
    let [_, _, start, s @ ..] = record else {
        return Ok(());
    };
    let start = usize::from(*start);
    say_plan(rt, s, start)?;
    println!(rt)?;
    say_counts(rt, s, start)?;
    println!(rt)
}

// the bytes of the first record
fn record_length(s: &[u8]) -> usize
    requires { 0 < length s.now }
    ensures { (0 < result) × (result ≤ length s.now) }
{
    let Ok(size) = lerc_words::word(s, 0, 2) else {
        return s.len();
    };
    if size < 65536 {
        let length = 3 + size as usize;
        return length.min(s.len());
    }
    s.len()
}

fn say_all(rt: &impl Print, s: &[u8]) -> io::Result<()> {
    let mut rest = s;
    while !rest.is_empty() {
        let (record, others) = rest.split_at(record_length(rest));
        say_record(rt, record)?;
        rest = others;
    }
    Ok(())
}

fn main(rt: HostRuntime) -> io::Result<()> {
    say_planted(&rt)?;
    let mut input = [0u8; 65536];
    let n = lerc_input::read_full(&mut rt.stdin(), &mut input)?;
    say_all(&rt, &input[..n])
}
