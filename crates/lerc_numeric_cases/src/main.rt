// Runs each case of standard input through every function of lerc_numeric, and through `stored` and `offset_kind` of lerc_samples.
// A case is 24 bytes: two words, a count, a kind.
#![tactic(auto)]

use std::io;

// the bytes of a case
const CASE: usize = 24;

// room for all cases
const BYTES: usize = 65536;

fn show(rt: &impl Print, v: u64, width: usize) -> io::Result<()> {
    print!(rt; "{v:0width$x} ")
}

fn refused(rt: &impl Print, number: u32) -> io::Result<()> {
    print!(rt; "r{number:x} ")
}

fn show_integer(rt: &impl Print, v: u64, kind: u32) -> io::Result<()> {
    let w = match lerc_numeric::to_integer(v, kind) {
        Ok(w) => w,
        Err(why) => return refused(rt, why.number),
    };
    show(rt, w, 1)
}

fn show_stored(rt: &impl Print, v: u64, kind: u32) -> io::Result<()> {
    let w = match lerc_samples::stored(v, kind) {
        Ok(w) => w,
        Err(why) => return refused(rt, why.number),
    };
    show(rt, w, 1)
}

fn show_offset(rt: &impl Print, kind: u32, code: u32) -> io::Result<()> {
    let k = match lerc_samples::offset_kind(kind, code) {
        Ok(k) => k,
        Err(why) => return refused(rt, why.number),
    };
    show(rt, u64::from(k), 1)
}

fn one(rt: &impl Print, case: &[u8]) -> io::Result<()> {
    let a = lerc_words::peek(case, 0);
    let b = lerc_words::peek(case, 8);
    let last = lerc_words::peek(case, 16);
    let q = (last % 0x1_0000_0000) as u32;
    let kind = (last / 0x1_0000_0000) as u32;
    show(rt, lerc_numeric::plus(a, b), 16)?;
    show(rt, lerc_numeric::scale(a, q), 16)?;
    show(rt, lerc_numeric::minimum(a, b), 16)?;
    show(rt, u64::from(lerc_numeric::less(a, b)), 1)?;
    show(rt, u64::from(lerc_numeric::same(a, b)), 1)?;
    show(rt, u64::from(lerc_numeric::is_finite(a)), 1)?;
    show(rt, u64::from(lerc_numeric::narrow(a)), 8)?;
    show(rt, lerc_numeric::number(b, kind), 16)?;
    show(rt, lerc_numeric::size(kind) as u64, 1)?;
    show_integer(rt, a, kind)?;
    show_stored(rt, a, kind)?;
    show_offset(rt, kind, q % 5)?;
    println!(rt)
}

fn all(rt: &impl Print, cases: &[u8]) -> io::Result<()> {
    for case in cases.chunks_exact(CASE) {
        one(rt, case)?;
    }
    Ok(())
}

fn main(rt: HostRuntime) -> io::Result<()> {
    let mut input = [0u8; BYTES];
    let n = lerc_input::read_full(&mut rt.stdin(), &mut input)?;
    all(&rt, &input[..n])
}
