// Stored inputs and the program's text for each: tests/program/make.py encodes them from cells that it knows, and says what is written.
// Of each a line has its number and its bytes; then comes as much of the buffer as `answer` says. Before the call it is full of marks.
#![tactic(auto)]

use lerc_program::TEXT;
use std::fmt::InlineText;
use std::fs::File;
use std::io;
use std::rt::Files;

const FILES: usize = 117;

// room for the longest input
const ROOM: usize = 66000;

const MARK: u8 = 0xA5;

fn print_text(rt: &impl Print, input: &[u8]) -> io::Result<()> {
    let mut out = [MARK; TEXT];
    let r = lerc_program::answer(input, &mut out);
    rt.write_all(&out[..r])
}

fn one(rt: &(impl Files + Print), i: usize) -> io::Result<()> {
    print!(rt; "input {i}")?;
    let name = InlineText::<20>::of(format_args!("{i:03}"));
    let Ok(mut file) = File::open(rt, name.as_str()) else {
        return println!(rt; " missing");
    };
    let mut input = [0u8; ROOM];
    let n = lerc_input::read_full(&mut file, &mut input)?;
    println!(rt; " bytes {n}")?;
    print_text(rt, &input[..n])
}

fn main(rt: HostRuntime) -> io::Result<()> {
    for i in 0..FILES {
        one(&rt, i)?;
    }
    Ok(())
}
