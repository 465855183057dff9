// One blob from standard input, its cells as text to standard output; a refusal is one line with its number.
// `lerc_program::answer` makes the text; `main` reads what it is made from, and writes it.
#![tactic(auto)]

ghost use Rattle.std.specs.Prelude.{◌≤◌, ◌<◌, ◌≡◌, length, OnOk};
ghost use Rattle.std.specs.Io.KnownBytes.{Appends};
ghost use Rattle.lerc_program.specs.Program.{bytes_most, program_text, Answered};
ghost use Rattle.lerc2.specs.Input.{OfEachInput};

use lerc_program::{BYTES, TEXT};
use std::io;
use std::io::Write;

// The text of the whole input, of which the buffer's first n bytes are all that it has room for.
fn answer_read(buffer: &[u8], n: usize, out: &mut [u8; TEXT]) -> usize
    requires { (bytes_most < length buffer.now) × (n ≤ length buffer.now) }
    ensures { OfEachInput buffer.now n (λ input. Answered input out.old result out.new) }
{
    lerc_program::answer(&buffer[..n], out)
}

// What was read is lent only to say whose text is written.
fn write_text<W: Write>(to: &mut W, buffer: &[u8], n: usize, text: &[u8]) -> io::Result<()>
    requires { OfEachInput buffer.now n (λ input. text.now ≡ program_text input) }
    ensures { OnOk result (OfEachInput buffer.now n (λ input. Appends (W.contents to.old) (W.contents to.new) (program_text input))) }
{
    to.write_all(text)
}

fn main(rt: HostRuntime) -> io::Result<()> {
    let mut buffer = [0u8; BYTES + 1];
    let n = lerc_input::read_full(&mut rt.stdin(), &mut buffer)?;
    let mut out = [0u8; TEXT];
    let r = answer_read(&buffer, n, &mut out);
    write_text(&mut rt.stdout(), &buffer, n, &out[..r])
}
