// Reads an input into a lent buffer, until that is full or the input ends.
#![tactic(auto)]

ghost use Rattle.std.specs.Prelude.{◌≡◌, ◌≤◌, length, take, min, IfOk, IfSome};
ghost use Rattle.std.specs.Io.KnownBytes.{Consumes};
ghost use Rattle.lerc_input.specs.Input.{FrontOf};

use std::io;
use std::io::Read;

// Reads until the buffer is full or the input ends; how many bytes came. They are the input, or as much of its front as there is room for.
// `read_exact` fails where the input ends first, and does not say how many bytes came.
pub fn read_full<R: Read>(from: &mut R, buffer: &mut [u8]) -> io::Result<usize>
    ensures within { IfOk result (λ n. n ≤ length buffer.new) }
    ensures front { IfOk result (λ n. IfSome (R.remaining from.old) (λ input. FrontOf input buffer.new n)) }
    ensures passed { IfOk result (λ n. Consumes (R.remaining from.old) (R.remaining from.new) (take n buffer.new)) }
{
    let mut done = 0;
    while done < buffer.len() {
        let n = from.read(&mut buffer[done..])?;
        if n == 0 {
            break;
        }
        done += n;
    }
    Ok(done)
}

// The next bytes of an input, at most so many and as many as there is room for.
pub fn read_next<R: Read>(from: &mut R, most: usize, buffer: &mut [u8]) -> io::Result<usize>
    ensures within { IfOk result (λ n. (n ≤ most) × (n ≤ length buffer.new)) }
    ensures front { IfOk result (λ n. IfSome (R.remaining from.old) (λ input. take n buffer.new ≡ take (min most (length buffer.new)) input)) }
    ensures passed { IfOk result (λ n. Consumes (R.remaining from.old) (R.remaining from.new) (take n buffer.new)) }
{
    let room = most.min(buffer.len());
    read_full(from, &mut buffer[..room])
}
