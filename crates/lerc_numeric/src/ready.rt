// Whether this thread's float unit is in the state that the language asks for.
ghost use Rattle.std.specs.Prelude.{◌≡◌, true};

use super::add::{plus, plus_words};
use super::clamp::{step, step_words};
use super::times::{scale, scale_words};

const ONE: u64 = 0x3ff0_0000_0000_0000;

const LARGEST: u64 = 0x7fef_ffff_ffff_ffff;

const ROWS: usize = 15;

// Offset, error, maximum and count. Rounding otherwise than to the nearest with ties to even, twice, or not between product
// and sum, small numbers taken for zero: each of these gives another word in some row.
const TELLING: [[u64; 4]; ROWS] = [
    // 1 and half of its last digit: a tie, and the even number is below
    [ONE, 0x3ca0_0000_0000_0000, LARGEST, 1],
    // 1 and three quarters of its last digit, both signs
    [ONE, 0x3ca8_0000_0000_0000, LARGEST, 1],
    [0xbff0_0000_0000_0000, 0xbca8_0000_0000_0000, LARGEST, 1],
    // 1 and a little more than half of its last digit, which is lost where 64 digits are kept first; the same in a step
    [ONE, 0x3ca0_0000_0800_0000, LARGEST, 1],
    [ONE, 0x3c90_0000_0800_0000, LARGEST, 1],
    // such a product
    [0, 0x3fff_ffff_ffff_c001, LARGEST, 4097],
    // 6 times the first and the third number after 1 are ties; less 6, only a rounded product leaves a power of two
    [0xc018_0000_0000_0000, 0x3ff0_0000_0000_0001, LARGEST, 3],
    [0xc018_0000_0000_0000, 0x3ff0_0000_0000_0003, LARGEST, 3],
    // 10 times the number after 1 is a quarter of the last digit above a number
    [ONE, 0x3ff0_0000_0000_0001, LARGEST, 5],
    // the least number there is
    [1, 1, LARGEST, 1],
    // two normal numbers whose sum is not
    [0x0010_0000_0000_0000, 0x8018_0000_0000_0000, LARGEST, 1],
    // 0 is less than the least number, and 3 is not less than 1
    [0, 0, 1, 0],
    [ONE, ONE, ONE, 1],
    // what becomes infinite
    [LARGEST, LARGEST, LARGEST, 0xffff_ffff],
    // 1 less 1 is +0
    [ONE, 0xbff0_0000_0000_0000, 0, 0xffff_ffff],
];

// the machine's words beside those of whole numbers
fn agrees(offset: u64, error: u64, top: u64, q: u32) -> bool
    ensures { result ≡ true }
{
    (plus(offset, error) == plus_words(offset, error))
        & (scale(error, q) == scale_words(error, q))
        & (step(offset, error, top, q) == step_words(offset, error, top, q))
}

// Always true where the machine is as the language says: `false` shows a thread that must not read. For callers behind the C
// interface: a compiler that sees both sides may compute the answer, or take it from an earlier call. Every operand is mixed
// with a word of the caller's, so that here it cannot; 0 leaves the telling ones.
pub fn float_ready(mix: u64) -> bool
    ensures { result ≡ true }
{
    TELLING.iter().all(|row| {
        let q = (row[3] ^ mix) % 0x1_0000_0000;
        agrees(row[0] ^ mix, row[1] ^ mix, row[2] ^ mix, q as u32)
    })
}
