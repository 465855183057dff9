// One step of a block: product, sum and clamp.
ghost use Rattle.std.specs.Prelude.{◌≡◌};
ghost use Rattle.lerc_numeric.specs.Numeric.{sum, scaled, lesser};

use super::add::plus_words;
use super::machine;
use super::order::minimum;
use super::times::scale_words;

// the lesser of offset + 2 * q * error and top, the second on a tie
pub fn step(offset: u64, error: u64, top: u64, q: u32) -> u64
    ensures { result ≡ lesser (sum offset (scaled error q)) top }
{
    if machine::takes_step(offset, error, top) {
        machine::step(offset, error, top, q)
    } else {
        step_words(offset, error, top, q)
    }
}

pub(crate) fn step_words(offset: u64, error: u64, top: u64, q: u32) -> u64
    ensures { result ≡ lesser (sum offset (scaled error q)) top }
{
    minimum(plus_words(offset, scale_words(error, q)), top)
}
