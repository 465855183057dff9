// Arithmetic of binary64 words over whole numbers, and the kinds of samples as binary64. Every function takes any bits.
#![tactic(auto)]

ghost use Rattle.std.specs.Prelude.{◌≡◌};
ghost use Rattle.lerc_numeric.specs.Kinds as Kind;

use lerc_words::Refusal;

mod add;
mod block;
mod clamp;
mod kinds;
mod machine;
mod order;
mod parts;
mod ready;
mod round;
mod single;
mod times;
mod whole;

pub use add::plus;
pub use block::{single_steps, steps};
pub use clamp::step;
pub use kinds::{number, size};
pub use order::{is_finite, less, minimum, same};
pub use ready::float_ready;
pub use single::narrow;
pub use times::scale;
pub use whole::{raised, twice_whole};

// v cut toward zero, as a word of the kind; where the kind does not hold it: 9
pub fn to_integer(v: u64, kind: u32) -> Result<u64, Refusal>
    ensures { result ≡ Kind.cut kind v }
{
    if 6 <= kind {
        return Err(Refusal { number: 9, at: 0 });
    }
    if 1074 <= parts::exponent(v) {
        return Err(Refusal { number: 9, at: 0 });
    }
    let q = kinds::whole(v);
    if kinds::bound(kind, 0x8000_0000_0000_0000 <= v) <= q {
        return Err(Refusal { number: 9, at: 0 });
    }
    if v < 0x8000_0000_0000_0000 {
        Ok(q)
    } else {
        let m = kinds::modulus(kind);
        Ok((m - q) % m)
    }
}
