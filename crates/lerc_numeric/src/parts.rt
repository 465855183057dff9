// The parts of a binary64 word's magnitude: significand * 2 ^ exponent, in units of 2 ^ -1074.
ghost use Rattle.std.specs.Prelude.{◌≡◌};
ghost use Rattle.lerc_numeric.specs.Numeric.{sig, exp};

pub(crate) fn significand(w: u64) -> u64
    ensures { result ≡ sig w }
{
    let t = w % 0x10_0000_0000_0000;
    if w % 0x8000_0000_0000_0000 / 0x10_0000_0000_0000 == 0 {
        t
    } else {
        0x10_0000_0000_0000 + t
    }
}

pub(crate) fn exponent(w: u64) -> u64
    ensures { result ≡ exp w }
{
    let x = w % 0x8000_0000_0000_0000 / 0x10_0000_0000_0000;
    if x == 0 { 0 } else { x - 1 }
}
