// The order of binary64 words. The two zeros are equal.
ghost use Rattle.std.specs.Prelude.{◌≡◌};
ghost use Rattle.lerc_numeric.specs.Numeric as Word;

// the exponent's field is not 2047
pub fn is_finite(v: u64) -> bool
    ensures { result ≡ Word.finite v }
{
    v % 0x8000_0000_0000_0000 / 0x10_0000_0000_0000 < 2047
}

// a < b by value; a field of 2047 is no exception
pub fn less(a: u64, b: u64) -> bool
    ensures { result ≡ Word.less a b }
{
    let x = a % 0x8000_0000_0000_0000;
    let y = b % 0x8000_0000_0000_0000;
    if a < 0x8000_0000_0000_0000 {
        if b < 0x8000_0000_0000_0000 {
            x < y
        } else {
            false
        }
    } else if b < 0x8000_0000_0000_0000 {
        0 < x + y
    } else {
        y < x
    }
}

// equal bits, or both zero
pub fn same(a: u64, b: u64) -> bool
    ensures { result ≡ Word.same a b }
{
    if a == b {
        true
    } else {
        a % 0x8000_0000_0000_0000 + b % 0x8000_0000_0000_0000 == 0
    }
}

// the lesser of two, the second on a tie
pub fn minimum(a: u64, b: u64) -> u64
    ensures { result ≡ Word.lesser a b }
{
    if less(a, b) { a } else { b }
}
