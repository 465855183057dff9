// Rounding of magnitudes: whole numbers times powers of two.
ghost use Rattle.std.specs.Prelude.{◌≡◌, ◌*◌, ◌%◌, ◌^◌, ◌≤◌, ◌<◌};
ghost use Rattle.std.specs.Float.Ieee as ieee;
ghost use Rattle.std.specs.Float.Ieee.Nearest.{closest};
ghost use Rattle.lerc_numeric.specs.Numeric.{bits64};
ghost use Rattle.lerc_numeric.specs.Inside as Inside;

pub(crate) const INFINITY: u64 = 0x7ff0_0000_0000_0000;

// The d lowest digits of m.
pub(crate) fn low(m: u64, d: u64) -> u64
    requires { d < 64 }
    ensures { result ≡ m % 2 ^ d }
{
    m & ((1u64 << d) - 1)
}

// m / 2^d to the nearest whole number, a tie to the even one.
pub(crate) fn nearest(m: u64, d: u64) -> u64
    requires { d < 64 }
    ensures { result ≡ closest m (2 ^ d) }
{
    let unit = 1u64 << d;
    let q = m >> d;
    let twice = low(m, d) * 2;
    if twice < unit {
        q
    } else if unit < twice {
        q + 1
    } else {
        q + q % 2
    }
}

// v / 2^n, with its last digit 1 where anything was cut off.
pub(crate) fn jam(v: u64, n: u64) -> u64
    ensures { result ≡ Inside.jam v n }
{
    if 64 <= n {
        return if v == 0 { 0 } else { 1 };
    }
    let q = v >> n;
    if low(v, n) == 0 { q } else { q + (1 - q % 2) }
}

// How many binary digits m has.
pub(crate) fn digits(m: u64) -> u64
    ensures { result ≡ ieee.size m }
{
    64 - u64::leading_zeros(m) as u64
}

// The bits of the magnitude m * 2^e, rounded once.
pub(crate) fn pack(m: u64, e: u64) -> u64
    requires { e < 4096 }
    ensures { result ≡ bits64 (m * 2 ^ e) }
{
    if m == 0 {
        return 0;
    }
    let s = digits(m);
    if 53 < s {
        let d = s - 53;
        if 2046 <= d + e {
            INFINITY
        } else {
            (d + e) * 0x10_0000_0000_0000 + nearest(m, d)
        }
    } else {
        let room = 53 - s;
        if e <= room {
            m << e
        } else if 2046 <= e - room {
            INFINITY
        } else {
            (e - room) * 0x10_0000_0000_0000 + (m << room)
        }
    }
}
