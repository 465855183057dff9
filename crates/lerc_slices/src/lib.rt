// Lent slices copied, filled and compared; a caller lends the part that is meant.
#![tactic(auto)]

ghost use Rattle.std.specs.Prelude.{◌≡◌, ℕ, ◌≤◌, ◌<◌, min, length, get_or, replicate};
ghost use Rattle.lerc_slices.specs.Slices.{copied, begins_with};

// as many entries as both have; entry by entry: of the library's `copy_from_slice` the archive for C would ask for `memmove`
pub fn copy<T: Copy>(from: &[T], to: &mut [T])
    ensures { to.new ≡ copied from.now to.old }
{
    let n = from.len().min(to.len());
    for k in 0..n {
        to[k] = from[k];
    }
}

// every entry; the library's `fill` asks of `clone` what the bound `Copy` does not say
pub fn fill<T: Copy>(entry: T, to: &mut [T])
    ensures { to.new ≡ replicate (length to.old) entry }
{
    for place in to.iter_mut() {
        *place = entry;
    }
}

// whether s begins with the bytes of `front`
pub fn begins_with(s: &[u8], front: &[u8]) -> bool
    ensures { result ≡ begins_with front.now s.now }
{
    s.starts_with(front)
}

// whether every byte is this one: eight at a time, then the last few
pub fn all_bytes(byte: u8, bytes: &[u8]) -> bool
    ensures { result ≡ begins_with (replicate (length bytes.now) byte) bytes.now }
{
    let (eights, rest) = bytes.as_chunks::<8>();
    eights.iter().all(|e| *e == [byte; 8]) && rest.iter().all(|b| *b == byte)
}
