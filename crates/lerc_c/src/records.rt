// Records as arrays of 64-bit numbers, and back.
ghost use Rattle.std.specs.Prelude.{◌≡◌, ℕ, ◌+◌, ◌≤◌, [], ◌∷◌, length};
ghost use Rattle.std.proofs.Math.Seq.{paste};
ghost use Rattle.lerc_words.specs.Lists.{over};
ghost use Rattle.lerc_c.specs.Records as Record;

use lerc_header::Header;
use lerc_words::Refusal;

// how many numbers a header has
pub(crate) const HEADER: usize = 11;

// words to their places in a record
pub(crate) fn put(words: &[u64], at: usize, out: &mut [u64])
    requires { at + length words.now ≤ length out.old }
    ensures { out.new ≡ paste out.old at words.now (length words.now) }
{
    let end = at + words.len();
    lerc_slices::copy(words, &mut out[at..end]);
}

// two numbers that an accepting entry says
pub(crate) fn say(first: usize, second: usize, out: &mut [u64])
    requires { 2 ≤ length out.old }
    ensures { out.new ≡ over (first ∷ second ∷ []) out.old }
{
    let words = [first as u64, second as u64];
    put(&words, 0, &mut out[..]);
}

pub(crate) fn put_header(h: Header, out: &mut [u64])
    requires { Record.header_room ≤ length out.old }
    ensures { out.new ≡ over (Record.header_numbers h) out.old }
{
    let words = [
        h.rows as u64,
        h.columns as u64,
        h.depth as u64,
        h.valid as u64,
        h.side as u64,
        h.size as u64,
        h.kind as u64,
        h.error,
        h.min,
        h.max,
        h.mask as u64,
    ];
    put(&words, 0, &mut out[..]);
}

// whether a field of 32 bits holds v
fn narrow(v: u64) -> bool
    ensures { result ≡ Record.narrow v }
{
    v < 0x1_0000_0000
}

fn fields_fit(l: &[u64]) -> bool
    requires { Record.header_room ≤ length l.now }
    ensures { result ≡ Record.fields_fit l.now }
{
    narrow(l[0])
        & narrow(l[1])
        & narrow(l[2])
        & narrow(l[3])
        & narrow(l[4])
        & narrow(l[5])
        & narrow(l[6])
        & narrow(l[10])
}

// a header out of its record; a number that its field cannot hold: 3
pub(crate) fn header_from(l: &[u64]) -> Result<Header, Refusal>
    requires { Record.header_room ≤ length l.now }
    ensures { result ≡ Record.header_from l.now }
{
    if !fields_fit(l) {
        return Err(Refusal { number: 3, at: 0 });
    }
    Ok(Header {
        rows: l[0] as u32,
        columns: l[1] as u32,
        depth: l[2] as u32,
        valid: l[3] as u32,
        side: l[4] as u32,
        size: l[5] as u32,
        kind: l[6] as u32,
        error: l[7],
        min: l[8],
        max: l[9],
        mask: l[10] as u32,
    })
}
