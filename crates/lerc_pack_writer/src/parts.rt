// What is lent is judged in one pass, and then written: head, entries, bodies.
ghost use Rattle.std.specs.Prelude.{◌≡◌, ◌<◌, length};
ghost use Rattle.lerc_words.specs.Res.{little};
ghost use Rattle.lerc_words.specs.Lists.{over};
ghost use Rattle.lerc_pack.specs.Contents.{entry_bytes, head_bytes};
ghost use Rattle.lerc_pack.specs.Parts.{key_of};
ghost use Rattle.lerc_pack_writer.specs.Writing as Writing;
ghost use Rattle.lerc_pack_writer.specs.Parts as Parts;

use lerc_pack::{ENTRY, Entry, HEAD};
use lerc_words::peek;

// row and column, of two bytes each, as one number
fn key(row: u16, column: u16) -> usize
    ensures { result ≡ key_of row column }
{
    row as usize * 65536 + column as usize
}

// the header of a blob is accepted, and its size is all of the bytes
fn is_whole(blob: &[u8]) -> bool
    ensures { result ≡ Parts.is_whole blob.now }
{
    let Ok(h) = lerc_header::read_header(blob) else {
        return false;
    };
    blob.len() == h.size as usize
}

// All tiles in one pass: `at` is where the next body begins, `least` the least key that may follow.
pub(crate) fn tiles_right(rows: &[u16], columns: &[u16], lengths: &[usize], bodies: &[u8]) -> bool
    requires { (length columns.now ≡ length rows.now) × (length lengths.now ≡ length rows.now) }
    ensures { result ≡ Parts.given_tiles (record { rows = rows.now; columns = columns.now; lengths = lengths.now; bodies = bodies.now }) }
{
    let mut at = 0;
    let mut least = 0;
    for i in 0..rows.len() {
        let here = key(rows[i], columns[i]);
        let length = lengths[i];
        let right = (least <= here) & (length <= bodies.len() - at);
        if !right {
            return false;
        }
        let end = at + length;
        if !is_whole(&bodies[at..end]) {
            return false;
        }
        at = end;
        least = here + 1;
    }
    at == bodies.len()
}

// version, zeros and count
fn put_head(count: usize, out: &mut [u8])
    requires { length out.old ≡ 8 }
    ensures { out.new ≡ head_bytes count }
{
    let bytes = [
        1,
        0,
        0,
        0,
        (count % 256) as u8,
        (count / 256 % 256) as u8,
        (count / 65536 % 256) as u8,
        (count / 16777216 % 256) as u8,
    ];
    lerc_slices::copy(&bytes, &mut out[..]);
}

fn put_entry(e: Entry, out: &mut [u8])
    requires { (length out.old ≡ 16) × (0 < e.depth) }
    ensures { out.new ≡ entry_bytes e }
{
    let row = e.row;
    let column = e.column;
    let kind = e.kind;
    let depth = e.depth;
    let start = e.start;
    let length = e.length;
    let bytes = [
        (row % 256) as u8,
        (row / 256 % 256) as u8,
        (column % 256) as u8,
        (column / 256 % 256) as u8,
        (kind % 256) as u8,
        ((depth - 1) % 256) as u8,
        0,
        0,
        (start % 256) as u8,
        (start / 256 % 256) as u8,
        (start / 65536 % 256) as u8,
        (start / 16777216 % 256) as u8,
        (length % 256) as u8,
        (length / 256 % 256) as u8,
        (length / 65536 % 256) as u8,
        (length / 16777216 % 256) as u8,
    ];
    lerc_slices::copy(&bytes, &mut out[..]);
}

// the four bytes at `at`
fn quad(b: &[u8], at: usize) -> u32
    ensures { result ≡ little 4 b.now at }
{
    (peek(b, at) % 0x1_0000_0000) as u32
}

// All entries, one behind the other; kind and depth are read from the blobs' headers, at 38 and 22.
fn put_entries(rows: &[u16], columns: &[u16], lengths: &[usize], bodies: &[u8], out: &mut [u8])
    requires { Parts.ToPut (record { rows = rows.now; columns = columns.now; lengths = lengths.now; bodies = bodies.now }) (length out.old) }
    ensures { out.new ≡ Parts.table_given (record { rows = rows.now; columns = columns.now; lengths = lengths.now; bodies = bodies.now }) (length rows.now) }
{
    let n = rows.len();
    let mut at = 0;
    for i in 0..n {
        let length = lengths[i];
        let entry = Entry {
            row: rows[i],
            column: columns[i],
            kind: quad(bodies, at + 38),
            depth: quad(bodies, at + 22),
            start: HEAD + ENTRY * n + at,
            length,
        };
        let place = ENTRY * i;
        let end = place + ENTRY;
        put_entry(entry, &mut out[place..end]);
        at += length;
    }
}

// head, entries and bodies
pub(crate) fn put_pack(
    rows: &[u16],
    columns: &[u16],
    lengths: &[usize],
    bodies: &[u8],
    out: &mut [u8],
)
    requires { Parts.ToWrite (record { rows = rows.now; columns = columns.now; lengths = lengths.now; bodies = bodies.now }) (length out.old) }
    ensures { out.new ≡ over (Writing.pack_given (record { rows = rows.now; columns = columns.now; lengths = lengths.now; bodies = bodies.now })) out.old }
{
    let table = HEAD + ENTRY * rows.len();
    let end = table + bodies.len();
    put_head(rows.len(), &mut out[..HEAD]);
    put_entries(rows, columns, lengths, bodies, &mut out[HEAD..table]);
    lerc_slices::copy(bodies, &mut out[table..end]);
}
