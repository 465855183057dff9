// The pack writer: tiles that keep the rules of contents become the bytes of a pack.
#![tactic(auto)]

ghost use Rattle.std.specs.Prelude.{◌≡◌};
ghost use Rattle.lerc_pack_writer.specs.Writing as Writing;

use lerc_pack::{ENTRY, HEAD, TILES};
use lerc_words::Refusal;

mod parts;

// Tiles as a pack: rows, columns and lengths one for each, bodies end to end. Everything is judged before a byte is written.
pub fn write_pack(
    rows: &[u16],
    columns: &[u16],
    lengths: &[usize],
    bodies: &[u8],
    out: &mut [u8],
) -> Result<usize, Refusal>
    ensures { Writing.PackWritten (record { rows = rows.now; columns = columns.now; lengths = lengths.now; bodies = bodies.now }) result out.old out.new }
{
    let n = rows.len();
    let alike = (columns.len() == n) & (lengths.len() == n) & (n <= TILES);
    if !alike {
        return Err(Refusal { number: 12, at: 0 });
    }
    if !parts::tiles_right(rows, columns, lengths, bodies) {
        return Err(Refusal { number: 12, at: 0 });
    }
    let table = HEAD + ENTRY * n;
    if out.len() < table {
        return Err(Refusal { number: 5, at: 0 });
    }
    if out.len() - table < bodies.len() {
        return Err(Refusal { number: 5, at: 0 });
    }
    parts::put_pack(rows, columns, lengths, bodies, &mut out[..]);
    Ok(table + bodies.len())
}
