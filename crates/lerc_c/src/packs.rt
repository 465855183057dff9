// Packs: what each entry does, but for the place.
// After a refusal the records and the pack are as they were.
ghost use Rattle.std.specs.Prelude.{◌≡◌, ◌≤◌, length};
ghost use Rattle.lerc_words.specs.Res.{refusal_of};
ghost use Rattle.lerc_words.specs.Lists.{over};
ghost use Rattle.lerc_c.specs.Packs as Packs;

use super::records;
use lerc_pack::Entry;
use lerc_words::Refusal;

// how many numbers an entry of a pack has
const ENTRY: usize = 6;

// The whole pack is judged: `said` is the count of its tiles.
pub(crate) fn open_pack(pack: &[u8], said: &mut [u64]) -> Result<(), Refusal>
    ensures { Packs.PackOpenDone (Packs.pack_entry pack.now said.old) (refusal_of result) said.old said.new }
{
    if said.len() < 1 {
        return Err(Refusal { number: 5, at: 0 });
    }
    let tiles = lerc_pack::open_pack(pack)?;
    said[0] = tiles as u64;
    Ok(())
}

fn put_entry(e: Entry, out: &mut [u64])
    requires { Packs.entry_room ≤ length out.old }
    ensures { out.new ≡ over (Packs.entry_numbers e) out.old }
{
    let words = [
        e.row as u64,
        e.column as u64,
        e.kind as u64,
        e.depth as u64,
        e.start as u64,
        e.length as u64,
    ];
    records::put(&words, 0, &mut out[..]);
}

// One entry of a pack with `tiles` tiles: row, column, kind, depth, start and length.
pub(crate) fn read_entry(
    pack: &[u8],
    tiles: usize,
    number: usize,
    entry: &mut [u64],
) -> Result<(), Refusal>
    ensures { Packs.PackEntryDone (Packs.entry_entry pack.now tiles number entry.old) (refusal_of result) entry.old entry.new }
{
    if entry.len() < ENTRY {
        return Err(Refusal { number: 5, at: 0 });
    }
    let found = lerc_pack::entry_in(pack, tiles, number)?;
    put_entry(found, &mut entry[..]);
    Ok(())
}

// Tiles as a pack: `said` is the pack's length.
pub(crate) fn write_pack(
    rows: &[u16],
    columns: &[u16],
    lengths: &[usize],
    bodies: &[u8],
    pack: &mut [u8],
    said: &mut [u64],
) -> Result<(), Refusal>
    ensures { Packs.PackWriteDone (record { rows = rows.now; columns = columns.now; lengths = lengths.now; bodies = bodies.now }) (Packs.pack_write_entry (record { rows = rows.now; columns = columns.now; lengths = lengths.now; bodies = bodies.now }) (length pack.old) said.old) (refusal_of result) pack.old pack.new said.old said.new }
{
    let room = said.len();
    if room < 1 {
        return Err(Refusal { number: 5, at: 0 });
    }
    let long = lerc_pack_writer::write_pack(rows, columns, lengths, bodies, &mut pack[..])?;
    said[0] = long as u64;
    Ok(())
}
