// Packs: many tiles in one, a table of contents first, then the bodies. "A breach is new refusal 12", at 0.
// The pack reader holds the lent pack and its count, and is thin over the plain functions, which do all of the judging.
#![tactic(auto)]

ghost use Rattle.std.specs.Prelude.{◌≡◌};
ghost use Rattle.lerc_pack.specs.Pack as Reading;

use lerc_words::Refusal;

mod table;

// The most tiles that a pack may have.
pub const TILES: usize = 256;

// The bytes of version, zeros and count, in front of the entries.
pub const HEAD: usize = 8;

// The bytes of an entry.
pub const ENTRY: usize = 16;

#[derive(Clone, Copy, Debug, PartialEq, Eq)]
pub struct Entry {
    pub row: u16,
    pub column: u16,
    pub kind: u32,
    pub depth: u32,
    pub start: usize,
    pub length: usize,
}

// ---- plain functions, on slice and number

// The whole pack is judged, every header and checksum included: how many tiles it has.
pub fn open_pack(pack: &[u8]) -> Result<usize, Refusal>
    ensures { result ≡ Reading.pack_says pack.now }
{
    if !table::head_right(pack) {
        return Err(Refusal { number: 12, at: 0 });
    }
    let count = table::count_of(pack);
    if !table::entries_right(pack, count) {
        return Err(Refusal { number: 12, at: 0 });
    }
    Ok(count)
}

// the count of an accepted pack, 0 of a refused one
pub fn count_tiles(pack: &[u8]) -> usize
    ensures { result ≡ Reading.count_in pack.now }
{
    open_pack(pack).unwrap_or(0)
}

// What opening said, by the count that it left; the tiles are not judged again.
pub fn pack_answer(pack: &[u8], count: usize) -> Result<usize, Refusal>
    ensures { result ≡ Reading.opened_says pack.now count }
{
    let right = table::head_right(pack)
        & (count == table::count_of(pack))
        & ((0 < count) | (pack.len() == HEAD));
    if !right {
        return Err(Refusal { number: 12, at: 0 });
    }
    Ok(count)
}

// The i-th entry of a pack that has `count`: its own bytes, where they and its body lie in the slice.
pub fn entry_in(pack: &[u8], count: usize, i: usize) -> Result<Entry, Refusal>
    ensures { result ≡ Reading.entry_says pack.now count i }
{
    if count <= i {
        return Err(Refusal { number: 12, at: 0 });
    }
    if !table::holds_entry(pack.len(), i) {
        return Err(Refusal { number: 12, at: 0 });
    }
    let entry = table::entry_at(pack, i);
    if pack.len() < entry.start + entry.length {
        return Err(Refusal { number: 12, at: 0 });
    }
    Ok(entry)
}

// the blob of the i-th entry: the part of the pack that its start and length say, and an empty one where the entry is refused
pub fn body_in<'a>(pack: &'a [u8], count: usize, i: usize) -> &'a [u8]
    ensures { (result.now ≡ Reading.body_says pack.now count i) × (result.ref_ptr ≡ Reading.behind pack.entry.ref_ptr (Reading.start_says pack.now count i)) }
{
    let Ok(entry) = entry_in(pack, count, i) else {
        return &pack[..0];
    };
    let start = entry.start;
    let end = entry.start + entry.length;
    &pack[start..end]
}

// ---- the pack reader

#[derive(Clone, Copy)]
pub struct Pack<'a> {
    pub bytes: &'a [u8],
    pub count: usize,
}

impl<'a> Pack<'a> {
    // these bytes and the count of their tiles; `answer` says whether they are a pack
    pub fn open(bytes: &'a [u8]) -> Pack<'a>
        ensures { (result.bytes ≡ bytes.entry) × (result.count ≡ Reading.count_in bytes.now) }
    {
        Pack {
            bytes,
            count: count_tiles(bytes),
        }
    }

    // what opening said
    pub fn answer(self) -> Result<usize, Refusal>
        ensures { result ≡ Reading.opened_says self.entry.bytes.now self.entry.count }
    {
        pack_answer(self.bytes, self.count)
    }

    pub fn count(self) -> usize
        ensures { result ≡ self.entry.count }
    {
        self.count
    }

    pub fn entry(self, i: usize) -> Result<Entry, Refusal>
        ensures { result ≡ Reading.entry_says self.entry.bytes.now self.entry.count i }
    {
        entry_in(self.bytes, self.count, i)
    }

    pub fn body(self, i: usize) -> &'a [u8]
        ensures { (result.now ≡ Reading.body_says self.entry.bytes.now self.entry.count i) × (result.ref_ptr ≡ Reading.behind self.entry.bytes.ref_ptr (Reading.start_says self.entry.bytes.now self.entry.count i)) }
    {
        body_in(self.bytes, self.count, i)
    }
}
