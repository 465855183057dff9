// The reader for C: slices are a pointer and a length, records are arrays of 64-bit numbers.
// Each entry that can refuse returns 0, or the number of the refusal, and writes its place to its last slice, 0 where it accepts.
// A slice without room for the place is refused before all else. After a refusal the records are as they were.
#![tactic(auto)]

ghost use Rattle.std.specs.Prelude.{◌≡◌, true, length};
ghost use Rattle.lerc_checksum.specs.Checksum.{checksum};
ghost use Rattle.lerc_numeric.specs.Numeric.{sum, scaled};
ghost use Rattle.lerc_numeric.specs.Kinds.{value_of, narrowed};
ghost use Rattle.lerc_c.specs.Entries as Entry;
ghost use Rattle.lerc_c.specs.Packs as Packs;

use lerc_words::Refusal;

mod calls;
mod packs;
mod ranges;
mod records;
mod staged;

// The header of a blob.
#[unsafe(no_mangle)]
pub extern "C" fn lerc2_read_header(blob: &[u8], header: &mut [u64], place: &mut [u64]) -> u32
    ensures { Entry.Returned (λ why. Entry.HeaderDone (Entry.placing place.old (Entry.header_entry blob.now header.old)) why header.old header.new) result place.old place.new }
{
    if place.len() < 1 {
        return 5;
    }
    let header_why = Refusal::of(&calls::read_header(blob, &mut header[..]));
    place[0] = header_why.at as u64;
    header_why.number
}

// A whole blob: `said` is the header, the count of blocks and the body's end.
#[unsafe(no_mangle)]
pub extern "C" fn lerc2_read(
    blob: &[u8],
    reuse: bool,
    kept: &mut [u8],
    spare: &mut [u8],
    list: &mut [usize],
    image: &mut [u64],
    said: &mut [u64],
    place: &mut [u64],
) -> u32
    ensures { Entry.Returned (λ why. Entry.ReadDone (Entry.placing place.old (Entry.read_entry blob.now reuse (record { kept = kept.old; spare = spare.old; list = list.old; image = image.old }) said.old)) (Entry.placing place.old (Entry.masked_entry blob.now reuse (record { kept = kept.old; spare = spare.old; list = list.old; image = image.old }) said.old)) why (record { kept = kept.old; spare = spare.old; list = list.old; image = image.old }) (record { kept = kept.new; spare = spare.new; list = list.new; image = image.new }) said.old said.new) result place.old place.new }
{
    if place.len() < 1 {
        return 5;
    }
    let read_why = Refusal::of(&calls::read(
        blob,
        reuse,
        &mut kept[..],
        &mut spare[..],
        &mut list[..],
        &mut image[..],
        &mut said[..],
    ));
    place[0] = read_why.at as u64;
    read_why.number
}

// All checking of one blob, image and kept mask only looked at: `staged` is the header, the count of blocks and the body's end,
// its kind (0 empty, 1 constant, 2 raw, 3 blocks, 4 Huffman), the mask in force (1 the kept one, 2 the spare) and its length.
#[unsafe(no_mangle)]
pub extern "C" fn lerc2_stage(
    blob: &[u8],
    reuse: bool,
    kept: &[u8],
    spare: &mut [u8],
    list: &mut [usize],
    image: &[u64],
    staged: &mut [u64],
    place: &mut [u64],
) -> u32
    ensures { Entry.Returned (λ why. Entry.StageDone (Entry.placing place.old (Entry.stage_entry blob.now reuse (record { kept = kept.now; spare = spare.old; list = list.old; image = image.now }) staged.old)) (Entry.placing place.old (Entry.staged_mask_entry blob.now reuse (record { kept = kept.now; spare = spare.old; list = list.old; image = image.now }) staged.old)) why (record { kept = kept.now; spare = spare.old; list = list.old; image = image.now }) spare.new list.new staged.old staged.new) result place.old place.new }
{
    if place.len() < 1 {
        return 5;
    }
    let stage_why = Refusal::of(&calls::stage(
        blob,
        reuse,
        kept,
        &mut spare[..],
        &mut list[..],
        image,
        &mut staged[..],
    ));
    place[0] = stage_why.at as u64;
    stage_why.number
}

// A blob that was staged, `staged` being the answer, is written: `said` is the body's end and the count of words written.
#[unsafe(no_mangle)]
pub extern "C" fn lerc2_publish(
    blob: &[u8],
    reuse: bool,
    staged: &[u64],
    kept: &mut [u8],
    spare: &[u8],
    list: &[usize],
    image: &mut [u64],
    said: &mut [u64],
    place: &mut [u64],
) -> u32
    ensures { Entry.Returned (λ why. Entry.PublishDone (Entry.placing place.old (Entry.publish_entry blob.now reuse staged.now (record { kept = kept.old; spare = spare.now; list = list.now; image = image.old }) said.old)) why (record { kept = kept.old; spare = spare.now; list = list.now; image = image.old }) kept.new image.new said.old said.new) result place.old place.new }
{
    if place.len() < 1 {
        return 5;
    }
    let publish_why = Refusal::of(&calls::publish(
        blob,
        reuse,
        staged,
        &mut kept[..],
        spare,
        list,
        &mut image[..],
        &mut said[..],
    ));
    place[0] = publish_why.at as u64;
    publish_why.number
}

// The mask of a blob: `said` is 1 where the kept mask is in force and 2 where the spare is, and its length.
#[unsafe(no_mangle)]
pub extern "C" fn lerc2_prepare_mask(
    blob: &[u8],
    header: &[u64],
    reuse: bool,
    kept: &[u8],
    spare: &mut [u8],
    said: &mut [u64],
    place: &mut [u64],
) -> u32
    ensures { Entry.Returned (λ why. Entry.PrepareDone (Entry.placing place.old (Entry.prepare_entry blob.now header.now reuse kept.now spare.old said.old)) why spare.old spare.new said.old said.new) result place.old place.new }
{
    if place.len() < 1 {
        return 5;
    }
    let mask_why = Refusal::of(&calls::prepare_mask(
        blob,
        header,
        reuse,
        kept,
        &mut spare[..],
        &mut said[..],
    ));
    place[0] = mask_why.at as u64;
    mask_why.number
}

// The ranges of a blob.
#[unsafe(no_mangle)]
pub extern "C" fn lerc2_read_ranges(
    blob: &[u8],
    header: &[u64],
    ranges: &mut [u64],
    place: &mut [u64],
) -> u32
    ensures { Entry.Returned (λ why. Entry.RangesDone (Entry.placing place.old (Entry.ranges_entry blob.now header.now ranges.old)) why ranges.old ranges.new) result place.old place.new }
{
    if place.len() < 1 {
        return 5;
    }
    let ranges_why = Refusal::of(&calls::read_ranges(blob, header, &mut ranges[..]));
    place[0] = ranges_why.at as u64;
    ranges_why.number
}

// Every block checked, then the list of their starts: `said` is the count of blocks and the end of the last.
#[unsafe(no_mangle)]
pub extern "C" fn lerc2_walk(
    blob: &[u8],
    header: &[u64],
    ranges: &[u64],
    mask: &[u8],
    list: &mut [usize],
    said: &mut [u64],
    place: &mut [u64],
) -> u32
    ensures { Entry.Returned (λ why. Entry.WalkDone (Entry.placing place.old (Entry.walk_entry blob.now header.now ranges.now mask.now list.old said.old)) why list.old list.new said.old said.new) result place.old place.new }
{
    if place.len() < 1 {
        return 5;
    }
    let walk_why = Refusal::of(&calls::walk(
        blob,
        header,
        ranges,
        mask,
        &mut list[..],
        &mut said[..],
    ));
    place[0] = walk_why.at as u64;
    walk_why.number
}

// One block by its number: `said` is the count of words written.
#[unsafe(no_mangle)]
pub extern "C" fn lerc2_fill(
    blob: &[u8],
    header: &[u64],
    ranges: &[u64],
    mask: &[u8],
    list: &[usize],
    number: usize,
    image: &mut [u64],
    said: &mut [u64],
    place: &mut [u64],
) -> u32
    ensures { Entry.Returned (λ why. Entry.FillDone (Entry.placing place.old (Entry.fill_entry blob.now header.now ranges.now mask.now list.now number image.old said.old)) mask.now number why image.old image.new said.old said.new) result place.old place.new }
{
    if place.len() < 1 {
        return 5;
    }
    let fill_why = Refusal::of(&calls::fill(
        blob,
        header,
        ranges,
        mask,
        list,
        number,
        &mut image[..],
        &mut said[..],
    ));
    place[0] = fill_why.at as u64;
    fill_why.number
}

// The whole pack is judged: `said` is the count of its tiles.
#[unsafe(no_mangle)]
pub extern "C" fn lerc2_pack_open(pack: &[u8], said: &mut [u64], place: &mut [u64]) -> u32
    ensures { Entry.Returned (λ why. Packs.PackOpenDone (Entry.placing place.old (Packs.pack_entry pack.now said.old)) why said.old said.new) result place.old place.new }
{
    if place.len() < 1 {
        return 5;
    }
    let open_why = Refusal::of(&packs::open_pack(pack, &mut said[..]));
    place[0] = open_why.at as u64;
    open_why.number
}

// One entry of a pack with `tiles` tiles: `entry` is row, column, kind, depth, start and length.
#[unsafe(no_mangle)]
pub extern "C" fn lerc2_pack_entry(
    pack: &[u8],
    tiles: usize,
    number: usize,
    entry: &mut [u64],
    place: &mut [u64],
) -> u32
    ensures { Entry.Returned (λ why. Packs.PackEntryDone (Entry.placing place.old (Packs.entry_entry pack.now tiles number entry.old)) why entry.old entry.new) result place.old place.new }
{
    if place.len() < 1 {
        return 5;
    }
    let entry_why = Refusal::of(&packs::read_entry(pack, tiles, number, &mut entry[..]));
    place[0] = entry_why.at as u64;
    entry_why.number
}

// Tiles as a pack: `said` is the pack's length.
#[unsafe(no_mangle)]
pub extern "C" fn lerc2_pack_write(
    rows: &[u16],
    columns: &[u16],
    lengths: &[usize],
    bodies: &[u8],
    pack: &mut [u8],
    said: &mut [u64],
    place: &mut [u64],
) -> u32
    ensures { Entry.Returned (λ why. Packs.PackWriteDone (record { rows = rows.now; columns = columns.now; lengths = lengths.now; bodies = bodies.now }) (Entry.placing place.old (Packs.pack_write_entry (record { rows = rows.now; columns = columns.now; lengths = lengths.now; bodies = bodies.now }) (length pack.old) said.old)) why pack.old pack.new said.old said.new) result place.old place.new }
{
    if place.len() < 1 {
        return 5;
    }
    let write_why = Refusal::of(&packs::write_pack(
        rows,
        columns,
        lengths,
        bodies,
        &mut pack[..],
        &mut said[..],
    ));
    place[0] = write_why.at as u64;
    write_why.number
}

// a binary64 word as a stored word of a kind, which is what `said` is
#[unsafe(no_mangle)]
pub extern "C" fn lerc2_stored(v: u64, kind: u32, said: &mut [u64], place: &mut [u64]) -> u32
    ensures { Entry.Returned (λ why. Entry.StoredDone (Entry.placing place.old (Entry.stored_entry kind v said.old)) why said.old said.new) result place.old place.new }
{
    if place.len() < 1 {
        return 5;
    }
    let stored_why = Refusal::of(&calls::stored(v, kind, &mut said[..]));
    place[0] = stored_why.at as u64;
    stored_why.number
}

// Whether this thread's float unit is as the language asks; `mix` is 0, or any word to try other operands.
#[unsafe(no_mangle)]
pub extern "C" fn lerc2_float_ready(mix: u64) -> bool
    ensures { result ≡ true }
{
    lerc_numeric::float_ready(mix)
}

// a + b, both binary64 words
#[unsafe(no_mangle)]
pub extern "C" fn lerc2_sum(a: u64, b: u64) -> u64
    ensures { result ≡ sum a b }
{
    lerc_numeric::plus(a, b)
}

// 2qa, a binary64 word
#[unsafe(no_mangle)]
pub extern "C" fn lerc2_scaled(a: u64, q: u32) -> u64
    ensures { result ≡ scaled a q }
{
    lerc_numeric::scale(a, q)
}

// a binary64 word as a binary32 word
#[unsafe(no_mangle)]
pub extern "C" fn lerc2_narrow(v: u64) -> u32
    ensures { result ≡ narrowed v }
{
    lerc_numeric::narrow(v)
}

// a word of a kind as a binary64 word
#[unsafe(no_mangle)]
pub extern "C" fn lerc2_number(word: u64, kind: u32) -> u64
    ensures { result ≡ value_of kind word }
{
    lerc_numeric::number(word, kind)
}

// the checksum of these bytes; a blob's is of those from 14 up to its size
#[unsafe(no_mangle)]
pub extern "C" fn lerc2_checksum(bytes: &[u8]) -> u32
    ensures { result ≡ checksum bytes.now }
{
    lerc_checksum::checksum(bytes)
}
