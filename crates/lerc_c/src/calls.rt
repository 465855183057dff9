// What each entry that can refuse does, but for the place.
// After a refusal the records are as they were.
ghost use Rattle.std.specs.Prelude.{◌≡◌};
ghost use Rattle.lerc_words.specs.Res.{refusal_of};
ghost use Rattle.lerc_c.specs.Entries as Entry;

use super::{ranges, records, staged};
use lerc::{Published, Whole};
use lerc_image::Walked;
use lerc_validity::Mask;
use lerc_words::Refusal;

// how many numbers a whole read says
const READ: usize = records::HEADER + 2;

// The header of a blob.
pub(crate) fn read_header(blob: &[u8], header: &mut [u64]) -> Result<(), Refusal>
    ensures { Entry.HeaderDone (Entry.header_entry blob.now header.old) (refusal_of result) header.old header.new }
{
    if header.len() < records::HEADER {
        return Err(Refusal { number: 5, at: 0 });
    }
    let h = lerc_header::read_header(blob)?;
    records::put_header(h, &mut header[..]);
    Ok(())
}

// A whole blob: `said` is the header, the count of blocks and the body's end.
pub(crate) fn read(
    blob: &[u8],
    reuse: bool,
    kept: &mut [u8],
    spare: &mut [u8],
    list: &mut [usize],
    image: &mut [u64],
    said: &mut [u64],
) -> Result<(), Refusal>
    ensures { Entry.ReadDone (Entry.read_entry blob.now reuse (record { kept = kept.old; spare = spare.old; list = list.old; image = image.old }) said.old) (Entry.masked_entry blob.now reuse (record { kept = kept.old; spare = spare.old; list = list.old; image = image.old }) said.old) (refusal_of result) (record { kept = kept.old; spare = spare.old; list = list.old; image = image.old }) (record { kept = kept.new; spare = spare.new; list = list.new; image = image.new }) said.old said.new }
{
    if said.len() < READ {
        return Err(Refusal { number: 5, at: 0 });
    }
    let Whole {
        header,
        blocks,
        end,
    } = lerc::read(
        blob,
        reuse,
        &mut kept[..],
        &mut spare[..],
        &mut list[..],
        &mut image[..],
    )?;
    records::put_header(header, &mut said[..]);
    let counts = [blocks as u64, end as u64];
    records::put(&counts, records::HEADER, &mut said[..]);
    Ok(())
}

// All checking of one blob: `staged` is the answer.
pub(crate) fn stage(
    blob: &[u8],
    reuse: bool,
    kept: &[u8],
    spare: &mut [u8],
    list: &mut [usize],
    image: &[u64],
    staged: &mut [u64],
) -> Result<(), Refusal>
    ensures { Entry.StageDone (Entry.stage_entry blob.now reuse (record { kept = kept.now; spare = spare.old; list = list.old; image = image.now }) staged.old) (Entry.staged_mask_entry blob.now reuse (record { kept = kept.now; spare = spare.old; list = list.old; image = image.now }) staged.old) (refusal_of result) (record { kept = kept.now; spare = spare.old; list = list.old; image = image.now }) spare.new list.new staged.old staged.new }
{
    if staged.len() < staged::STAGED {
        return Err(Refusal { number: 5, at: 0 });
    }
    let found = lerc::stage(blob, reuse, kept, &mut spare[..], &mut list[..], image)?;
    staged::put_staged(found, &mut staged[..]);
    Ok(())
}

// A blob that was staged: `said` is the body's end and the count of words written.
pub(crate) fn publish(
    blob: &[u8],
    reuse: bool,
    staged: &[u64],
    kept: &mut [u8],
    spare: &[u8],
    list: &[usize],
    image: &mut [u64],
    said: &mut [u64],
) -> Result<(), Refusal>
    ensures { Entry.PublishDone (Entry.publish_entry blob.now reuse staged.now (record { kept = kept.old; spare = spare.now; list = list.now; image = image.old }) said.old) (refusal_of result) (record { kept = kept.old; spare = spare.now; list = list.now; image = image.old }) kept.new image.new said.old said.new }
{
    let room = (staged::STAGED <= staged.len()) & (2 <= said.len());
    if !room {
        return Err(Refusal { number: 5, at: 0 });
    }
    let given = staged::staged_from(staged);
    let Published { end, words } = lerc::publish(
        blob,
        reuse,
        given,
        &mut kept[..],
        spare,
        list,
        &mut image[..],
    )?;
    records::say(end, words, &mut said[..]);
    Ok(())
}

// The mask of a blob: `said` is 1 where the kept mask is in force and 2 where the spare is, and its length.
pub(crate) fn prepare_mask(
    blob: &[u8],
    header: &[u64],
    reuse: bool,
    kept: &[u8],
    spare: &mut [u8],
    said: &mut [u64],
) -> Result<(), Refusal>
    ensures { Entry.PrepareDone (Entry.prepare_entry blob.now header.now reuse kept.now spare.old said.old) (refusal_of result) spare.old spare.new said.old said.new }
{
    let room = (records::HEADER <= header.len()) & (2 <= said.len());
    if !room {
        return Err(Refusal { number: 5, at: 0 });
    }
    let h = records::header_from(header)?;
    let mask = lerc_validity::prepare_mask(blob, h, reuse, kept, &mut spare[..])?;
    match mask {
        Mask::Kept(n) => records::say(1, n, &mut said[..]),
        Mask::Spare(n) => records::say(2, n, &mut said[..]),
    }
    Ok(())
}

// The ranges of a blob.
pub(crate) fn read_ranges(blob: &[u8], header: &[u64], ranges: &mut [u64]) -> Result<(), Refusal>
    ensures { Entry.RangesDone (Entry.ranges_entry blob.now header.now ranges.old) (refusal_of result) ranges.old ranges.new }
{
    let room = (records::HEADER <= header.len()) & (ranges::RANGES <= ranges.len());
    if !room {
        return Err(Refusal { number: 5, at: 0 });
    }
    let h = records::header_from(header)?;
    let r = lerc_ranges::read_ranges(blob, h)?;
    ranges::put_ranges(r, &mut ranges[..]);
    Ok(())
}

// Every block checked, then the list of their starts: `said` is the count of blocks and the end of the last.
pub(crate) fn walk(
    blob: &[u8],
    header: &[u64],
    ranges: &[u64],
    mask: &[u8],
    list: &mut [usize],
    said: &mut [u64],
) -> Result<(), Refusal>
    ensures { Entry.WalkDone (Entry.walk_entry blob.now header.now ranges.now mask.now list.old said.old) (refusal_of result) list.old list.new said.old said.new }
{
    let room = (records::HEADER <= header.len())
        & (ranges::RANGES <= ranges.len())
        & (2 <= said.len());
    if !room {
        return Err(Refusal { number: 5, at: 0 });
    }
    let h = records::header_from(header)?;
    let r = ranges::ranges_from(ranges)?;
    let Walked { blocks, end } = lerc_image::walk(blob, h, r, mask, &mut list[..])?;
    records::say(blocks, end, &mut said[..]);
    Ok(())
}

// One block by its number: `said` is the count of words written.
pub(crate) fn fill(
    blob: &[u8],
    header: &[u64],
    ranges: &[u64],
    mask: &[u8],
    list: &[usize],
    number: usize,
    image: &mut [u64],
    said: &mut [u64],
) -> Result<(), Refusal>
    ensures { Entry.FillDone (Entry.fill_entry blob.now header.now ranges.now mask.now list.now number image.old said.old) mask.now number (refusal_of result) image.old image.new said.old said.new }
{
    let room = (records::HEADER <= header.len())
        & (ranges::RANGES <= ranges.len())
        & (1 <= said.len());
    if !room {
        return Err(Refusal { number: 5, at: 0 });
    }
    let h = records::header_from(header)?;
    let r = ranges::ranges_from(ranges)?;
    let words = lerc_image::fill(blob, h, r, mask, list, number, &mut image[..])?;
    said[0] = words as u64;
    Ok(())
}

// a binary64 word as a stored word of a kind, which is what `said` is
pub(crate) fn stored(v: u64, kind: u32, said: &mut [u64]) -> Result<(), Refusal>
    ensures { Entry.StoredDone (Entry.stored_entry kind v said.old) (refusal_of result) said.old said.new }
{
    if said.len() < 1 {
        return Err(Refusal { number: 5, at: 0 });
    }
    let word = lerc_samples::stored(v, kind)?;
    said[0] = word;
    Ok(())
}
