// The answer of staging as an array of 64-bit numbers, and back.
ghost use Rattle.std.specs.Prelude.{◌≡◌, ◌≤◌, length};
ghost use Rattle.lerc_words.specs.Lists.{over};
ghost use Rattle.lerc.specs.Stage.{kind_number};
ghost use Rattle.lerc_c.specs.Records as Record;

use super::records;
use lerc::{BodyKind, Staged};
use lerc_validity::Mask;
use lerc_words::Refusal;

// how many numbers an answer has
pub(crate) const STAGED: usize = records::HEADER + 5;

fn kind_number(kind: BodyKind) -> u64
    ensures { result ≡ kind_number kind }
{
    match kind {
        BodyKind::Empty => 0,
        BodyKind::Constant => 1,
        BodyKind::Raw => 2,
        BodyKind::Blocks => 3,
        BodyKind::Huffman => 4,
    }
}

fn mask_number(mask: Result<Mask, Refusal>) -> u64
    ensures { result ≡ Record.mask_number mask }
{
    match mask {
        Ok(Mask::Kept(_n)) => 1,
        Ok(Mask::Spare(_n)) => 2,
        Err(_why) => 0,
    }
}

fn mask_length(mask: Result<Mask, Refusal>) -> usize
    ensures { result ≡ Record.mask_length mask }
{
    match mask {
        Ok(Mask::Kept(n)) => n,
        Ok(Mask::Spare(n)) => n,
        Err(_why) => 0,
    }
}

pub(crate) fn put_staged(s: Staged, out: &mut [u64])
    requires { Record.staged_room ≤ length out.old }
    ensures { out.new ≡ over (Record.staged_numbers s) out.old }
{
    let header = s.header;
    let body = s.body;
    let mask = s.mask;
    records::put_header(header, &mut out[..]);
    let words = [
        s.blocks as u64,
        s.end as u64,
        kind_number(body),
        mask_number(mask),
        mask_length(mask) as u64,
    ];
    records::put(&words, records::HEADER, &mut out[..]);
}

fn kind_from(n: u64) -> BodyKind
    ensures { result ≡ Record.kind_from n }
{
    if n == 0 {
        return BodyKind::Empty;
    }
    if n == 1 {
        return BodyKind::Constant;
    }
    if n == 2 {
        return BodyKind::Raw;
    }
    if n == 3 {
        return BodyKind::Blocks;
    }
    BodyKind::Huffman
}

fn mask_from(which: u64, n: usize) -> Mask
    ensures { result ≡ Record.mask_from which n }
{
    if which == 1 {
        return Mask::Kept(n);
    }
    Mask::Spare(n)
}

// an answer out of its record; a record that is none stands for a refused answer
pub(crate) fn staged_from(l: &[u64]) -> Result<Staged, Refusal>
    requires { Record.staged_room ≤ length l.now }
    ensures { result ≡ Record.staged_from l.now }
{
    let Ok(header) = records::header_from(l) else {
        return Err(Refusal { number: 0, at: 0 });
    };
    let named = (l[13] < 5) & (0 < l[14]) & (l[14] < 3);
    if !named {
        return Err(Refusal { number: 0, at: 0 });
    }
    let body = kind_from(l[13]);
    let mask = mask_from(l[14], l[15] as usize);
    Ok(Staged {
        header,
        body,
        blocks: l[11] as usize,
        end: l[12] as usize,
        mask: Ok(mask),
    })
}
