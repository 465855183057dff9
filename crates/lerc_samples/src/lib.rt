// Numbers of a kind out of bytes, values as stored words, and the kinds that a block's offset may have.
#![tactic(auto)]

ghost use Rattle.std.specs.Prelude.{◌≡◌};
ghost use Rattle.lerc_words.specs.Res.{marked};
ghost use Rattle.lerc_samples.specs.Samples as Sample;
ghost use Rattle.lerc_samples.specs.Samples.{sample_at, offset_kind};

use lerc_words::Refusal;

// by kind and code: the offset's kind, 9 where there is none
const OFFSET_KINDS: [[u8; 4]; 8] = [
    [0, 9, 9, 9],
    [1, 9, 9, 9],
    [2, 1, 0, 9],
    [3, 1, 9, 9],
    [4, 3, 2, 1],
    [5, 3, 1, 9],
    [6, 2, 1, 9],
    [7, 6, 4, 2],
];

// the kind of an offset; a kind or a code that the table does not have, or 9 in it: 8
pub fn offset_kind(kind: u32, code: u32) -> Result<u32, Refusal>
    ensures { result ≡ offset_kind kind code }
{
    if 7 < kind {
        return Err(Refusal { number: 8, at: 0 });
    }
    if 3 < code {
        return Err(Refusal { number: 8, at: 0 });
    }
    let k = OFFSET_KINDS[kind as usize][code as usize];
    if k < 9 {
        Ok(k as u32)
    } else {
        Err(Refusal { number: 8, at: 0 })
    }
}

// a number of the kind at a place, as a binary64; past the end: 1 at its first byte
pub fn read(s: &[u8], at: usize, kind: u32) -> Result<u64, Refusal>
    ensures { result ≡ marked at (sample_at kind s.now at) }
{
    let w = lerc_words::word(s, at, lerc_numeric::size(kind))?;
    Ok(lerc_numeric::number(w, kind))
}

// v as a stored word of the kind; where a kind of integers does not hold it: 9
pub fn stored(v: u64, kind: u32) -> Result<u64, Refusal>
    ensures { result ≡ Sample.stored kind v }
{
    if kind < 6 {
        // handed on as it is, a call would take five instructions more
        let w = lerc_numeric::to_integer(v, kind)?;
        return Ok(w);
    }
    if kind == 6 {
        Ok(lerc_numeric::narrow(v) as u64)
    } else {
        Ok(v)
    }
}
