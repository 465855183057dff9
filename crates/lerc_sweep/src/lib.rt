// The bytes in front of a body that is not constant: raw words, blocks, or a Huffman image.
#![tactic(auto)]

ghost use Rattle.std.specs.Prelude.{◌≡◌};
ghost use Rattle.lerc_sweep.specs.Sweep.{mode_at, moded, swept};

use lerc_words::Refusal;

// Where the raw words or the blocks begin, or where the mode byte of a Huffman image stands.
#[derive(Clone, Copy, Debug, PartialEq, Eq)]
pub enum Way {
    Raw(usize),
    Blocks(usize),
    Huffman { delta: bool, mode: usize },
}

fn read_mode(s: &[u8], at: usize) -> Result<Way, Refusal>
    ensures { result ≡ mode_at s.now at }
{
    let mode = lerc_words::word(s, at, 1)?;
    if 3 <= mode {
        return Err(Refusal { number: 8, at });
    }
    if mode == 0 {
        return Ok(Way::Blocks(at + 1));
    }
    Ok(Way::Huffman {
        delta: mode == 1,
        mode: at,
    })
}

// Only kinds 0 and 1 with an error of exactly 0.5 have a mode byte.
fn after_sweep(s: &[u8], at: usize, kind: u32, error: u64) -> Result<Way, Refusal>
    ensures { result ≡ moded s.now kind error at }
{
    if 2 <= kind {
        return Ok(Way::Blocks(at));
    }
    if error != 0x3fe0_0000_0000_0000 {
        return Ok(Way::Blocks(at));
    }
    read_mode(s, at)
}

// The sweep byte at `at`, and the mode byte where there is one: 1, 8.
pub fn read_sweep(s: &[u8], at: usize, kind: u32, error: u64) -> Result<Way, Refusal>
    ensures { result ≡ swept s.now kind error at }
{
    let sweep = lerc_words::word(s, at, 1)?;
    if 2 <= sweep {
        return Err(Refusal { number: 8, at });
    }
    if sweep == 1 {
        return Ok(Way::Raw(at + 1));
    }
    after_sweep(s, at + 1, kind, error)
}
