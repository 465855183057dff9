// The usual head of a block, read at once: an offset, and packed counts without a table, whose number is one byte.
// Any other head is left to the functions that know each refusal.
ghost use Rattle.std.specs.Prelude.{◌≡◌, ℕ, ◌+◌, ◌*◌, ◌≤◌, length, Some};
ghost use Rattle.lerc_words.specs.Res.{ok};
ghost use Rattle.lerc_block.specs.Plan.{plan_at, stepped_plan};
ghost use Rattle.lerc_block.specs.declared.heads.Head.{Head};
ghost use Rattle.lerc_block.specs.Check.{head_steps, head_plan};

use super::plan::{Steps, StoredOffset, finite_word};
use lerc_bits::Plan;

// flag, offset, and two bytes in front of the counts
const ROOM: usize = 11;

// What such a head says.
#[derive(Clone, Copy)]
pub(crate) struct Head {
    pub offset: StoredOffset,
    pub n: usize,
    pub bits: usize,
    // where the counts start
    pub at: usize,
    // where the block ends
    pub end: usize,
}

impl Head {
    pub(crate) fn steps(self) -> Steps
        ensures { result ≡ head_steps self }
    {
        let offset = self.offset;
        Steps {
            offset,
            counts: Plan {
                n: self.n,
                bits: self.bits,
                entries: 0,
                table: self.at,
                at: self.at,
                width: self.bits,
                next: self.end,
            },
        }
    }
}

// as the private one of lerc_words
fn quad(a: u8, b: u8, c: u8, d: u8) -> u64
    ensures { result ≡ a + 256 * (b + 256 * (c + 256 * d)) }
{
    a as u64 + 256 * (b as u64 + 256 * (c as u64 + 256 * (d as u64)))
}

// behind the offset
fn usual_counts(s: &[u8], at: usize, offset: StoredOffset) -> Option<Head>
    requires { at + 2 ≤ length s.now }
    ensures { (h : Head) → result ≡ Some h → stepped_plan s.now at offset ≡ ok (head_plan h) }
{
    let h = s[at] as usize;
    if h / 32 != 4 {
        return None;
    }
    let bits = h % 32;
    let n = s[at + 1] as usize;
    let first = at + 2;
    let end = first + (n * bits + 7) / 8;
    if s.len() < end {
        return None;
    }
    Some(Head {
        offset,
        n,
        bits,
        at: first,
        end,
    })
}

// the head at `at`, of a tile that begins in column x, however many of its pixels are valid; in line, or each call would hand its
// seven words over in memory
#[inline(always)]
pub(crate) fn usual_head(s: &[u8], at: usize, kind: u32, x: usize) -> Option<Head>
    ensures { (h : Head) → result ≡ Some h → (n : ℕ) → plan_at s.now at kind x n ≡ ok (head_plan h) }
{
    let len = s.len();
    if len < ROOM {
        return None;
    }
    if len - ROOM < at {
        return None;
    }
    let flag = s[at] as u64;
    if flag % 4 != 1 {
        return None;
    }
    if flag / 4 % 16 != x as u64 / 8 % 16 {
        return None;
    }
    let Ok(k) = lerc_samples::offset_kind(kind, (flag / 64) as u32) else {
        return None;
    };
    let size = lerc_numeric::size(k);
    // most offsets have at most four bytes
    let word = if 4 < size {
        lerc_words::bytes(s, at + 1, size)
    } else {
        let base: u64 = 1 << (8 * size);
        quad(s[at + 1], s[at + 2], s[at + 3], s[at + 4]) % base
    };
    if !finite_word(word, k) {
        return None;
    }
    usual_counts(s, at + 1 + size, StoredOffset { word, kind: k })
}
