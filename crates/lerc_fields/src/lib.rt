// Numbers and the fields of a header as they stand in bytes, whatever the rules say of them: for programs that call by value.
#![tactic(auto)]

ghost use Rattle.std.specs.Prelude.{◌≡◌};
ghost use Rattle.lerc_words.specs.Res.{little};
ghost use Rattle.lerc_header.specs.Header.{header_of};

use lerc_header::Header;
use lerc_words::peek;

// the four bytes at `at`, zeros past the end
pub fn quad(s: &[u8], at: usize) -> u32
    ensures { result ≡ little 4 s.now at }
{
    (peek(s, at) % 0x1_0000_0000) as u32
}

// the fields as they stand, whatever the key and the rules; zeros past the end
pub fn fields(blob: &[u8]) -> Header
    ensures { result ≡ header_of blob.now }
{
    Header {
        rows: quad(blob, 14),
        columns: quad(blob, 18),
        depth: quad(blob, 22),
        valid: quad(blob, 26),
        side: quad(blob, 30),
        size: quad(blob, 34),
        kind: quad(blob, 38),
        error: peek(blob, 42),
        min: peek(blob, 50),
        max: peek(blob, 58),
        mask: quad(blob, 66),
    }
}
