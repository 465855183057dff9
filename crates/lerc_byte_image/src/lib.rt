// Huffman images of bytes: all symbols are checked first, then every valid cell is written.
#![tactic(auto)]

ghost use Rattle.std.specs.Prelude.{◌≡◌};
ghost use Rattle.lerc_byte_image.specs.Image.{checked_image, ended, written_image};

use lerc_header::Header;
use lerc_words::Refusal;

mod bits;
mod image;
mod symbols;
mod table;

// Where the image ends whose mode byte stands at `mode`: 3, 4, 1, then table and symbols (1, 8), at the mode byte. Nothing is written.
pub fn check(blob: &[u8], h: Header, mode: usize) -> Result<usize, Refusal>
    ensures { result ≡ ended (checked_image blob.now h mode) }
{
    let e = h.held(blob.len())?;
    if e.size <= mode {
        return Err(Refusal {
            number: 1,
            at: mode,
        });
    }
    let size = e.size;
    let n = h.valid as usize * h.depth as usize;
    let found = symbols::check_symbols(&blob[..size], mode + 1, n);
    lerc_words::marked(found, mode)
}

// Every valid cell of the image whose mode byte stands at `mode`. Nothing is refused: without room, or behind a table that is
// refused, nothing is written; a symbol that is none counts as 0.
pub fn write(blob: &[u8], h: Header, mode: usize, delta: bool, mask: &[u8], image: &mut [u64])
    ensures { image.new ≡ written_image blob.now h mode delta mask.now image.old }
{
    let Ok(e) = h.held(blob.len()) else {
        return;
    };
    let room = (e.mask <= mask.len()) & (e.cells <= image.len());
    if !room {
        return;
    }
    if e.size <= mode {
        return;
    }
    let size = e.size;
    let form = e.shape;
    image::write_image(
        &blob[..size],
        h,
        form,
        mode + 1,
        delta,
        mask,
        &mut image[..],
    );
}
