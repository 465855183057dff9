// Blocks filled by a list of numbers.
#![tactic(auto)]

ghost use Rattle.std.specs.Prelude.{◌≡◌, cond};
ghost use Rattle.lerc_words.specs.Res.{accepts};
ghost use Rattle.lerc_fills.specs.Each.{EachFilled};

use lerc_header::Header;
use lerc_ranges::Ranges;
use lerc_words::Refusal;

// One for a block that was filled.
fn one(answer: Result<usize, Refusal>) -> usize
    ensures { result ≡ cond (accepts answer) 1 0 }
{
    match answer {
        Ok(_words) => 1,
        Err(_why) => 0,
    }
}

// Each of the numbers in turn; a refused one leaves the image, and the next goes on. How many were filled.
pub fn fill_each(
    blob: &[u8],
    h: Header,
    ranges: Ranges,
    mask: &[u8],
    list: &[usize],
    numbers: &[usize],
    image: &mut [u64],
) -> usize
    ensures { EachFilled blob.now h ranges mask.now list.now numbers.now result image.old image.new }
{
    let mut filled: usize = 0;
    for number in numbers {
        let answer = lerc_image::fill(blob, h, ranges, mask, list, *number, &mut image[..]);
        filled += one(answer);
    }
    filled
}
