// Heads of blobs, header and mask section, made by Esri's encoder (liblerc 4.0.0) or by hand: data/names says which.
// Prints for each the mask in force: reused or new, its length, how many pixels are valid, a sum over these, and one over
// how many are valid in each of many parts.
// `stdout` has the same of the mask that Esri's decoder gives, and of those by hand what the rules give: tests/mask/make.py wrote it.
#![tactic(auto)]

use lerc_header::Header;
use lerc_validity::Mask;
use lerc_words::Refusal;
use std::fmt::InlineText;
use std::fs::File;
use std::io;
use std::rt::Files;

const FILES: usize = 79;

fn print_refusal(rt: &impl Print, why: Refusal) -> io::Result<()> {
    print!(rt; " refused {}", why.number)
}

// the places of the valid pixels, in order
fn sum_of(mask: &[u8], pixels: usize) -> usize {
    let mut sum = 0;
    for p in 0..pixels {
        if lerc_mask::is_valid(mask, p) {
            sum = (sum * 31 + p % 65536 + 1) % 1000003;
        }
    }
    sum
}

// how many pixels are valid in parts of 1 to 21 pixels, one from each pixel on: every cut at both ends comes up
fn parts_of(mask: &[u8], pixels: usize) -> usize {
    let mut sum = 0;
    for p in 0..pixels {
        let n = (p % 21 + 1).min(pixels - p);
        sum = (sum * 31 + lerc_mask::count_from(mask, p, n) % 65536) % 1000003;
    }
    sum
}

fn print_mask(rt: &impl Print, mask: &[u8], h: Header) -> io::Result<()> {
    let rows = h.rows as usize;
    let columns = h.columns as usize;
    let pixels = rows * columns;
    print!(rt;
        " bytes {} valid {}",
        mask.len(),
        lerc_mask::count(mask, pixels)
    )?;
    print!(rt;
        " sum {} parts {}",
        sum_of(mask, pixels),
        parts_of(mask, pixels)
    )
}

fn keep(mask: &[u8], kept: &mut [u8]) {
    let n = mask.len().min(kept.len());
    kept[..n].copy_from_slice(&mask[..n]);
}

// a new mask becomes the kept one
fn report(rt: &impl Print, blob: &[u8], kept: &mut [u8]) -> io::Result<()> {
    let h = match lerc_header::read_header(blob) {
        Ok(h) => h,
        Err(why) => return print_refusal(rt, why),
    };
    let mut spare = [0u8; 512];
    let said = lerc_validity::prepare_mask(blob, h, true, &kept[..], &mut spare);
    match said {
        Ok(Mask::Kept(_n)) => {
            print!(rt; " kept")?;
            print_mask(rt, lerc_validity::mask_in_force(&kept[..], &spare, said), h)?;
        }
        Ok(Mask::Spare(_n)) => {
            print!(rt; " new")?;
            print_mask(rt, lerc_validity::mask_in_force(&kept[..], &spare, said), h)?;
            keep(&spare, kept);
        }
        Err(why) => {
            print_refusal(rt, why)?;
        }
    }
    Ok(())
}

fn one(rt: &(impl Files + Print), i: usize, kept: &mut [u8; 512]) -> io::Result<()> {
    let name = InlineText::<20>::of(format_args!("{i:03}"));
    print!(rt; "{i:03}")?;
    let Ok(mut file) = File::open(rt, name.as_str()) else {
        return println!(rt; " missing");
    };
    let mut input = [0u8; 16384];
    lerc_input::read_full(&mut file, &mut input)?;
    report(rt, &input, &mut kept[..])?;
    println!(rt)
}

fn main(rt: HostRuntime) -> io::Result<()> {
    let mut kept = [0u8; 512];
    for i in 0..FILES {
        one(&rt, i, &mut kept)?;
    }
    Ok(())
}
