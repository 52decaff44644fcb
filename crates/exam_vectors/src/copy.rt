// The write, and what it gives written out.
use crate::say::{items, nth};
use std::io;

fn say_write(rt: &impl Print, bytes: &[u8], sheet: &[u32], copy: &mut [u8]) -> io::Result<()> {
    match writer::write(bytes, sheet, copy) {
        Ok(count) => print!(rt; " 0 bytes {count} copy"),
        Err(refused) => print!(rt; " {} bytes 0 copy", u32::from(refused)),
    }?;
    items(rt, copy)
}

// The words of the sheet by pairs of numbers, 2 × the first and the second.
fn fill(pairs: &[u16], sheet: &mut [u32]) {
    for (z, word) in sheet.iter_mut().enumerate() {
        *word = 2 * nth(pairs, 2 * z) as u32 + nth(pairs, 2 * z + 1) as u32;
    }
}

pub fn run_write(rt: &impl Print, bytes: &[u8], numbers: &[u16]) -> io::Result<()> {
    let Some((room, pairs)) = numbers.split_first() else {
        return Ok(());
    };
    // There is room for sheets of 0 to 4 words, and for 0 to 20 bytes.
    let mut sheet = [0u32; 4];
    fill(pairs, &mut sheet);
    let mut copy = [99u8; 20];
    say_write(
        rt,
        bytes,
        &sheet[..pairs.len() / 2 % 5],
        &mut copy[..*room as usize % 21],
    )
}
