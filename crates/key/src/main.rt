// Reads a board from standard input and prints its key: what `text::key_text` gives for the bytes that were read, and nothing else.
// A read or a write that fails ends the program with status 1 and is said on standard error.
#![tactic(auto)]

ghost use Rattle.std.specs.Prelude.{IfSome, OnOk};
ghost use Rattle.std.specs.Io.KnownBytes.{Appends};
ghost use Rattle.page.specs.Page.{page_of};

use anyhow::{Context, Result};
use std::alloc::Global;
use std::io;
use std::io::{Read, Write};

// Adds to the output the page of the input's bytes. A board has at most 486; of a longer input 487 are read, which tell that it is too long.
fn print_key<R: Read + Drop, W: Write>(alloc: Global, input: R, output: &mut W) -> Result<()>
    ensures { OnOk result (IfSome (R.remaining input) (λ bytes.
        Appends (W.contents output.old) (W.contents output.new) (page_of bytes))) }
{
    let mut board = Vec::new(alloc);
    input
        .take(487)
        .read_to_end(&mut board)
        .context("the board isn't read")?;
    let mut page = [0u8; 75511];
    let length = text::key_text(&board, &mut page).unwrap();
    output
        .write_all(&page[..length])
        .context("the page isn't written")?;
    Ok(())
}

fn main(rt: HostRuntime) -> Result<()> {
    print_key(rt.alloc(), rt.reader(), &mut io::writer(&rt))
}
