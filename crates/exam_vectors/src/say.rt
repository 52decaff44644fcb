// The operations, and what they give written out.
use crate::copy::run_write;
use replay::Refused;
use std::fmt::Display;
use std::io;

// Each number after a space.
pub fn items<T: Display + Copy + Drop>(rt: &impl Print, numbers: &[T]) -> io::Result<()> {
    for number in numbers {
        print!(rt; " {}", *number)?;
    }
    Ok(())
}

fn say_key(rt: &impl Print, bytes: &[u8], plan: &mut [u16], list: &mut [u16]) -> io::Result<()> {
    match exam::key(bytes, plan, list) {
        Ok(key) => print!(rt;
            " {} planned {} listed {} searched {} plan",
            u32::from(key.verdict),
            key.planned,
            key.listed,
            key.searched
        ),
        Err(refused) => print!(rt;
            " {} planned 0 listed 0 searched 0 plan",
            u32::from(refused)
        ),
    }?;
    items(rt, plan)?;
    print!(rt; " list")?;
    items(rt, list)
}

fn say_collapse(rt: &impl Print, bytes: &[u8], list: &mut [u16]) -> io::Result<()> {
    match exam::collapse(bytes, list) {
        Ok(listed) => print!(rt; " 0 listed {listed} list"),
        Err(refused) => print!(rt; " {} listed 0 list", u32::from(refused)),
    }?;
    items(rt, list)
}

fn say_mark(rt: &impl Print, bytes: &[u8], sheet: &[u16]) -> io::Result<()> {
    match exam::mark(bytes, sheet) {
        Ok(()) => print!(rt; " 0"),
        Err(wrong) => print!(rt; " {}", u32::from(wrong)),
    }
}

fn say_replay(rt: &impl Print, bytes: &[u8], log: &[u16], sheet: &mut [u32]) -> io::Result<()> {
    match replay::replay(bytes, log, sheet) {
        Ok(moves) => print!(rt; " 0 moves {moves} sheet"),
        Err(Refused::Forbidden(moves)) => {
            print!(rt;
                " {} moves {moves} sheet",
                u32::from(Refused::Forbidden(moves))
            )
        }
        Err(refused) => print!(rt; " {} moves 0 sheet", u32::from(refused)),
    }?;
    items(rt, sheet)
}

// The number at i, or 0 past the last.
pub fn nth(numbers: &[u16], i: usize) -> u16 {
    numbers.get(i).copied().unwrap_or(0)
}

fn run_key(rt: &impl Print, bytes: &[u8], numbers: &[u16]) -> io::Result<()> {
    let mut plan = [60000u16; 40];
    let mut list = [60000u16; 4];
    let plan_room = plan.len().min(nth(numbers, 0) as usize);
    let list_room = list.len().min(nth(numbers, 1) as usize);
    say_key(rt, bytes, &mut plan[..plan_room], &mut list[..list_room])
}

fn run_collapse(rt: &impl Print, bytes: &[u8], numbers: &[u16]) -> io::Result<()> {
    let mut list = [60000u16; 4];
    let list_room = list.len().min(nth(numbers, 0) as usize);
    say_collapse(rt, bytes, &mut list[..list_room])
}

fn run_replay(rt: &impl Print, bytes: &[u8], numbers: &[u16]) -> io::Result<()> {
    let Some((room, log)) = numbers.split_first() else {
        return Ok(());
    };
    let mut sheet = [60000u32; 4];
    // The vectors lend 0 to 4 words.
    say_replay(rt, bytes, log, &mut sheet[..*room as usize % 5])
}

// The operation by its first letter: `key`, `collapse`, `replay`, `write` or `mark`. Each reads its numbers in its own way, so a table would hold
// the same five.
pub fn run(rt: &impl Print, letter: Option<u8>, bytes: &[u8], numbers: &[u16]) -> io::Result<()> {
    match letter {
        Some(b'k') => run_key(rt, bytes, numbers),
        Some(b'c') => run_collapse(rt, bytes, numbers),
        Some(b'r') => run_replay(rt, bytes, numbers),
        Some(b'w') => run_write(rt, bytes, numbers),
        _ => say_mark(rt, bytes, numbers),
    }?;
    println!(rt; "")
}
