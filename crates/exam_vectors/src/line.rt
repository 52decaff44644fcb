// The lines of the input, read one character after another.
ghost use Rattle.std.specs.Prelude.{◌<◌};

use crate::say;
use arrayvec::ArrayVec;
use std::io;

// The part of a line that a character is in.
#[derive(Clone, Copy)]
enum Part {
    Name,
    Operation,
    Numbers,
    Bytes,
}

impl Part {
    // The part that the next character is in: the name and the operation end with a space, the numbers with a colon.
    fn after(self, c: u8) -> Part {
        match (self, c) {
            (_, b':') => Part::Bytes,
            (Part::Name, b' ') => Part::Operation,
            (Part::Operation, b' ') => Part::Numbers,
            _ => self,
        }
    }
}

// What was read of a line: the part that it is in, the operation's first letter, the numbers and the bytes, of each as many as there is room for.
// None is on the heap, so that no line fails for want of memory.
#[derive(Drop)]
struct Line {
    part: Part,
    letter: Option<u8>,
    numbers: ArrayVec<u16, 32>,
    bytes: ArrayVec<u8, 512>,
}

// The value of a decimal or hexadecimal digit, 0 of what is none, which std has no word for. `board_vectors` has its own: a crate for it would be
// longer than both.
fn digit(c: u8) -> u8
    ensures { result < 16 }
{
    match c {
        b'0'..=b'9' => c - b'0',
        b'A'..=b'F' => c - b'A' + 10,
        _ => 0,
    }
}

// A space begins one more item, where there is room for it; a digit is the next of the last item.
fn read_item<T: Copy + Default + Drop, const ROOM: usize, F: Fn(T, u8) -> T>(
    items: &mut ArrayVec<T, ROOM>,
    c: u8,
    longer: F,
)
    requires { F.IsAlwaysCallable longer }
{
    if c != b' ' {
        if let Some(last) = items.last_mut() {
            *last = longer(*last, digit(c));
        }
    } else if !items.is_full() {
        items.push(T::default());
    }
}

impl Line {
    fn begin() -> Line {
        Line {
            part: Part::Name,
            letter: None,
            numbers: ArrayVec::new(),
            bytes: ArrayVec::new(),
        }
    }

    // One more character. The name and the operation are written out as they come. A byte 0 is no letter.
    fn read(&mut self, rt: &impl Print, c: u8) -> io::Result<()> {
        self.part = self.part.after(c);
        match self.part {
            Part::Name => rt.write_all(&[c]),
            Part::Operation => {
                if c != b' ' && c != 0 {
                    self.letter = self.letter.or(Some(c));
                }
                rt.write_all(&[c])
            }
            Part::Numbers => {
                read_item(&mut self.numbers, c, |number, digit| {
                    (((number % 6554) as u32 * 10 + digit as u32) % 65536) as u16
                });
                Ok(())
            }
            Part::Bytes => {
                read_item(&mut self.bytes, c, |byte, digit| byte << 4 | digit);
                Ok(())
            }
        }
    }
}

// Each line is answered at its end.
pub fn answer_all(rt: &impl Print, text: &[u8]) -> io::Result<()> {
    let mut line = Line::begin();
    for c in text {
        if *c == b'\n' {
            say::run(rt, line.letter, &line.bytes, &line.numbers)?;
            line = Line::begin();
        } else {
            line.read(rt, *c)?;
        }
    }
    Ok(())
}
