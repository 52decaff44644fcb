// Runs the board reader on the vectors of standard input, in the notation of document 01: a line is
// a name and the board's bytes in hexadecimal. For each it writes the name, a space and the number
// that `read` gives; or, where the line ends in `=`, all that the board holds. Last it reads boards
// longer than any that L can say.
#![tactic(auto)]

ghost use Rattle.std.specs.Prelude.{◌≡◌, ◌<◌, ◌≤◌, length};

use arrayvec::ArrayVec;
use std::io;
use std::io::Read;

fn say(rt: &impl Print, bytes: &[u8]) -> io::Result<()> {
    let number = match board::read(bytes) {
        Ok(_) => 0,
        Err(refusal) => u32::from(refusal),
    };
    println!(rt; " {number}")
}

fn say_all(rt: &impl Print, bytes: &[u8]) -> io::Result<()> {
    let Ok(board) = board::read(bytes) else {
        return println!(rt; " points 0 home 0 zones 0 ends position");
    };
    let head = board.head;
    print!(rt;
        " points {} home {} zones {} ends",
        head.points, head.home, head.zones
    )?;
    for zone in board.ends.chunks(2).take(head.zones) {
        for end in zone {
            print!(rt; " {end}")?;
        }
    }
    print!(rt; " position")?;
    for word in board.position.iter().take(head.zones) {
        print!(rt; " {word}")?;
    }
    println!(rt; "")
}

// The value of a hexadecimal digit, 0 of what is none, as in `exam_vectors`.
fn digit(c: Option<&u8>) -> u8
    ensures { result < 16 }
{
    match c {
        Some(c @ b'0'..=b'9') => *c - b'0',
        Some(c @ b'A'..=b'F') => *c - b'A' + 10,
        _ => 0,
    }
}

// Each line of text; its board is put together in bytes, of which those past 512 are left out.
fn vectors(rt: &impl Print, text: &[u8]) -> io::Result<()> {
    let mut board: ArrayVec<u8, 512> = ArrayVec::new();
    let mut rest = text.iter();
    while let Some(c) = rest.next() {
        match *c {
            b'\n' => {
                say(rt, &board)?;
                board.clear();
            }
            b'=' => {
                say_all(rt, &board)?;
                board.clear();
                rest.next();
            }
            b' ' => {
                let byte = 16 * digit(rest.next()) + digit(rest.next());
                if !board.is_full() {
                    board.push(byte);
                }
            }
            c => rt.write_all(&[c])?,
        }
    }
    Ok(())
}

fn longest() -> [u8; 70000]
    ensures { 70000 ≡ length result }
{
    [0; 70000]
}

fn first(bytes: &[u8], n: usize) -> &[u8]
    requires { n ≤ length bytes.now }
{
    &bytes[..n]
}

// T's head with the greatest L.
fn put_head(bytes: &mut [u8])
    requires { 6 ≤ length bytes.old }
{
    bytes[..6].copy_from_slice(&[255, 255, 1, 2, 0, 2]);
}

// 70,000 zeros; then T's head, whole and one byte longer.
fn long_inputs(rt: &impl Print, bytes: &mut [u8]) -> io::Result<()>
    requires { length bytes.old ≡ 70000 }
{
    print!(rt; "70000-bytes")?;
    say(rt, bytes)?;
    put_head(bytes);
    print!(rt; "65537-bytes")?;
    say(rt, first(bytes, 65537))?;
    print!(rt; "65538-bytes")?;
    say(rt, first(bytes, 65538))
}

fn main(rt: HostRuntime) -> io::Result<()> {
    let mut text = Vec::new(rt.alloc());
    rt.reader().take(65536).read_to_end(&mut text)?;
    vectors(&rt, &text)?;
    let mut long = longest();
    long_inputs(&rt, &mut long)
}
