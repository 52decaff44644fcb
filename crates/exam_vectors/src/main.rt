// Runs the key, the collapse, the marker, the replay and the write on the vectors of standard input. A line is a name, an operation, numbers in
// decimal, a colon and the board's bytes in hexadecimal. The numbers are: for `key` the words lent for the plan and for the list, for `collapse` those
// for the list, for `mark` the sheet, for `replay` the words lent for the position sheet and then the log, for `write` the bytes lent for the copy and
// then a carrier and a heading for each word of the position sheet. Each line is answered by the name, the operation and the number that it gives, and
// but for `mark` by the lengths and counts in the result and all of what was lent: what is not written still holds 60000, or 99 in a copy.
#![tactic(auto)]

mod copy;
mod line;
mod say;

use std::io;
use std::io::Read;

fn main(rt: HostRuntime) -> io::Result<()> {
    let mut text = Vec::new(rt.alloc());
    rt.reader().take(65536).read_to_end(&mut text)?;
    line::answer_all(&rt, &text)
}
