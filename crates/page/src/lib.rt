// The lines that `key` prints, written into a lent buffer. Verdicts and refusals come as the document's numbers, which are what is printed.
#![tactic(auto)]

mod blocked;
mod first_lines;
mod plan;
mod writing;

ghost use Rattle.std.specs.Prelude.{◌≤◌, length};
ghost use Rattle.page.specs.Page.{key_page, refused_page, too_long_page};
ghost use Rattle.page.specs.Writing.{entries_in, Begins, Writable};

use crate::writing::Writing;
use model::Summary;

// The page of a board that is not turned back: the words are its plan, the carriers its blocked list.
pub fn write_key(
    summary: Summary,
    verdict: u32,
    plan: &[u16],
    list: &[u16],
    page: &mut [u8],
) -> usize
    requires { Writable summary verdict plan.now list.now page.old }
    ensures { Begins (key_page summary verdict (entries_in plan.now) list.now) page.old page.new result }
{
    let mut writing = Writing::begin(page);
    writing.put_first_lines(summary, verdict as usize);
    writing.put_plan(plan);
    writing.put_text(b"blocked");
    writing.put_list(list);
    writing.put_text(b"\n");
    writing.length()
}

// The page of a board that is turned back.
pub fn write_refused(number: u32, page: &mut [u8]) -> usize
    requires { length (refused_page number) ≤ length page.old }
    ensures { Begins (refused_page number) page.old page.new result }
{
    let mut writing = Writing::begin(page);
    writing.put_labelled(b"refused ", number as usize);
    writing.put_text(b"\n");
    writing.length()
}

// The page of more bytes than a board has.
pub fn write_too_long(page: &mut [u8]) -> usize
    requires { length too_long_page ≤ length page.old }
    ensures { Begins too_long_page page.old page.new result }
{
    let mut writing = Writing::begin(page);
    writing.put_text(b"too long\n");
    writing.length()
}
