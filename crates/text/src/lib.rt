// The text that `key` prints for a board in bytes, written into what the caller lends.
#![tactic(auto)]

ghost use Rattle.std.specs.Prelude.{◌≤◌, ◌<◌, ◌≡◌, ◌↔◌, length, None};
ghost use Rattle.page.specs.Page.{page_of, LONGEST, PAGE};
ghost use Rattle.page.specs.Writing.{Begins};
ghost use Rattle.exam.specs.Answers.{key_numbers};
ghost use Rattle.text.specs.Text.{Answerable, answer_page, KeyText, length_given};

use exam::{DrawnKey, Refused};

// The page of a key that was drawn, or of its refusal. The words are those lent for the plan, the carriers those for the list.
fn write_answer(
    answer: Result<DrawnKey, Refused>,
    plan: &[u16],
    list: &[u16],
    page: &mut [u8],
) -> usize
    requires { Answerable (key_numbers answer) plan.now list.now page.old }
    ensures { Begins (answer_page (key_numbers answer) plan.now list.now) page.old page.new result }
{
    match answer {
        Ok(key) => page::write_key(
            key.summary,
            key.verdict.into(),
            &plan[..key.planned],
            &list[..key.listed],
            page,
        ),
        Err(refused) => page::write_refused(refused.into(), page),
    }
}

// The page of at most 486 bytes: the key is drawn, with room for every plan and list that there can be.
fn key_page(bytes: &[u8], page: &mut [u8]) -> usize
    requires { (length bytes.now ≤ LONGEST) × (PAGE ≤ length page.old) }
    ensures { Begins (page_of bytes.now) page.old page.new result }
{
    let mut plan = [0u16; 18624];
    let mut list = [0u16; 96];
    let answer = exam::key(bytes, &mut plan, &mut list);
    write_answer(answer, &plan, &list, page)
}

// The text for these bytes, to the start of `page`. Gives its length; or none, with nothing written, where fewer than PAGE bytes are lent.
pub fn key_text(bytes: &[u8], page: &mut [u8]) -> Option<usize>
    ensures text { KeyText bytes.now page.old (length_given result) page.new }
    ensures short { (result ≡ None) ↔ (length page.old < PAGE) }
{
    let short = page.len() < 75511;
    if short {
        return None;
    }
    if 486 < bytes.len() {
        return Some(page::write_too_long(page));
    }
    Some(key_page(bytes, page))
}
