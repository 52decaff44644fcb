// The operations on a board in bytes: the key, the collapse and the marker. They take any bytes and any room whatever, and say what they
// give in every case.
#![tactic(auto)]

pub mod parsed;
mod refused;
mod sheet;

ghost use Rattle.std.specs.Prelude.{◌≡◌};
ghost use Rattle.model.specs.Reading.{track_said, position_said};
ghost use Rattle.exam.specs.Answers.{key_numbers, collapse_numbers, sheet_number};
ghost use Rattle.exam.specs.Parsed.{summary_of};
ghost use Rattle.exam.specs.Operations.{KeyPromise, CollapsePromise, MarkPromise};

pub use parsed::{DrawnKey, Verdict};
pub use refused::{Refused, Wrong};

// The key of the board: its verdict, the plan of those that can go home, the list of those blocked, ascending, and the search count. Beside it,
// points, zones and carriers out.
pub fn key(bytes: &[u8], plan: &mut [u16], list: &mut [u16]) -> Result<DrawnKey, Refused>
    ensures key_promise { KeyPromise bytes.now plan.old list.old (key_numbers result).verdict (key_numbers result).planned (key_numbers result).listed (key_numbers result).searched plan.new list.new }
    ensures summary_value { (key_numbers result).summary ≡ summary_of (track_said bytes.now) (position_said bytes.now) (key_numbers result).verdict }
{
    board::on_board(
        bytes,
        &mut |track, position| parsed::key(track, position, plan, list),
    )
}

// Collapses the board: the carriers that it leaves are written to the list, ascending. Gives how many.
pub fn collapse(bytes: &[u8], list: &mut [u16]) -> Result<usize, Refused>
    ensures { CollapsePromise bytes.now list.old (collapse_numbers result).number (collapse_numbers result).listed list.new }
{
    board::on_board(
        bytes,
        &mut |track, position| parsed::collapse(track, position, list),
    )
}

// Marks a candidate's sheet: it is right, or why not.
pub fn mark(bytes: &[u8], sheet: &[u16]) -> Result<(), Wrong>
    ensures { MarkPromise bytes.now sheet.now (sheet_number result) }
{
    board::on_board(
        bytes,
        &mut |track, position| {
            sheet::mark(track, position, sheet)?;
            Ok(())
        },
    )
}
