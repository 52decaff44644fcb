// The fair copy of a board: its track with a position sheet as its position, in bytes. It takes any bytes, any sheet and any room whatever, and says
// what it gives in every case.
#![tactic(auto)]

mod draft;
mod overwrite;
mod parsed;
mod refused;
mod store;

ghost use Rattle.writer.specs.Operation.{WritePromise};
ghost use Rattle.writer.specs.Refusals.{number_of, count_of};

pub use crate::refused::Refused;

// Writes the bytes of the board's track with the sheet as its position, in version 1 where every carrier fits one byte, else in version 2, and gives
// how many.
pub fn write(bytes: &[u8], sheet: &[u32], copy: &mut [u8]) -> Result<usize, Refused>
    ensures { WritePromise bytes.now sheet.now copy.old (number_of result) (count_of result) copy.new }
{
    board::on_board(bytes, &mut |track, _| parsed::write(track, sheet, copy))
}
