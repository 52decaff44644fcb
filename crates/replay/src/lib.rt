// The replay of a move log on a board in bytes. It takes any bytes, any log and any sheet whatever, and says what it gives in every case.
#![tactic(auto)]

mod moves;
mod parsed;
mod refused;

ghost use Rattle.replay.specs.Operation.{ReplayPromise};
ghost use Rattle.replay.specs.Refusals.{number_of, moves_of};

pub use crate::refused::Refused;

// Carries out each pair of the log from the board's position on, and gives how many. The position is shown on the sheet, one word a zone.
pub fn replay(bytes: &[u8], log: &[u16], sheet: &mut [u32]) -> Result<usize, Refused>
    ensures { ReplayPromise bytes.now log.now sheet.old (number_of result) (moves_of result) sheet.new }
{
    board::on_board(
        bytes,
        &mut |track, position| parsed::replay(track, position, log, sheet),
    )
}
