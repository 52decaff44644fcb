// The replay on a track and a position.
ghost use Rattle.std.specs.Prelude.{length};
ghost use Rattle.model.specs.Track.{track_in};
ghost use Rattle.model.specs.Accepted.{Ready};
ghost use Rattle.movelog.specs.Replay.{replay_in};
ghost use Rattle.replay.specs.Given.{ReplayGiven};
ghost use Rattle.replay.specs.Refusals.{number_of, moves_of};

use crate::{Refused, moves};
use model::Track;

// Both refusals are tried before the first store; then the moves are made on the sheet itself, from its first word on.
pub fn replay(
    track: &Track,
    position: &[u32],
    log: &[u16],
    sheet: &mut [u32],
) -> Result<usize, Refused>
    requires { Ready (track_in track.now) position.now }
    ensures { ReplayGiven (replay_in (track_in track.now) position.now log.now (length sheet.old)) sheet.old (number_of result) (moves_of result) sheet.new }
{
    let zones = track.head.zones;
    let short = sheet.len() < zones;
    if short {
        return Err(Refused::ShortPosition);
    }
    let odd = log.len() % 2 != 0;
    if odd {
        return Err(Refused::OddLog);
    }
    let shown = &mut sheet[..zones];
    shown.copy_from_slice(position);
    moves::carry_out_all(track, shown, log)
}
