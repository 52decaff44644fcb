// The moves of a log, one after another.
ghost use Rattle.model.specs.Track.{track_in};
ghost use Rattle.model.specs.Accepted.{Ready};
ghost use Rattle.movelog.specs.Log.{moves_said};
ghost use Rattle.movelog.specs.Replay.{replay_for};
ghost use Rattle.replay.specs.Given.{MovesGiven};
ghost use Rattle.replay.specs.Refusals.{number_of, moves_of};

use crate::Refused;
use model::Track;

// Carries out the log's moves in turn, up to the first that the rules forbid.
// Track and position aren't one struct with `Ready` as its field: why not stands at `mover::carry_out`.
pub fn carry_out_all(track: &Track, position: &mut [u32], log: &[u16]) -> Result<usize, Refused>
    requires { Ready (track_in track.now) position.old }
    ensures { MovesGiven (replay_for (track_in track.now) position.old (moves_said log.now)) (number_of result) (moves_of result) position.new }
{
    let pairs = log.len() / 2;
    for done in 0..pairs {
        let allowed = mover::carry_out(track, position, log[2 * done], log[2 * done + 1]);
        let stops = !allowed;
        if stops {
            return Err(Refused::Forbidden(done));
        }
    }
    Ok(pairs)
}
