// The marking of a sheet on a track and a position. The position is the caller's own copy, and what it holds at exit is free.
ghost use Rattle.std.specs.Prelude.{◌≡◌};
ghost use Rattle.model.specs.Track.{track_in};
ghost use Rattle.model.specs.Accepted.{Ready};
ghost use Rattle.rules.specs.Sheet.{mark_claim, mark_for};
ghost use Rattle.marker.specs.Faults.{mark_number};

use crate::parsed::list_left;
use marker::Fault;
use model::Track;

// A claim of blocked: right only with the true list, and that isn't empty.
fn mark_claim(track: &Track, position: &mut [u32], claim: &[u16]) -> Result<(), Fault>
    requires { Ready (track_in track.now) position.old }
    ensures { mark_number result ≡ mark_claim (track_in track.now) position.old claim.now }
{
    let mut list = [0u16; 96];
    let listed = list_left(track, position, &mut list);
    let nobody = listed == 0;
    if nobody {
        return Err(Fault::FalseClaim);
    }
    if !marker::same_claim(&list[..listed], claim) {
        return Err(Fault::FalseClaim);
    }
    Ok(())
}

// By its first word a sheet is a plan, 0, or a claim, 1.
// `Ready` is asked in a clause and is no struct's field: the marker promises nothing of the position that it leaves, so none could be kept.
pub fn mark(track: &Track, position: &mut [u32], sheet: &[u16]) -> Result<(), Fault>
    requires { Ready (track_in track.now) position.old }
    ensures { mark_number result ≡ mark_for (track_in track.now) position.old sheet.now }
{
    match sheet {
        [0, plan @ ..] => marker::mark_entries(track, position, plan),
        [1, claim @ ..] => mark_claim(track, position, claim),
        _ => Err(Fault::BadSheet),
    }
}
