// One single move in code, on a track and a lent position: it is tested by the moving rules and done where they allow it.
#![tactic(auto)]

ghost use Rattle.std.specs.Prelude.{◌≡◌, ◌<◌, ◌*◌, length, IfSome};
ghost use Rattle.model.specs.Track.{track_in};
ghost use Rattle.model.specs.Accepted.{Ready};
ghost use Rattle.rules.specs.Key.{zone_for};
ghost use Rattle.rules.specs.SingleMoves.{may_go_from};
ghost use Rattle.movelog.specs.Log.{move_said};
ghost use Rattle.mover.specs.MoveTried.{option_in, MoveTried};

use model::Track;

// In the place of a word: into home. It stays a number, since `carry_out` takes a move as a log names it (docs/DECISIONS.md, 48).
const HOME: u16 = 65535;

// The zone where the carrier stands, where it stands in one. A move's time is this look, so the loop looks at four zones in each turn, with one test
// for all four: where one of them holds the carrier, or fewer are left, the rest is looked at zone by zone.
fn zone_for(position: &[u32], carrier: u32) -> Option<usize>
    ensures found { option_in result ≡ zone_for position.now carrier }
    ensures within { IfSome result (λ zone. zone < length position.now) }
{
    let mut left = position;
    while let [a, b, c, d, others @ ..] = left {
        let here = (*a / 2 == carrier)
            | (*b / 2 == carrier)
            | (*c / 2 == carrier)
            | (*d / 2 == carrier);
        if here {
            break;
        }
        left = others;
    }
    let passed = position.len() - left.len();
    let zone = left.iter().position(|held| *held / 2 == carrier)?;
    Some(passed + zone)
}

// Whether a carrier that leaves its zone at the point may go into word w.
fn may_go_from(track: &Track, position: &[u32], point: usize, w: usize) -> bool
    requires { (length track.now.ends.now ≡ 2 * track.now.head.zones) × (length position.now ≡ track.now.head.zones) }
    ensures { result ≡ may_go_from (track_in track.now) position.now point w }
{
    // The home gate takes in every arrival.
    point != track.head.home
        && w < 2 * track.head.zones
        && position[w / 2] == 0
        && track.ends[w] == point
}

// The move that a pair of a log says: the carrier goes into the zone of the word entered, or into home. Gives whether it was done; where the
// rules forbid it, nothing changes.
// Track and position aren't one struct with `Ready` as its field: lent as `&mut`, it would have to promise too that its track and its slice stay.
pub fn carry_out(track: &Track, position: &mut [u32], carrier: u16, entered: u16) -> bool
    requires { Ready (track_in track.now) position.old }
    ensures { MoveTried (track_in track.now) position.old (move_said carrier entered) result position.new }
{
    let number = carrier as u32;
    if number == 0 {
        return false;
    }
    let Some(zone) = zone_for(position, number) else {
        return false;
    };
    let heading = (position[zone] % 2) as usize;
    let point = word::leaving(track.ends, 2 * zone + heading);
    if entered == HOME {
        let elsewhere = point != track.head.home;
        if elsewhere {
            return false;
        }
        position[zone] = 0;
        return true;
    }
    let w = entered as usize;
    if !may_go_from(track, position, point, w) {
        return false;
    }
    position[zone] = 0;
    position[w / 2] = 2 * number + (w % 2) as u32;
    true
}
