// A route on a sheet: its first word against the carrier's standing, and each next word against the moving rules.
ghost use Rattle.std.specs.Prelude.{◌≡◌, ◌*◌, ◌<◌, length};
ghost use Rattle.model.specs.Track.{track_in};
ghost use Rattle.marker.specs.Faults.{mark_number};
ghost use Rattle.marker.specs.Marked.{Markable, stands_at, step_from, route_number};

use crate::Fault;
use model::Track;

// Whether the word is the carrier's standing. 0 is no carrier.
pub fn stands(zones: usize, position: &[u32], carrier: u32, w: usize) -> bool
    requires { (length position.now ≡ zones) × (carrier < 65536) }
    ensures { result ≡ stands_at zones position.now carrier w }
{
    carrier != 0 && w < 2 * zones && position[w / 2] == 2 * carrier + (w % 2) as u32
}

// Whether the carrier may go from word w, which leaves at the point, to word v.
fn may_step(track: &Track, position: &[u32], carrier: u32, point: usize, w: usize, v: usize) -> bool
    requires { Markable (track_in track.now) position.now }
    ensures { result ≡ step_from (track_in track.now) position.now carrier point w v }
{
    // The home gate takes in every arrival: no word goes on from one that leaves there.
    point != track.head.home
        && v < 2 * track.head.zones
        && track.ends[v] == point
        && word::may_follow(position, carrier, w, v)
}

// A route by its standing and the words after it: each keeps the moving rules, and the last one leaves at home.
pub fn mark_route(
    track: &Track,
    position: &[u32],
    carrier: u32,
    standing: usize,
    route: &[u16],
) -> Result<(), Fault>
    requires { Markable (track_in track.now) position.now × (standing < 2 * track.now.head.zones) }
    ensures { mark_number result ≡ route_number (track_in track.now) position.now carrier standing route.now }
{
    let mut w = standing;
    let mut point = word::leaving(track.ends, w);
    for word in route {
        let v = *word as usize;
        if !may_step(track, position, carrier, point, w, v) {
            return Err(Fault::BadWord);
        }
        w = v;
        point = word::leaving(track.ends, w);
    }
    if point != track.head.home {
        return Err(Fault::NotHome);
    }
    Ok(())
}
