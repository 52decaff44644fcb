// The collapse of a position on sets of points: the parts over free zones, those with a loop, home's set after joining and merging,
// and the carriers that the collapse leaves. `EndsAmong` ties ends and position, lent side by side, and stays a clause (`mover::carry_out`).
#![tactic(auto)]

ghost use Rattle.std.specs.Prelude.{◌≡◌, ◌^◌, ◌<◌, length, replicate};
ghost use Rattle.model.specs.Track.{track_in};
ghost use Rattle.model.specs.Accepted.{Bounded};
ghost use Rattle.parts.specs.Home.{HomeWord, left_position, Collapsed};
ghost use Rattle.parts.specs.Ways.{EndsAmong, goes_over, WaysOn, StartCounts, count_in, Looped, EachOnce};

use model::Track;
use reach::growing;
use reach::growing::GrownFrom;

// Whether a set of points goes on over word w: its zone is free; or, in merging, its carrier heads the other way, or leaves at a point
// of a part with a loop. Those points are known in merging and not before it.
#[tactic(auto, unfolding(crate::specs::Ways::goes_on))]
fn goes_on(ends: &[usize], position: &[u32], looped: Option<u64>, w: usize) -> bool
    requires { EndsAmong 64 (length position.now) ends.now position.now × (w < length ends.now) }
    ensures { result ≡ goes_over ends.now position.now looped w }
{
    let held = position[w / 2];
    held == 0
        || looped.is_some_and(|points| w % 2 != (held % 2) as usize
            || bits::has(points, word::leaving(ends, w)))
}

// The ways over all words that a set goes on over.
fn add_ways(ends: &[usize], position: &[u32], looped: Option<u64>, ways: &mut [u64])
    requires { EndsAmong 64 (length position.now) ends.now position.now × (ways.old ≡ replicate 64 0) }
    ensures { WaysOn ends.now (goes_over ends.now position.now looped) (length ends.now) ways.new }
{
    for (w, start) in ends.iter().enumerate() {
        if goes_on(ends, position, looped, w) {
            reach::add_way(ways, *start, word::leaving(ends, w));
        }
    }
}

// How many free zones have their end A at each point.
fn count_starts(ends: &[usize], position: &[u32], counts: &mut [usize])
    requires { EndsAmong 64 (length position.now) ends.now position.now × (counts.old ≡ replicate 64 0) }
    ensures { StartCounts (length position.now) ends.now position.now counts.new }
{
    for (z, held) in position.iter().enumerate() {
        let free = *held == 0;
        if free {
            counts[ends[2 * z]] += 1;
        }
    }
}

// How many free zones a part has: the sum of the counts of its points.
fn zones_in(counts: &[usize], part: u64) -> usize
    requires { (length counts.now ≡ 64) × (count_in counts.now part < 2 ^ 64) }
    ensures { result ≡ count_in counts.now part }
{
    let mut n = 0;
    let mut rest = part;
    while rest != 0 {
        n += counts[bits::lowest(rest)];
        rest = bits::but_lowest(rest);
    }
    n
}

// What going through the free parts gives: the points of those that hold a loop, and what is grown from after all of them.
#[derive(Clone, Copy)]
struct PartsGrown {
    looped: u64,
    after: GrownFrom,
}

// The points of the free parts that hold a loop: at least as many free zones as points. The part of the lowest point not yet grown from is
// grown over the ways of free zones, until each point of the board is grown from, once.
// The track comes by value: .ci/check-growing lets this read nothing behind a reference.
fn looped_points(track: Track, position: &[u32]) -> PartsGrown
    requires { EndsAmong track.head.points track.head.zones track.ends.now position.now }
    ensures { Looped (track_in track.entry) position.now result.looped × EachOnce track.entry.head.points result.after }
{
    let mut ways = [0u64; 64];
    add_ways(track.ends, position, None, &mut ways);
    let mut counts = [0usize; 64];
    count_starts(track.ends, position, &mut counts);
    let all = bits::all(track.head.points);
    let mut looped = 0;
    let mut grown = growing::nothing();
    let mut rest = growing::fresh(all, grown);
    while rest != 0 {
        let first = bits::lowest(rest);
        let growth = reach::grow_once(&ways, first, grown);
        let part = growth.found;
        if bits::size(part) <= zones_in(&counts, part) {
            looped |= part;
        }
        grown = growth.after;
        rest = growing::fresh(all, grown);
    }
    PartsGrown {
        looped,
        after: grown,
    }
}

// Home's set of points at the end of the collapse. Joining and merging are one growing: a joined zone is gone over both ways, and a
// held one from where its carrier leaves to where it starts.
fn home_set(track: &Track, position: &[u32]) -> u64
    requires { Bounded (track_in track.now) position.now }
    ensures { HomeWord (track_in track.now) position.now result }
{
    let grown = looped_points(*track, position);
    let mut ways = [0u64; 64];
    add_ways(track.ends, position, Some(grown.looped), &mut ways);
    reach::grow(&ways, track.head.home)
}

// Every carrier that leaves at a point of the set is taken off. The zones are gone through by their numbers: what an `iter_mut` writes, a proof
// doesn't learn.
fn take_off(ends: &[usize], set: u64, position: &mut [u32])
    requires { EndsAmong 64 (length position.old) ends.now position.old }
    ensures { position.new ≡ left_position ends.now set position.old }
{
    for z in 0..position.len() {
        let held = position[z];
        let point = word::leaving(ends, 2 * z + (held % 2) as usize);
        if bits::has(set, point) {
            position[z] = 0;
        }
    }
}

// What the collapse leaves of a position: the carriers that it never merges.
pub fn collapse_position(track: &Track, position: &mut [u32])
    requires { Bounded (track_in track.now) position.old }
    ensures { Collapsed (track_in track.now) position.old position.new }
{
    let set = home_set(track, position);
    take_off(track.ends, set, position);
}
