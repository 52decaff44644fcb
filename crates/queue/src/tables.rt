// What is read off the track: for each word the set of the words that come after it. `EndsSized` stays a clause: as an invariant of `Track` it would be
// asked of all who lend one.
ghost use Rattle.std.specs.Prelude.{◌≡◌, ◌+◌, ◌*◌, ◌≤◌, ◌<◌, length, replicate};
ghost use Rattle.queue.specs.Follows.{EndsSized, Starts, RowFilled, Follows};

use crate::sets::add;
use model::Track;

// Puts each word into the row of the point where it starts.
fn fill_starts(track: &Track, starts: &mut [u64])
    requires { EndsSized track.now.head.zones track.now.ends.now × (starts.old ≡ replicate 192 0) }
    ensures { Starts (2 * track.now.head.zones) track.now.ends.now starts.new }
{
    for w in 0..2 * track.head.zones {
        add(192 * track.ends[w] + w, starts);
    }
}

// Fills the row of word w: the words that start at the point, but for those of its own zone.
fn fill_row(starts: &[u64], point: usize, w: usize, follows: &mut [u64])
    requires { (3 * point + 3 ≤ length starts.now) × (w < 192) × (3 * w + 3 ≤ length follows.old) }
    ensures { RowFilled starts.now point w follows.old follows.new }
{
    follows[3 * w..3 * w + 3].copy_from_slice(&starts[3 * point..3 * point + 3]);
    let own = bits::with(bits::with(0, 2 * (w / 2) % 64), (2 * (w / 2) + 1) % 64);
    let block = 3 * w + w / 64;
    follows[block] = bits::minus(follows[block], own);
}

// Fills the rows of all words.
fn fill_rows(track: &Track, starts: &[u64], follows: &mut [u64])
    requires { EndsSized track.now.head.zones track.now.ends.now × Starts (2 * track.now.head.zones) track.now.ends.now starts.now × (length follows.old ≡ 576) }
    ensures { Follows track.now.head.zones (2 * track.now.head.zones) track.now.ends.now follows.new }
{
    for w in 0..2 * track.head.zones {
        fill_row(starts, word::leaving(track.ends, w), w, follows);
    }
}

// Fills the table of the words that come after each word.
pub fn fill_follows(track: &Track, follows: &mut [u64])
    requires { EndsSized track.now.head.zones track.now.ends.now × (length follows.old ≡ 576) }
    ensures { Follows track.now.head.zones (2 * track.now.head.zones) track.now.ends.now follows.new }
{
    // Three blocks for each of 64 points.
    let mut starts = [0u64; 192];
    fill_starts(track, &mut starts);
    fill_rows(track, &starts, follows);
}
