// The marking of a sheet on a track and a position: the plan entry by entry, and a claim of blocked against the true list. `Markable` stays a clause,
// since the position is written and nothing is promised of it at exit.
#![tactic(auto)]

mod fault;
mod out;
mod route;

ghost use Rattle.std.specs.Prelude.{◌≡◌, ◌<◌, length};
ghost use Rattle.model.specs.Track.{track_in};
ghost use Rattle.rules.specs.Sheet.{mark_entries, same_list};
ghost use Rattle.marker.specs.Faults.{mark_number};
ghost use Rattle.marker.specs.Marked.{Markable, EntryMarked};

pub use crate::fault::Fault;
use model::Track;

// The entry that the words start with: the faults 30 to 33 are tried in that order. Where it has none the carrier is taken off; gives the words
// after it.
fn mark_entry<'a>(track: &Track, position: &mut [u32], words: &'a [u16]) -> Result<&'a [u16], Fault>
    requires { Markable (track_in track.now) position.old × (0 < length words.now) }
    ensures { EntryMarked (track_in track.now) position.old words.now result position.new }
{
    let [carrier, count, others @ ..] = words else {
        return Err(Fault::BadSheet);
    };
    let Some((own, rest)) = others.split_at_checked(*count as usize) else {
        return Err(Fault::BadSheet);
    };
    let [standing, route @ ..] = own else {
        return Err(Fault::BadSheet);
    };
    let carrier = *carrier as u32;
    let standing = *standing as usize;
    if !route::stands(track.head.zones, position, carrier, standing) {
        if out::still_out(position, carrier) {
            return Err(Fault::BadWord);
        }
        return Err(Fault::NotOut);
    }
    route::mark_route(track, position, carrier, standing, route)?;
    position[standing / 2] = 0;
    Ok(rest)
}

// The plan on a sheet, which is all but its first word. The position is the caller's own copy, and what it holds at exit is free.
pub fn mark_entries(track: &Track, position: &mut [u32], entries: &[u16]) -> Result<(), Fault>
    requires { Markable (track_in track.now) position.old }
    ensures { mark_number result ≡ mark_entries (length entries.now) (track_in track.now) position.old entries.now }
{
    let mut left = entries;
    while !left.is_empty() {
        left = mark_entry(track, position, left)?;
    }
    out::mark_end(position)
}

// Whether the claim on a sheet, which is all but its first word, is the list.
#[tactic(auto, using(crate::proofs::ClaimLaws::same_compared))]
pub fn same_claim(list: &[u16], claim: &[u16]) -> bool
    ensures { result ≡ same_list claim.now list.now }
{
    claim == list
}
