// The route that a search found, read back from its last word to its first, and the plan's entry made of it.
ghost use Rattle.std.specs.Prelude.{◌≡◌, [], length};
ghost use Rattle.queue.specs.Queue.{words_of, froms_of};
ghost use Rattle.queue.specs.Written.{route_to, Falling, Readable, EntryRoom, EntryWritten};

use crate::Found;

// How many words lead from place 0 to a place.
#[tactic(auto, using(crate::proofs::InCode::froms_length, crate::proofs::Routing::place_to_count))]
fn route_length(found: &[Found], place: usize) -> usize
    requires { Falling (froms_of found.now) place }
    ensures { result ≡ length (route_to [] (froms_of found.now) place) }
{
    let mut n = 1;
    let mut j = place;
    // A `for` can't go along places of which each names the next.
    while 0 < j {
        j = found[j].from;
        n += 1;
    }
    n
}

// Stores the words from place 0 to a place, from the last to the first.
#[tactic(auto, using(crate::proofs::InCode::words_length, crate::proofs::Routing::place_to_store))]
fn write_route(found: &[Found], place: usize, route: &mut [u16])
    requires { Readable (words_of found.now) (froms_of found.now) place × (length route.old ≡ length (route_to (words_of found.now) (froms_of found.now) place)) }
    ensures { route.new ≡ route_to (words_of found.now) (froms_of found.now) place }
{
    let mut j = place;
    for k in (0..route.len()).rev() {
        let Found { word, from } = found[j];
        route[k] = word as u16;
        j = from;
    }
}

// Stores an entry of the plan from its word k on: the carrier, the count of words, the words. Gives where the next one starts.
pub fn write_entry(carrier: u32, place: usize, found: &[Found], plan: &mut [u16], k: usize) -> usize
    requires { EntryRoom carrier place (words_of found.now) (froms_of found.now) plan.old k }
    ensures { EntryWritten carrier place (words_of found.now) (froms_of found.now) plan.old k plan.new result }
{
    let n = route_length(found, place);
    plan[k] = carrier as u16;
    plan[k + 1] = n as u16;
    let next = k + 2 + n;
    write_route(found, place, &mut plan[k + 2..next]);
    next
}
