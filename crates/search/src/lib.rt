// The key's search: while any carrier can go home, the lowest-numbered that can leaves next, by its least route. And how many words are reached
// in all tries.
#![tactic(auto)]

ghost use Rattle.std.specs.Prelude.{◌≡◌};
ghost use Rattle.model.specs.Track.{track_in};
ghost use Rattle.queue.specs.Queue.{words_in, froms_in};
ghost use Rattle.search.specs.Leaving.{Seeking, Sought};
ghost use Rattle.search.specs.Sending.{Sendable, Prepared, SentHome};

use model::Track;
use queue::Queue;

// The carrier that leaves next: its zone, and the place in the queue of the last word of its route.
#[derive(Clone, Copy)]
pub struct Departure {
    pub zone: usize,
    pub place: usize,
}

// What a round gives: who leaves, or none can, and how many words its tries reached in all.
#[derive(Clone, Copy)]
pub struct Outcome {
    pub departure: Option<Departure>,
    pub searched: u32,
}

// The lowest-numbered carrier that can go home: the zones in `order` are in ascending number of their carriers; those that are free now are passed
// over. Each carrier's search runs to the queue's end, so that all words it reaches are counted. The first place that leaves at home ends its route.
fn first_to_go(
    track: &Track,
    position: &[u32],
    follows: &[u64],
    free: &[u64; 3],
    order: &[usize],
    queue: &mut Queue<192>,
) -> Outcome
    requires { Seeking (track_in track.now) position.now follows.now free.now order.now }
    ensures { Sought (track_in track.now) position.now (words_in queue.new) (froms_in queue.new) result }
{
    let mut searched = 0u32;
    'carriers: for &zone in order {
        let held = position[zone];
        let gone = held == 0;
        if gone {
            continue;
        }
        let standing = 2 * zone + (held % 2) as usize;
        // What it may enter and has not found: the words of the free zones, and its own zone the other way, which is free once left.
        let mut enterable = *free;
        queue::sets::add(word::reverse(standing), &mut enterable);
        queue.start(standing);
        let mut arrival = None;
        // A `for` can't go along a queue that grows meanwhile.
        let mut place = 0;
        loop {
            if place == queue.count {
                searched += queue.count as u32;
                let Some(place) = arrival else {
                    continue 'carriers;
                };
                return Outcome {
                    departure: Some(Departure { zone, place }),
                    searched,
                };
            }
            let w = queue.word(place);
            // The home gate: nothing comes after a word that leaves at home.
            if word::leaving(track.ends, w) == track.head.home {
                arrival = arrival.or(Some(place));
            } else {
                queue::offers::offer_next(follows, w, place, queue, &mut enterable);
            }
            place += 1;
        }
    }
    Outcome {
        departure: None,
        searched,
    }
}

// What sending home gives: how many words of the plan are stored, and the search count.
#[derive(Clone, Copy)]
pub struct Sent {
    pub planned: usize,
    pub searched: u32,
}

// One round after another: the carrier that leaves next is taken off, its zone is free and its entry is stored, while any can go.
fn send_all(
    track: &Track,
    follows: &[u64],
    order: &[usize],
    free: &mut [u64; 3],
    position: &mut [u32],
    plan: &mut [u16],
) -> Sent
    requires { Prepared (track_in track.now) position.old follows.now free.old order.now plan.old }
    ensures { SentHome (track_in track.now) position.old plan.old position.new plan.new result }
{
    let mut queue: Queue<192> = Queue::new();
    let mut planned = 0;
    let mut searched = 0u32;
    'rounds: loop {
        let round = first_to_go(track, position, follows, free, order, &mut queue);
        searched += round.searched;
        let departure = round.departure;
        let Some(Departure { zone, place }) = departure else {
            return Sent { planned, searched };
        };
        planned = queue::route::write_entry(position[zone] / 2, place, &queue.found, plan, planned);
        position[zone] = 0;
        queue::sets::add_zone(zone, free);
    }
}

// Sends home all that can go: the plan's words are stored, and each carrier that goes is taken off.
pub fn send_home(track: &Track, position: &mut [u32], plan: &mut [u16]) -> Sent
    requires { Sendable (track_in track.now) position.old plan.old }
    ensures { SentHome (track_in track.now) position.old plan.old position.new plan.new result }
{
    // Three blocks for each of 192 words.
    let mut follows = [0u64; 576];
    queue::tables::fill_follows(track, &mut follows);
    let mut free = [0u64; 3];
    queue::sets::add_free(position, &mut free);
    let mut order = [0usize; 96];
    let count = carriers::order_carriers(position, &mut order);
    send_all(track, &follows, &order[..count], &mut free, position, plan)
}
