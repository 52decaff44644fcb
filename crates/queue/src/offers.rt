// The words of a breadth-first search put at its queue's end, each with the place of the word it was found from.
ghost use Rattle.std.specs.Prelude.{◌≤◌};
ghost use Rattle.queue.specs.Queue.{words_in, froms_in};
ghost use Rattle.queue.specs.Offers.{members, QueueRoom, Stored, Offering, Offered};

use crate::Queue;

// Stores the words of one block of a set at the queue's end, ascending, as found from place i.
fn store_block<const N: usize>(first: usize, block: u64, i: usize, queue: &mut Queue<N>)
    requires { (first ≤ 128) × QueueRoom (members first block) queue.old.count (words_in queue.old) (froms_in queue.old) }
    ensures { Stored (members first block) i queue.old.count (words_in queue.old) (froms_in queue.old) (words_in queue.new) (froms_in queue.new) queue.new.count }
{
    // Counted apart: the queue's own count would be read and written anew for each word.
    let mut count = queue.count;
    let mut rest = block;
    while rest != 0 {
        queue.put(count, first + bits::lowest(rest), i);
        count += 1;
        rest = bits::but_lowest(rest);
    }
    queue.count = count;
}

// Offers the words that come after `last`, ascending, as found from place i: each that may still be entered goes to the queue's end, and
// may be entered no more.
pub fn offer_next<const N: usize>(
    follows: &[u64],
    last: usize,
    i: usize,
    queue: &mut Queue<N>,
    enterable: &mut [u64],
)
    requires { Offering follows.now last queue.old.count (words_in queue.old) (froms_in queue.old) enterable.old }
    ensures { Offered follows.now last i queue.old.count (words_in queue.old) (froms_in queue.old) enterable.old (words_in queue.new) (froms_in queue.new) enterable.new queue.new.count }
{
    for k in 0..3 {
        let next = follows[3 * last + k] & enterable[k];
        enterable[k] = bits::minus(enterable[k], next);
        store_block(64 * k, next, i, queue);
    }
}
