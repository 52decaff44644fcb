// The queue of one search, the words found; the table that the next words are found by, the sets of words, the offering of next words, and the
// route read back into an entry of the plan.
#![tactic(auto)]

ghost use Rattle.std.specs.Prelude.{◌≡◌, ◌+◌, ◌<◌, length, get_or, slice_set};
ghost use Rattle.queue.specs.Queue.{words_in, froms_in, Started};

pub mod offers;
pub mod route;
pub mod sets;
pub mod tables;

// A word found, and the place in the queue of the word that it was found from.
#[derive(Clone, Copy)]
pub struct Found {
    pub word: usize,
    pub from: usize,
}

// The queue of a breadth-first search, with room for N words: the words found, in turn, are at the places below `count`. There is no heap. A track
// has at most 192 words, so a search takes a queue with room for those.
#[derive(Drop)]
pub struct Queue<const N: usize> {
    pub found: [Found; N],
    pub count: usize,
}

impl<const N: usize> Queue<N> {
    // With no word yet.
    pub fn new() -> Queue<N>
        ensures { result.count ≡ 0 }
    {
        Queue {
            found: [Found { word: 0, from: 0 }; N],
            count: 0,
        }
    }

    // Begins again, with one word.
    pub fn start(&mut self, word: usize)
        requires { 0 < N }
        ensures { Started N word (words_in self.new) (froms_in self.new) self.new.count }
    {
        self.count = 0;
        self.push(word, 0);
    }

    // Puts a word at the end.
    pub fn push(&mut self, word: usize, from: usize)
        requires { self.old.count < length (words_in self.old) }
        ensures words { words_in self.new ≡ slice_set (words_in self.old) self.old.count word }
        ensures froms { froms_in self.new ≡ slice_set (froms_in self.old) self.old.count from }
        ensures longer { self.new.count ≡ self.old.count + 1 }
    {
        self.found[self.count] = Found { word, from };
        self.count += 1;
    }

    // Stores a word at a place, whether it is counted or not; the count stays.
    pub fn put(&mut self, place: usize, word: usize, from: usize)
        requires { place < length (words_in self.old) }
        ensures words { words_in self.new ≡ slice_set (words_in self.old) place word }
        ensures froms { froms_in self.new ≡ slice_set (froms_in self.old) place from }
        ensures counted { self.new.count ≡ self.old.count }
    {
        self.found[place] = Found { word, from };
    }

    // The word at a place.
    pub fn word(&self, place: usize) -> usize
        requires { place < length (words_in self.now) }
        ensures { result ≡ get_or (words_in self.now) place 0 }
    {
        self.found[place].word
    }

    // The place of the word that this one was found from.
    pub fn found_from(&self, place: usize) -> usize
        requires { place < length (froms_in self.now) }
        ensures { result ≡ get_or (froms_in self.now) place 0 }
    {
        self.found[place].from
    }
}
