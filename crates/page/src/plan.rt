// The lines of a plan: a carrier that goes home in each, and its route.
ghost use Rattle.page.specs.Page.{word_text, spaced, entry_line, entry_lines};
ghost use Rattle.page.specs.Writing.{TextRoom, Put, IsPlan, entries_in};

use crate::writing::Writing;

impl Writing<'_> {
    // A zone with + for heading 0 and - for 1.
    pub fn put_word(&mut self, word: usize)
        requires { TextRoom (word_text word) self.old }
        ensures { Put (word_text word) self.old self.new }
    {
        self.put_decimal(word / 2);
        self.put_text(if word % 2 == 0 { b"+" } else { b"-" });
    }

    // Each word after a space.
    pub fn put_words(&mut self, words: &[u16])
        requires { TextRoom (spaced word_text words.now) self.old }
        ensures { Put (spaced word_text words.now) self.old self.new }
    {
        for word in words {
            self.put_text(b" ");
            self.put_word(*word as usize);
        }
    }

    // A line: the carrier, and its route.
    pub fn put_entry(&mut self, carrier: usize, words: &[u16])
        requires { TextRoom (entry_line (record { carrier = carrier; words = words.now })) self.old }
        ensures { Put (entry_line (record { carrier = carrier; words = words.now })) self.old self.new }
    {
        self.put_labelled(b"home ", carrier);
        self.put_text(b":");
        self.put_words(words);
        self.put_text(b"\n");
    }

    // For each carrier its number, the count of words, the words.
    pub fn put_plan(&mut self, plan: &[u16])
        requires plan { IsPlan plan.now }
        requires room { TextRoom (entry_lines (entries_in plan.now)) self.old }
        ensures { Put (entry_lines (entries_in plan.now)) self.old self.new }
    {
        let mut left = plan;
        while let [carrier, count, after @ ..] = left {
            let (words, entries) = after.split_at(*count as usize);
            self.put_entry(*carrier as usize, words);
            left = entries;
        }
    }
}
