// The blocked list: each carrier after a space, or none.
ghost use Rattle.page.specs.Page.{decimal, spaced, blocked_text};
ghost use Rattle.page.specs.Writing.{TextRoom, Put};

use crate::writing::Writing;

impl Writing<'_> {
    // Each carrier after a space. Like `put_words`: a trait for the one call in which they differ would be longer than both.
    pub fn put_carriers(&mut self, list: &[u16])
        requires { TextRoom (spaced decimal list.now) self.old }
        ensures { Put (spaced decimal list.now) self.old self.new }
    {
        for carrier in list {
            self.put_text(b" ");
            self.put_decimal(*carrier as usize);
        }
    }

    // The carriers, or `none` where there is none.
    pub fn put_list(&mut self, list: &[u16])
        requires { TextRoom (blocked_text list.now) self.old }
        ensures { Put (blocked_text list.now) self.old self.new }
    {
        let none = list.is_empty();
        if none {
            self.put_text(b" none");
        } else {
            self.put_carriers(list);
        }
    }
}
