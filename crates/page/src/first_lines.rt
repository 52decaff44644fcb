// The first two lines of a page.
ghost use Rattle.page.specs.Page.{first_lines};
ghost use Rattle.page.specs.Writing.{TextRoom, Put};

use crate::writing::Writing;
use model::Summary;

impl Writing<'_> {
    // Counts P, Z, C, and the verdict.
    pub fn put_first_lines(&mut self, summary: Summary, verdict: usize)
        requires { TextRoom (first_lines summary verdict) self.old }
        ensures { Put (first_lines summary verdict) self.old self.new }
    {
        self.put_labelled(b"board ", summary.points);
        self.put_labelled(b" points ", summary.zones);
        self.put_labelled(b" zones ", summary.out);
        self.put_labelled(b" out\nverdict ", verdict);
        self.put_text(b"\n");
    }
}
