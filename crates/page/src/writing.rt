// A page in the writing: texts and numbers put one after another.
ghost use Rattle.std.specs.Prelude.{◌≡◌};
ghost use Rattle.page.specs.Page.{decimal, labelled};
ghost use Rattle.page.specs.Writing.{TextRoom, Put, Begun};

// A lent page, and the place up to which it is written.
#[derive(Drop)]
pub struct Writing<'a> {
    page: &'a mut [u8],
    at: usize,
}

impl<'a> Writing<'a> {
    // Nothing is written yet.
    pub fn begin(page: &'a mut [u8]) -> Writing<'a>
        ensures begun { Begun page.old result }
        ensures same_page { result.page.ghost_name ≡ page.entry.ghost_name }
    {
        Writing { page, at: 0 }
    }

    // How many bytes are written.
    pub fn length(&self) -> usize
        ensures { result ≡ self.now.at }
    {
        self.at
    }

    // All bytes of a text.
    pub fn put_text(&mut self, text: &[u8])
        requires { TextRoom text.now self.old }
        ensures { Put text.now self.old self.new }
    {
        let end = self.at + text.len();
        self.page[self.at..end].copy_from_slice(text);
        self.at = end;
    }

    // In decimal: what stands before the last digit first. With the kit's `itoa` it is one call, and one more crate below `key` to be trusted.
    pub fn put_decimal(&mut self, n: usize)
        requires { TextRoom (decimal n) self.old }
        ensures { Put (decimal n) self.old self.new }
    {
        if n >= 10 {
            self.put_decimal(n / 10);
        }
        self.put_text(&[b'0' + (n % 10) as u8]);
    }

    // A number after a text.
    pub fn put_labelled(&mut self, label: &[u8], n: usize)
        requires { TextRoom (labelled label.now n) self.old }
        ensures { Put (labelled label.now n) self.old self.new }
    {
        self.put_text(label);
        self.put_decimal(n);
    }
}
