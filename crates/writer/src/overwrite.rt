// The store of bytes: one copy of a whole block, the rest of what was lent stays.
ghost use Rattle.std.specs.Prelude.{◌+◌, ◌≤◌, ◌≡◌, length};
ghost use Rattle.model.specs.Lists.{overwritten, overwritten_at};

// Puts the bytes over the first of those lent.
pub fn from_start(bytes: &[u8], lent: &mut [u8])
    requires { length bytes.now ≤ length lent.old }
    ensures { lent.new ≡ overwritten bytes.now lent.old }
{
    let count = bytes.len();
    lent[..count].copy_from_slice(bytes);
}

// Puts the bytes over those lent from a place on.
pub fn from_place(from: usize, bytes: &[u8], lent: &mut [u8])
    requires { from + length bytes.now ≤ length lent.old }
    ensures { lent.new ≡ overwritten_at from bytes.now lent.old }
{
    let end = from + bytes.len();
    lent[from..end].copy_from_slice(bytes);
}
