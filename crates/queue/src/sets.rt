// Sets of numbers in blocks of 64: a number more, a zone's two words more, the words of all free zones.
ghost use Rattle.std.specs.Prelude.{◌≡◌, ◌/◌, ◌<◌, length};
ghost use Rattle.queue.specs.WordSets.{Added, ZoneAdded, Fillable, FreeWords};

// Puts number n into the set.
pub fn add(n: usize, set: &mut [u64])
    requires { n / 64 < length set.old }
    ensures { Added n set.old set.new }
{
    set[n / 64] = bits::with(set[n / 64], n % 64);
}

// Puts both words of a zone into the set.
pub fn add_zone(zone: usize, set: &mut [u64])
    requires { (zone < 96) × (length set.old ≡ 3) }
    ensures { ZoneAdded zone set.old set.new }
{
    add(2 * zone, set);
    add(2 * zone + 1, set);
}

// Fills the set with the words of the free zones.
pub fn add_free(position: &[u32], set: &mut [u64])
    requires { Fillable position.now set.old }
    ensures { FreeWords position.now set.new }
{
    for (z, held) in position.iter().enumerate() {
        let free = *held == 0;
        if free {
            add_zone(z, set);
        }
    }
}
