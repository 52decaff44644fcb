// Rows 8 and 9: that each point but home has two zones, and that all points hang together.
ghost use Rattle.std.specs.Prelude.{◌*◌, ◌^◌, ◌<◌, ◌≡◌, replicate};
ghost use Rattle.std.specs.Int.Bits.{bit_or, bit_and};
ghost use Rattle.model.specs.Reading.{Whole, zones_said};
ghost use Rattle.board.specs.Inner.{Inside, WaysOf, Doubled, link_refusal};
ghost use Rattle.board.specs.Refusals.{number_of};

use crate::input::{Entries, byte, is_wide, zone_at};
use crate::refusal::Refusal;

// `twice` with point p, if it is in `once`.
fn add_second(once: u64, twice: u64, p: usize) -> u64
    requires { p < 64 }
    ensures { result ≡ bit_or twice (bit_and once (2 ^ p)) }
{
    twice | (once & (1u64 << p))
}

// Adds the ways of all words; gives the points where two words or more start.
fn add_ways(bytes: &[u8], ways: &mut [u64]) -> u64
    requires { (Whole bytes.now × Inside bytes.now) × (ways.old ≡ replicate 64 0) }
    ensures { WaysOf bytes.now ways.new (2 * zones_said bytes.now) × Doubled bytes.now result }
{
    let zones = byte(bytes, 5);
    let entries = Entries {
        bytes,
        wide: is_wide(bytes),
    };
    let mut once = 0;
    let mut twice = 0;
    for z in 0..zones {
        let said = zone_at(&entries, z);
        let a = said.a;
        let b = said.b;
        twice = add_second(once, twice, a);
        once = bits::with(once, a);
        twice = add_second(once, twice, b);
        once = bits::with(once, b);
        reach::add_way(ways, a, b);
        reach::add_way(ways, b, a);
    }
    twice
}

// The first of the two rows that holds. Over the ways of all words, home reaches another number of points than there
// are where they don't hang together.
pub fn check(bytes: &[u8]) -> Result<(), Refusal>
    requires { Whole bytes.now × Inside bytes.now }
    ensures { number_of result ≡ link_refusal bytes.now }
{
    let points = byte(bytes, 3);
    let home = byte(bytes, 4);
    let mut ways = [0u64; 64];
    let twice = add_ways(bytes, &mut ways);
    let under_two = bits::minus(bits::all(points), bits::with(twice, home));
    if under_two != 0 {
        return Err(Refusal::LoosePoint);
    }
    let reached = reach::grow(&ways, home);
    if bits::size(reached) != points {
        return Err(Refusal::Apart);
    }
    Ok(())
}
