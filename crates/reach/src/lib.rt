// Sets of points reached over ways: for each point the set of those that a way leads to.
#![tactic(auto)]

pub mod growing;

ghost use Rattle.std.specs.Prelude.{◌≡◌, ◌+◌, ◌^◌, ◌<◌, length, get_or, set};
ghost use Rattle.std.specs.Int.Bits.{bit_or};
ghost use Rattle.reach.specs.Ways.{Ways, Grown};
ghost use Rattle.reach.specs.Once.{Untouched, GrownOnce};

use growing::GrownFrom;

// One way more, from p to q.
pub fn add_way(ways: &mut [u64], p: usize, q: usize)
    requires { (p < length ways.old) × (q < 64) }
    ensures { ways.new ≡ set ways.old p (bit_or (get_or ways.old p 0) (2 ^ q)) }
{
    ways[p] = bits::with(ways[p], q);
}

// What a growing gives: the points found, and what is grown from after it.
#[derive(Clone, Copy)]
pub struct Growth {
    pub found: u64,
    pub after: GrownFrom,
}

// All points reached from one, none of which is grown from yet. Each turn takes the lowest of the points last added, which are those found
// and not yet grown from, and adds where its ways lead.
pub fn grow_once(ways: &[u64], from: usize, before: GrownFrom) -> Growth
    requires { (from < length ways.now) × Ways ways.now × Untouched ways.now from before × (before.steps + 64 < 2 ^ 64) }
    ensures { GrownOnce ways.now from before result }
{
    let mut found = bits::with(0, from);
    let mut grown = before;
    let mut fresh = growing::fresh(found, grown);
    while fresh != 0 {
        let p = bits::lowest(fresh);
        let stepped = growing::step(ways, p, grown);
        found = found | stepped.leads;
        grown = stepped.after;
        fresh = growing::fresh(found, grown);
    }
    Growth {
        found: found,
        after: grown,
    }
}

// All points reached from one: a growing by itself, whose count isn't asked for.
pub fn grow(ways: &[u64], from: usize) -> u64
    requires { (from < length ways.now) × Ways ways.now }
    ensures { Grown ways.now from result }
{
    let growth = grow_once(ways, from, growing::nothing());
    growth.found
}
