// One growing step, and what is carried from step to step through all the free parts of a board: the points grown from, and the count of
// steps. The fields of `GrownFrom` are private to this file, so that no growing and none of its callers makes up a point or a step. A
// growing reads the ways by the step alone: these are functions from value to value, and no methods that change one, since .ci/check-growing lets
// a growing read nothing behind a reference.
ghost use Rattle.std.specs.Prelude.{◌≡◌, false, ◌+◌, ◌^◌, ◌<◌, length, get_or};
ghost use Rattle.std.specs.Int.Bits.{bit_or};
ghost use Rattle.bits.specs.Sets.{has_bit, set_minus};

// The set of the points grown from so far, and how many steps that took.
#[derive(Clone, Copy)]
pub struct GrownFrom {
    set: u64,
    steps: usize,
}

// What a step gives: where the ways of its point lead, and what is grown from after it.
#[derive(Clone, Copy)]
pub struct Stepped {
    pub leads: u64,
    pub after: GrownFrom,
}

// Nothing is grown from yet.
pub fn nothing() -> GrownFrom
    ensures { (result.set ≡ 0) × (result.steps ≡ 0) }
{
    GrownFrom { set: 0, steps: 0 }
}

// The step from point p, which is not grown from yet.
pub fn step(ways: &[u64], p: usize, before: GrownFrom) -> Stepped
    requires { (p < length ways.now) × (p < 64) × (has_bit before.set p ≡ false) × (before.steps + 1 < 2 ^ 64) }
    ensures { (result.leads ≡ get_or ways.now p 0) × (result.after.set ≡ bit_or before.set (2 ^ p)) × (result.after.steps ≡ before.steps + 1) }
{
    let leads = ways[p];
    let set = bits::with(before.set, p);
    let steps = before.steps + 1;
    Stepped {
        leads: leads,
        after: GrownFrom {
            set: set,
            steps: steps,
        },
    }
}

// The points of a set that are not grown from yet.
pub fn fresh(points: u64, grown: GrownFrom) -> u64
    ensures { result ≡ set_minus points grown.set }
{
    bits::minus(points, grown.set)
}
