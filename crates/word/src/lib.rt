// Words in code: the same zone the other way, the point where a word leaves, and whether one may follow another.
#![tactic(auto)]

ghost use Rattle.std.specs.Prelude.{◌≡◌, ◌/◌, ◌<◌, length, get_or};
ghost use Rattle.model.specs.Track.{rev};
ghost use Rattle.rules.specs.Key.{may_follow};

// The same zone, the other way.
pub fn reverse(w: usize) -> usize
    ensures { result ≡ rev w }
{
    2 * (w / 2) + (1 - w % 2)
}

// The point where a word leaves: where the same zone starts the other way.
pub fn leaving(ends: &[usize], w: usize) -> usize
    requires { rev w < length ends.now }
    ensures { result ≡ get_or ends.now (rev w) 0 }
{
    ends[reverse(w)]
}

// Whether word v is in another zone than word w, and that zone is free to the carrier: nobody holds it, or the carrier itself does.
pub fn may_follow(position: &[u32], carrier: u32, w: usize, v: usize) -> bool
    requires { v / 2 < length position.now }
    ensures { result ≡ may_follow position.now carrier w v }
{
    if v / 2 == w / 2 {
        return false;
    }
    let held = position[v / 2];
    if held == 0 {
        return true;
    }
    held / 2 == carrier
}
