// The bytes of a board: one of them, and those of a zone in either version. Row 3 alone looks at the version elsewhere; the passes over the zones
// only hand on whether a carrier has two bytes.
ghost use Rattle.std.specs.Prelude.{◌≤◌, ◌<◌, ◌≡◌, length};
ghost use Rattle.model.specs.Layout.{entry_from};
ghost use Rattle.model.specs.Reading.{wide};
ghost use Rattle.board.specs.Inner.{ByteAt, ZoneIn, ZoneAt};

// The entries of a board's zones, a carrier of which has two bytes or one. That `wide` is what the bytes say stands in `ZoneIn`, with what says that
// there is such a zone.
#[derive(Clone, Copy)]
pub struct Entries<'a> {
    pub bytes: &'a [u8],
    pub wide: bool,
}

// A zone as a board says it.
#[derive(Clone, Copy)]
pub struct Zone {
    pub a: usize,
    pub b: usize,
    pub carrier: usize,
    pub heading: usize,
}

pub fn byte(bytes: &[u8], i: usize) -> usize
    requires { i < length bytes.now }
    ensures { ByteAt bytes.now i result }
{
    bytes[i] as usize
}

// Whether a carrier has two bytes, as in version 2.
pub fn is_wide(bytes: &[u8]) -> bool
    requires { 6 ≤ length bytes.now }
    ensures { result ≡ wide bytes.now }
{
    byte(bytes, 2) == 2
}

// Where the bytes of a zone begin; and, after the last zone, how many bytes there are. Each product has its own literal, so that the loops over
// the zones are compiled for each version.
#[tactic(auto, using(model::proofs::LayoutLaws::five, model::proofs::LayoutLaws::four))]
pub fn zone_from(wide: bool, z: usize) -> usize
    requires { z < 256 }
    ensures { result ≡ entry_from wide z }
{
    if wide { 5 * z + 6 } else { 4 * z + 6 }
}

// One of the zones. A carrier has one byte or two, the high one first.
#[tactic(auto, using(crate::proofs::ZoneBytes::zone_room, crate::proofs::ZoneBytes::wide_room))]
pub fn zone_at(entries: &Entries, z: usize) -> Zone
    requires { ZoneIn entries.now.bytes.now entries.now.wide z }
    ensures { ZoneAt entries.now.bytes.now z result }
{
    let Entries { bytes, wide } = *entries;
    let from = zone_from(wide, z);
    let a = byte(bytes, from);
    let b = byte(bytes, from + 1);
    let first = byte(bytes, from + 2);
    let next = byte(bytes, from + 3);
    if wide {
        let heading = byte(bytes, from + 4);
        return Zone {
            a,
            b,
            carrier: 256 * first + next,
            heading,
        };
    }
    Zone {
        a,
        b,
        carrier: first,
        heading: next,
    }
}
