// The two arrays of a board that is read.
ghost use Rattle.std.specs.Prelude.{◌≤◌, ◌≡◌, replicate};
ghost use Rattle.model.specs.Reading.{Whole, zones_said, track_said, position_said};
ghost use Rattle.board.specs.Given.{padded};

use crate::input::{Entries, byte, is_wide, zone_at};

pub fn arrays(bytes: &[u8], ends: &mut [usize], position: &mut [u32])
    requires whole { Whole bytes.now × (zones_said bytes.now ≤ 96) }
    requires ends_value { (ends.old ≡ replicate 192 0) × (position.old ≡ replicate 96 0) }
    ensures ends_after { ends.new ≡ padded 192 (track_said bytes.now).ends }
    ensures position_after { position.new ≡ padded 96 (position_said bytes.now) }
{
    let zones = byte(bytes, 5);
    let entries = Entries {
        bytes,
        wide: is_wide(bytes),
    };
    for z in 0..zones {
        let said = zone_at(&entries, z);
        ends[2 * z] = said.a;
        ends[2 * z + 1] = said.b;
        position[z] = (2 * said.carrier + said.heading) as u32;
    }
}
