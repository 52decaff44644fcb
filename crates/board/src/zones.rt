// Rows 6 and 7: what each zone says, and that no carrier stands in two zones.
ghost use Rattle.std.specs.Prelude.{◌≡◌};
ghost use Rattle.model.specs.Reading.{Whole, zone_refusal, bad_zone};
ghost use Rattle.board.specs.Inner.{ZoneIn, stood_before};
ghost use Rattle.board.specs.Refusals.{number_of};

use crate::input::{Entries, byte, is_wide, zone_at};
use crate::refusal::Refusal;

// Row 6, of one zone: an end not below P, heading over 1, or free with heading 1.
#[tactic(auto, using(std::proofs::lemmas::Bool::Decides::nat_tests), unfolding(model::specs::Reading::bad_zone))]
fn bad(entries: &Entries, z: usize) -> bool
    requires { ZoneIn entries.now.bytes.now entries.now.wide z }
    ensures { result ≡ bad_zone entries.now.bytes.now z }
{
    let points = byte(entries.bytes, 3);
    let said = zone_at(entries, z);
    points <= said.a
        || points <= said.b
        || 1 < said.heading
        || said.carrier == 0 && said.heading == 1
}

// Whether a carrier stands in a zone before z.
fn stood_before(entries: &Entries, z: usize, carrier: usize) -> bool
    requires { ZoneIn entries.now.bytes.now entries.now.wide z }
    ensures { result ≡ stood_before entries.now.bytes.now carrier z }
{
    (0..z).any(|y| zone_at(entries, y).carrier == carrier)
}

// The first of the two rows that holds. The table says of each low byte whether a zone before z has it; only where
// one does are those zones gone through.
pub fn check(bytes: &[u8]) -> Result<(), Refusal>
    requires { Whole bytes.now }
    ensures { number_of result ≡ zone_refusal bytes.now }
{
    let zones = byte(bytes, 5);
    let entries = Entries {
        bytes,
        wide: is_wide(bytes),
    };
    let mut seen = [false; 256];
    let mut repeated = false;
    for z in 0..zones {
        if bad(&entries, z) {
            return Err(Refusal::BadZone);
        }
        let carrier = zone_at(&entries, z).carrier;
        let low = carrier % 256;
        if carrier != 0 && seen[low] && stood_before(&entries, z, carrier) {
            repeated = true;
        }
        seen[low] = true;
    }
    if repeated {
        return Err(Refusal::CarrierTwice);
    }
    Ok(())
}
