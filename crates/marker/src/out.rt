// Who is still out: one carrier, or any.
ghost use Rattle.std.specs.Prelude.{◌≡◌};
ghost use Rattle.rules.specs.Sheet.{still_out, mark_end};
ghost use Rattle.marker.specs.Faults.{mark_number};

use crate::Fault;

// Whether the carrier stands in a zone. 0 is no carrier.
pub fn still_out(position: &[u32], carrier: u32) -> bool
    ensures { result ≡ still_out position.now carrier }
{
    carrier != 0 && position.iter().any(|held| *held / 2 == carrier)
}

// The plan's end: no carrier is still out.
pub fn mark_end(position: &[u32]) -> Result<(), Fault>
    ensures { mark_number result ≡ mark_end position.now }
{
    if position.iter().any(|held| *held / 2 != 0) {
        return Err(Fault::StillOut);
    }
    Ok(())
}
