// What a sheet is turned back for, each with its number.
ghost use Rattle.std.specs.Prelude.{◌≡◌};
ghost use Rattle.marker.specs.Faults.{fault_number};

#[derive(Clone, Copy, Debug, PartialEq, Eq)]
pub enum Fault {
    BadSheet = 30,
    NotOut = 31,
    BadWord = 32,
    NotHome = 33,
    StillOut = 34,
    FalseClaim = 35,
}

impl From<Fault> for u32 {
    ghost from_gives = { λ r n. n ≡ fault_number r };

    fn from(fault: Fault) -> u32 {
        fault as u32
    }
}
