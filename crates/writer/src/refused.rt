// Why a write is turned back.
ghost use Rattle.std.specs.Prelude.{◌≡◌};
ghost use Rattle.writer.specs.declared.refused.Refused.TheVariants;
ghost use Rattle.writer.specs.Refusals.{refused_number};

use board::Refusal;

// A row of the board holds, or one of the copy; or the sheet doesn't fit the track, or the copy what is lent.
#[derive(Clone, Copy, Debug, PartialEq, Eq)]
pub enum Refused {
    Board(Refusal),
    Unwritable,
}

impl From<Refusal> for Refused {
    ghost from_gives = { λ row refused. refused ≡ TheVariants.Board row };

    fn from(row: Refusal) -> Refused {
        Refused::Board(row)
    }
}

impl From<Refused> for u32 {
    ghost from_gives = { λ refused n. n ≡ refused_number refused };

    fn from(refused: Refused) -> u32 {
        match refused {
            Refused::Board(refusal) => u32::from(refusal),
            Refused::Unwritable => 39,
        }
    }
}
