// Why a replay is turned back, or where it stops.
ghost use Rattle.std.specs.Prelude.{◌≡◌};
ghost use Rattle.replay.specs.declared.refused.Refused.TheVariants;
ghost use Rattle.replay.specs.Refusals.{refused_number};

use board::Refusal;

// A forbidden move, or one of a carrier that isn't out, comes with how many moves were done before it.
#[derive(Clone, Copy, Debug, PartialEq, Eq)]
pub enum Refused {
    Board(Refusal),
    ShortPosition,
    OddLog,
    Forbidden(usize),
}

impl From<Refusal> for Refused {
    ghost from_gives = { λ refusal refused. refused ≡ TheVariants.Board refusal };

    fn from(refusal: Refusal) -> Refused {
        Refused::Board(refusal)
    }
}

impl From<Refused> for u32 {
    ghost from_gives = { λ refused n. n ≡ refused_number refused };

    fn from(refused: Refused) -> u32 {
        match refused {
            Refused::Board(refusal) => u32::from(refusal),
            Refused::ShortPosition => 36,
            Refused::OddLog => 37,
            Refused::Forbidden(_) => 38,
        }
    }
}
