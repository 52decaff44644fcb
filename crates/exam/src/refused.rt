// Why a key or a collapse is refused, 1 to 11, and why a sheet isn't right: the board's refusal, or the sheet's fault.
ghost use Rattle.std.specs.Prelude.{◌≡◌};
ghost use Rattle.exam.specs.Answers.{refused_number, wrong_number};
ghost use Rattle.exam.specs.declared.refused.Refused.TheVariants as RefusedBy;
ghost use Rattle.exam.specs.declared.refused.Wrong.TheVariants as WrongBy;

use board::Refusal;
use marker::Fault;

#[derive(Clone, Copy, Debug, PartialEq, Eq)]
pub enum Refused {
    Board(Refusal),
    ShortPlan,
    ShortList,
}

impl From<Refusal> for Refused {
    ghost from_gives = { λ refusal refused. refused ≡ RefusedBy.Board refusal };

    fn from(refusal: Refusal) -> Refused {
        Refused::Board(refusal)
    }
}

impl From<Refused> for u32 {
    ghost from_gives = { λ refused number. number ≡ refused_number refused };

    fn from(refused: Refused) -> u32 {
        match refused {
            Refused::Board(refusal) => refusal.into(),
            Refused::ShortPlan => 10,
            Refused::ShortList => 11,
        }
    }
}

#[derive(Clone, Copy, Debug, PartialEq, Eq)]
pub enum Wrong {
    Board(Refusal),
    Sheet(Fault),
}

impl From<Refusal> for Wrong {
    ghost from_gives = { λ refusal wrong. wrong ≡ WrongBy.Board refusal };

    fn from(refusal: Refusal) -> Wrong {
        Wrong::Board(refusal)
    }
}

impl From<Fault> for Wrong {
    ghost from_gives = { λ fault wrong. wrong ≡ WrongBy.Sheet fault };

    fn from(fault: Fault) -> Wrong {
        Wrong::Sheet(fault)
    }
}

impl From<Wrong> for u32 {
    ghost from_gives = { λ wrong number. number ≡ wrong_number wrong };

    fn from(wrong: Wrong) -> u32 {
        match wrong {
            Wrong::Board(refusal) => refusal.into(),
            Wrong::Sheet(fault) => fault.into(),
        }
    }
}
