// The rows that refuse a board, each with its number.
ghost use Rattle.std.specs.Prelude.{◌≡◌};
ghost use Rattle.board.specs.Refusals.{refusal_number};

#[derive(Clone, Copy, Debug, PartialEq, Eq)]
pub enum Refusal {
    TooShort = 1,
    WrongLength = 2,
    WrongVersion = 3,
    OutOfRange = 4,
    WrongCount = 5,
    BadZone = 6,
    CarrierTwice = 7,
    LoosePoint = 8,
    Apart = 9,
}

impl From<Refusal> for u32 {
    ghost from_gives = { λ r n. n ≡ refusal_number r };

    fn from(refusal: Refusal) -> u32 {
        refusal as u32
    }
}
