// The refusals of all calls, and their numbers.
#![tactic(auto)]

// Why a call is refused: a variant for each number of documents 01 and 02.
#[derive(Clone, Copy, Debug, PartialEq, Eq)]
pub enum Refusal {
    TooShort = 10,
    WrongKind = 11,
    WrongEntries = 12,
    WrongPlaces = 13,
    OutOfRange = 14,
    NoDoor = 15,
    TooLight = 16,
    NoOrder = 17,
    FewCells = 20,
    ShortBuffer = 21,
    ShortLayer = 22,
    IllFormed = 30,
    NotInSheet = 31,
    DoneTwice = 32,
    ReceiverFirst = 33,
    WrongCost = 34,
}

// The number of a refusal.
impl From<Refusal> for u32 {
    ghost use Rattle.std.specs.Prelude.{◌≡◌};
    ghost use Rattle.refusal.specs.Numbers.{number_of};

    ghost from_gives = { λ r n. n ≡ number_of r };

    fn from(refusal: Refusal) -> u32 {
        refusal as u32
    }
}
