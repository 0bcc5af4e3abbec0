// Why a call is refused, or a step faults: 01's table, a name for each number.
ghost use Rattle.std.specs.Prelude.{◌≡◌};
ghost use Rattle.basis.specs.Refusal.{number_of};

#[derive(Clone, Copy, PartialEq, Eq, Debug)]
pub enum Refusal {
    PastEnd = 1,
    Illegal = 2,
    Cut = 3,
    TooFew = 4,
    TooMany = 5,
    DataRange = 6,
    ProgramRange = 7,
    NoFunction = 8,
    Untraced = 9,
    TwoDepths = 10,
    LongProgram = 20,
    LongData = 21,
    LongCells = 22,
    MapLength = 23,
    DeepState = 24,
    ShortRoom = 25,
    Unwritable = 26,
    CutContents = 30,
    LongPack = 31,
    TagOrder = 32,
    WrongOffset = 33,
    WrongEnd = 34,
    OverLimit = 35,
    NoTag = 36,
    Closed = 37,
    ShortMemory = 90,
    Damaged = 91,
}

// Its number in 01's table, by which a host knows it.
impl From<Refusal> for usize {
    ghost from_gives = { λ why n. n ≡ number_of why };

    fn from(why: Refusal) -> usize {
        why as usize
    }
}
