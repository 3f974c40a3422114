// Why a call refuses. Each reason has a number, and a place where one can be named.
mod printing;

ghost use Rattle.std.specs.Prelude.{◌≡◌};
ghost use Rattle.charts.specs.Refusals.{number_of, place_of};

#[derive(Clone, Copy, PartialEq, Eq, Debug)]
pub enum Refusal {
    // The file is too short for a header.
    ShortFile,
    // The header's total is not the file's length, or too large.
    Total,
    // The numbers of states, letters or arcs are out of their limits.
    Limits,
    // A table is not between the header and the end, or the two share a byte.
    Tables,
    // This state's row is not 0 to 3; it is the first such.
    StateRow(u16),
    // This arc's row is not that of an arc; it is the first such.
    ArcRow(u16),
    // The memory handed in is too short.
    Memory,
    // The machines to cross have different numbers of letters.
    LetterCounts,
    // The crossing would have too many states.
    TooManyStates,
    // The machine or chart has other numbers of states and letters than the log.
    OtherShape,
    // There is no such letter, at this place of the log.
    NoSuchLetter(u16),
    // The log holds this many letters and no more.
    LogFull(u16),
    // No letter is left to take back.
    NothingToTakeBack,
    // No path spells the log with a weight other than zero.
    NoPath,
}

impl Refusal {
    // The reason's number, from 1 to 14.
    pub fn number(self) -> u8
        ensures { result ≡ number_of self }
    {
        match self {
            Refusal::ShortFile => 1,
            Refusal::Total => 2,
            Refusal::Limits => 3,
            Refusal::Tables => 4,
            Refusal::StateRow(_) => 5,
            Refusal::ArcRow(_) => 6,
            Refusal::Memory => 7,
            Refusal::LetterCounts => 8,
            Refusal::TooManyStates => 9,
            Refusal::OtherShape => 10,
            Refusal::NoSuchLetter(_) => 11,
            Refusal::LogFull(_) => 12,
            Refusal::NothingToTakeBack => 13,
            Refusal::NoPath => 14,
        }
    }

    // The state, arc or letter that it is about. Where there is none it is 0, and not `None`: that is what is printed.
    pub fn place(self) -> u16
        ensures { result ≡ place_of self }
    {
        match self {
            Refusal::StateRow(place)
            | Refusal::ArcRow(place)
            | Refusal::NoSuchLetter(place)
            | Refusal::LogFull(place) => place,
            Refusal::ShortFile
            | Refusal::Total
            | Refusal::Limits
            | Refusal::Tables
            | Refusal::Memory
            | Refusal::LetterCounts
            | Refusal::TooManyStates
            | Refusal::OtherShape
            | Refusal::NothingToTakeBack
            | Refusal::NoPath => 0,
        }
    }
}
