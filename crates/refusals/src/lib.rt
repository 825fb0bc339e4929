// Why a call refuses, and where: the error of the table's calls. And the two editions, which refuse differently.
#![tactic(auto)]

ghost use Rattle.std.specs.Prelude.{◌≡◌};
ghost use Rattle.refusals.specs.Refusals.{number_of};

use std::fmt;

// The reasons of document 01, "Numbers a caller may get back", in the order of their numbers.
#[derive(Clone, Copy, PartialEq, Eq, Debug)]
pub enum Reason {
    // A slice of another length than the call asks for.
    Lengths,
    FileTooLong,
    // A line without its end, a space or a value.
    BrokenLine,
    UnknownKey,
    KeyTwice,
    // In an event list.
    WrongLetter,
    // No `program` line.
    NoProgram,
    // A value that is no program.
    NotWritten,
    // Over 96 tokens, 16 brackets deep or three stars nested.
    TooLarge,
    Unlisted,
    Unused,
    NinthLetter,
    // On both sides of a `||`.
    SharedModule,
    SharedEvent,
    // For Basic alone.
    FugitiveLine,
    JoinedCalls,
    TooManyStates,
    TooManyParts,
    NoTable,
    NoState,
    ForeignLetter,
    // A completion of a module that does not run.
    NotRunning,
    // Bytes that code no live state.
    NoLiveState,
}

impl Reason {
    // Its number in document 01.
    pub fn number(self) -> usize
        ensures { result ≡ number_of self }
    {
        match self {
            Reason::Lengths => 1,
            Reason::FileTooLong => 2,
            Reason::BrokenLine => 3,
            Reason::UnknownKey => 4,
            Reason::KeyTwice => 5,
            Reason::WrongLetter => 6,
            Reason::NoProgram => 7,
            Reason::NotWritten => 8,
            Reason::TooLarge => 9,
            Reason::Unlisted => 10,
            Reason::Unused => 11,
            Reason::NinthLetter => 12,
            Reason::SharedModule => 13,
            Reason::SharedEvent => 14,
            Reason::FugitiveLine => 15,
            Reason::JoinedCalls => 16,
            Reason::TooManyStates => 17,
            Reason::TooManyParts => 18,
            Reason::NoTable => 19,
            Reason::NoState => 20,
            Reason::ForeignLetter => 21,
            Reason::NotRunning => 22,
            Reason::NoLiveState => 23,
        }
    }
}

// A reason, and the place in the file that it speaks of; place 0 where it speaks of none.
#[derive(Clone, Copy, PartialEq, Eq, Debug)]
pub struct Refusal {
    pub reason: Reason,
    pub place: usize,
}

// A reason that speaks of no place.
impl From<Reason> for Refusal {
    ghost from_gives = { λ reason refusal. refusal ≡ record { reason = reason; place = 0 } };

    fn from(reason: Reason) -> Self {
        Refusal { reason, place: 0 }
    }
}

// `refused NUMBER at PLACE`, the words that the programs print for a compile.
impl fmt::Display for Refusal {
    fn fmt<W: fmt::Write>(&self, f: &mut fmt::Formatter<W>) -> fmt::Result {
        write!(f, "refused {} at {}", self.reason.number(), self.place)
    }
}

// Basic takes neither fugitive calls nor calls joined by `||`.
#[derive(Clone, Copy, PartialEq, Eq, Debug)]
pub enum Edition {
    Basic,
    Adaptive,
}
