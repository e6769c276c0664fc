// Refusals: document 01's reply numbers as one enum, each written once, and a refusal with its place. specs/Numbers.antt has their meaning and their places.
#![tactic(auto)]

ghost use Rattle.std.specs.Prelude.{◌≡◌};
ghost use Rattle.reply.specs.Refusal.{cause_number};

// Why an input is refused, by document 01's numbers.
#[derive(Clone, Copy, Debug, PartialEq, Eq)]
pub enum Cause {
    Missing = 1,
    Beyond = 2,
    Unknown = 3,
    NoOne = 4,
    Absent = 5,
    TooDeep = 6,
    Empty = 7,
    FullRate = 8,
    Outgrown = 9,
    Trailing = 10,
    ShortResult = 11,
    NoEnvelope = 12,
    LongPattern = 13,
    NotABit = 14,
    Outside = 15,
    NoClock = 16,
    AlreadyClosed = 17,
}

impl Cause {
    pub fn number(self) -> u8
        ensures { result ≡ cause_number self }
    {
        self as u8
    }
}

// A refusal: why, and at which place of the input.
#[derive(Clone, Copy, Debug, PartialEq, Eq)]
pub struct Refusal {
    pub cause: Cause,
    pub place: usize,
}

impl Refusal {
    pub fn at(cause: Cause, place: usize) -> Refusal
        ensures { result ≡ record { cause = cause; place = place } }
    {
        Refusal { cause, place }
    }

    pub fn number(self) -> u8
        ensures { result ≡ cause_number self.cause }
    {
        self.cause.number()
    }
}
