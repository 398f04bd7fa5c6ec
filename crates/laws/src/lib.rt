// "Numbers a call may answer" of document 01: what refuses a call. The facts on numbers and floats that the other
// crates cite are in proofs/.
#![tactic(auto)]

ghost use Rattle.std.specs.Prelude.{◌≡◌};
ghost use Rattle.laws.specs.Rules.{number_of};

// Why a call is refused, in the order of the numbers: 1 to 15.
#[derive(Clone, Copy, Debug, PartialEq, Eq)]
pub enum Refusal {
    Rate,
    Channels,
    Recording,
    FadeTable,
    Block,
    Output,
    BlockStart,
    TooFar,
    QueueFull,
    EventTime,
    Position,
    LoopShort,
    Record,
    Damaged,
    NoResult,
}

impl From<Refusal> for u8 {
    ghost from_gives = { λ refusal number. number ≡ number_of refusal };

    fn from(refusal: Refusal) -> u8 {
        match refusal {
            Refusal::Rate => 1,
            Refusal::Channels => 2,
            Refusal::Recording => 3,
            Refusal::FadeTable => 4,
            Refusal::Block => 5,
            Refusal::Output => 6,
            Refusal::BlockStart => 7,
            Refusal::TooFar => 8,
            Refusal::QueueFull => 9,
            Refusal::EventTime => 10,
            Refusal::Position => 11,
            Refusal::LoopShort => 12,
            Refusal::Record => 13,
            Refusal::Damaged => 14,
            Refusal::NoResult => 15,
        }
    }
}

// A refusal, and what it hands back as it was.
#[derive(Clone, Copy)]
pub struct Refused<T> {
    pub refusal: Refusal,
    pub kept: T,
}
