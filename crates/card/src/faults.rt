ghost use Rattle.std.specs.Prelude.{◌≡◌};
ghost use Rattle.card.specs.Faults.{number, cause_of, from_book};

use book::{Cause, Fault};

// What is wrong with a card.
#[derive(Clone, Copy, Debug, PartialEq, Eq)]
pub enum CardCause {
    UnknownByte = 20,
    CutOff = 21,
    // A command that no card has there, or a number that does not rise.
    OutOfPlace = 22,
    // A value out of its limits, or a rule that names an absent step.
    OutOfLimits = 23,
    TooLong = 24,
}

impl CardCause {
    pub fn number(self) -> u8
        ensures { result ≡ number self }
    {
        self as u8
    }
}

// A cause and the offset on the card where it arose.
#[derive(Clone, Copy, Debug, PartialEq, Eq)]
pub struct CardFault {
    pub cause: CardCause,
    pub offset: usize,
}

impl From<Cause> for CardCause {
    ghost from_gives = { λ c r. r ≡ cause_of c };

    fn from(cause: Cause) -> CardCause {
        match cause {
            Cause::UnknownByte => CardCause::UnknownByte,
            Cause::CutOff => CardCause::CutOff,
            Cause::TooLong => CardCause::TooLong,
        }
    }
}

impl From<Fault> for CardFault {
    ghost from_gives = { λ f r. r ≡ from_book f };

    fn from(fault: Fault) -> CardFault {
        CardFault {
            cause: fault.cause.into(),
            offset: fault.offset,
        }
    }
}
