//! Why a call on a job was refused.
ghost use Rattle.std.specs.Prelude.{◌≡◌};
ghost use Rattle.calls.specs.Refusals.{number, of_add, of_grow};
ghost use Rattle.calls.specs.declared.refusal.Fault.TheVariants.{Refused, NoMemory};

use order::variables::adding::AddError;
use std::alloc::AllocError;
use ties::classes::growing::GrowError;

/// The questions that a job asks, by what the answer no means: each has the number that users see.
#[derive(Clone, Copy, PartialEq, Eq, Debug)]
pub enum Refusal {
    BadRange = 1,
    TooManyVariables = 2,
    TooManyBits = 3,
    UnknownCode = 4,
    BadItems = 5,
    NotDeclared = 6,
    BadThreshold = 7,
    RangesUnfit = 8,
    TooManyRows = 9,
    TooManyItems = 10,
    UnknownRelation = 11,
    SumTooLarge = 12,
    HeaderPresent = 13,
    NoSpace = 14,
}

impl Refusal {
    /// The number that users see.
    pub fn number(self) -> u8
        ensures { result ≡ number self }
    {
        self as u8
    }
}

/// Why a call that may need memory did nothing.
#[derive(Clone, Copy, PartialEq, Eq, Debug)]
pub enum Fault {
    Refused(Refusal),
    NoMemory,
}

impl From<AllocError> for Fault {
    ghost from_gives = { λ _ fault. fault ≡ NoMemory };

    fn from(_error: AllocError) -> Fault {
        Fault::NoMemory
    }
}

impl From<Refusal> for Fault {
    ghost from_gives = { λ refusal fault. fault ≡ Refused refusal };

    fn from(refusal: Refusal) -> Fault {
        Fault::Refused(refusal)
    }
}

impl From<AddError> for Fault {
    ghost from_gives = { λ error fault. fault ≡ of_add error };

    fn from(error: AddError) -> Fault {
        match error {
            AddError::TooManyVariables => Fault::Refused(Refusal::TooManyVariables),
            AddError::TooManyBits => Fault::Refused(Refusal::TooManyBits),
            AddError::NoMemory => Fault::NoMemory,
        }
    }
}

impl From<GrowError> for Fault {
    ghost from_gives = { λ error fault. fault ≡ of_grow error };

    fn from(error: GrowError) -> Fault {
        match error {
            GrowError::TooManyBits => Fault::Refused(Refusal::TooManyBits),
            GrowError::NoMemory => Fault::NoMemory,
        }
    }
}
