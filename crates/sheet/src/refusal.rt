//! Why a sheet was refused, and where.
ghost use Rattle.std.specs.Prelude.{◌≡◌};
ghost use Rattle.sheet.specs.Refusals.{number, layer};

use job::refusal::Refusal;

/// What is wrong with a line of a sheet, or with the sheet itself.
#[derive(Clone, Copy, PartialEq, Eq, Debug)]
pub enum Reason {
    TooLong,
    BadVariable,
    NameTaken,
    BadRuleHeading,
    UnknownRule,
    BadHeading,
    Job(Refusal),
}

impl Reason {
    /// The number that users see.
    pub fn number(self) -> u8
        ensures { result ≡ number self }
    {
        // Kept as it is: a case with a value in it bars numbers at the cases, and the job's numbers are its own.
        match self {
            Reason::TooLong => 25,
            Reason::BadVariable => 26,
            Reason::NameTaken => 27,
            Reason::BadRuleHeading => 28,
            Reason::UnknownRule => 29,
            Reason::BadHeading => 32,
            Reason::Job(refusal) => refusal.number(),
        }
    }

    /// 1 for the sheet, 2 for its job.
    pub fn layer(self) -> u8
        ensures { result ≡ layer self }
    {
        // Kept as it is: a rule of the project tells users the layer as a number.
        match self {
            Reason::Job(_) => 2,
            _ => 1,
        }
    }
}

/// Where a sheet was refused: lines and words are counted from 1.
#[derive(Clone, Copy, PartialEq, Eq, Debug)]
pub struct Stop {
    pub reason: Reason,
    pub line: usize,
    pub word: usize,
}
