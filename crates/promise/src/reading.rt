//! What reading an answer comes to.
ghost use Rattle.std.specs.Prelude.{◌≡◌};
ghost use Rattle.promise.specs.Refusals.{number};

/// Why an answer was refused, by what the answer no means.
#[derive(Clone, Copy, PartialEq, Eq, Debug)]
pub enum ReadRefusal {
    ShortBuffer,
    BadLine,
    BadStatus,
    StrayValues,
    BadWord,
    BadEnd,
    NotOnce,
    VoidJob,
    /// The first variable whose bits are not in order.
    Unordered(usize),
    /// The place of the first row that is not met.
    Unmet(usize),
}

impl ReadRefusal {
    /// The number that users see.
    // Kept as it is: the new form is no plainer: two cases carry a place, so no cast of a discriminant gives the number.
    pub fn number(self) -> u8
        ensures { result ≡ number self }
    {
        match self {
            ReadRefusal::ShortBuffer => 15,
            ReadRefusal::BadLine => 16,
            ReadRefusal::BadStatus => 17,
            ReadRefusal::StrayValues => 18,
            ReadRefusal::BadWord => 19,
            ReadRefusal::BadEnd => 20,
            ReadRefusal::NotOnce => 21,
            ReadRefusal::VoidJob => 22,
            ReadRefusal::Unordered(_) => 23,
            ReadRefusal::Unmet(_) => 24,
        }
    }
}

/// What an answer that was not refused comes to. Only an accepted answer gives values.
#[derive(Clone, Copy, PartialEq, Eq, Debug)]
pub enum Verdict {
    Accepted,
    /// The solver claims that there is no layout.
    NoneClaimed,
    /// The solver claims nothing.
    NothingClaimed,
}

/// What reading an answer comes to: a verdict, or the first no.
pub type Reading = Result<Verdict, ReadRefusal>;
