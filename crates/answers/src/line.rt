//! Lines of an answer.
ghost use Rattle.std.specs.Prelude.{◌≡◌, ◌∷◌};
ghost use Rattle.answers.specs.Lines.{Shapes, status_of};

/// What a solver claims.
#[derive(Clone, Copy, Debug, PartialEq, Eq)]
pub enum Status {
    Satisfiable,
    Unsatisfiable,
    Unknown,
}

impl Status {
    // The status that a status line names after s and the blank; none for any other bytes.
    fn of(claim: &[u8]) -> Option<Status>
        ensures { result ≡ status_of (115 ∷ (32 ∷ claim.now)) }
    {
        match claim {
            b"SATISFIABLE" => Some(Status::Satisfiable),
            b"UNSATISFIABLE" => Some(Status::Unsatisfiable),
            b"UNKNOWN" => Some(Status::Unknown),
            _ => None,
        }
    }
}

/// A line of an answer: a comment begins with c, a value line with v and a blank, and a status line is one of three.
#[derive(Clone, Copy)]
pub enum Line<'a> {
    Comment,
    Claim(Status),
    /// What comes after v and the blank.
    Values(&'a [u8]),
    Other,
}

impl<'a> Line<'a> {
    /// What a line is, by its first bytes.
    pub fn of(line: &'a [u8]) -> Line<'a>
        ensures { Shapes line.now result }
    {
        match line {
            [b'c', ..] => Line::Comment,
            [b's', b' ', claim @ ..] => match Status::of(claim) {
                Some(status) => Line::Claim(status),
                None => Line::Other,
            },
            [b'v', b' ', rest @ ..] => Line::Values(rest),
            _ => Line::Other,
        }
    }
}
