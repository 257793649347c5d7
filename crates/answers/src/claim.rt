//! What an answer claims.
ghost use Rattle.std.specs.Prelude.{◌≡◌};
ghost use Rattle.answers.specs.Claims.{Claims};
ghost use Rattle.answers.specs.Seeing.{and_claim, with_line};

use crate::line::{Line, Status};
use words::lines::Lines;

/// Why an answer claims nothing that can be read.
#[derive(Clone, Copy, Debug, PartialEq, Eq)]
pub enum ClaimFault {
    /// A line that is no comment, status line or value line.
    BadLine,
    /// No status line, or several.
    BadStatus,
    /// A value line where nothing is said to be satisfiable.
    StrayValues,
}

// What status lines have claimed.
#[derive(Clone, Copy)]
enum Claimed {
    Nothing,
    Once(Status),
    Often,
}

impl Claimed {
    // One claim more.
    fn and(self, status: Status) -> Claimed
        ensures { result ≡ and_claim self status }
    {
        match self {
            Claimed::Nothing => Claimed::Once(status),
            Claimed::Once(_) | Claimed::Often => Claimed::Often,
        }
    }
}

// What the lines of an answer so far have shown: the claims, and whether there is a value line.
#[derive(Clone, Copy)]
struct Seen {
    claimed: Claimed,
    values: bool,
}

impl Seen {
    // One line more.
    fn with_line(self, line: &[u8]) -> Result<Seen, ClaimFault>
        ensures { result ≡ with_line self line.now }
    {
        match Line::of(line) {
            Line::Comment => Ok(self),
            Line::Claim(status) => Ok(Seen {
                claimed: self.claimed.and(status),
                ..self
            }),
            Line::Values(_) => Ok(Seen {
                values: true,
                ..self
            }),
            Line::Other => Err(ClaimFault::BadLine),
        }
    }
}

/// What an answer claims. Every line a comment, status or value line? One status line? No value line unless satisfiable?
pub fn claim(text: &[u8]) -> Result<Status, ClaimFault>
    ensures { Claims text.now result }
{
    let mut seen = Seen {
        claimed: Claimed::Nothing,
        values: false,
    };
    for (_, line) in Lines::of(text) {
        seen = seen.with_line(line)?;
    }
    match seen.claimed {
        Claimed::Once(Status::Satisfiable) => Ok(Status::Satisfiable),
        Claimed::Once(_) if seen.values => Err(ClaimFault::StrayValues),
        Claimed::Once(status) => Ok(status),
        Claimed::Nothing | Claimed::Often => Err(ClaimFault::BadStatus),
    }
}
