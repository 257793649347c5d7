//! What a sink takes at all: headers and clauses within the limits of a clause file.
ghost use Rattle.std.specs.Prelude.{◌≡◌};
ghost use Rattle.sink.specs.Sinks.{proper_header, proper_lits, proper_clause, under};

use crate::header::Header;
use crate::lit::Lit;

/// The most variables that a header may have.
const MOST_VARIABLES: u16 = 4096;

/// A header has fewer clauses than this, so that their number is a word too.
const CLAUSES_END: u32 = 1 << 31;

/// The most literals that a clause may have.
const MOST_LITERALS: usize = 64;

pub(crate) fn is_proper_header(header: Header) -> bool
    ensures { result ≡ proper_header header }
{
    header.variables <= MOST_VARIABLES && header.clauses < CLAUSES_END
}

fn are_proper_lits(variables: u16, lits: &[Lit]) -> bool
    ensures { result ≡ proper_lits variables lits.now }
{
    lits.iter()
        .all(|l| 0 < l.variable && l.variable <= variables)
}

fn is_proper_clause(variables: u16, clause: &[Lit]) -> bool
    ensures { result ≡ proper_clause variables clause.now }
{
    clause.len() <= MOST_LITERALS && are_proper_lits(variables, clause)
}

/// Whether there is a header, and the clause fits under it.
pub(crate) fn is_under(header: Option<Header>, clause: &[Lit]) -> bool
    ensures { result ≡ under header clause.now }
{
    header.is_some_and(|h| is_proper_clause(h.variables, clause))
}
