//! Looking for a literal.
ghost use Rattle.std.specs.Prelude.{◌≡◌};
ghost use Rattle.cnf.specs.Reduced.{has};

use order::literal::Literal;

/// Whether a clause has the literal.
pub fn has(clause: &[Literal], l: Literal) -> bool
    ensures { result ≡ has clause.now l }
{
    clause.iter().any(|m| *m == l)
}
