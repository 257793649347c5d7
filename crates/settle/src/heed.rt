//! Making the tie that a clause forces.
ghost use Rattle.std.specs.Prelude.{◌≡◌, ◌≤◌, length};
ghost use Rattle.order.specs.Ranges.{total_bits};
ghost use Rattle.order.specs.Variables.{ranges_of};
ghost use Rattle.ties.specs.Views.{roots_of};
ghost use Rattle.settle.specs.Moves.{Heeded};
ghost use Rattle.settle.specs.Tied.{ranges_in, roots_in};

use crate::left::{Left, left_of};
use crate::tied::{TiedVariables, tie};
use order::bound::Bound;
use order::literal::Literal;
use order::variables::Variables;
use ties::classes::Ties;

/// Makes the tie that a clause forces; no where it leaves no closed set.
pub fn heed(variables: &Variables, ties: &mut Ties, clause: &[Bound]) -> bool
    ensures heeded { total_bits (ranges_of variables.now) ≤ length (roots_of ties.old) → Heeded result (ranges_of variables.now) clause.now (roots_of ties.old) (roots_of ties.new) }
    ensures long { length (roots_of ties.new) ≡ length (roots_of ties.old) }
{
    match left_of(variables, ties, clause) {
        Left::Enough => true,
        Left::Nothing => false,
        Left::One(u) => tie(ties, u, Literal::True),
    }
}

impl TiedVariables<'_> {
    /// Makes the tie that a clause forces; no where it leaves no closed set.
    pub fn heed(&mut self, clause: &[Bound]) -> bool
        ensures heeded { Heeded result (ranges_in self.old) clause.now (roots_in self.old) (roots_in self.new) }
        ensures ranges { ranges_in self.new ≡ ranges_in self.old }
    {
        heed(self.variables, &mut self.ties, clause)
    }
}
