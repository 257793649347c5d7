//! What is left of a clause under ties.
ghost use Rattle.order.specs.Variables.{ranges_of};
ghost use Rattle.ties.specs.Roots.{root_at};
ghost use Rattle.ties.specs.Views.{roots_of};
ghost use Rattle.theory.specs.Jobs.{reduced};
ghost use Rattle.settle.specs.GoesOn.{GoesOn};
ghost use Rattle.settle.specs.Leaves.{Leaves};
ghost use Rattle.settle.specs.Tied.{ranges_in, roots_in};

use crate::tied::{TiedVariables, root_of};
use order::bound::Bound;
use order::literal::Literal;
use order::variables::Variables;
use ties::classes::Ties;

/// What is left of a clause when false and repeats are struck out.
// Kept as it is: the new form is no plainer: an option of an option does not say which `None` is the true clause.
#[derive(Clone, Copy, PartialEq, Eq, Debug)]
pub enum Left {
    /// Two literals or more, or the clause is true whatever else is tied.
    Enough,
    /// No literal.
    Nothing,
    /// One literal, by its root.
    One(Literal),
}

// What is left with a further root, where `last` was left, which is false where there was nothing. None where two
// literals are left, or the clause is true.
fn go_on(last: Literal, root: Literal) -> Option<Literal>
    ensures { GoesOn result last root }
{
    // Kept as it is: a rule of the project needs the match with guards on the root.
    match root {
        Literal::True => None,
        Literal::False => Some(last),
        l if l == last => Some(last),
        _ if last == Literal::False => Some(root),
        _ => None,
    }
}

/// What is left of a clause of bounds under the ties.
pub fn left_of(variables: &Variables, ties: &Ties, clause: &[Bound]) -> Left
    ensures { Leaves result (reduced (ranges_of variables.now) (root_at (roots_of ties.now)) clause.now) }
{
    let mut last = Literal::False;
    for bound in clause {
        let Some(further) = go_on(last, root_of(variables, ties, *bound)) else {
            return Left::Enough;
        };
        last = further;
    }
    match last {
        Literal::False => Left::Nothing,
        one => Left::One(one),
    }
}

impl TiedVariables<'_> {
    /// What is left of a clause of bounds under the ties.
    pub fn left_of(&self, clause: &[Bound]) -> Left
        ensures { Leaves result (reduced (ranges_in self.now) (root_at (roots_in self.now)) clause.now) }
    {
        left_of(self.variables, &self.ties, clause)
    }
}
