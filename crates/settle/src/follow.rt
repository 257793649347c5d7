//! Making the tie that a pairing gives.
ghost use Rattle.std.specs.Prelude.{◌≡◌, ◌≤◌, length};
ghost use Rattle.order.specs.Ranges.{total_bits};
ghost use Rattle.order.specs.Variables.{ranges_of};
ghost use Rattle.ties.specs.Roots.{root_at, tied};
ghost use Rattle.ties.specs.Views.{roots_of};
ghost use Rattle.kinds.specs.Items.{pairing};
ghost use Rattle.settle.specs.Moves.{all_stand, Followed};
ghost use Rattle.settle.specs.Tied.{ranges_in, roots_in};

use crate::tied::{TiedVariables, root_of, tie};
use kinds::item::Tie;
use order::variables::Variables;
use ties::classes::Ties;

// Whether each of the ties stands.
fn stand(variables: &Variables, ties: &Ties, premise: &[Tie]) -> bool
    ensures { result ≡ all_stand (ranges_of variables.now) (tied (root_at (roots_of ties.now))) premise.now }
{
    premise.iter().all(|tie| root_of(variables, ties, tie.left)
        == root_of(variables, ties, tie.right))
}

/// Makes the tie that a pairing gives where its premise stands; no where it leaves no closed set.
pub fn follow(variables: &Variables, ties: &mut Ties, premise: &[Tie], gives: Tie) -> bool
    ensures followed { total_bits (ranges_of variables.now) ≤ length (roots_of ties.old) → Followed result (ranges_of variables.now) (pairing premise.now gives) (roots_of ties.old) (roots_of ties.new) }
    ensures long { length (roots_of ties.new) ≡ length (roots_of ties.old) }
{
    if !stand(variables, ties, premise) {
        return true;
    }
    tie(
        ties,
        variables.literal(gives.left),
        variables.literal(gives.right),
    )
}

impl TiedVariables<'_> {
    /// Makes the tie that a pairing gives where its premise stands; no where it leaves no closed set.
    pub fn follow(&mut self, premise: &[Tie], gives: Tie) -> bool
        ensures followed { Followed result (ranges_in self.old) (pairing premise.now gives) (roots_in self.old) (roots_in self.new) }
        ensures ranges { ranges_in self.new ≡ ranges_in self.old }
    {
        follow(self.variables, &mut self.ties, premise, gives)
    }
}
