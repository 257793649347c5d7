//! Variables whose bits have roots.
ghost use Rattle.std.specs.Prelude.{◌≡◌, ◌≤◌, length};
ghost use Rattle.order.specs.Bounds.{literal};
ghost use Rattle.order.specs.Ranges.{total_bits};
ghost use Rattle.order.specs.Variables.{ranges_of};
ghost use Rattle.ties.specs.Roots.{root_at, root_by};
ghost use Rattle.ties.specs.Views.{roots_of};
ghost use Rattle.settle.specs.Moves.{Tying};

use order::bound::Bound;
use order::literal::Literal;
use order::variables::Variables;
use std::alloc::AllocError;
use ties::classes::Ties;
use ties::joins::Joined;

/// The root of a bound.
pub(crate) fn root_of(variables: &Variables, ties: &Ties, bound: Bound) -> Literal
    ensures { result ≡ root_by (root_at (roots_of ties.now)) (literal (ranges_of variables.now) bound) }
{
    ties.root(variables.literal(bound))
}

// Kept as it is: an error type with one case is no plainer than the no of `tie`, `heed` and `follow`.
/// Ties two literals; no where one is tied to the other's opposite.
pub(crate) fn tie(ties: &mut Ties, a: Literal, b: Literal) -> bool
    ensures tying { Tying result (roots_of ties.old) a b (roots_of ties.new) }
    ensures long { length (roots_of ties.new) ≡ length (roots_of ties.old) }
{
    matches!(ties.join(a, b), Joined::Same | Joined::Made)
}

/// Variables, and ties in which each of their bits has a root.
#[derive(Drop)]
pub struct TiedVariables<'a> {
    pub(crate) variables: &'a Variables,
    pub(crate) ties: Ties,
    ghost rooted: { total_bits (ranges_of variables.now) ≤ length (roots_of ties) },
}

impl<'a> TiedVariables<'a> {
    ghost use Rattle.std.specs.Prelude.{IfOk, IsOk};
    ghost use Rattle.settle.specs.Tied.{ranges_in, roots_in};

    /// The variables with the ties. A bit that has no root there is tied to nothing. Only then may memory be lacking.
    pub fn new(variables: &'a Variables, mut ties: Ties) -> Result<TiedVariables<'a>, AllocError>
        ensures ranges { IfOk result (λ t. ranges_in t ≡ ranges_of variables.now) }
        ensures roots { IfOk result (λ t. root_at (roots_in t) ≡ root_at (roots_of ties)) }
        ensures fits { total_bits (ranges_of variables.now) ≤ length (roots_of ties) → IsOk result }
        ensures same { length (roots_of ties) ≡ total_bits (ranges_of variables.now) → IfOk result (λ t. roots_in t ≡ roots_of ties) }
    {
        let missing = variables.bits().saturating_sub(ties.len());
        ties.reserve(missing)?;
        ties.grow(missing).unwrap();
        Ok(TiedVariables { variables, ties })
    }

    /// The ties as they are now.
    pub fn into_ties(self) -> Ties
        ensures { roots_of result ≡ roots_in self.entry }
    {
        let TiedVariables { ties, .. } = self;
        ties
    }
}
