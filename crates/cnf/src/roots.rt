//! Where roots come from.
ghost use Rattle.std.specs.Prelude.{◌≡◌, ℕ};
ghost use Rattle.order.specs.declared.literal.Literal.{Literal};
ghost use Rattle.ties.specs.Roots.{root_at, root_by, Named, Fixed};
ghost use Rattle.ties.specs.Views.{roots_of};
ghost use Rattle.std.proofs.Common.{rules};

use order::literal::Literal;
use ties::classes::Ties;

/// A root for each bit: a constant or a bit that is not later, and a root is its own root.
pub trait Roots {
    ghost root: { Self → ℕ → Literal };

    /// The root of a literal.
    fn root_of(&self, literal: Literal) -> Literal
        ensures { result ≡ root_by (root self.now) literal };

    ghost named: { (s : Self) → Named (root s) };

    ghost fixed: { (s : Self) → Fixed (root s) };
}

impl Roots for Ties {
    ghost root = { λ t. root_at (roots_of t) };

    ghost named = { Prim.search rules };

    ghost fixed = { Prim.search rules };

    fn root_of(&self, literal: Literal) -> Literal {
        self.root(literal)
    }
}
