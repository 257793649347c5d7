//! A visitor of clauses: clauses are handed over one by one, and not stored.
ghost use Rattle.std.specs.Prelude.{List};
ghost use Rattle.order.specs.declared.bound.Bound.{Bound};

use crate::bound::Bound;

/// What is shown clauses of bounds, one after the other. `step s c t` says that the clause c takes it
/// from s to t.
pub trait Visitor {
    ghost step: { Self → List Bound → Self → Type 0 };

    /// Takes note of a clause.
    fn visit(&mut self, clause: &[Bound])
        ensures { step self.old clause.now self.new };
}
