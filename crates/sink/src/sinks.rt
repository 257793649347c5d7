//! A sink: what takes a header once, and then clauses, as long as its units last.
ghost use Rattle.std.specs.Prelude.{◌≡◌, ℕ, Bool, true, false, List, [], is_some};
ghost use Rattle.sink.specs.Sinks.{State, Costs, Lawful, takes_header, with_header, takes_clause, with_clause, capped};

use crate::header::Header;
use crate::lit::Lit;

/// A sink is known by what it holds (its header or none, its clauses, its units left) and by what a
/// header and a clause cost.
pub trait Sink {
    ghost state: { Self → State };

    ghost costs: { Costs };

    /// Whether it has a header.
    fn has_header(&self) -> bool
        ensures { result ≡ is_some (state self.now).header };

    /// How many units are left.
    fn units_left(&self) -> usize
        ensures { result ≡ (state self.now).left };

    /// What a header costs.
    fn header_cost(header: Header) -> usize
        ensures { result ≡ costs.header header };

    /// What a clause costs; a cost past the largest number is told as that number.
    fn clause_cost(clause: &[Lit]) -> usize
        ensures { result ≡ capped (costs.clause clause.now) };

    /// Takes a header, where there is none and its cost fits. Answers whether it was taken.
    fn take_header(&mut self, header: Header) -> bool
        ensures taken { result ≡ takes_header costs (state self.old) header }
        ensures after { state self.new ≡ with_header costs (state self.old) header };

    /// Takes a clause, where there is a header and its cost fits. Answers whether it was taken.
    fn take_clause(&mut self, clause: &[Lit]) -> bool
        ensures taken { result ≡ takes_clause costs (state self.old) clause.now }
        ensures after { state self.new ≡ with_clause costs (state self.old) clause.now };

    ghost lawful: { Lawful costs };

    // clauses come after the header
    ghost headed: { (s : Self) → is_some (state s).header ≡ false → (state s).clauses ≡ [] };
}
