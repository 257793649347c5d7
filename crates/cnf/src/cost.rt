//! What a list of clauses costs in a sink.
ghost use Rattle.std.specs.Prelude.{◌≡◌};
ghost use Rattle.cnf.specs.Passed.{Counted};

use crate::encode::Encoder;
use crate::roots::Roots;
use order::bound::Bound;
use order::visit::Visitor;
use sink::sinks::Sink;
use std::marker::PhantomData;

/// How many clauses there are, and what they cost together. Past the largest number either stays there.
#[derive(Clone, Copy, PartialEq, Eq, Debug)]
pub struct Tally {
    pub clauses: usize,
    pub cost: usize,
}

/// Counts the clauses that are written of those it is shown, and adds up what they cost in a sink.
#[derive(Drop)]
pub struct Costing<'a, 'b, R: Roots, S> {
    pub encoder: &'b mut Encoder<'a, R>,
    pub tally: Tally,
    pub sink: PhantomData<S>,
}

impl<'a, 'b, R: Roots, S: Sink> Visitor for Costing<'a, 'b, R, S> {
    ghost step = { Counted S.Sink.costs };

    fn visit(&mut self, clause: &[Bound]) {
        if let Some(lits) = self.encoder.encode(clause) {
            self.tally.clauses = self.tally.clauses.saturating_add(1);
            self.tally.cost = self.tally.cost.saturating_add(S::clause_cost(lits));
        }
    }
}
