//! Putting a list of clauses into a sink.
ghost use Rattle.std.specs.Prelude.{◌≡◌};
ghost use Rattle.cnf.specs.Passed.{Put};

use crate::encode::Encoder;
use crate::roots::Roots;
use order::bound::Bound;
use order::visit::Visitor;
use sink::sinks::Sink;

/// Puts the clauses that are written of those it is shown into the sink.
#[derive(Drop)]
pub struct Putting<'a, 'b, 'c, R: Roots, S> {
    pub encoder: &'b mut Encoder<'a, R>,
    pub sink: &'c mut S,
}

impl<'a, 'b, 'c, R: Roots, S: Sink> Visitor for Putting<'a, 'b, 'c, R, S> {
    ghost step = { Put S.Sink.costs S.Sink.state };

    fn visit(&mut self, clause: &[Bound]) {
        if let Some(lits) = self.encoder.encode(clause) {
            self.sink.take_clause(lits);
        }
    }
}
