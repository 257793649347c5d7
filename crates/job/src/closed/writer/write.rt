//! Writing a closed job: what it costs first, then header and clauses.
ghost use Rattle.std.specs.Prelude.{◌≡◌, length, IfOk};
ghost use Rattle.cnf.specs.Passed.{total_cost, with_clauses};
ghost use Rattle.calls.specs.Questions.{Replies};
ghost use Rattle.job.specs.Writes.{output, writing};
ghost use Rattle.job.specs.Views.{closed_view, writer_view, encoder_view};

use super::Writer;
use crate::closed::ClosedJob;
use crate::refusal::Refusal;
use cnf::cost::{Costing, Tally};
use cnf::encode::Encoder;
use cnf::put::Putting;
use sink::header::Header;
use sink::sinks::Sink;
use std::alloc::{AllocError, Global};
use std::marker::PhantomData;
use ties::classes::Ties;

impl ClosedJob {
    /// A writer of the job, with all the memory that a writing needs.
    pub fn writer(&self, heap: Global) -> Result<Writer<'_>, AllocError>
        ensures { IfOk result (λ w. writer_view w ≡ closed_view self.now) }
    {
        Ok(Writer {
            encoder: Encoder::new(heap, &self.variables, &self.ties)?,
        })
    }
}

// Counts the clauses that will be written, and adds up what they cost.
fn measure<S: Sink>(encoder: &mut Encoder<'_, Ties>) -> Tally
    ensures same { encoder_view encoder.new ≡ encoder_view encoder.old }
    ensures clauses { result.clauses ≡ length (output (encoder_view encoder.old)) }
    ensures cost { result.cost ≡ total_cost S.Sink.costs (output (encoder_view encoder.old)) }
{
    let variables = encoder.variables;
    let mut costing = Costing::<Ties, S> {
        encoder,
        tally: Tally {
            clauses: 0,
            cost: 0,
        },
        sink: PhantomData,
    };
    variables.visit_orders(&mut costing);
    costing.tally
}

// Puts the clauses into the sink.
fn put<S: Sink>(encoder: &mut Encoder<'_, Ties>, sink: &mut S)
    ensures { S.Sink.state sink.new ≡ with_clauses S.Sink.costs (S.Sink.state sink.old) (output (encoder_view encoder.old)) }
{
    let variables = encoder.variables;
    let mut putting = Putting { encoder, sink };
    variables.visit_orders(&mut putting);
}

impl Writer<'_> {
    /// Writes header and clauses to a sink that has no header and room for all of it.
    pub fn write<S: Sink>(self, sink: &mut S) -> Result<Header, Refusal>
        ensures { Replies (writing S.Sink.costs (writer_view self.entry) (S.Sink.state sink.old)) result (S.Sink.state sink.old) (S.Sink.state sink.new) }
    {
        if sink.has_header() {
            return Err(Refusal::HeaderPresent);
        }
        let Writer { mut encoder } = self;
        let tally = measure::<S>(&mut encoder);
        let header = Header {
            variables: encoder.free(),
            clauses: tally.clauses as u32,
        };
        if S::header_cost(header) + tally.cost > sink.units_left() {
            return Err(Refusal::NoSpace);
        }
        sink.take_header(header);
        put(&mut encoder, sink);
        Ok(header)
    }
}
