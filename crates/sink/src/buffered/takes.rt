//! Making a sink of a format, reading its units, and taking into it.
ghost use Rattle.std.specs.Prelude.{◌≡◌, IfOk};
ghost use Rattle.sink.specs.Files.{file_by};
ghost use Rattle.sink.specs.Views.{fresh, state_of};
ghost use Rattle.std.proofs.Common.{rules};

use super::Buffered;
use crate::format::Format;
use crate::header::Header;
use crate::lit::Lit;
use crate::proper::{is_proper_header, is_under};
use crate::sinks::Sink;
use std::alloc::{AllocError, Global};

impl<F: Format> Buffered<F> {
    /// A sink for at most `units` units, for which it reserves the memory.
    pub fn new(heap: Global, units: usize) -> Result<Self, AllocError>
        ensures { IfOk result (λ s. state_of s ≡ fresh units) }
    {
        let buffer = Vec::with_capacity(heap, units)?;
        Ok(Buffered {
            units: buffer,
            header: None,
            left: units,
        })
    }

    /// The file as it stands: nothing before the header, and then it and each clause.
    pub(crate) fn units(&self) -> &[F::Unit]
        ensures { result.now ≡ file_by F.header_units F.clause_units (state_of self.now).header (state_of self.now).clauses }
    {
        self.units.as_slice()
    }
}

impl<F: Format> Sink for Buffered<F> {
    ghost state = { state_of };

    ghost costs = { F.costs };

    ghost lawful = { F.lawful };

    ghost headed = { Prim.search rules };

    fn has_header(&self) -> bool {
        self.header.is_some()
    }

    fn units_left(&self) -> usize {
        self.left
    }

    fn header_cost(header: Header) -> usize {
        F::header_len(header)
    }

    fn clause_cost(clause: &[Lit]) -> usize {
        F::clause_len(clause)
    }

    fn take_header(&mut self, header: Header) -> bool {
        if self.header.is_some() || !is_proper_header(header) {
            return false;
        }
        let header_units = F::header_len(header);
        if header_units > self.left {
            return false;
        }
        F::push_header(&mut self.units, header);
        self.header = Some(header);
        self.left -= header_units;
        true
    }

    #[tactic(auto, using(std::proofs::lemmas::List::flat_map_more))]
    fn take_clause(&mut self, clause: &[Lit]) -> bool {
        if !is_under(self.header, clause) {
            return false;
        }
        let clause_units = F::clause_len(clause);
        if clause_units > self.left {
            return false;
        }
        F::push_clause(&mut self.units, clause);
        self.left -= clause_units;
        true
    }
}
