//! One part of a job at a time: a variable with its order clauses, or a row.
ghost use Rattle.std.specs.Prelude.{◌≡◌, map, OnOk};
ghost use Rattle.order.specs.Variables.{ranges_of};
ghost use Rattle.flat.specs.Views.{lists_of};
ghost use Rattle.rows.specs.Rows.{rows_of};
ghost use Rattle.settle.specs.Listed.{clause_list, pairing_list};
ghost use Rattle.settle.specs.Parts.{part_clauses, part_pairings};

use crate::listing::Listing;
use kinds::item::Tie;
use kinds::kinds::Kinds;
use order::bound::Bound;
use order::variables::Variables;
use rows::storage::Rows;
use std::alloc::{AllocError, Global};

/// The clauses and the pairings of a part.
#[derive(Drop)]
pub(crate) struct Part {
    pub(crate) clauses: Listing<(), Bound>,
    pub(crate) pairings: Listing<Tie, Tie>,
}

impl Part {
    /// No clauses and no pairings.
    pub(crate) fn new(heap: Global) -> Part {
        Part {
            clauses: Listing::new(heap),
            pairings: Listing::new(heap),
        }
    }

    /// Lists the clauses and the pairings of the part at `place`.
    pub(crate) fn list<K: Kinds>(
        &mut self,
        variables: &Variables,
        rows: &Rows,
        place: usize,
    ) -> Result<(), AllocError>
        ensures clauses { OnOk result (lists_of self.new.clauses.lists ≡ map clause_list (part_clauses K.Kinds.meaning (ranges_of variables.now) (rows_of rows.now) place)) }
        ensures pairings { OnOk result (lists_of self.new.pairings.lists ≡ map pairing_list (part_pairings K.Kinds.meaning (ranges_of variables.now) (rows_of rows.now) place)) }
    {
        self.clauses.restart();
        self.pairings.restart();
        // Kept as it is: an enum of places is no plainer, since the specs number variables and rows in one run.
        let count = variables.len();
        if place < count {
            variables.visit_order(place, &mut self.clauses);
        } else {
            let row = rows.row(place - count);
            K::visit_clauses(row, variables.ranges(), &mut self.clauses);
            K::tell_pairings(row, variables.ranges(), &mut self.pairings);
        }
        self.clauses.taken?;
        self.pairings.taken
    }
}
