//! Settling a job.
ghost use Rattle.std.specs.Prelude.{◌≡◌, length, IfOk};
ghost use Rattle.order.specs.Ranges.{total_bits};
ghost use Rattle.order.specs.Variables.{ranges_of};
ghost use Rattle.ties.specs.Views.{roots_of};
ghost use Rattle.rows.specs.Rows.{rows_of};
ghost use Rattle.calls.specs.Jobs.{Seated, job_of};
ghost use Rattle.settle.specs.Walks.{GrowsTo, SettlesTo};

use crate::part::Part;
use crate::tied::TiedVariables;
use kinds::kinds::Kinds;
use order::variables::Variables;
use rows::storage::Rows;
use std::alloc::{AllocError, Global};
use ties::classes::Ties;

/// Makes ties until they are closed, and gives them; none where no set of ties is closed. The ties that it is given
/// stay as they are; a bit that has no root among them is tied to nothing at first. After a first walk over all parts
/// only those are looked at again in which a root has changed.
pub fn settle<K: Kinds>(
    heap: Global,
    variables: &Variables,
    rows: &Rows,
    ties: &Ties,
) -> Result<Option<Ties>, AllocError>
    ensures grows { length (roots_of ties.now) ≡ total_bits (ranges_of variables.now) → IfOk result (GrowsTo (roots_of ties.now)) }
    ensures settles { Seated K.Kinds.meaning (ranges_of variables.now) (rows_of rows.now) → IfOk result (SettlesTo (job_of K.Kinds.meaning (ranges_of variables.now) (rows_of rows.now)) (roots_of ties.now)) }
{
    let mut tied = TiedVariables::new(variables, ties.clone()?)?;
    let mut part = Part::new(heap);
    let mut before = None;
    loop {
        let start = tied.ties.clone()?;
        if !tied.walk::<K>(rows, before.as_ref(), &mut part)? {
            return Ok(None);
        }
        if tied.ties.free() == start.free() {
            return Ok(Some(tied.ties));
        }
        before = Some(start);
    }
}
