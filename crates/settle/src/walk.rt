//! One walk over all parts of a job: its variables, then its rows.
ghost use Rattle.std.specs.Prelude.{◌≡◌, IfOk, IfSome};
ghost use Rattle.ties.specs.Views.{roots_of};
ghost use Rattle.rows.specs.Rows.{rows_of};
ghost use Rattle.calls.specs.Jobs.{Seated};
ghost use Rattle.settle.specs.Tied.{ranges_in, roots_in};
ghost use Rattle.settle.specs.Walks.{AllSeen, Walked, StepsOn};

use crate::part::Part;
use crate::tied::TiedVariables;
use kinds::kinds::Kinds;
use rows::storage::Rows;
use std::alloc::AllocError;
use ties::classes::Ties;

impl TiedVariables<'_> {
    /// Looks at each part that has a bit with another root than before, or at all parts in the first walk, which has
    /// no ties before it, and makes the ties that they force; no where they leave no closed set.
    pub(crate) fn walk<K: Kinds>(
        &mut self,
        rows: &Rows,
        before: Option<&Ties>,
        part: &mut Part,
    ) -> Result<bool, AllocError>
        ensures ranges { ranges_in self.new ≡ ranges_in self.old }
        ensures further { IfOk result (λ ok. StepsOn ok (roots_in self.old) (roots_in self.new)) }
        ensures walked { Seated K.Kinds.meaning (ranges_in self.old) (rows_of rows.now) → IfSome before.entry (λ b. AllSeen K.Kinds.meaning (ranges_in self.old) (rows_of rows.now) (roots_of b.now) (roots_in self.old)) → IfOk result (λ ok. Walked ok K.Kinds.meaning (ranges_in self.old) (rows_of rows.now) (roots_in self.old) (roots_in self.new)) }
    {
        let count = self.variables.len() + rows.len();
        let mut possible = true;
        // Kept as it is: a rule of the project needs the label: the walk is left from inside at a contradiction, and
        // `possible` says that it was.
        'walk: for place in 0..count {
            if !self.part_moved(rows, place, before) {
                continue;
            }
            part.list::<K>(self.variables, rows, place)?;
            for ((), clause) in &part.clauses.lists {
                if !self.heed(clause) {
                    possible = false;
                    break 'walk;
                }
            }
            for (gives, premise) in &part.pairings.lists {
                if !self.follow(premise, gives) {
                    possible = false;
                    break 'walk;
                }
            }
        }
        Ok(possible)
    }
}
