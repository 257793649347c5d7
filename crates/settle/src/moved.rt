//! Which parts of a job have a bit whose root has changed.
ghost use Rattle.std.specs.Prelude.{◌≡◌, ℕ, true, false, IsSomeAnd};
ghost use Rattle.order.specs.declared.bound.Bound.{Bound};
ghost use Rattle.ties.specs.Roots.{root_at};
ghost use Rattle.ties.specs.Views.{roots_of};
ghost use Rattle.kinds.specs.Items.{names};
ghost use Rattle.rows.specs.Rows.{rows_of};
ghost use Rattle.theory.specs.Rounds.{Still};
ghost use Rattle.settle.specs.Parts.{part_names};
ghost use Rattle.settle.specs.Tied.{ranges_in, roots_in};

use crate::tied::TiedVariables;
use kinds::item::Item;
use kinds::reading::range_of;
use order::bound::Bound;
use rows::storage::Rows;
use ties::classes::Ties;

impl TiedVariables<'_> {
    // Whether a bit of the variable has another root than before.
    fn variable_moved(&self, variable: u16, before: &Ties) -> bool
        ensures { result ≡ false → (b : Bound) → b.variable ≡ variable → Still (ranges_in self.now) (root_at (roots_of before.now)) (root_at (roots_in self.now)) b }
    {
        let range = range_of(self.variables.ranges(), variable);
        (u16::from(range.low())..u16::from(range.high()) + 1).any(|at| {
            let literal = self.variables.literal(Bound::at_least(variable, at));
            before.root(literal) != self.ties.root(literal)
        })
    }

    // Whether a bit of a variable that the items name has another root than before.
    fn row_moved(&self, items: &[Item], before: &Ties) -> bool
        ensures { result ≡ false → (b : Bound) → names items.now b.variable ≡ true → Still (ranges_in self.now) (root_at (roots_of before.now)) (root_at (roots_in self.now)) b }
    {
        items
            .iter()
            .any(|item| self.variable_moved(item.variable(), before))
    }

    // Kept as it is: an enum of places is no plainer, since the specs number variables and rows in one run.
    /// Whether a bit of the part at `place` has another root than before; yes where there is no before.
    pub(crate) fn part_moved(&self, rows: &Rows, place: usize, before: Option<&Ties>) -> bool
        ensures { result ≡ false → IsSomeAnd before.entry (λ t. (b : Bound) → part_names (ranges_in self.now) (rows_of rows.now) place b.variable ≡ true → Still (ranges_in self.now) (root_at (roots_of t.now)) (root_at (roots_in self.now)) b) }
    {
        let Some(before) = before else {
            return true;
        };
        let count = self.variables.len();
        if place < count {
            self.variable_moved(place as u16, before)
        } else {
            self.row_moved(rows.items(place - count), before)
        }
    }
}
