//! A new job, and one variable more.
ghost use Rattle.std.specs.Prelude.{◌≡◌, ◌-◌, true, not};
ghost use Rattle.order.specs.Variables.{ranges_of, few_variables};
ghost use Rattle.calls.specs.Questions.{Answers, answered};
ghost use Rattle.job.specs.Declares.{declaring};
ghost use Rattle.job.specs.View.{new_view};
ghost use Rattle.job.specs.Views.{open_view, SpareBits};

use super::OpenJob;
use crate::refusal::{Fault, Refusal};
use order::range::Range;
use order::variables::Variables;
use std::alloc::Global;
use ties::classes::Ties;

impl OpenJob {
    /// A job with no variable and no tie.
    pub fn new(heap: Global) -> OpenJob
        ensures { open_view result ≡ new_view }
    {
        OpenJob {
            variables: Variables::new(heap),
            ties: Ties::new(heap),
        }
    }

    /// Declares a variable with the values from `low` to `high`, and answers its number.
    pub fn declare(&mut self, low: u32, high: u32) -> Result<usize, Fault>
        ensures answers { Answers (declaring (open_view self.old) low high) result (open_view self.old) (open_view self.new) }
        ensures memory { SpareBits self.old (high - low) → answered result ≡ true }
    {
        let range = Range::new(low, high).ok_or(Refusal::BadRange)?;
        let bits = usize::from(range.width());
        if self.is_full() {
            return Err(Refusal::TooManyVariables.into());
        }
        if self.variables.bits() + bits > 4096 {
            return Err(Refusal::TooManyBits.into());
        }
        // Memory is found before anything changes.
        self.variables.reserve(1)?;
        self.ties.grow(bits)?;
        Ok(self.variables.add(range)?)
    }

    // Whether there is no room for one variable more.
    fn is_full(&self) -> bool
        ensures { result ≡ not (few_variables (ranges_of self.now.variables) 1) }
    {
        self.variables.len() >= 512
    }
}
