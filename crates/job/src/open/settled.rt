//! Whether a variable is settled.
ghost use Rattle.std.specs.Prelude.{◌≡◌};
ghost use Rattle.job.specs.Settled.{settled_at};
ghost use Rattle.job.specs.Views.{open_view};

use super::OpenJob;
use order::bound::Bound;
use order::literal::Literal;

impl OpenJob {
    /// Whether the variable is settled at the value: X(value) is tied to true and X(value + 1) to false.
    pub fn is_settled(&self, variable: u16, value: u8) -> bool
        ensures { result ≡ settled_at (open_view self.now) variable value }
    {
        let at = u16::from(value);
        let reached = self.variables.literal(Bound::at_least(variable, at));
        let passed = self.variables.literal(Bound::at_least(variable, at + 1));
        self.ties.tied(reached, Literal::True) && self.ties.tied(passed, Literal::False)
    }
}
