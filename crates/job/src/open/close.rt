//! Closing a job.
ghost use Rattle.std.specs.Prelude.{◌≡◌};
ghost use Rattle.job.specs.Views.{open_view, closed_view};

use super::OpenJob;
use crate::closed::ClosedJob;

impl OpenJob {
    /// Takes the open job and gives a closed one.
    pub fn close(self) -> ClosedJob
        ensures { closed_view result ≡ open_view self }
    {
        let OpenJob { variables, ties } = self;
        ClosedJob { variables, ties }
    }
}
