//! A closed job: it is written to sinks, and changes no more.
pub mod writer;

use order::variables::Variables;
use ties::classes::Ties;

/// What an open job held when it was closed.
#[derive(Drop)]
pub struct ClosedJob {
    pub(crate) variables: Variables,
    pub(crate) ties: Ties,
}
