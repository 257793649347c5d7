//! A job of whole-number variables: open while it takes declarations, closed when it is written.
#![tactic(auto)]

pub mod closed;
pub mod open;
pub mod refusal;
