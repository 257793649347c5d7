//! The rows of a job: each a code and a list of items.
#![tactic(auto)]

pub mod adding;
mod reading;
pub mod storage;
