//! From an assignment of the file's numbers to the values of a job, and whether they meet its rows.
#![tactic(auto)]

pub mod bits;
pub mod judging;
pub mod shown;
pub mod values;
