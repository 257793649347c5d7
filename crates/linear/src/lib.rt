//! Kinds of row that add, order and equate variables.
#![tactic(auto)]

pub mod base;
pub mod leq;
pub mod plus;
pub mod same;
