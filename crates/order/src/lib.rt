//! The order encoding: ranges, bounds, literals, and the bits of each variable.
#![tactic(auto)]

pub mod bound;
pub mod literal;
pub mod range;
pub mod variables;
pub mod visit;
