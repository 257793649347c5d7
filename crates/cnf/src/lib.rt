//! From clauses of bounds to the clauses of a file, through the roots of tied literals.
#![tactic(auto)]

pub mod cost;
pub mod encode;
pub mod literals;
pub mod numbering;
pub mod put;
mod reduce;
pub mod role;
mod room;
pub mod roots;
