//! Kinds of row: what a kind means, the laws that it keeps, and lists of kinds.
#![tactic(auto)]

pub mod item;
pub mod kind;
pub mod kinds;
pub mod listen;
pub mod reading;
pub mod row;
