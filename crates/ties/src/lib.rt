//! Which literals are tied: an equivalence over the constants, numbered bits and their opposites.
#![tactic(auto)]

pub mod classes;
pub mod joins;
