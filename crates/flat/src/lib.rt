//! Lists kept one after the other in one list of items.
#![tactic(auto)]

pub mod lists;
