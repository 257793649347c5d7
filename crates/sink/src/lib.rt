//! Where a clause set goes: the trait of a sink, and sinks of DIMACS text and of words.
#![tactic(auto)]

pub mod buffered;
mod decimals;
mod format;
pub mod header;
pub mod lit;
mod printing;
mod proper;
pub mod sinks;
pub mod text;
pub mod wordwise;
