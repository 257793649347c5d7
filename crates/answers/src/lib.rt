//! A solver's answer, taken apart: its lines, its words, and the assignment that they say.
#![tactic(auto)]

pub mod assignment;
pub mod claim;
pub mod line;
pub mod literals;
