//! Job sheets: variable lines, read into a new job up to the rules.
#![tactic(auto)]

pub mod directory;
mod expect;
pub mod reader;
pub mod refusal;
