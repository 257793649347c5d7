//! Rows that tell apart, choose and imply.
#![tactic(auto)]

pub mod any;
pub mod distinct;
pub mod extreme;
pub mod neq;
pub mod six;
pub mod when;
