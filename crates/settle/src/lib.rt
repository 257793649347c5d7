//! Settling: ties are made until they are closed.
#![tactic(auto)]

pub mod follow;
pub mod heed;
pub mod left;
pub mod listing;
mod moved;
mod part;
pub mod settle;
pub mod tied;
mod walk;
