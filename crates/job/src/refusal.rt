//! Why a call on a job was refused.
pub use calls::refusal::{Fault, Refusal};
