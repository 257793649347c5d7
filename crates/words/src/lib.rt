//! Lines and words of a text, and the shapes of single words.
#![tactic(auto)]

pub mod lines;
pub mod parts;
pub mod shapes;
pub mod tokens;
