//! Literals of a clause file.

/// A literal of a clause file: a variable, numbered from 1, or its opposite.
// Kept as it is: an enum of two cases that each hold a variable is no plainer than a sign beside it.
#[derive(Clone, Copy, Debug, PartialEq, Eq)]
pub struct Lit {
    pub variable: u16,
    pub negated: bool,
}
