//! What a clause file says of itself first.

/// How many variables and how many clauses a clause file has.
#[derive(Clone, Copy, Debug, PartialEq, Eq)]
pub struct Header {
    pub variables: u16,
    pub clauses: u32,
}
