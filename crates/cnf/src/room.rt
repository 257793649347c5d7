//! Room for one clause.
ghost use Rattle.std.specs.Prelude.{◌≤◌, vec_capacity};

use std::alloc::{AllocError, Global};

/// The most bounds, and literals, that a clause may have.
pub(crate) const MOST_LITERALS: usize = 64;

/// The literals of one clause, with memory for as many as it may have.
#[derive(Drop)]
pub(crate) struct Room<T> {
    pub(crate) literals: Vec<T>,
    ghost enough: { 64 ≤ vec_capacity literals },
}

impl<T> Room<T> {
    pub(crate) fn new(heap: Global) -> Result<Room<T>, AllocError> {
        Ok(Room {
            literals: Vec::with_capacity(heap, MOST_LITERALS)?,
        })
    }
}
