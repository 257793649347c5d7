//! A new list of bits, and more of them.
ghost use Rattle.std.specs.Prelude.{◌≡◌, ◌+◌, ◌<◌, ◌≤◌, true, [], vec_len, vec_capacity, MatchResult};
ghost use Rattle.ties.specs.declared.classes.growing.GrowError.TheVariants.{NoMemory};
ghost use Rattle.ties.specs.Roots.{Grown};
ghost use Rattle.ties.specs.Views.{roots_of};
ghost use Rattle.ties.specs.Growth.{Grows, Spare, Keeps, answered};

use super::Ties;
use order::literal::Literal;
use std::alloc::{AllocError, Global};

/// The most bits that there may be.
const MAX_BITS: usize = 4096;

/// Why no bits were added.
#[derive(Clone, Copy, PartialEq, Eq, Debug)]
pub enum GrowError {
    TooManyBits,
    NoMemory,
}

impl From<AllocError> for GrowError {
    ghost from_gives = { λ _ e. e ≡ NoMemory };

    fn from(_e: AllocError) -> GrowError {
        GrowError::NoMemory
    }
}

// Kept as it is: the derive was tried and is refused: no `Clone` without `Copy` for a struct with ghost fields.
impl Clone for Ties {
    ghost use Rattle.ties.specs.Views.{roots_of};

    ghost is_clone = { λ ties copy. roots_of copy ≡ roots_of ties };

    fn clone(&self) -> Result<Ties, AllocError> {
        Ok(Ties {
            roots: Vec::from_slice(*self.roots.allocator(), &self.roots)?,
        })
    }
}

impl Ties {
    /// No bits.
    pub fn new(heap: Global) -> Ties
        ensures { roots_of result ≡ [] }
    {
        Ties {
            roots: Vec::new(heap),
        }
    }

    // Adds a bit that is tied to nothing.
    fn add(&mut self)
        requires few { vec_len self.old.roots < 4096 }
        requires room { vec_len self.old.roots < vec_capacity self.old.roots }
        ensures grown { Grown (roots_of self.old) 1 (roots_of self.new) }
        ensures len { vec_len self.new.roots ≡ vec_len self.old.roots + 1 }
        ensures cap { vec_capacity self.new.roots ≡ vec_capacity self.old.roots }
    {
        let n = self.roots.len() as u16 + 1;
        self.roots.push_reserved(Literal::Bit(n));
    }

    /// Finds memory for `n` bits more.
    pub fn reserve(&mut self, n: usize) -> Result<(), AllocError>
        ensures same { roots_of self.new ≡ roots_of self.old }
        ensures room { MatchResult result (λ _. Spare self.new n) (λ _. (Spare self.old n → ⊥)) }
        ensures kept { Keeps self.old self.new }
    {
        self.roots.reserve(n)
    }

    /// Adds `n` bits that are tied to nothing, or none at an error.
    pub fn grow(&mut self, n: usize) -> Result<(), GrowError>
        ensures grows { Grows result (roots_of self.old) n (roots_of self.new) }
        ensures spare { Spare self.old n → answered result ≡ true }
        ensures kept { Keeps self.old self.new }
    {
        if n > MAX_BITS - self.roots.len() {
            return Err(GrowError::TooManyBits);
        }
        self.reserve(n)?;
        for _i in 0..n {
            self.add();
        }
        Ok(())
    }
}
