//! A new list of variables, and one variable more.
ghost use Rattle.std.specs.Prelude.{◌≡◌, true, [], MatchResult};
ghost use Rattle.order.specs.declared.variables.adding.AddError.TheVariants.{NoMemory};
ghost use Rattle.order.specs.Variables.{ranges_of, Adds, Spare, Keeps, answered};

use super::Variables;
use crate::range::Range;
use std::alloc::{AllocError, Global};

/// Why a variable was not added.
#[derive(Clone, Copy, PartialEq, Eq, Debug)]
pub enum AddError {
    TooManyVariables,
    TooManyBits,
    NoMemory,
}

impl From<AllocError> for AddError {
    ghost from_gives = { λ _ e. e ≡ NoMemory };

    fn from(_e: AllocError) -> AddError {
        AddError::NoMemory
    }
}

impl Variables {
    /// No variables.
    pub fn new(heap: Global) -> Variables
        ensures { ranges_of result ≡ [] }
    {
        Variables {
            ranges: Vec::new(heap),
            before: Vec::new(heap),
            bits: 0,
        }
    }

    /// Finds memory for `n` variables more.
    pub fn reserve(&mut self, n: usize) -> Result<(), AllocError>
        ensures ranges { ranges_of self.new ≡ ranges_of self.old }
        ensures bits { self.new.bits ≡ self.old.bits }
        ensures room { MatchResult result (λ _. Spare self.new n) (λ _. (Spare self.old n → ⊥)) }
        ensures kept { Keeps self.old self.new }
    {
        self.ranges.reserve(n)?;
        self.before.reserve(n)?;
        Ok(())
    }

    /// Adds a variable, and answers its number.
    pub fn add(&mut self, range: Range) -> Result<usize, AddError>
        ensures adds { Adds (ranges_of self.old) range result (ranges_of self.new) }
        ensures spare { Spare self.old 1 → answered result ≡ true }
        ensures kept { Keeps self.old self.new }
    {
        let place = self.ranges.len();
        let bits = self.bits + usize::from(range.width());
        if place >= 512 {
            return Err(AddError::TooManyVariables);
        }
        if bits > 4096 {
            return Err(AddError::TooManyBits);
        }
        self.reserve(1)?;
        self.ranges.push_reserved(range);
        self.before.push_reserved(self.bits as u16);
        self.bits = bits;
        Ok(place)
    }
}
