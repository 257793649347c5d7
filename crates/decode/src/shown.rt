//! What the bits of variables show: whether they are in order, and the values.
ghost use Rattle.std.specs.Prelude.{◌≡◌, ℕ, length, IfOk};
ghost use Rattle.order.specs.Bounds.{reach};
ghost use Rattle.order.specs.Literals.{truth};
ghost use Rattle.order.specs.Variables.{ranges_of};
ghost use Rattle.kinds.specs.Meaning.{valued};
ghost use Rattle.theory.specs.Values.{value};
ghost use Rattle.promise.specs.Readings.{in_order, first_failing};
ghost use Rattle.decode.specs.Bits.{bit_at};

use crate::bits::literal_truth;
use kinds::reading::range_of;
use order::bound::Bound;
use order::variables::Variables;
use std::alloc::{AllocError, Global};

/// Variables, and the truth of each bit.
#[derive(Clone, Copy)]
pub struct Shown<'a> {
    pub variables: &'a Variables,
    pub bits: &'a [bool],
}

impl Shown<'_> {
    // Whether the variable is at least `at`.
    fn reaches(&self, variable: u16, at: u16) -> bool
        ensures { result ≡ truth (bit_at self.now.bits.now) (reach (ranges_of self.now.variables.now) variable at) }
    {
        let literal = self.variables.literal(Bound::at_least(variable, at));
        literal_truth(self.bits, literal)
    }

    // Whether the bits of a variable are in order: where X reaches t + 1 it reaches t.
    fn is_in_order(&self, variable: u16) -> bool
        ensures { result ≡ in_order (ranges_of self.now.variables.now) (bit_at self.now.bits.now) variable }
    {
        let range = range_of(self.variables.ranges(), variable);
        let mut thresholds = u16::from(range.low()) + 1..u16::from(range.high());
        thresholds.all(|t| self.reaches(variable, t) || !self.reaches(variable, t + 1))
    }

    /// The first variable whose bits are not in order.
    pub fn first_unordered(&self) -> Option<usize>
        ensures { result ≡ first_failing (in_order (ranges_of self.now.variables.now) (bit_at self.now.bits.now)) 0 (length (ranges_of self.now.variables.now)) }
    {
        (0..self.variables.len()).find(|x| !self.is_in_order(*x as u16))
    }

    // The value of a variable: its low, and one for each true bit.
    fn value_of(&self, variable: u16) -> u8
        ensures { result ≡ value (ranges_of self.now.variables.now) (bit_at self.now.bits.now) variable }
    {
        let range = range_of(self.variables.ranges(), variable);
        let thresholds = u16::from(range.low()) + 1..u16::from(range.high()) + 1;
        let reached: u8 = thresholds
            .map(|t| u8::from(self.reaches(variable, t)))
            .sum();
        range.low() + reached
    }

    /// The value of each variable.
    pub fn all_values(&self, heap: Global) -> Result<Vec<u8>, AllocError>
        ensures { IfOk result (λ vs. (length vs.items ≡ length (ranges_of self.now.variables.now)) × ((x : ℕ) → valued vs.items x ≡ value (ranges_of self.now.variables.now) (bit_at self.now.bits.now) x)) }
    {
        (0..self.variables.len())
            .map(|x| self.value_of(x as u16))
            .collect(heap)
    }
}
