//! How many variables and bits there are, and the literal of a bound.
ghost use Rattle.std.specs.Prelude.{◌≡◌, length};
ghost use Rattle.order.specs.Ranges.{total_bits};
ghost use Rattle.order.specs.Bounds.{reach, literal};
ghost use Rattle.order.specs.Variables.{ranges_of};

use super::Variables;
use crate::bound::Bound;
use crate::literal::Literal;
use crate::range::Range;

impl Variables {
    /// How many variables there are.
    pub fn len(&self) -> usize
        ensures { result ≡ length (ranges_of self.now) }
    {
        self.ranges.len()
    }

    /// How many bits there are.
    pub fn bits(&self) -> usize
        ensures { result ≡ total_bits (ranges_of self.now) }
    {
        self.bits
    }

    /// The range of each variable.
    pub fn ranges(&self) -> &[Range]
        ensures { result.now ≡ ranges_of self.now }
    {
        self.ranges.as_slice()
    }

    // The literal of X(at). A variable that is not there has the value 0 alone.
    fn reach(&self, variable: u16, at: u16) -> Literal
        ensures { result ≡ reach (ranges_of self.now) variable at }
    {
        let x = usize::from(variable);
        let Some(range) = self.ranges.get(x) else {
            return if at == 0 {
                Literal::True
            } else {
                Literal::False
            };
        };
        let low = u16::from(range.low());
        if at <= low {
            Literal::True
        } else if at > u16::from(range.high()) {
            Literal::False
        } else {
            Literal::Bit(self.before[x] + (at - low))
        }
    }

    /// The literal of a bound, at any threshold.
    pub fn literal(&self, bound: Bound) -> Literal
        ensures { result ≡ literal (ranges_of self.now) bound }
    {
        let reached = self.reach(bound.variable, bound.at);
        if bound.opposed {
            reached.opposite()
        } else {
            reached
        }
    }
}
