//! What stands in a row, and ties between bounds.
ghost use Rattle.std.specs.Prelude.{◌≡◌, ◌+◌, ◌^◌, ◌<◌};
ghost use Rattle.kinds.specs.Families.{settled};
ghost use Rattle.kinds.specs.Items.{variable_of, tie};

use crate::reading;
use order::bound::Bound;
use order::range::Range;

/// An item of a row: a variable, or a bound on one.
#[derive(Clone, Copy, PartialEq, Eq, Debug)]
pub enum Item {
    Variable(u16),
    Bounded(Bound),
}

impl Item {
    /// The variable that the item names.
    pub fn variable(self) -> u16
        ensures { result ≡ variable_of self }
    {
        match self {
            Item::Variable(x) => x,
            Item::Bounded(b) => b.variable,
        }
    }
}

/// Two bounds that are said to be equally true.
#[derive(Clone, Copy, PartialEq, Eq, Debug)]
pub struct Tie {
    pub left: Bound,
    pub right: Bound,
}

impl Tie {
    /// The tie between two bounds.
    pub fn between(left: Bound, right: Bound) -> Tie
        ensures { result ≡ tie left right }
    {
        Tie { left, right }
    }

    /// The ties that say that the variable is `value`: it reaches it as it reaches its least value, and what follows
    /// it as it reaches what follows its greatest.
    pub fn settled(ranges: &[Range], variable: u16, value: u16) -> [Tie; 2]
        requires { value + 1 < 2 ^ 16 }
        ensures { result ≡ settled ranges.now variable value }
    {
        let range = reading::range_of(ranges, variable);
        let [low, high] = [range.low(), range.high()].map(u16::from);
        let reaches = |at| Bound::at_least(variable, at);
        [
            Tie::between(reaches(value), reaches(low)),
            Tie::between(reaches(value + 1), reaches(high + 1)),
        ]
    }
}
