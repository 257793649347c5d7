//! Literals: the constants, a bit and a bit's opposite.
ghost use Rattle.std.specs.Prelude.{◌≡◌};
ghost use Rattle.order.specs.Literals.{opposite, TruthBy, entry_or};

/// A literal of a job. Bits are numbered from 1.
#[derive(Clone, Copy, PartialEq, Eq, Debug)]
pub enum Literal {
    False,
    True,
    Bit(u16),
    Not(u16),
}

impl Literal {
    /// The literal that is true where this one is false.
    pub fn opposite(self) -> Literal
        ensures { result ≡ opposite self }
    {
        match self {
            Literal::False => Literal::True,
            Literal::True => Literal::False,
            Literal::Bit(n) => Literal::Not(n),
            Literal::Not(n) => Literal::Bit(n),
        }
    }

    /// Whether it is true, by the truth of each bit.
    pub fn truth<F: Fn(u16) -> bool>(self, bit: F) -> bool
        requires { F.IsAlwaysCallable bit }
        ensures { TruthBy (F.post bit) self result }
    {
        match self {
            Literal::False => false,
            Literal::True => true,
            Literal::Bit(n) => bit(n),
            Literal::Not(n) => !bit(n),
        }
    }
}

/// What a list says of a bit, in the entry before the bit's number; `absent` where it has none.
pub fn entry_or<T: Copy + Drop>(entries: &[T], bit: u16, absent: T) -> T
    ensures { result ≡ entry_or entries.now bit absent }
{
    usize::from(bit)
        .checked_sub(1)
        .and_then(|k| entries.get(k).copied())
        .unwrap_or(absent)
}
