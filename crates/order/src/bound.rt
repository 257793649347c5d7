//! Bounds on a variable.
ghost use Rattle.std.specs.Prelude.{◌≡◌, [], ◌∷◌};
ghost use Rattle.order.specs.Bounds.{reaches, misses, turned};

/// X(at), which says that the variable is at least `at`, or its opposite. A threshold below 0 says the
/// same as 0, and is written so: no variable has a value below 0.
#[derive(Clone, Copy, PartialEq, Eq, Debug)]
pub struct Bound {
    pub variable: u16,
    pub at: u16,
    // Kept as it is: an enum of two cases is no plainer, since both hold a `variable` and an `at`.
    pub opposed: bool,
}

impl Bound {
    /// The variable is at least `at`.
    pub fn at_least(variable: u16, at: u16) -> Bound
        ensures { result ≡ reaches variable at }
    {
        Bound {
            variable,
            at,
            opposed: false,
        }
    }

    /// The variable is below `at`.
    pub fn below(variable: u16, at: u16) -> Bound
        ensures { result ≡ misses variable at }
    {
        Bound {
            variable,
            at,
            opposed: true,
        }
    }

    /// The bound that holds where this one does not.
    pub fn opposite(self) -> Bound
        ensures { result ≡ turned self }
    {
        Bound {
            opposed: !self.opposed,
            ..self
        }
    }

    /// The clause that says: where this bound holds, so does the other.
    pub fn implies(self, other: Bound) -> [Bound; 2]
        ensures { result ≡ turned self ∷ other ∷ [] }
    {
        [self.opposite(), other]
    }
}
