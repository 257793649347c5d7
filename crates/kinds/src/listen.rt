//! What pairings are shown to, and what tells which bounds are tied.
ghost use Rattle.std.specs.Prelude.{◌≡◌, Bool};
ghost use Rattle.order.specs.declared.bound.Bound.{Bound};
ghost use Rattle.kinds.specs.Items.{Pairing, pairing};

use crate::item::Tie;

/// What is shown pairings, one after the other: a premise of ties, and the tie that it gives.
/// `hears s p t` says that the pairing p takes it from s to t.
pub trait Listener {
    ghost hears: { Self → Pairing → Self → Type 0 };

    /// Takes note of a pairing.
    // Kept as it is: a struct of premise and tie would be no plainer, since each call would write it out and take it apart.
    fn hear(&mut self, premise: &[Tie], gives: Tie)
        ensures { hears self.old (pairing premise.now gives) self.new };
}

/// Which bounds are tied.
pub trait Standing {
    ghost stands: { Self → Bound → Bound → Bool };

    /// Whether a tie stands.
    fn tied(&self, tie: Tie) -> bool
        ensures { result ≡ stands self.now tie.left tie.right };
}
