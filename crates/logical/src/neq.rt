//! Two variables that differ.
ghost use Rattle.std.specs.Prelude.{◌≡◌, ◌+◌, ◌^◌, ◌<◌, ◌≤◌, [], ◌∷◌, refl};
ghost use Rattle.order.specs.Visits.{After};
ghost use Rattle.kinds.specs.Items.{var};
ghost use Rattle.logical.specs.Neq.{neq, shared_from, shared_past, not_both, apart, skips, excludes_each, alike, mirrored, apart_pairings};
ghost use Rattle.logical.specs.NeqLaws.{neq_lawful};

use kinds::item::{Item, Tie};
use kinds::kind::Kind;
use kinds::listen::{Listener, Standing};
use kinds::reading;
use order::bound::Bound;
use order::range::Range;
use order::visit::Visitor;
use std::ops;

/// A and B differ.
pub struct Neq;

// Two variables.
#[derive(Clone, Copy)]
pub(crate) struct Pair {
    pub(crate) a: u16,
    pub(crate) b: u16,
}

impl Pair {
    // The row of the items.
    fn of(items: &[Item]) -> Pair
        ensures a { result.a ≡ var items.now 0 }
        ensures b { result.b ≡ var items.now 1 }
    {
        let [a, b] = reading::variables::<2>(items);
        Pair { a, b }
    }

    // The values that A and B can both have.
    fn shared(self, ranges: &[Range]) -> ops::Range<u16>
        ensures from { result.start ≡ shared_from ranges.now self.a self.b }
        ensures past { result.end ≡ shared_past ranges.now self.a self.b }
        ensures small { result.end ≤ 256 }
    {
        let of_a = reading::range_of(ranges, self.a);
        let of_b = reading::range_of(ranges, self.b);
        let low = of_a.low().max(of_b.low());
        let high = of_a.high().min(of_b.high());
        u16::from(low)..u16::from(high) + 1
    }

    // Shows the visitor that A and B are not both v.
    fn visit_not_both<V: Visitor>(self, v: u16, visitor: &mut V)
        requires { v + 1 < 2 ^ 16 }
        ensures { After V.Visitor.step visitor.old (not_both self.a self.b v) visitor.new }
    {
        visitor.visit(&[
            Bound::below(self.a, v),
            Bound::at_least(self.a, v + 1),
            Bound::below(self.b, v),
            Bound::at_least(self.b, v + 1),
        ]);
    }

    // Shows the visitor that A and B differ.
    #[tactic(auto, using(kinds::proofs::Loops::next))]
    pub(crate) fn visit_apart<V: Visitor>(self, ranges: &[Range], visitor: &mut V)
        ensures { After V.Visitor.step visitor.old (apart ranges.now self.a self.b) visitor.new }
    {
        for v in self.shared(ranges) {
            self.visit_not_both(v, visitor);
        }
    }

    // Tells the listener that B is not v where A is, for each value.
    #[tactic(auto, using(kinds::proofs::Loops::next))]
    pub(crate) fn tell_excluded<L: Listener>(self, ranges: &[Range], listener: &mut L)
        ensures { After L.Listener.hears listener.old (excludes_each ranges.now self.a self.b) listener.new }
    {
        for v in self.shared(ranges) {
            listener.hear(&Tie::settled(ranges, self.a, v), skips(self.b, v));
        }
    }

    // Tells the listener that A is not v where A is v exactly when B is.
    fn tell_matches<L: Listener>(self, v: u16, listener: &mut L)
        requires { v + 1 < 2 ^ 16 }
        ensures { After L.Listener.hears listener.old (alike self.a self.b v ∷ mirrored self.a self.b v ∷ []) listener.new }
    {
        let from_a = Bound::at_least(self.a, v);
        let over_a = Bound::at_least(self.a, v + 1);
        let same = [
            Tie::between(from_a, Bound::at_least(self.b, v)),
            Tie::between(over_a, Bound::at_least(self.b, v + 1)),
        ];
        let turned = [
            Tie::between(from_a, Bound::below(self.b, v + 1)),
            Tie::between(over_a, Bound::below(self.b, v)),
        ];
        listener.hear(&same, skips(self.a, v));
        listener.hear(&turned, skips(self.a, v));
    }

    // Tells the listener the pairings of A and B, which differ.
    #[tactic(auto, using(kinds::proofs::Loops::next))]
    fn tell_apart<L: Listener>(self, ranges: &[Range], listener: &mut L)
        ensures { After L.Listener.hears listener.old (apart_pairings ranges.now self.a self.b) listener.new }
    {
        for v in self.shared(ranges) {
            listener.hear(&Tie::settled(ranges, self.a, v), skips(self.b, v));
            listener.hear(&Tie::settled(ranges, self.b, v), skips(self.a, v));
            self.tell_matches(v, listener);
        }
    }
}

// X is not v.
fn skips(x: u16, v: u16) -> Tie
    requires { v + 1 < 2 ^ 16 }
    ensures { result ≡ skips x v }
{
    Tie::between(Bound::at_least(x, v), Bound::at_least(x, v + 1))
}

impl Kind for Neq {
    const CODE: u8 = 4;

    const LONGEST: usize = 4;

    ghost CODE = { 4 };

    ghost LONGEST = { 4 };

    ghost meaning = { neq };

    ghost longest_is = { refl };

    ghost lawful = { neq_lawful };

    fn formed(items: &[Item]) -> bool {
        reading::only_variables(items, 2)
    }

    fn fits(_items: &[Item], _ranges: &[Range]) -> bool {
        true
    }

    fn met(items: &[Item], values: &[u8]) -> bool {
        let [a, b] = reading::variables::<2>(items).map(|x| reading::value_of(values, x));
        a != b
    }

    fn visit_clauses<V: Visitor>(items: &[Item], ranges: &[Range], visitor: &mut V) {
        Pair::of(items).visit_apart(ranges, visitor)
    }

    fn tell_pairings<L: Listener>(items: &[Item], ranges: &[Range], listener: &mut L) {
        Pair::of(items).tell_apart(ranges, listener)
    }

    fn spent<T: Standing>(_items: &[Item], _ranges: &[Range], _ties: &T) -> bool {
        false
    }
}
