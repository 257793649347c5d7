//! The greater and the lesser of two variables: one rule, in two directions.
ghost use Rattle.std.specs.Prelude.{◌≡◌, if◌then◌else◌, refl};
ghost use Rattle.order.specs.Visits.{After};
ghost use Rattle.kinds.specs.Items.{var};
ghost use Rattle.kinds.specs.Meaning.{valued};
ghost use Rattle.logical.specs.Extreme.{side, least_past, greatest_past, passes, chosen_at, told_at, extreme_clauses, extreme_pairings, extreme};
ghost use Rattle.logical.specs.ExtremeLaws.{extreme_lawful};

use kinds::item::{Item, Tie};
use kinds::kind::Kind;
use kinds::listen::{Listener, Standing};
use kinds::reading;
use order::bound::Bound;
use order::range::Range;
use order::visit::Visitor;
use std::ops;

/// C is the greater of A and B, or the lesser where `DOWN`.
pub struct Extreme<const DOWN: bool>;

/// C is the greater of A and B.
pub type Max = Extreme<false>;

/// C is the lesser of A and B.
pub type Min = Extreme<true>;

// A row: C is the greater of A and B, or the lesser where `down`.
#[derive(Clone, Copy)]
struct Choice {
    // Kept as it is: a const parameter was tried here and is no plainer: each clause then has to name the value at entry.
    down: bool,
    a: u16,
    b: u16,
    c: u16,
}

// X is above its greatest value, which is false.
fn passes(ranges: &[Range], x: u16) -> Bound
    ensures { result ≡ passes ranges.now x }
{
    Bound::at_least(x, u16::from(reading::range_of(ranges, x).high()) + 1)
}

impl Choice {
    // The row of the items.
    fn of(down: bool, items: &[Item]) -> Choice
        ensures down { result.down ≡ down }
        ensures a { result.a ≡ var items.now 0 }
        ensures b { result.b ≡ var items.now 1 }
        ensures c { result.c ≡ var items.now 2 }
    {
        let [a, b, c] = reading::variables::<3>(items);
        Choice { down, a, b, c }
    }

    // X(v), or its opposite where `down`.
    fn side(self, x: u16, v: u16) -> Bound
        ensures { result ≡ side self.down x v }
    {
        Bound {
            variable: x,
            at: v,
            opposed: self.down,
        }
    }

    // Kept as it is: one function for two and for three variables would fold over an array, and is no plainer.
    // The thresholds above the least low of the three variables, and up to the greatest high.
    fn thresholds(self, ranges: &[Range]) -> ops::Range<u16>
        ensures from { result.start ≡ least_past ranges.now self.a self.b self.c }
        ensures past { result.end ≡ greatest_past ranges.now self.a self.b self.c }
    {
        let of_a = reading::range_of(ranges, self.a);
        let of_b = reading::range_of(ranges, self.b);
        let of_c = reading::range_of(ranges, self.c);
        let low = of_a.low().min(of_b.low()).min(of_c.low());
        let high = of_a.high().max(of_b.high()).max(of_c.high());
        u16::from(low) + 1..u16::from(high) + 1
    }

    // Shows the visitor that C holds at v where A or B does, and only there.
    fn visit_at<V: Visitor>(self, v: u16, visitor: &mut V)
        ensures { After V.Visitor.step visitor.old (chosen_at self.down self.a self.b self.c v) visitor.new }
    {
        let a = self.side(self.a, v);
        let b = self.side(self.b, v);
        let c = self.side(self.c, v);
        visitor.visit(&a.implies(c));
        visitor.visit(&b.implies(c));
        visitor.visit(&[a, b, c.opposite()]);
    }

    // Shows the visitor that C is the greater of A and B, or the lesser where `down`.
    #[tactic(auto, using(kinds::proofs::Loops::next))]
    fn visit<V: Visitor>(self, ranges: &[Range], visitor: &mut V)
        ensures { After V.Visitor.step visitor.old (extreme_clauses self.down ranges.now self.a self.b self.c) visitor.new }
    {
        for v in self.thresholds(ranges) {
            self.visit_at(v, visitor);
        }
    }

    // Tells the listener that C holds at v as A does where B does not, and as B does where A does not.
    // Takes a bound of A and one of B that are false.
    fn tell_at<L: Listener>(self, no_a: Bound, no_b: Bound, v: u16, listener: &mut L)
        ensures { After L.Listener.hears listener.old (told_at self.down no_a no_b self.a self.b self.c v) listener.new }
    {
        let a = self.side(self.a, v);
        let b = self.side(self.b, v);
        let c = self.side(self.c, v);
        listener.hear(&[Tie::between(b, no_b)], Tie::between(c, a));
        listener.hear(&[Tie::between(a, no_a)], Tie::between(c, b));
    }

    // Tells the listener the pairings of C, the greater of A and B, or the lesser where `down`.
    #[tactic(auto, using(kinds::proofs::Loops::next))]
    fn tell<L: Listener>(self, ranges: &[Range], listener: &mut L)
        ensures { After L.Listener.hears listener.old (extreme_pairings self.down ranges.now self.a self.b self.c) listener.new }
    {
        let no_a = passes(ranges, self.a);
        let no_b = passes(ranges, self.b);
        for v in self.thresholds(ranges) {
            self.tell_at(no_a, no_b, v, listener);
        }
    }
}

impl<const DOWN: bool> Kind for Extreme<DOWN> {
    const CODE: u8 = if DOWN { 6 } else { 5 };

    const LONGEST: usize = 3;

    ghost CODE = { if DOWN then 6 else 5 };

    ghost LONGEST = { 3 };

    ghost meaning = { extreme DOWN };

    ghost longest_is = { refl };

    ghost lawful = { extreme_lawful DOWN };

    fn formed(items: &[Item]) -> bool {
        reading::only_variables(items, 3)
    }

    fn fits(_items: &[Item], _ranges: &[Range]) -> bool {
        true
    }

    fn met(items: &[Item], values: &[u8]) -> bool {
        // Kept as it is: `map` over the three variables was tried, and is slower.
        let [a, b, c] = reading::variables::<3>(items);
        let a = reading::value_of(values, a);
        let b = reading::value_of(values, b);
        let c = reading::value_of(values, c);
        c == if DOWN { a.min(b) } else { a.max(b) }
    }

    fn visit_clauses<V: Visitor>(items: &[Item], ranges: &[Range], visitor: &mut V) {
        Choice::of(DOWN, items).visit(ranges, visitor)
    }

    fn tell_pairings<L: Listener>(items: &[Item], ranges: &[Range], listener: &mut L) {
        Choice::of(DOWN, items).tell(ranges, listener)
    }

    fn spent<T: Standing>(_items: &[Item], _ranges: &[Range], _ties: &T) -> bool {
        false
    }
}
