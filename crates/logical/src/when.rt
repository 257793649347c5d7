//! A variable that says whether one variable is at most another.
ghost use Rattle.std.specs.Prelude.{◌≡◌, refl};
ghost use Rattle.order.specs.Visits.{After};
ghost use Rattle.kinds.specs.Items.{var};
ghost use Rattle.logical.specs.When.{when, upheld, denied, all_upheld, all_denied};
ghost use Rattle.logical.specs.WhenLaws.{when_lawful};

use kinds::item::Item;
use kinds::kind::Kind;
use kinds::listen::{Listener, Standing};
use kinds::reading;
use order::bound::Bound;
use order::range::Range;
use order::visit::Visitor;

/// X is 1 exactly when A is at most B, and 0 otherwise.
pub struct When;

// A row: X says whether A is at most B.
#[derive(Clone, Copy)]
struct Claim {
    x: u16,
    a: u16,
    b: u16,
}

impl Claim {
    // The row of the items.
    fn of(items: &[Item]) -> Claim
        ensures x { result.x ≡ var items.now 0 }
        ensures a { result.a ≡ var items.now 1 }
        ensures b { result.b ≡ var items.now 2 }
    {
        let [x, a, b] = reading::variables::<3>(items);
        Claim { x, a, b }
    }

    // Shows the visitor that B reaches v where X is 1 and A reaches v.
    fn visit_upheld_at<V: Visitor>(self, v: u8, visitor: &mut V)
        ensures { After V.Visitor.step visitor.old (upheld self.x self.a self.b v) visitor.new }
    {
        let v = u16::from(v);
        visitor.visit(&[
            Bound::below(self.x, 1),
            Bound::below(self.a, v),
            Bound::at_least(self.b, v),
        ]);
    }

    // Shows the visitor that A passes v where X is 0 and B reaches v.
    fn visit_denied_at<V: Visitor>(self, v: u8, visitor: &mut V)
        ensures { After V.Visitor.step visitor.old (denied self.x self.a self.b v) visitor.new }
    {
        let v = u16::from(v);
        visitor.visit(&[
            Bound::at_least(self.x, 1),
            Bound::below(self.b, v),
            Bound::at_least(self.a, v + 1),
        ]);
    }

    // Kept as it is: the two visits below in one, with variable and clause as parameters, are no plainer.
    // Shows the visitor what X says where it is 1.
    #[tactic(auto, using(kinds::proofs::Loops::next))]
    fn visit_upheld<V: Visitor>(self, ranges: &[Range], visitor: &mut V)
        ensures { After V.Visitor.step visitor.old (all_upheld ranges.now self.x self.a self.b) visitor.new }
    {
        let of_a = reading::range_of(ranges, self.a);
        for v in of_a.low()..=of_a.high() {
            self.visit_upheld_at(v, visitor);
        }
    }

    // Shows the visitor what X says where it is 0.
    #[tactic(auto, using(kinds::proofs::Loops::next))]
    fn visit_denied<V: Visitor>(self, ranges: &[Range], visitor: &mut V)
        ensures { After V.Visitor.step visitor.old (all_denied ranges.now self.x self.a self.b) visitor.new }
    {
        let of_b = reading::range_of(ranges, self.b);
        for v in of_b.low()..=of_b.high() {
            self.visit_denied_at(v, visitor);
        }
    }
}

impl Kind for When {
    const CODE: u8 = 9;

    const LONGEST: usize = 3;

    ghost CODE = { 9 };

    ghost LONGEST = { 3 };

    ghost meaning = { when };

    ghost longest_is = { refl };

    ghost lawful = { when_lawful };

    fn formed(items: &[Item]) -> bool {
        reading::only_variables(items, 3)
    }

    fn fits(items: &[Item], ranges: &[Range]) -> bool {
        reading::range_of(ranges, Claim::of(items).x).high() <= 1
    }

    fn met(items: &[Item], values: &[u8]) -> bool {
        let [x, a, b] = reading::variables::<3>(items).map(|v| reading::value_of(values, v));
        x == u8::from(a <= b)
    }

    #[tactic(auto, using(order::proofs::Visiting::after_join))]
    fn visit_clauses<V: Visitor>(items: &[Item], ranges: &[Range], visitor: &mut V) {
        let row = Claim::of(items);
        row.visit_upheld(ranges, visitor);
        row.visit_denied(ranges, visitor);
    }

    fn tell_pairings<L: Listener>(_items: &[Item], _ranges: &[Range], _listener: &mut L) {}

    fn spent<T: Standing>(_items: &[Item], _ranges: &[Range], _ties: &T) -> bool {
        false
    }
}
