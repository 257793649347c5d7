//! The kind of row that orders two variables.
ghost use Rattle.std.specs.Prelude.{refl};
ghost use Rattle.linear.specs.Leq.{leq};
ghost use Rattle.linear.specs.LeqLaws.{leq_lawful};

use kinds::item::Item;
use kinds::kind::Kind;
use kinds::listen::{Listener, Standing};
use kinds::reading;
use order::bound::Bound;
use order::range::Range;
use order::visit::Visitor;

/// A is at most B.
pub struct Leq;

impl Kind for Leq {
    const CODE: u8 = 2;

    const LONGEST: usize = 2;

    ghost CODE = { 2 };

    ghost LONGEST = { 2 };

    ghost meaning = { leq };

    ghost longest_is = { refl };

    ghost lawful = { leq_lawful };

    fn formed(items: &[Item]) -> bool {
        reading::only_variables(items, 2)
    }

    fn fits(_items: &[Item], _ranges: &[Range]) -> bool {
        true
    }

    fn met(items: &[Item], values: &[u8]) -> bool {
        let [a, b] = reading::variables::<2>(items).map(|x| reading::value_of(values, x));
        a <= b
    }

    #[tactic(auto, using(kinds::proofs::Loops::next))]
    fn visit_clauses<V: Visitor>(items: &[Item], ranges: &[Range], visitor: &mut V) {
        let [a, b] = reading::variables::<2>(items);
        let of_a = reading::range_of(ranges, a);
        for t in of_a.low()..=of_a.high() {
            let t = u16::from(t);
            visitor.visit(&Bound::at_least(a, t).implies(Bound::at_least(b, t)));
        }
    }

    fn tell_pairings<L: Listener>(_items: &[Item], _ranges: &[Range], _listener: &mut L) {}

    fn spent<T: Standing>(_items: &[Item], _ranges: &[Range], _ties: &T) -> bool {
        false
    }
}
