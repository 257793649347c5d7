//! The kind of row that equates two variables.
ghost use Rattle.std.specs.Prelude.{◌≡◌, refl};
ghost use Rattle.linear.specs.Same.{same, start, end};
ghost use Rattle.linear.specs.SameLaws.{same_lawful};

use kinds::item::{Item, Tie};
use kinds::kind::Kind;
use kinds::listen::{Listener, Standing};
use kinds::reading;
use order::bound::Bound;
use order::range::Range;
use order::visit::Visitor;
use std::ops;

// Kept as it is: one function for two and for three variables would fold over an array, and is no plainer.
// The thresholds of A and B: above the least value of the two, and below what follows the greatest.
fn thresholds(ranges: &[Range], a: u16, b: u16) -> ops::Range<u16>
    ensures first { result.start ≡ start ranges.now a b }
    ensures past { result.end ≡ end ranges.now a b }
{
    let of_a = reading::range_of(ranges, a);
    let of_b = reading::range_of(ranges, b);
    let least = of_a.low().min(of_b.low());
    let greatest = of_a.high().max(of_b.high());
    u16::from(least) + 1..u16::from(greatest) + 1
}

/// A is B.
pub struct Same;

impl Kind for Same {
    const CODE: u8 = 3;

    const LONGEST: usize = 2;

    ghost CODE = { 3 };

    ghost LONGEST = { 2 };

    ghost meaning = { same };

    ghost longest_is = { refl };

    ghost lawful = { same_lawful };

    fn formed(items: &[Item]) -> bool {
        reading::only_variables(items, 2)
    }

    fn fits(_items: &[Item], _ranges: &[Range]) -> bool {
        true
    }

    fn met(items: &[Item], values: &[u8]) -> bool {
        let [a, b] = reading::variables::<2>(items).map(|x| reading::value_of(values, x));
        a == b
    }

    #[tactic(auto, using(kinds::proofs::Loops::next))]
    fn visit_clauses<V: Visitor>(items: &[Item], ranges: &[Range], visitor: &mut V) {
        let [a, b] = reading::variables::<2>(items);
        for t in thresholds(ranges, a, b) {
            visitor.visit(&Bound::at_least(a, t).implies(Bound::at_least(b, t)));
            visitor.visit(&Bound::below(a, t).implies(Bound::below(b, t)));
        }
    }

    #[tactic(auto, using(kinds::proofs::Loops::next))]
    fn tell_pairings<L: Listener>(items: &[Item], ranges: &[Range], listener: &mut L) {
        let [a, b] = reading::variables::<2>(items);
        for t in thresholds(ranges, a, b) {
            listener.hear(
                &[],
                Tie::between(Bound::at_least(a, t), Bound::at_least(b, t)),
            );
        }
    }

    fn spent<T: Standing>(_items: &[Item], _ranges: &[Range], _ties: &T) -> bool {
        false
    }
}
