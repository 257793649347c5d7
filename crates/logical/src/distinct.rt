//! Variables that all differ.
ghost use Rattle.std.specs.Prelude.{◌≡◌, ◌<◌, length, refl};
ghost use Rattle.order.specs.Between.{joined};
ghost use Rattle.order.specs.Visits.{After};
ghost use Rattle.kinds.specs.Items.{var};
ghost use Rattle.kinds.specs.Meaning.{valued};
ghost use Rattle.logical.specs.Distinct.{distinct, differ_later, apart_from, excludes_others};
ghost use Rattle.logical.specs.DistinctLaws.{distinct_lawful};

use crate::neq::Pair;
use kinds::item::Item;
use kinds::kind::Kind;
use kinds::listen::{Listener, Standing};
use kinds::reading;
use order::range::Range;
use order::visit::Visitor;

/// All of 2 to 32 variables differ.
pub struct Distinct;

// Whether the item at p has another value than each later one.
fn differs_later(items: &[Item], values: &[u8], p: usize) -> bool
    requires { p < length items.now }
    ensures { result ≡ differ_later items.now (valued values.now) p }
{
    let value = reading::value_of(values, items[p].variable());
    items[p + 1..].iter().all(|later| value != reading::value_of(values, later.variable()))
}

// Shows the visitor that A differs from each of the later items.
#[tactic(auto, using(kinds::proofs::Loops::next, crate::proofs::OverLists::begin_list))]
fn visit_later<V: Visitor>(a: u16, later: &[Item], ranges: &[Range], visitor: &mut V)
    ensures { After V.Visitor.step visitor.old (joined (apart_from ranges.now a) later.now) visitor.new }
{
    for item in later {
        let b = item.variable();
        Pair { a, b }.visit_apart(ranges, visitor);
    }
}

// Tells the listener that each item but that at p, which is A, is not v where A is.
#[tactic(auto, using(kinds::proofs::Loops::next))]
fn tell_others<L: Listener>(p: usize, a: u16, items: &[Item], ranges: &[Range], listener: &mut L)
    requires { a ≡ var items.now p }
    ensures { After L.Listener.hears listener.old (excludes_others items.now ranges.now p) listener.new }
{
    for (q, item) in items.iter().enumerate() {
        if p != q {
            let b = item.variable();
            Pair { a, b }.tell_excluded(ranges, listener);
        }
    }
}

impl Kind for Distinct {
    const CODE: u8 = 8;

    const LONGEST: usize = 4;

    ghost CODE = { 8 };

    ghost LONGEST = { 4 };

    ghost meaning = { distinct };

    ghost longest_is = { refl };

    ghost lawful = { distinct_lawful };

    fn formed(items: &[Item]) -> bool {
        (2..=32).contains(&items.len()) && reading::only_variables(items, items.len())
    }

    fn fits(_items: &[Item], _ranges: &[Range]) -> bool {
        true
    }

    fn met(items: &[Item], values: &[u8]) -> bool {
        // Kept as it is: `enumerate` with a closure that takes `&items[p + 1..]` was tried, and the proof did not close.
        (0..items.len()).all(|p| differs_later(items, values, p))
    }

    #[tactic(auto, using(kinds::proofs::Loops::next, crate::proofs::OverLists::apart_rest))]
    fn visit_clauses<V: Visitor>(items: &[Item], ranges: &[Range], visitor: &mut V) {
        for (p, item) in items.iter().enumerate() {
            visit_later(item.variable(), &items[p + 1..], ranges, visitor);
        }
    }

    #[tactic(auto, using(kinds::proofs::Loops::next))]
    fn tell_pairings<L: Listener>(items: &[Item], ranges: &[Range], listener: &mut L) {
        for (p, item) in items.iter().enumerate() {
            tell_others(p, item.variable(), items, ranges, listener);
        }
    }

    fn spent<T: Standing>(_items: &[Item], _ranges: &[Range], _ties: &T) -> bool {
        false
    }
}
