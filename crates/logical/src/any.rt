//! Bounds of which at least one holds.
ghost use Rattle.std.specs.Prelude.{◌≡◌, refl};
ghost use Rattle.order.specs.Bounds.{holds};
ghost use Rattle.kinds.specs.Meaning.{valued};
ghost use Rattle.logical.specs.Any.{at_least_one, bound_of, bounds_only};
ghost use Rattle.logical.specs.AnyLaws.{any_lawful};

use kinds::item::Item;
use kinds::kind::Kind;
use kinds::listen::{Listener, Standing};
use kinds::reading;
use order::bound::Bound;
use order::range::Range;
use order::visit::Visitor;

/// At least one of 1 to 64 bounds holds.
pub struct Any;

// The most bounds of a row.
const MOST: usize = 64;

// The bound of an item; that of a variable always holds.
fn bound_of(item: Item) -> Bound
    ensures { result ≡ bound_of item }
{
    match item {
        Item::Variable(x) => Bound::at_least(x, 0),
        Item::Bounded(b) => b,
    }
}

// Whether each item is a bound.
fn only_bounds(items: &[Item]) -> bool
    ensures { result ≡ bounds_only items.now }
{
    items.iter().all(|item| matches!(item, Item::Bounded(_)))
}

// Whether a bound holds under the values.
fn holds(bound: Bound, values: &[u8]) -> bool
    ensures { result ≡ holds (valued values.now) bound }
{
    let value = u16::from(reading::value_of(values, bound.variable));
    if bound.opposed {
        value < bound.at
    } else {
        bound.at <= value
    }
}

impl Kind for Any {
    const CODE: u8 = 7;

    const LONGEST: usize = MOST;

    ghost CODE = { 7 };

    ghost LONGEST = { 64 };

    ghost meaning = { at_least_one };

    ghost longest_is = { refl };

    ghost lawful = { any_lawful };

    fn formed(items: &[Item]) -> bool {
        (1..=MOST).contains(&items.len()) && only_bounds(items)
    }

    fn fits(_items: &[Item], _ranges: &[Range]) -> bool {
        true
    }

    fn met(items: &[Item], values: &[u8]) -> bool {
        items.iter().any(|item| holds(bound_of(*item), values))
    }

    fn visit_clauses<V: Visitor>(items: &[Item], _ranges: &[Range], visitor: &mut V) {
        // Kept as it is: a rule of the project needs it: nothing is allocated per clause, so its bounds fill the front of an array.
        // `array::from_fn` was tried, and is slower: it makes all 64 bounds, however few the row has.
        let first = &items[..items.len().min(MOST)];
        let mut clause = [Bound::at_least(0, 0); MOST];
        for (k, item) in first.iter().enumerate() {
            clause[k] = bound_of(*item);
        }
        visitor.visit(&clause[..first.len()]);
    }

    fn tell_pairings<L: Listener>(_items: &[Item], _ranges: &[Range], _listener: &mut L) {}

    fn spent<T: Standing>(_items: &[Item], _ranges: &[Range], _ties: &T) -> bool {
        false
    }
}
