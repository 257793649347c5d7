//! Reading a row: its variables, and their ranges and values.
ghost use Rattle.std.specs.Prelude.{◌≡◌, map};
ghost use Rattle.std.specs.List.{range_with_len};
ghost use Rattle.order.specs.Ranges.{low, high};
ghost use Rattle.kinds.specs.Items.{var, variables_only, plain};
ghost use Rattle.kinds.specs.Meaning.{valued};

use crate::item::Item;
use order::range::Range;
use std::{array, ops};

/// The variable of the item at `k`, or 0 where there is none.
pub fn variable_at(items: &[Item], k: usize) -> u16
    ensures { result ≡ var items.now k }
{
    items.get(k).map_or(0, |item| item.variable())
}

/// The variables of the first N items, or 0 where there is no item.
pub fn variables<const N: usize>(items: &[Item]) -> [u16; N]
    ensures { result ≡ map (var items.now) (range_with_len 0 N) }
{
    array::from_fn(|k| variable_at(items, k))
}

/// The range of the variable; a variable that is not there has the value 0 alone.
pub fn range_of(ranges: &[Range], variable: u16) -> Range
    ensures low { result.low ≡ low ranges.now variable }
    ensures high { result.high ≡ high ranges.now variable }
{
    ranges
        .get(usize::from(variable))
        .copied()
        .unwrap_or(Range::new(0, 0).unwrap())
}

/// The value of the variable, or 0 where it has none.
pub fn value_of(values: &[u8], variable: u16) -> u8
    ensures { result ≡ valued values.now variable }
{
    values.get(usize::from(variable)).copied().unwrap_or(0)
}

// Whether each item is a variable.
fn all_variables(items: &[Item]) -> bool
    ensures { result ≡ variables_only items.now }
{
    items.iter().all(|item| matches!(item, Item::Variable(_)))
}

/// Whether there are `count` items, each a variable.
pub fn only_variables(items: &[Item], count: usize) -> bool
    ensures { result ≡ plain count items.now }
{
    items.len() == count && all_variables(items)
}
