//! The variables of a job, and the numbers of their bits.
pub mod adding;
mod ordering;
mod reading;

ghost use Rattle.std.specs.Prelude.{◌≡◌, ◌≤◌, vec_len};
ghost use Rattle.order.specs.Ranges.{first, Placed};

use crate::range::Range;

/// Variables are numbered from 0 and bits from 1, as they come, the thresholds of a variable rising.
/// Entry x of `before` is the number of bits that come before those of variable x.
#[derive(Drop)]
pub struct Variables {
    // Kept as it is: one list of pairs is no plainer, since the kinds are lent the ranges as one slice.
    ranges: Vec<Range>,
    before: Vec<u16>,
    bits: usize,
    ghost few: { vec_len ranges ≤ 512 },
    ghost small: { bits ≤ 4096 },
    ghost beside: { vec_len before ≡ vec_len ranges },
    ghost counted: { bits ≡ first ranges.items (vec_len ranges) },
    ghost placed: { Placed ranges.items before.items },
}
