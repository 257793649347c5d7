//! The values of a variable.
mod making;

ghost use Rattle.std.specs.Prelude.{◌≤◌};

/// The values that a variable may take: `low` to `high`, both included, at most 255.
#[derive(Clone, Copy, PartialEq, Eq, Debug)]
pub struct Range {
    low: u8,
    high: u8,
    ghost ordered: { low ≤ high },
    ghost small: { high ≤ 255 },
}
