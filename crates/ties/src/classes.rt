//! The classes of tied literals, each by its first literal.
pub mod growing;
mod joining;
mod reading;

ghost use Rattle.std.specs.Prelude.{◌≤◌, vec_len};
ghost use Rattle.ties.specs.Roots.{root_at, Lower, Named, Fixed};

use order::literal::Literal;

/// Bits are numbered from 1. Entry n - 1 is the root of bit n: the first literal that is tied to it,
/// in the order false, true, bit 1, its opposite, bit 2 and so on. The root of a bit's opposite is
/// the opposite of the bit's root, so only bits have entries.
#[derive(Drop)]
pub struct Ties {
    roots: Vec<Literal>,
    ghost short: { vec_len roots ≤ 4096 },
    ghost lower: { Lower (root_at roots.items) },
    ghost named: { Named (root_at roots.items) },
    ghost fixed: { Fixed (root_at roots.items) },
}
