//! A clause of bounds as a clause of the file.
mod encoding;

ghost use Rattle.std.specs.Prelude.{◌≡◌, length};
ghost use Rattle.order.specs.Ranges.{total_bits};
ghost use Rattle.order.specs.Variables.{ranges_of};

use crate::numbering::Numbering;
use crate::room::Room;
use crate::roots::Roots;
use order::literal::Literal;
use order::variables::Variables;
use sink::lit::Lit;

/// Turns clauses of bounds into clauses of the file, by the numbers of the free bits of all variables. It has room for
/// one clause, as it is reduced and as it is written.
#[derive(Drop)]
pub struct Encoder<'a, R: Roots> {
    pub variables: &'a Variables,
    numbering: Numbering<'a, R>,
    reduced: Room<Literal>,
    written: Room<Lit>,
    ghost numbered: { length numbering.numbers.items ≡ total_bits (ranges_of variables.now) },
}
