//! An open job: it takes declarations.
mod close;
mod declare;
mod settled;

ghost use Rattle.std.specs.Prelude.{◌≡◌, length};
ghost use Rattle.order.specs.Ranges.{total_bits};
ghost use Rattle.order.specs.Variables.{ranges_of};
ghost use Rattle.ties.specs.Views.{roots_of};

use order::variables::Variables;
use ties::classes::Ties;

/// Variables with their bits, and which literals are tied. Each bit of a variable has its root in `ties`.
#[derive(Drop)]
pub struct OpenJob {
    variables: Variables,
    ties: Ties,
    ghost level: { length (roots_of ties) ≡ total_bits (ranges_of variables) },
}
