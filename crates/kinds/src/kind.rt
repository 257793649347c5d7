//! The trait of a kind of row.
ghost use Rattle.std.specs.Prelude.{◌≡◌, ℕ};
ghost use Rattle.order.specs.Visits.{After};
ghost use Rattle.kinds.specs.Meaning.{Meaning, Lawful, valued};

use crate::item::Item;
use crate::listen::{Listener, Standing};
use order::range::Range;
use order::visit::Visitor;

/// A kind of row, known by its meaning: which items and ranges it takes, which values meet a row, the
/// row's clauses and pairings, and when it is spent. It answers for any items whatever, and changes nothing.
pub trait Kind {
    /// The code by which rows name the kind.
    // Kept as it is: a rule of the project names kinds by numbers, and a list of kinds may grow.
    const CODE: u8;

    /// The length of the longest clause.
    const LONGEST: usize;

    ghost CODE: { ℕ };

    ghost LONGEST: { ℕ };

    ghost meaning: { Meaning };

    /// Whether number and form of the items are right.
    fn formed(items: &[Item]) -> bool
        ensures { result ≡ meaning.formed items.now };

    // Kept as it is: items and ranges in a struct are no plainer, since `formed` and `met` take the items without ranges.
    // Kept as it is: most kinds answer alike here and in `spent`, but the proof of a default body cannot close: it does not
    // know the meaning.
    /// Whether the ranges of the items' variables fit the kind.
    fn fits(items: &[Item], ranges: &[Range]) -> bool
        ensures { result ≡ meaning.fits items.now ranges.now };

    /// Whether the values meet a row.
    fn met(items: &[Item], values: &[u8]) -> bool
        ensures { result ≡ meaning.meets items.now (valued values.now) };

    /// Shows the visitor a row's clauses, in their order.
    fn visit_clauses<V: Visitor>(items: &[Item], ranges: &[Range], visitor: &mut V)
        ensures { After V.Visitor.step visitor.old (meaning.clauses items.now ranges.now) visitor.new };

    /// Shows the listener a row's pairings, in their order.
    fn tell_pairings<L: Listener>(items: &[Item], ranges: &[Range], listener: &mut L)
        ensures { After L.Listener.hears listener.old (meaning.pairings items.now ranges.now) listener.new };

    /// Whether a row is spent under the ties that stand: they say all that it says.
    fn spent<T: Standing>(items: &[Item], ranges: &[Range], ties: &T) -> bool
        ensures { result ≡ meaning.spends items.now ranges.now (T.Standing.stands ties.now) };

    ghost longest_is: { LONGEST ≡ meaning.longest };

    ghost lawful: { Lawful meaning };
}
