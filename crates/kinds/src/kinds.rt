//! Lists of kinds, as nested pairs.
ghost use Rattle.std.specs.Prelude.{◌≡◌, ℕ, Bool, true, false, if◌then◌else◌, ◌==◌, nat_eq};
ghost use Rattle.order.specs.Visits.{After};
ghost use Rattle.kinds.specs.Meaning.{Meaning, Lawful, valued, no_kind};
ghost use Rattle.std.proofs.Common.{rules};
ghost use Rattle.kinds.specs.BothKindsLemmas.{either};

use crate::kind::Kind;
use crate::listen::{Listener, Standing};
use crate::row::Row;
use order::range::Range;
use order::visit::Visitor;

/// Kinds of row, told apart by their codes. A code that is not known means a kind that takes no row.
pub trait Kinds {
    ghost known: { ℕ → Bool };

    ghost meaning: { ℕ → Meaning };

    /// Whether there is a kind with the code.
    fn knows(code: u8) -> bool
        ensures { result ≡ known code };

    /// The length of the longest clause of the kind with the code.
    fn longest_clause(code: u8) -> usize
        ensures { result ≡ (meaning code).longest };

    /// Whether number and form of the items are right.
    fn formed(row: Row<'_>) -> bool
        ensures { result ≡ (meaning row.entry.code).formed row.entry.items.now };

    /// Whether the ranges of the items' variables fit the kind.
    fn fits(row: Row<'_>, ranges: &[Range]) -> bool
        ensures { result ≡ (meaning row.entry.code).fits row.entry.items.now ranges.now };

    /// Whether the values meet a row.
    fn met(row: Row<'_>, values: &[u8]) -> bool
        ensures { result ≡ (meaning row.entry.code).meets row.entry.items.now (valued values.now) };

    /// Shows the visitor a row's clauses, in their order.
    fn visit_clauses<V: Visitor>(row: Row<'_>, ranges: &[Range], visitor: &mut V)
        ensures { After V.Visitor.step visitor.old ((meaning row.entry.code).clauses row.entry.items.now ranges.now) visitor.new };

    /// Shows the listener a row's pairings, in their order.
    fn tell_pairings<L: Listener>(row: Row<'_>, ranges: &[Range], listener: &mut L)
        ensures { After L.Listener.hears listener.old ((meaning row.entry.code).pairings row.entry.items.now ranges.now) listener.new };

    /// Whether a row is spent under the ties that stand.
    fn spent<T: Standing>(row: Row<'_>, ranges: &[Range], ties: &T) -> bool
        ensures { result ≡ (meaning row.entry.code).spends row.entry.items.now ranges.now (T.Standing.stands ties.now) };

    ghost lawful: { (code : ℕ) → Lawful (meaning code) };
}

/// No kind.
pub struct End;

impl Kinds for End {
    ghost known = { λ code. false };

    ghost meaning = { λ code. no_kind };

    ghost lawful = { Prim.search rules };

    fn knows(_code: u8) -> bool {
        false
    }

    fn longest_clause(_code: u8) -> usize {
        0
    }

    fn formed(_row: Row<'_>) -> bool {
        false
    }

    fn fits(_row: Row<'_>, _ranges: &[Range]) -> bool {
        false
    }

    fn met(_row: Row<'_>, _values: &[u8]) -> bool {
        true
    }

    fn visit_clauses<V: Visitor>(_row: Row<'_>, _ranges: &[Range], _visitor: &mut V) {}

    fn tell_pairings<L: Listener>(_row: Row<'_>, _ranges: &[Range], _listener: &mut L) {}

    fn spent<T: Standing>(_row: Row<'_>, _ranges: &[Range], _ties: &T) -> bool {
        false
    }
}

/// The kind A, and those of B. Where B has a kind with A's code too, rows of that code are A's: the
/// second kind is never asked.
pub struct Both<A, B> {
    first: A,
    rest: B,
}

impl<A: Kind, B: Kinds> Kinds for Both<A, B> {
    ghost known = { λ code. (if nat_eq code A.Kind.CODE then true else B.Kinds.known code) };

    ghost meaning = { λ code. (if nat_eq code A.Kind.CODE then A.Kind.meaning else B.Kinds.meaning code) };

    ghost lawful = { λ code. either (code == A.Kind.CODE) A.Kind.meaning (B.Kinds.meaning code) A.Kind.lawful (B.Kinds.lawful code) };

    fn knows(code: u8) -> bool {
        if code == A::CODE {
            true
        } else {
            B::knows(code)
        }
    }

    fn longest_clause(code: u8) -> usize {
        if code == A::CODE {
            A::LONGEST
        } else {
            B::longest_clause(code)
        }
    }

    fn formed(row: Row<'_>) -> bool {
        if row.code == A::CODE {
            A::formed(row.items)
        } else {
            B::formed(row)
        }
    }

    fn fits(row: Row<'_>, ranges: &[Range]) -> bool {
        if row.code == A::CODE {
            A::fits(row.items, ranges)
        } else {
            B::fits(row, ranges)
        }
    }

    fn met(row: Row<'_>, values: &[u8]) -> bool {
        if row.code == A::CODE {
            A::met(row.items, values)
        } else {
            B::met(row, values)
        }
    }

    fn visit_clauses<V: Visitor>(row: Row<'_>, ranges: &[Range], visitor: &mut V) {
        if row.code == A::CODE {
            A::visit_clauses(row.items, ranges, visitor)
        } else {
            B::visit_clauses(row, ranges, visitor)
        }
    }

    fn tell_pairings<L: Listener>(row: Row<'_>, ranges: &[Range], listener: &mut L) {
        if row.code == A::CODE {
            A::tell_pairings(row.items, ranges, listener)
        } else {
            B::tell_pairings(row, ranges, listener)
        }
    }

    fn spent<T: Standing>(row: Row<'_>, ranges: &[Range], ties: &T) -> bool {
        if row.code == A::CODE {
            A::spent(row.items, ranges, ties)
        } else {
            B::spent(row, ranges, ties)
        }
    }
}
