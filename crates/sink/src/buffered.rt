//! A sink that keeps a clause file of one format in a buffer of fixed size.
mod takes;

ghost use Rattle.std.specs.Prelude.{◌≡◌, ◌+◌, ◌≤◌, true, vec_len, vec_capacity};
ghost use Rattle.std.specs.Coded.{Coded-set, coded_list};
ghost use Rattle.sink.specs.Limits.{proper_if_any};
ghost use Rattle.sink.specs.Files.{file_by};

use crate::format::Format;
use crate::header::Header;

/// A sink of the units of a format.
///
/// All memory is reserved when it is made, so that taking never lacks any: what is left has room in
/// `units`. These are at all times the file of the header and of the clauses that they hold.
#[derive(Drop)]
pub struct Buffered<F: Format> {
    units: Vec<F::Unit>,
    header: Option<Header>,
    // Kept as it is: the buffer alone is no plainer: it may have room for more units than were asked for.
    left: usize,
    ghost room: { vec_len units + left ≤ vec_capacity units },
    ghost whole: { units.items ≡ file_by F.header_units F.clause_units header (F.clauses_in units.items) } by { Coded-set (coded_list F.Unit.code) _ _ },
    ghost proper: { proper_if_any header ≡ true },
}
