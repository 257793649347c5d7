//! A format of clause files: how a header and a clause are written, and what is read back.
ghost use Rattle.std.specs.Prelude.{◌≡◌, true, List};
ghost use Rattle.sink.specs.declared.header.Header.{Header};
ghost use Rattle.sink.specs.declared.lit.Lit.{Lit};
ghost use Rattle.sink.specs.Buffers.{Room, Appended};
ghost use Rattle.sink.specs.Sinks.{Costs, Lawful, capped, proper_header};
ghost use Rattle.sink.specs.Files.{Rereads, Counts};

use crate::header::Header;
use crate::lit::Lit;

/// A format has units of one type. It is known by the units of a header and of a clause, by the
/// clauses that units hold, and by what a header and a clause cost.
pub trait Format {
    type Unit: Copy;

    ghost header_units: { Header → List Self.Unit };

    ghost clause_units: { List Lit → List Self.Unit };

    ghost clauses_in: { List Self.Unit → List (List Lit) };

    ghost costs: { Costs };

    /// What a header costs.
    fn header_len(header: Header) -> usize
        ensures { result ≡ costs.header header };

    /// What a clause costs; a cost past the largest number is told as that number.
    fn clause_len(clause: &[Lit]) -> usize
        ensures { result ≡ capped (costs.clause clause.now) };

    /// Writes a header into what is reserved.
    fn push_header(out: &mut Vec<Self::Unit>, header: Header)
        requires room { Room out.old (header_units header) }
        requires proper { proper_header header ≡ true }
        ensures { Appended out.old out.new (header_units header) };

    /// Writes a clause into what is reserved.
    fn push_clause(out: &mut Vec<Self::Unit>, clause: &[Lit])
        requires { Room out.old (clause_units clause.now) }
        ensures { Appended out.old out.new (clause_units clause.now) };

    // costs are units, and bounded
    ghost counts: { Counts header_units clause_units costs };

    ghost lawful: { Lawful costs };

    // what is written is read again
    ghost rereads: { Rereads header_units clause_units clauses_in };
}
