//! The text sink: a DIMACS CNF file in a buffer of fixed size.
ghost use Rattle.std.specs.Prelude.{◌≡◌};
ghost use Rattle.sink.specs.Text.{header_line, clause_line, file, clauses_in, text_costs};
ghost use Rattle.sink.specs.FileSteps.{text_counts, text_lawful, text_rereads};

use crate::buffered::Buffered;
use crate::decimals::{decimal_len, push_decimal};
use crate::format::Format;
use crate::header::Header;
use crate::lit::Lit;
use crate::printing::{lit_len, push_bytes, push_lit};

/// What a clause file begins with.
const OPENING: &[u8; 6] = b"p cnf ";

/// DIMACS text; its units are bytes.
pub struct Text;

impl Format for Text {
    type Unit = u8;

    ghost header_units = { header_line };

    ghost clause_units = { clause_line };

    ghost clauses_in = { clauses_in };

    ghost costs = { text_costs };

    ghost counts = { text_counts };

    ghost lawful = { text_lawful };

    ghost rereads = { text_rereads };

    #[tactic(auto, using(crate::proofs::Numerals::lengths))]
    fn header_len(header: Header) -> usize {
        decimal_len(u32::from(header.variables)) + decimal_len(header.clauses) + 8
    }

    fn clause_len(clause: &[Lit]) -> usize {
        clause
            .iter()
            .fold(2, |len: usize, l| len.saturating_add(lit_len(*l)))
    }

    fn push_header(out: &mut Vec<u8>, header: Header) {
        push_bytes(out, OPENING);
        push_decimal(out, u32::from(header.variables));
        out.push_reserved(b' ');
        push_decimal(out, header.clauses);
        out.push_reserved(b'\n');
    }

    #[tactic(auto, using(crate::specs::PartLengths::lits_fit))]
    fn push_clause(out: &mut Vec<u8>, clause: &[Lit]) {
        for l in clause {
            push_lit(out, *l);
        }
        push_bytes(out, b"0\n");
    }
}

/// A sink of DIMACS text.
pub type TextSink = Buffered<Text>;

impl TextSink {
    ghost use Rattle.sink.specs.Views.{text_state};

    /// The file as it stands: nothing before the header, and then a line for it and for each clause.
    pub fn text(&self) -> &[u8]
        ensures { result.now ≡ file (text_state self.now).header (text_state self.now).clauses }
    {
        self.units()
    }
}
