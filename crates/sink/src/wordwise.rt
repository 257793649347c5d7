//! The word sink: a clause set as signed 32-bit words.
ghost use Rattle.std.specs.Prelude.{◌≡◌};
ghost use Rattle.sink.specs.Wordwise.{lit_word, header_words, clause_words, word_file, clauses_in_words, word_costs};
ghost use Rattle.sink.specs.Cuts.{word_counts, word_lawful, word_rereads};

use crate::buffered::Buffered;
use crate::format::Format;
use crate::header::Header;
use crate::lit::Lit;

/// V and C.
const HEADER_WORDS: usize = 2;

/// Signed words, as a solver in the same process reads them; its units are words.
pub struct Words;

/// A literal as a word: its variable's number, below zero where it is its opposite.
impl From<Lit> for i32 {
    ghost from_gives = { λ l word. word ≡ lit_word l };

    fn from(l: Lit) -> i32 {
        let n = i32::from(l.variable);
        if l.negated { -n } else { n }
    }
}

impl Format for Words {
    type Unit = i32;

    ghost header_units = { header_words };

    ghost clause_units = { clause_words };

    ghost clauses_in = { clauses_in_words };

    ghost costs = { word_costs };

    ghost counts = { word_counts };

    ghost lawful = { word_lawful };

    ghost rereads = { word_rereads };

    fn header_len(_header: Header) -> usize {
        HEADER_WORDS
    }

    fn clause_len(clause: &[Lit]) -> usize {
        clause.len().saturating_add(1)
    }

    fn push_header(out: &mut Vec<i32>, header: Header) {
        out.push_reserved(i32::from(header.variables));
        // Kept as it is: `From` does not narrow, and `try_from` would add an error that cannot come.
        out.push_reserved(header.clauses as i32);
    }

    fn push_clause(out: &mut Vec<i32>, clause: &[Lit]) {
        for l in clause {
            out.push_reserved(i32::from(*l));
        }
        out.push_reserved(0);
    }
}

/// A sink of signed words.
pub type WordSink = Buffered<Words>;

impl WordSink {
    ghost use Rattle.sink.specs.Views.{word_state};

    /// The words as they stand: none before the header, and then those of it and of each clause.
    pub fn words(&self) -> &[i32]
        ensures { result.now ≡ word_file (word_state self.now).header (word_state self.now).clauses }
    {
        self.units()
    }
}
