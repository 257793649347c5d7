//! A writer: what a closed job needs to be written, with all memory found.
mod write;

use cnf::encode::Encoder;
use ties::classes::Ties;

/// The parts of a closed job, lent to be written, with an encoder of its clauses.
#[derive(Drop)]
pub struct Writer<'a> {
    encoder: Encoder<'a, Ties>,
}
