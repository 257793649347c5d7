//! Making an encoder, and encoding a clause.
ghost use Rattle.std.specs.Prelude.{◌≡◌, ◌≤◌, length, IfOk, option_copied, option_to_list};
ghost use Rattle.std.specs.Borrow.{sem};
ghost use Rattle.order.specs.Ranges.{total_bits};
ghost use Rattle.order.specs.Variables.{ranges_of};
ghost use Rattle.ties.specs.Roots.{free_to};
ghost use Rattle.cnf.specs.Encoded.{encoded, encoder_ranges, encoder_root};
ghost use Rattle.cnf.specs.Lending.{LendsClause};

use super::Encoder;
use crate::numbering::Numbering;
use crate::reduce::reduce;
use crate::room::{MOST_LITERALS, Room};
use crate::roots::Roots;
use order::bound::Bound;
use order::variables::Variables;
use sink::lit::Lit;
use std::alloc::{AllocError, Global};

impl<'a, R: Roots> Encoder<'a, R> {
    /// An encoder for the variables and their roots.
    pub fn new(
        heap: Global,
        variables: &'a Variables,
        roots: &'a R,
    ) -> Result<Encoder<'a, R>, AllocError>
        ensures ranges { IfOk result (λ e. encoder_ranges e ≡ ranges_of variables.now) }
        ensures roots { IfOk result (λ e. encoder_root e ≡ R.root roots.now) }
    {
        Ok(Encoder {
            variables,
            numbering: Numbering::new(heap, roots, variables.bits() as u16)?,
            reduced: Room::new(heap)?,
            written: Room::new(heap)?,
        })
    }

    /// Encodes a clause of at most 64 bounds; none where it is not written.
    pub fn encode(&mut self, clause: &[Bound]) -> Option<&[Lit]>
        ensures* kept { sem 𝓛 (LendsClause R.row R.Roots self.entry) }
        ensures written { length clause.now ≤ 64 → encoded self.old clause.now ≡ option_to_list (option_copied result) }
    {
        if clause.len() > MOST_LITERALS {
            return None;
        }
        let literals = reduce(
            self.variables,
            self.numbering.roots,
            clause,
            &mut self.reduced,
        )?;
        self.numbering.number_all(literals, &mut self.written);
        Some(self.written.literals.as_slice())
    }

    /// How many bits are free: the variables of the file.
    pub fn free(&self) -> u16
        ensures { result ≡ free_to (encoder_root self.now) (total_bits (encoder_ranges self.now)) }
    {
        self.numbering.free()
    }
}
