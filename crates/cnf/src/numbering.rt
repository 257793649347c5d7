//! The numbers of the free bits: from 1, rising.
ghost use Rattle.cnf.specs.Numbered.{Numbers};

use crate::room::Room;
use crate::roots::Roots;
use order::literal::{Literal, entry_or};
use sink::lit::Lit;
use std::alloc::{AllocError, Global};

/// The bits 1 to n, of which the free ones are numbered from 1, rising: entry k of `numbers` is how many of the bits
/// 1 to k + 1 are free.
#[derive(Drop)]
pub struct Numbering<'a, R: Roots> {
    pub(crate) roots: &'a R,
    numbers: Vec<u16>,
    ghost numbered: { Numbers (R.root roots.now) numbers.items },
}

impl<'a, R: Roots> Numbering<'a, R> {
    ghost use Rattle.std.specs.Prelude.{◌≡◌, ◌≤◌, true, map, length, IfOk};
    ghost use Rattle.ties.specs.Roots.{there, free_to};
    ghost use Rattle.cnf.specs.Numbered.{lit, all_there};
    ghost use Rattle.cnf.specs.Encoded.{root_in, bits_in};

    /// The numbers of the bits 1 to `bits`.
    pub fn new(heap: Global, roots: &'a R, bits: u16) -> Result<Numbering<'a, R>, AllocError>
        ensures roots { IfOk result (λ n. root_in n ≡ R.root roots.now) }
        ensures bits { IfOk result (λ n. bits_in n ≡ bits) }
    {
        let mut numbers = Vec::with_capacity(heap, usize::from(bits))?;
        let mut free = 0;
        for n in 1..=bits {
            let bit = Literal::Bit(n);
            free += u16::from(roots.root_of(bit) == bit);
            numbers.push_reserved(free);
        }
        Ok(Numbering { roots, numbers })
    }

    /// How many of the bits are free: the number of the last that is.
    pub fn free(&self) -> u16
        ensures { result ≡ free_to (root_in self.now) (bits_in self.now) }
    {
        self.numbers.last().copied().unwrap_or(0)
    }

    /// The number of a free bit; 0 where there is none.
    pub fn number(&self, bit: u16) -> u16
        ensures { bit ≤ bits_in self.now → result ≡ free_to (root_in self.now) bit }
    {
        entry_or(&self.numbers, bit, 0)
    }

    // The literal of the file.
    fn lit(&self, literal: Literal) -> Lit
        ensures { there (bits_in self.now) literal ≡ true → result ≡ lit (root_in self.now) literal }
    {
        let (bit, negated) = match literal {
            Literal::False => (0, false),
            Literal::True => (0, true),
            Literal::Bit(n) => (n, false),
            Literal::Not(n) => (n, true),
        };
        Lit {
            variable: self.number(bit),
            negated,
        }
    }

    /// Puts the literals of the file into the room.
    pub(crate) fn number_all(&self, literals: &[Literal], room: &mut Room<Lit>)
        requires { length literals.now ≤ 64 }
        ensures { all_there (bits_in self.now) literals.now ≡ true → room.new.literals.items ≡ map (lit (root_in self.now)) literals.now }
    {
        room.literals.clear();
        for l in literals {
            room.literals.push_reserved(self.lit(*l));
        }
    }
}
