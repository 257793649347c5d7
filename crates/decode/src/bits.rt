//! The truth of each bit.
ghost use Rattle.std.specs.Prelude.{◌≡◌, ℕ, ◌≤◌, true, length, IfOk};
ghost use Rattle.order.specs.Literals.{truth};
ghost use Rattle.ties.specs.Roots.{root_at, free_to, there};
ghost use Rattle.ties.specs.Views.{roots_of};
ghost use Rattle.cnf.specs.Encoded.{root_in, bits_in};
ghost use Rattle.theory.specs.Truth.{through};
ghost use Rattle.decode.specs.Bits.{number_at, bit_at};

use cnf::numbering::Numbering;
use order::literal::{Literal, entry_or};
use std::alloc::{AllocError, Global};
use ties::classes::Ties;

// The truth of the number at a place; false where there is none.
fn number_truth(truths: &[bool], number: u16) -> bool
    ensures { result ≡ number_at truths.now number }
{
    truths.get(usize::from(number)).copied().unwrap_or(false)
}

/// The truth of a literal, by the truth of each bit.
pub fn literal_truth(bits: &[bool], literal: Literal) -> bool
    ensures { result ≡ truth (bit_at bits.now) literal }
{
    literal.truth(|n| bit_truth(bits, n))
}

// The truth of a bit; false where there is none.
fn bit_truth(bits: &[bool], bit: u16) -> bool
    ensures { result ≡ bit_at bits.now bit }
{
    entry_or(bits, bit, false)
}

/// The truth of each bit, from the truth of the file's numbers: that of its root.
pub fn bit_truths(heap: Global, ties: &Ties, truths: &[bool]) -> Result<Vec<bool>, AllocError>
    ensures { IfOk result (λ bits. (length bits.items ≡ length (roots_of ties.now)) × ((n : ℕ) → 1 ≤ n → n ≤ length (roots_of ties.now) → bit_at bits.items n ≡ through (root_at (roots_of ties.now)) (λ m. number_at truths.now (free_to (root_at (roots_of ties.now)) m)) n)) }
{
    let count = ties.len() as u16;
    let numbering = Numbering::new(heap, ties, count)?;
    let mut bits = Vec::new(heap);
    for n in 1..=count {
        let root = ties.root(Literal::Bit(n));
        bits.push(root_truth(&numbering, truths, root))?;
    }
    Ok(bits)
}

// The truth of a root: a free bit has that of its number.
fn root_truth(numbering: &Numbering<'_, Ties>, truths: &[bool], root: Literal) -> bool
    ensures { there (bits_in numbering.now) root ≡ true → result ≡ truth (λ m. number_at truths.now (free_to (root_in numbering.now) m)) root }
{
    root.truth(|n| number_truth(truths, numbering.number(n)))
}
