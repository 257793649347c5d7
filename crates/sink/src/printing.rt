//! Parts of a clause file's lines, counted and written into what is reserved.
ghost use Rattle.std.specs.Prelude.{◌≡◌, ◌++◌, length, codes};
ghost use Rattle.sink.specs.Buffers.{Room, Appended};
ghost use Rattle.sink.specs.Text.{lit_text};

use crate::decimals::{decimal_len, push_decimal};
use crate::lit::Lit;

/// The length of a literal with the blank after it.
#[tactic(auto, using(crate::proofs::Numerals::lengths))]
pub(crate) fn lit_len(l: Lit) -> usize
    ensures { result ≡ length (lit_text l ++ codes " ") }
{
    usize::from(l.negated) + decimal_len(u32::from(l.variable)) + 1
}

/// Writes bytes as they are.
// Kept as it is: the proof does not close with `extend_from_slice`, which answers a `Result`, and does not promise that the capacity stays.
pub(crate) fn push_bytes(out: &mut Vec<u8>, bytes: &[u8])
    requires { Room out.old bytes.now }
    ensures { Appended out.old out.new bytes.now }
{
    for b in bytes {
        out.push_reserved(*b);
    }
}

/// Writes a literal and the blank after it.
pub(crate) fn push_lit(out: &mut Vec<u8>, l: Lit)
    requires { Room out.old (lit_text l ++ codes " ") }
    ensures { Appended out.old out.new (lit_text l ++ codes " ") }
{
    if l.negated {
        out.push_reserved(b'-');
    }
    push_decimal(out, u32::from(l.variable));
    out.push_reserved(b' ');
}
