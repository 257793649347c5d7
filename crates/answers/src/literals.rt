//! The literals that the value lines of an answer give.
ghost use Rattle.std.specs.Prelude.{◌≡◌, if◌then◌else◌, Some, None};
ghost use Rattle.sink.specs.Text.{lit_of};
ghost use Rattle.words.specs.Shapes.{number};
ghost use Rattle.words.specs.Split.{words};
ghost use Rattle.answers.specs.declared.literals.LiteralFault.TheVariants.{NoMemory};
ghost use Rattle.answers.specs.Literals.{is_literal, is_plain, Gives, Tells};

use crate::line::Line;
use sink::lit::Lit;
use std::alloc::{AllocFailed, Global};
use words::lines::{Lines, Words};
use words::shapes::decimal;

/// Why no literals were read: a word is no number of the file, or there is no memory.
#[derive(Clone, Copy, Debug, PartialEq, Eq)]
pub enum LiteralFault {
    BadWord,
    NoMemory,
}

impl<T: Drop> From<AllocFailed<T>> for LiteralFault {
    ghost from_gives = { λ _ e. e ≡ NoMemory };

    fn from(_: AllocFailed<T>) -> LiteralFault {
        LiteralFault::NoMemory
    }
}

// The number from 1 to V that digits say, the first of them not 0; none for any other bytes.
fn plain(digits: &[u8], variables: u16) -> Option<u16>
    ensures { result ≡ (if is_plain variables digits.now then Some (number digits.now) else None) }
{
    if let [b'0', ..] = digits {
        return None;
    }
    let variable = u16::try_from(decimal(digits)?).ok()?;
    if variable > variables {
        return None;
    }
    Some(variable)
}

/// The literal of a word: 0, or a number from -V to V with its first digit not 0; none for any other word.
pub fn literal(word: &[u8], variables: u16) -> Option<Lit>
    ensures { result ≡ (if is_literal variables word.now then Some (lit_of word.now) else None) }
{
    let (variable, negated) = match word {
        [b'0'] => (0, false),
        [b'-', digits @ ..] => (plain(digits, variables)?, true),
        _ => (plain(word, variables)?, false),
    };
    Some(Lit { variable, negated })
}

// Adds the literals of one value line, of which v and the blank are taken off.
fn add_line(values: &[u8], variables: u16, out: &mut Vec<Lit>) -> Result<(), LiteralFault>
    ensures { Tells (words values.now) variables out.old result out.new }
{
    for (_, word) in Words::of(values) {
        let lit = literal(word, variables).ok_or(LiteralFault::BadWord)?;
        out.push(lit)?;
    }
    Ok(())
}

/// The literals of all value lines, in order. Each word 0, or a number from -V to V, first digit not 0?
pub fn literals(heap: Global, text: &[u8], variables: u16) -> Result<Vec<Lit>, LiteralFault>
    ensures { Gives text.now variables result }
{
    let mut out = Vec::new(heap);
    for (_, line) in Lines::of(text) {
        let Line::Values(values) = Line::of(line) else {
            continue;
        };
        add_line(values, variables, &mut out)?;
    }
    Ok(out)
}
