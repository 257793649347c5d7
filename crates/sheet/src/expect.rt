//! Words that a line should have, taken one after the other.
ghost use Rattle.std.specs.Prelude.{◌≡◌, map};
ghost use Rattle.std.specs.Str.{bytes_eq};
ghost use Rattle.words.specs.Parts.{bytes};
ghost use Rattle.words.specs.Shapes.{is_name, is_number, number};
ghost use Rattle.words.specs.Words.{words_left};
ghost use Rattle.sheet.specs.Expects.{Takes};
ghost use Rattle.sheet.specs.Reads.{Fits};

use words::lines::Words;
use words::parts::Part;
use words::tokens::Word;

/// Takes a name, and answers its place in the sheet; none where the next word is wrong or missing.
pub(crate) fn take_name(words: &mut Words<'_>) -> Option<Part>
    ensures { Takes is_name (λ w p. bytes words.old.text.now p ≡ w) words.old words.new result }
{
    let (part, word) = words.next()?;
    match Word::of(word) {
        Word::Name(_) => Some(part),
        _ => None,
    }
}

/// Takes a number, and answers its value; none where the next word is wrong or missing.
pub(crate) fn take_number(words: &mut Words<'_>) -> Option<u16>
    ensures { Takes is_number (λ w n. n ≡ number w) words.old words.new result }
{
    let (_, word) = words.next()?;
    match Word::of(word) {
        Word::Number(_, value) => Some(value),
        _ => None,
    }
}

/// Takes just these words and the line's end; else the place of the first word that is wrong, missing or too many.
pub(crate) fn take_all(words: &mut Words<'_>, expected: &[&[u8]]) -> Result<(), usize>
    ensures { Fits (map (λ w. bytes_eq w.now) expected.now) (words_left words.old) result }
{
    for (k, word) in expected.iter().enumerate() {
        match words.next() {
            Some((_, found)) if found == *word => {}
            _ => return Err(k + 1),
        }
    }
    match words.next() {
        Some(_) => Err(expected.len() + 1),
        None => Ok(()),
    }
}
