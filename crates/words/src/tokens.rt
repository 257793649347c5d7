//! A word of a sheet, known by its shape.
ghost use Rattle.words.specs.Tokens.{Reads};

use crate::shapes::{is_name, number};

/// A word by its shape, with its bytes as they stand in the sheet.
#[derive(Clone, Copy, Debug, PartialEq, Eq)]
pub enum Word<'a> {
    Name(&'a [u8]),
    Number(&'a [u8], u16),
    Other(&'a [u8]),
}

impl<'a> Word<'a> {
    /// The shape of a word.
    pub fn of(word: &'a [u8]) -> Word<'a>
        ensures { Reads word.now result }
    {
        if is_name(word) {
            return Word::Name(word);
        }
        match number(word) {
            Some(value) => Word::Number(word, value),
            None => Word::Other(word),
        }
    }
}
