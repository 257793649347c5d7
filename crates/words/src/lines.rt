//! The lines of a text, and the words of a line.
ghost use Rattle.std.specs.Prelude.{◌≡◌, ◌≤◌, ◌==◌, length};
ghost use Rattle.std.specs.Iterator.{item_count};
ghost use Rattle.std.specs.List.{position_or_len};
ghost use Rattle.words.specs.Parts.{bytes, NextLine, NextWord};
ghost use Rattle.words.specs.Split.{lines, words};

use crate::parts::Part;

// How many bytes stand before the first `end`; all of them where there is none.
fn length_to(end: u8, bytes: &[u8]) -> usize
    ensures value { result ≡ position_or_len (λ b. b == end) bytes.now }
    ensures within { result ≤ length bytes.now }
{
    bytes.iter().position(|b| *b == end).unwrap_or(bytes.len())
}

/// The line that begins at `from`, without its LF; none where no byte is left.
pub fn next_line(text: &[u8], from: usize) -> Option<Part>
    ensures { NextLine text.now from result }
{
    if from >= text.len() {
        return None;
    }
    Some(Part {
        start: from,
        end: from + length_to(b'\n', &text[from..]),
    })
}

/// The first word of a part of the text; none where it has blanks alone.
pub fn next_word(text: &[u8], rest: Part) -> Option<Part>
    ensures { NextWord text.now rest result }
{
    let line = rest.of(text);
    let blanks = line.iter().position(|b| *b != b' ')?;
    let start = rest.end.min(text.len()) - (line.len() - blanks);
    Some(Part {
        start,
        end: start + length_to(b' ', &line[blanks..]),
    })
}

/// The lines of a text from a place on, each by its place in the text and its bytes.
#[derive(Clone, Debug, Drop)]
pub struct Lines<'a> {
    pub text: &'a [u8],
    pub at: usize,
}

impl<'a> Lines<'a> {
    ghost use Rattle.words.specs.Lines.{lines_left};

    /// All lines of a text.
    pub fn of(text: &'a [u8]) -> Lines<'a>
        ensures text { result.text.now ≡ text.now }
        ensures all { lines_left result ≡ lines text.now }
    {
        Lines { text, at: 0 }
    }
}

impl<'a> Iterator for Lines<'a> {
    ghost use Rattle.words.specs.Lines.{lines_left, GivesLine};

    type Item = (Part, &'a [u8]);

    ghost next_gives = { GivesLine };

    ghost remaining = { item_count lines_left };

    fn next(&mut self) -> Option<(Part, &'a [u8])> {
        let line = next_line(self.text, self.at)?;
        self.at = line.end + 1;
        Some((line, line.of(self.text)))
    }
}

/// The words of a part of a text, each by its place in the text and its bytes.
#[derive(Clone, Debug, Drop)]
pub struct Words<'a> {
    pub text: &'a [u8],
    pub rest: Part,
}

impl<'a> Words<'a> {
    ghost use Rattle.words.specs.Words.{words_left};

    /// The words of a line.
    pub fn of(line: &'a [u8]) -> Words<'a>
        ensures text { result.text.now ≡ line.now }
        ensures all { words_left result ≡ words line.now }
    {
        Words::within(
            line,
            Part {
                start: 0,
                end: line.len(),
            },
        )
    }

    /// The words of a part of a text.
    pub fn within(text: &'a [u8], part: Part) -> Words<'a>
        ensures text { result.text.now ≡ text.now }
        ensures all { words_left result ≡ words (bytes text.now part) }
    {
        Words { text, rest: part }
    }
}

impl<'a> Iterator for Words<'a> {
    ghost use Rattle.words.specs.Words.{words_left, GivesWord};

    type Item = (Part, &'a [u8]);

    ghost next_gives = { GivesWord };

    ghost remaining = { item_count words_left };

    fn next(&mut self) -> Option<(Part, &'a [u8])> {
        let word = next_word(self.text, self.rest)?;
        self.rest.start = word.end;
        Some((word, word.of(self.text)))
    }
}
