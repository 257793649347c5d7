//! Parts of a text by their places in it.
ghost use Rattle.std.specs.Prelude.{◌≡◌};
ghost use Rattle.words.specs.Parts.{bytes};

/// The bytes from `start` on and before `end`; what lies past the text's end is not there.
#[derive(Clone, Copy, Debug, PartialEq, Eq)]
pub struct Part {
    pub start: usize,
    pub end: usize,
}

impl Part {
    /// The bytes of the part.
    pub fn of<'a>(self, text: &'a [u8]) -> &'a [u8]
        ensures { result.now ≡ bytes text.now self }
    {
        let end = self.end.min(text.len());
        let start = self.start.min(end);
        &text[start..end]
    }
}
