//! The directory of names, each kept by its place in the sheet.
ghost use Rattle.std.specs.Prelude.{◌≡◌, map};
ghost use Rattle.words.specs.Parts.{bytes};
ghost use Rattle.sheet.specs.Sheets.{find};

use words::parts::Part;

/// The place of the first name that is the given one.
pub fn find(text: &[u8], names: &[Part], name: &[u8]) -> Option<usize>
    ensures { result ≡ find (map (bytes text.now) names.now) name.now }
{
    names.iter().position(|part| part.of(text) == name)
}
