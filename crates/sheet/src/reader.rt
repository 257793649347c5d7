//! The reader of a sheet: what a line may be depends on the lines before it.
mod reading;

use crate::refusal::Stop;
use job::open::OpenJob;
use words::parts::Part;

/// What the next line may be: the first heading; variable lines up to a wordless one (the gap); the second
/// heading after the gap; rule lines.
#[derive(Clone, Copy, PartialEq, Eq, Debug)]
pub enum Section {
    Start,
    Variables,
    Gap,
    Rules,
}

/// A sheet that is being read, and what its lines so far have filled. A name is kept by its place in the sheet.
#[derive(Drop)]
pub struct Reader<'a> {
    text: &'a [u8],
    job: OpenJob,
    // Kept as it is: a rule of the project keeps a name as its place in the sheet.
    names: Vec<Part>,
    // Kept as it is: a rule of the project matches the section together with the line.
    section: Section,
}

/// A sheet that was read: its job, the names of the variables by their number, and where it was refused.
/// A refused sheet keeps the lines above the fault.
#[derive(Drop)]
pub struct Sheet {
    pub job: OpenJob,
    pub names: Vec<Part>,
    pub stop: Option<Stop>,
}
