//! Reading a sheet, line by line.
ghost use Rattle.std.specs.Prelude.{◌≡◌, length, IfOk, Some, None, nat_lt};
ghost use Rattle.words.specs.Parts.{bytes};
ghost use Rattle.words.specs.Split.{words};
ghost use Rattle.sheet.specs.Expects.{words_of};
ghost use Rattle.sheet.specs.Lines.{misfit, heading, rule_heading};
ghost use Rattle.sheet.specs.Reads.{Fits, Declares, DeclaresOrRefuses, Steps, Passes};
ghost use Rattle.sheet.specs.declared.reader.reading.LineFault.TheVariants.{NoMemory};
ghost use Rattle.sheet.specs.Sheets.{reading, line_step, variable_line, outcome, end_stop};
ghost use Rattle.sheet.specs.Halting.{Halts};
ghost use Rattle.sheet.specs.Views.{draft_of, outcome_of};

use super::{Reader, Section, Sheet};
use crate::directory::find;
use crate::expect::{take_all, take_name, take_number};
use crate::refusal::{Reason, Stop};
use job::open::OpenJob;
use job::refusal::Fault;
use std::alloc::{AllocError, Global};
use words::lines::{Lines, Words};
use words::parts::Part;

// Whether a sheet has more bytes than it may have.
fn too_long(text: &[u8]) -> bool
    ensures { result ≡ nat_lt 65535 (length text.now) }
{
    text.len() > 65535
}

/// Why a line was not read: it is refused at a word, or there is no memory.
#[derive(Clone, Copy, PartialEq, Eq, Debug)]
pub enum LineFault {
    Refused(Reason, usize),
    NoMemory(AllocError),
}

impl From<AllocError> for LineFault {
    ghost from_gives = { λ e f. f ≡ NoMemory e };

    fn from(error: AllocError) -> LineFault {
        LineFault::NoMemory(error)
    }
}

// The job's refusals pass up whole, at word 1.
impl From<Fault> for LineFault {
    ghost from_gives = { Passes };

    fn from(fault: Fault) -> LineFault {
        match fault {
            Fault::Refused(refusal) => LineFault::Refused(Reason::Job(refusal), 1),
            Fault::NoMemory => LineFault::NoMemory(AllocError),
        }
    }
}

// Kept as it is: one function of both headings is no plainer than `take_all`, which stands below both.
// The first heading: the place of the first word that is wrong, missing or too many.
fn first_heading(text: &[u8], line: Part) -> Result<(), usize>
    ensures { Fits heading (words_of text.now line) result }
{
    take_all(
        &mut Words::within(text, line),
        &[b"name".as_slice(), b"low".as_slice(), b"high".as_slice()],
    )
}

// The second heading, likewise.
fn second_heading(text: &[u8], line: Part) -> Result<(), usize>
    ensures { Fits rule_heading (words_of text.now line) result }
{
    take_all(
        &mut Words::within(text, line),
        &[b"rule".as_slice(), b"items".as_slice()],
    )
}

// The words of a variable line: the name's part and the two numbers; else the place of the first that is not right.
fn variable_words(text: &[u8], line: Part) -> Result<(Part, u16, u16), usize>
    ensures { Declares text.now line result }
{
    let mut words = Words::within(text, line);
    let name = take_name(&mut words).ok_or(1usize)?;
    let low = take_number(&mut words).ok_or(2usize)?;
    let high = take_number(&mut words).ok_or(3usize)?;
    match words.next() {
        Some(_) => Err(4),
        None => Ok((name, low, high)),
    }
}

// The same words, or the refusal of the line.
fn declaration(text: &[u8], line: Part) -> Result<(Part, u16, u16), LineFault>
    ensures { DeclaresOrRefuses text.now line result }
{
    variable_words(text, line).map_err(|place| LineFault::Refused(Reason::BadVariable, place))
}

impl Reader<'_> {
    // A variable line: a name and two numbers, the name new, and the job takes the declaration.
    fn variable(&mut self, line: Part) -> Result<(), LineFault>
        ensures text { self.new.text ≡ self.old.text }
        ensures steps { Steps (variable_line (draft_of self.old) (words_of self.old.text.now line)) result (draft_of self.old) (draft_of self.new) }
    {
        let (name, low, high) = declaration(self.text, line)?;
        if find(self.text, &self.names, name.of(self.text)).is_some() {
            return Err(LineFault::Refused(Reason::NameTaken, 1));
        }
        self.names.reserve(1)?;
        self.job.declare(u32::from(low), u32::from(high))?;
        self.names.push_reserved(name);
        Ok(())
    }

    // One line: the section and the line's shape say what it should be.
    fn take(&mut self, line: Part) -> Result<(), LineFault>
        ensures text { self.new.text ≡ self.old.text }
        ensures steps { Steps (line_step self.old.section (draft_of self.old) (words_of self.old.text.now line)) result (draft_of self.old) (draft_of self.new) }
    {
        match (self.section, Words::within(self.text, line).next()) {
            (Section::Start, _) => {
                first_heading(self.text, line).map_err(|place| LineFault::Refused(
                    Reason::BadHeading,
                    place,
                ))?;
                self.section = Section::Variables;
            }
            (Section::Variables, None) => self.section = Section::Gap,
            (Section::Variables, Some(_)) => return self.variable(line),
            (Section::Gap, _) => {
                second_heading(self.text, line).map_err(|place| LineFault::Refused(
                    Reason::BadRuleHeading,
                    place,
                ))?;
                self.section = Section::Rules;
            }
            (Section::Rules, _) => return Err(LineFault::Refused(Reason::UnknownRule, 1)),
        }
        Ok(())
    }
}

// The refusal of a sheet that ends in the section, where the line with the number `line` would begin.
fn end_stop(section: Section, line: usize) -> Option<Stop>
    ensures { result ≡ end_stop section line }
{
    let reason = match section {
        Section::Start => Reason::BadHeading,
        Section::Gap => Reason::BadRuleHeading,
        Section::Variables | Section::Rules => return None,
    };
    Some(Stop {
        reason,
        line,
        word: 1,
    })
}

impl Reader<'_> {
    // The sheet as it was when a line was refused.
    fn stopped(self, stop: Stop) -> Sheet
        ensures { outcome_of self.entry.text.now result ≡ outcome (draft_of self.entry) (Some stop) }
    {
        let Reader { job, names, .. } = self;
        Sheet {
            job,
            names,
            stop: Some(stop),
        }
    }

    // What reading comes to at a line that was not read.
    fn halted(self, fault: LineFault, line: usize) -> Result<Sheet, AllocError>
        ensures { Halts fault self.entry.text.now (draft_of self.entry) line result }
    {
        match fault {
            LineFault::Refused(reason, word) => Ok(self.stopped(Stop { reason, line, word })),
            LineFault::NoMemory(error) => Err(error),
        }
    }

    // The sheet at its end, which comes where the line with the number `line` would begin.
    fn ended(self, line: usize) -> Sheet
        ensures { outcome_of self.entry.text.now result ≡ outcome (draft_of self.entry) (end_stop self.entry.section line) }
    {
        let Reader {
            job,
            names,
            section,
            ..
        } = self;
        Sheet {
            job,
            names,
            stop: end_stop(section, line),
        }
    }
}

impl Sheet {
    /// Reads a sheet into a new job.
    pub fn read(heap: Global, text: &[u8]) -> Result<Sheet, AllocError>
        ensures { IfOk result (λ s. outcome_of text.now s ≡ reading text.now) }
    {
        let mut reader = Reader {
            text,
            job: OpenJob::new(heap),
            names: Vec::new(heap),
            section: Section::Start,
        };
        if too_long(text) {
            return Ok(reader.stopped(Stop {
                reason: Reason::TooLong,
                line: 1,
                word: 1,
            }));
        }
        let mut line = 1;
        for (part, _) in Lines::of(text) {
            // Kept as it is: `?` and `enumerate` are no plainer: the sheet read so far is made of the reader, and the
            // number of the line after the last is asked for too.
            if let Err(fault) = reader.take(part) {
                return reader.halted(fault, line);
            }
            line += 1;
        }
        Ok(reader.ended(line))
    }
}
