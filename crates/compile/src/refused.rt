//! Why there is no clause file, and how that is told.
ghost use Rattle.std.specs.Prelude.{◌≡◌, Some, Err};
ghost use Rattle.compile.specs.Told.{refused_words, numbers};
ghost use Rattle.compile.specs.declared.refused.CompileError.TheVariants.{NoMemory, Refused as NotCompiled};
ghost use Rattle.compile.specs.declared.refused.Refused.TheVariants.{Writing};

use job::refusal::Refusal;
use sheet::refusal::Stop;
use std::alloc::AllocError;
use std::error::Error;
use std::fmt;

/// A refusal of a sheet, or of the writing of its job.
#[derive(Clone, Copy, PartialEq, Eq, Debug)]
pub enum Refused {
    Sheet(Stop),
    Writing(Refusal),
}

impl fmt::Display for Refused {
    ghost output = { λ r. Some (refused_words (numbers r)) };

    fn fmt<W: fmt::Write>(&self, f: &mut fmt::Formatter<W>) -> fmt::Result {
        match self {
            Refused::Sheet(Stop { reason, line, word }) => {
                let number = reason.number();
                let layer = reason.layer();
                write!(f, "refused {number} {layer} {line} {word}")
            }
            Refused::Writing(refusal) => write!(f, "refused {}", refusal.number()),
        }
    }
}

/// Why there is no clause file: a refusal, or want of memory.
#[derive(Clone, Copy, PartialEq, Eq, Debug)]
pub enum CompileError {
    Refused(Refused),
    NoMemory,
}

impl From<AllocError> for CompileError {
    ghost from_gives = { λ _ e. e ≡ NoMemory };

    fn from(_error: AllocError) -> CompileError {
        CompileError::NoMemory
    }
}

impl From<Refusal> for CompileError {
    ghost from_gives = { λ q e. e ≡ NotCompiled (Writing q) };

    fn from(refusal: Refusal) -> CompileError {
        CompileError::Refused(Refused::Writing(refusal))
    }
}

impl fmt::Display for CompileError {
    fn fmt<W: fmt::Write>(&self, f: &mut fmt::Formatter<W>) -> fmt::Result {
        match self {
            CompileError::Refused(refused) => write!(f, "{refused}"),
            CompileError::NoMemory => write!(f, "out of memory"),
        }
    }
}

impl Error for CompileError {}
