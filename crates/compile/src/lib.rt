//! From a sheet to its clause file, or to the refusal that users see.
#![tactic(auto)]

pub mod refused;

ghost use Rattle.std.specs.Prelude.{◌≡◌, IfOk, string_bytes};
ghost use Rattle.sink.specs.Views.{text_state, fresh};
ghost use Rattle.compile.specs.Compiles.{Compiles};
ghost use Rattle.compile.specs.Told.{refused_line, numbers};

use refused::{CompileError, Refused};
use sheet::reader::Sheet;
use sink::text::TextSink;
use std::alloc::{AllocError, Global};

/// The bytes that a clause file may have.
const FILE_BYTES: usize = 65536;

// An empty file.
fn new_file(heap: Global) -> Result<TextSink, AllocError>
    ensures { IfOk result (λ s. text_state s ≡ fresh 65536) }
{
    TextSink::new(heap, FILE_BYTES)
}

/// Reads a sheet, closes its job and writes it as text.
pub fn compile(heap: Global, text: &[u8]) -> Result<TextSink, CompileError>
    ensures { Compiles text.now result }
{
    let Sheet {
        job,
        names: _,
        stop,
    } = Sheet::read(heap, text)?;
    if let Some(stop) = stop {
        return Err(CompileError::Refused(Refused::Sheet(stop)));
    }
    let closed = job.close();
    let writer = closed.writer(heap)?;
    let mut sink = new_file(heap)?;
    writer.write(&mut sink)?;
    Ok(sink)
}

/// The line that tells a refusal.
pub fn refusal_line(heap: Global, refused: Refused) -> Result<String, AllocError>
    ensures { IfOk result (λ s. string_bytes s ≡ refused_line (numbers refused)) }
{
    format!(in heap; "{refused}\n")
}
