//! Reads a job sheet from standard input and prints its clause file, or one line that tells why there is none.
#![tactic(auto)]

use compile::refused::CompileError;
use compile::{compile, refusal_line};
use std::io::{Read, Write};
use std::process::ExitCode;

// Reads, compiles and prints; the status tells whether there is a clause file.
fn answer(rt: &HostRuntime) -> anyhow::Result<ExitCode> {
    let heap = rt.alloc();
    let mut sheet = Vec::new(heap);
    rt.stdin().read_to_end(&mut sheet)?;
    match compile(heap, sheet.as_slice()) {
        Ok(sink) => {
            rt.stdout().write_all(sink.text())?;
            Ok(ExitCode::SUCCESS)
        }
        Err(CompileError::Refused(refused)) => {
            rt.print(refusal_line(heap, refused)?)?;
            Ok(ExitCode::FAILURE)
        }
        Err(CompileError::NoMemory) => Ok(ExitCode::FAILURE),
    }
}

// Nothing is printed of a failed read or write, or of want of memory: the status is 1.
fn main(rt: HostRuntime) -> ExitCode {
    answer(&rt).unwrap_or(ExitCode::FAILURE)
}
