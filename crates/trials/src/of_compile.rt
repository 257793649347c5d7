//! Sheets, and what users see of them.
use compile::refused::CompileError;
use compile::{compile, refusal_line};
use std::alloc::{AllocError, Global};
use std::process::Abort;
use std::test::Fail;

// The sheet comes to the given text.
fn tells(rt: &impl Abort, heap: Global, sheet: &[u8], expected: &[u8]) -> Result<(), Fail> {
    match compile(heap, sheet) {
        Ok(sink) => assert!(rt; sink.text() == expected),
        Err(CompileError::Refused(refused)) => {
            assert!(rt; refusal_line(heap, refused)?.as_bytes() == expected);
        }
        Err(CompileError::NoMemory) => return Err(AllocError.into()),
    }
    Ok(())
}

// The same for a sheet whose second line is the given one.
fn line_tells(rt: &impl Abort, heap: Global, line: &str, expected: &[u8]) -> Result<(), Fail> {
    let sheet = format!(in heap; "name low high\n{line}\n")?;
    tells(rt, heap, sheet.as_bytes(), expected)
}

// A sheet of so many variables that have these values, and then a last line.
fn many(heap: Global, count: usize, values: &str, last: &str) -> Result<String, AllocError> {
    let mut sheet = String::from_str(heap, "name low high\n")?;
    for i in 0..count {
        let line = format!(in heap; "v{i} {values}\n")?;
        sheet.push_str(line.as_str())?;
    }
    sheet.push_str(last)?;
    Ok(sheet)
}

#[test]
fn a_file_is_written(rt: HostRuntime) -> Result<(), Fail> {
    let heap = rt.alloc();
    let file = b"p cnf 3 2\n-2 1 0\n-3 2 0\n";
    tells(&rt, heap, b"name low high\na 0 3\n", file)?;
    tells(&rt, heap, b" name  low high \n a  000 3", file)?;
    tells(&rt, heap, b"name low high\na 1 4\n\nrule items\n", file)?;
    tells(&rt, heap, b"name low high\n", b"p cnf 0 0\n")
}

#[test]
fn headings_are_refused(rt: HostRuntime) -> Result<(), Fail> {
    let heap = rt.alloc();
    tells(&rt, heap, b"", b"refused 32 1 1 1\n")?;
    tells(&rt, heap, b"name low high\r\n", b"refused 32 1 1 3\n")?;
    tells(&rt, heap, b"name\tlow high\n", b"refused 32 1 1 1\n")?;
    tells(&rt, heap, b"name low high high\n", b"refused 32 1 1 4\n")?;
    tells(&rt, heap, b"name low high\n\n", b"refused 28 1 3 1\n")?;
    tells(&rt, heap, b"name low high\n\nrule\n", b"refused 28 1 3 2\n")?;
    tells(
        &rt,
        heap,
        b"name low high\n\nrule items\nleq a b\n",
        b"refused 29 1 4 1\n",
    )
}

#[test]
fn names_are_refused(rt: HostRuntime) -> Result<(), Fail> {
    let heap = rt.alloc();
    tells(
        &rt,
        heap,
        b"name low high\na\0 0 3\n",
        b"refused 26 1 2 1\n",
    )?;
    tells(
        &rt,
        heap,
        b"name low high\n\xc3\xa4 0 3\n",
        b"refused 26 1 2 1\n",
    )?;
    line_tells(&rt, heap, "a234567890123456 0 0", b"p cnf 0 0\n")?;
    line_tells(&rt, heap, "a2345678901234567 0 0", b"refused 26 1 2 1\n")?;
    line_tells(&rt, heap, "a 0 3\nb 0 3\na 0 3", b"refused 27 1 4 1\n")
}

#[test]
fn values_are_refused(rt: HostRuntime) -> Result<(), Fail> {
    let heap = rt.alloc();
    line_tells(&rt, heap, "a 0 256", b"refused 1 2 2 1\n")?;
    line_tells(&rt, heap, "a 3 2", b"refused 1 2 2 1\n")?;
    line_tells(&rt, heap, "a 0 3\r", b"refused 26 1 2 3\n")?;
    line_tells(&rt, heap, "a 0 0003", b"refused 26 1 2 3\n")?;
    line_tells(&rt, heap, "a 0", b"refused 26 1 2 3\n")?;
    line_tells(&rt, heap, "a 0 3 4", b"refused 26 1 2 4\n")
}

#[test]
fn large_sheets_are_refused(rt: HostRuntime) -> Result<(), Fail> {
    let heap = rt.alloc();
    let blanks = vec![in heap; b' '; 65536]?;
    tells(&rt, heap, &blanks, b"refused 25 1 1 1\n")?;
    tells(&rt, heap, &blanks[1..], b"refused 32 1 1 1\n")?;
    let sheet = many(heap, 512, "0 1", "last 0 0\n")?;
    tells(&rt, heap, sheet.as_bytes(), b"refused 2 2 514 1\n")?;
    let sheet = many(heap, 16, "0 255", "last 0 17\n")?;
    tells(&rt, heap, sheet.as_bytes(), b"refused 3 2 18 1\n")
}

#[test]
fn large_sheets_are_written(rt: HostRuntime) -> Result<(), Fail> {
    let heap = rt.alloc();
    let sheet = many(heap, 512, "3 4", "")?;
    tells(&rt, heap, sheet.as_bytes(), b"p cnf 512 0\n")
}
