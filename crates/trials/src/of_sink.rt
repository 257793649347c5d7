//! Sinks of text and of words.
use sink::header::Header;
use sink::lit::Lit;
use sink::sinks::Sink;
use sink::text::TextSink;
use sink::wordwise::WordSink;
use std::test::Fail;

const HEADER: Header = Header {
    variables: 6,
    clauses: 8,
};

const NOT_TWO: Lit = Lit {
    variable: 2,
    negated: true,
};

const ONE: Lit = Lit {
    variable: 1,
    negated: false,
};

#[test]
fn a_file_is_printed(rt: HostRuntime) -> Result<(), Fail> {
    let mut sink = TextSink::new(rt.alloc(), 100)?;
    assert!(rt; sink.take_header(HEADER));
    assert!(rt; sink.take_clause(&[NOT_TWO, ONE]));
    assert!(rt; sink.take_clause(&[]));
    assert!(rt; sink.text() == b"p cnf 6 8\n-2 1 0\n0\n".as_slice());
    assert_eq!(rt; sink.units_left(), 81);
    Ok(())
}

#[test]
fn numbers_of_many_digits_are_printed(rt: HostRuntime) -> Result<(), Fail> {
    let mut sink = TextSink::new(rt.alloc(), 100)?;
    let header = Header {
        variables: 4096,
        clauses: 2147483647,
    };
    assert!(rt; sink.take_header(header));
    let last = Lit {
        variable: 4096,
        negated: true,
    };
    assert!(rt; sink.take_clause(&[last]));
    assert!(rt; sink.text() == b"p cnf 4096 2147483647\n-4096 0\n".as_slice());
    Ok(())
}

#[test]
fn one_header_comes_first(rt: HostRuntime) -> Result<(), Fail> {
    let mut sink = TextSink::new(rt.alloc(), 100)?;
    assert!(rt; !sink.take_clause(&[ONE]));
    assert!(rt; sink.take_header(HEADER));
    assert!(rt; !sink.take_header(HEADER));
    assert!(rt; sink.text() == b"p cnf 6 8\n".as_slice());
    Ok(())
}

#[test]
fn a_clause_too_long_changes_nothing(rt: HostRuntime) -> Result<(), Fail> {
    let mut sink = TextSink::new(rt.alloc(), 16)?;
    assert!(rt; sink.take_header(HEADER));
    assert!(rt; !sink.take_clause(&[NOT_TWO, ONE]));
    assert_eq!(rt; sink.units_left(), 6);
    assert!(rt; sink.text() == b"p cnf 6 8\n".as_slice());
    assert!(rt; sink.take_clause(&[ONE, ONE]));
    Ok(())
}

#[test]
fn a_set_is_worded(rt: HostRuntime) -> Result<(), Fail> {
    let mut sink = WordSink::new(rt.alloc(), 6)?;
    assert!(rt; !sink.take_clause(&[ONE]));
    assert!(rt; sink.take_header(HEADER));
    assert!(rt; !sink.take_header(HEADER));
    assert!(rt; sink.take_clause(&[NOT_TWO, ONE]));
    assert!(rt; !sink.take_clause(&[ONE]));
    assert!(rt; sink.take_clause(&[]));
    assert!(rt; sink.words() == [6, 8, -2, 1, 0, 0].as_slice());
    assert_eq!(rt; sink.units_left(), 0);
    Ok(())
}
