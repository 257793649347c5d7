//! A solver's answer.
use answers::assignment::{assignment, ends_with_zero};
use answers::claim::claim;
use answers::line::Status;
use answers::literals::literals;
use std::test::Fail;

const ANSWER: &[u8] = b"c found\ns SATISFIABLE\nv 1 -2 3\nv 4 -5 0\n";

#[test]
fn an_answer_is_taken_apart(rt: HostRuntime) -> Result<(), Fail> {
    assert!(rt; matches!(claim(ANSWER), Ok(Status::Satisfiable)));
    let lits = literals(rt.alloc(), ANSWER, 5)?;
    assert_eq!(rt; lits.len(), 6);
    assert!(rt; ends_with_zero(lits.as_slice()));
    let truths = assignment(rt.alloc(), lits.as_slice(), 5)?;
    assert!(rt; truths.as_slice() == [false, true, false, true, true, false].as_slice());
    Ok(())
}

#[test]
fn a_wrong_answer_is_refused(rt: HostRuntime) -> Result<(), Fail> {
    assert!(rt; claim(b"v 1 0\n").is_err());
    assert!(rt; claim(b"s UNSATISFIABLE\nv 1 0\n").is_err());
    assert!(rt; claim(b"s SATISFIABLE\n\n").is_err());
    assert!(rt; literals(rt.alloc(), b"v 6 0\n", 5).is_err());
    assert!(rt; literals(rt.alloc(), b"v 01 0\n", 5).is_err());
    let twice = literals(rt.alloc(), b"v 1 -1 0\n", 1)?;
    assert!(rt; assignment(rt.alloc(), twice.as_slice(), 1).is_err());
    Ok(())
}
