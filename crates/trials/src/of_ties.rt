//! Ties that are joined.
use order::literal::Literal;
use std::test::Fail;
use ties::classes::Ties;
use ties::classes::growing::GrowError;
use ties::joins::Joined;

#[test]
fn joins(rt: HostRuntime) -> Result<(), Fail> {
    let mut ties = Ties::new(rt.alloc());
    ties.grow(4)?;
    assert_eq!(rt; ties.join(Literal::Bit(4), Literal::Not(3)), Joined::Made);
    assert_eq!(rt; ties.root(Literal::Bit(4)), Literal::Not(3));
    assert_eq!(rt; ties.join(Literal::Bit(1), Literal::Not(3)), Joined::Made);
    assert_eq!(rt; ties.join(Literal::Bit(1), Literal::Bit(4)), Joined::Same);
    assert_eq!(rt; ties.root(Literal::Not(4)), Literal::Not(1));
    assert_eq!(rt; ties.free(), 2);
    assert_eq!(rt; ties.join(Literal::Bit(3), Literal::True), Joined::Made);
    assert_eq!(rt;
        ties.join(Literal::Bit(1), Literal::Bit(3)),
        Joined::Contradiction
    );
    assert!(rt; ties.tied(Literal::Not(1), Literal::True));
    assert!(rt; !ties.tied(Literal::Bit(2), Literal::True));
    assert_eq!(rt; ties.free(), 1);
    Ok(())
}

#[test]
fn absent(rt: HostRuntime) -> Result<(), Fail> {
    let mut ties = Ties::new(rt.alloc());
    ties.grow(2)?;
    assert_eq!(rt; ties.join(Literal::Bit(1), Literal::Bit(3)), Joined::Absent);
    assert_eq!(rt; ties.join(Literal::Not(0), Literal::True), Joined::Absent);
    assert_eq!(rt; ties.root(Literal::Not(3)), Literal::Not(3));
    assert_eq!(rt; ties.join(Literal::False, Literal::Not(2)), Joined::Made);
    assert_eq!(rt; ties.free(), 1);
    Ok(())
}

#[test]
fn grows(rt: HostRuntime) -> Result<(), Fail> {
    let mut ties = Ties::new(rt.alloc());
    ties.grow(4095)?;
    assert_eq!(rt; ties.grow(2), Err(GrowError::TooManyBits));
    assert_eq!(rt; ties.grow(usize::MAX), Err(GrowError::TooManyBits));
    assert_eq!(rt; ties.len(), 4095);
    ties.grow(1)?;
    assert_eq!(rt; ties.free(), 4096);
    Ok(())
}
