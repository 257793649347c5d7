//! Ties that rows force.
use kinds::item::{Item, Tie};
use kinds::kinds::End;
use linear::base::Base;
use order::bound::Bound;
use order::literal::Literal;
use order::range::Range;
use order::variables::Variables;
use rows::storage::Rows;
use settle::follow::follow;
use settle::heed::heed;
use settle::left::{Left, left_of};
use settle::settle::settle;
use settle::tied::TiedVariables;
use std::alloc::Global;
use std::test::Fail;
use ties::classes::Ties;

// The free bits before and after settling A + B = C, for these ranges; none after where the job is void.
fn settled(heap: Global, ranges: &[(u32, u32)]) -> Result<(usize, Option<usize>), Fail> {
    let mut variables = Variables::new(heap);
    for (low, high) in ranges {
        if let Some(range) = Range::new(*low, *high) {
            variables.add(range)?;
        }
    }
    let mut ties = Ties::new(heap);
    ties.reserve(variables.bits())?;
    ties.grow(variables.bits())?;
    let mut rows = Rows::new(heap);
    rows.add(
        1,
        &[Item::Variable(0), Item::Variable(1), Item::Variable(2)],
    )?;
    let copy = ties.clone()?;
    match settle::<Base<End>>(heap, &variables, &rows, &copy)? {
        Some(after) => Ok((copy.free(), Some(after.free()))),
        None => Ok((copy.free(), None)),
    }
}

#[test]
fn a_sum_is_settled(rt: HostRuntime) -> Result<(), Fail> {
    assert_eq!(rt;
        settled(rt.alloc(), &[(0, 5), (0, 5), (5, 5)])?,
        (10, Some(5))
    );
    Ok(())
}

#[test]
fn a_sum_out_of_reach_is_void(rt: HostRuntime) -> Result<(), Fail> {
    assert_eq!(rt; settled(rt.alloc(), &[(0, 1), (0, 1), (3, 3)])?, (2, None));
    Ok(())
}

// A and B have a bit each, which A >= 1 and B >= 1 are.
#[test]
fn a_clause_and_a_pairing_make_ties(rt: HostRuntime) -> Result<(), Fail> {
    let heap = rt.alloc();
    let mut variables = Variables::new(heap);
    for _ in 0..2 {
        if let Some(range) = Range::new(0, 1) {
            variables.add(range)?;
        }
    }
    assert_eq!(rt; variables.len(), 2);
    let mut tied = TiedVariables::new(&variables, Ties::new(heap))?;
    let one = Bound::at_least(0, 1);
    let other = Bound::at_least(1, 1);
    let settled = Tie::between(one, Bound::at_least(0, 0));
    let same = Tie::between(one, other);
    assert!(rt; tied.follow(&[settled], same));
    assert!(rt; tied.heed(&[Bound::below(1, 1), one]));
    assert!(rt; tied.heed(&[one]));
    assert!(rt; tied.follow(&[settled], same));
    assert!(rt; !tied.heed(&[Bound::below(1, 1)]));
    assert_eq!(rt; tied.into_ties().free(), 0);
    Ok(())
}

// The same steps over ties that are lent.
#[test]
fn steps_take_ties_that_are_lent(rt: HostRuntime) -> Result<(), Fail> {
    let heap = rt.alloc();
    let mut variables = Variables::new(heap);
    for _ in 0..2 {
        if let Some(range) = Range::new(0, 1) {
            variables.add(range)?;
        }
    }
    let mut ties = Ties::new(heap);
    ties.grow(2)?;
    let one = Bound::at_least(0, 1);
    let settled = Tie::between(one, Bound::at_least(0, 0));
    let same = Tie::between(one, Bound::at_least(1, 1));
    assert_eq!(rt;
        left_of(&variables, &ties, &[one]),
        Left::One(Literal::Bit(1))
    );
    assert!(rt; heed(&variables, &mut ties, &[one]));
    assert!(rt; follow(&variables, &mut ties, &[settled], same));
    assert_eq!(rt; ties.free(), 0);
    Ok(())
}
