//! From the truth of numbers to values.
use decode::bits::bit_truths;
use decode::judging::first_unmet;
use decode::shown::Shown;
use decode::values::{count_declared, put_declared};
use kinds::item::Item;
use kinds::kinds::End;
use linear::base::Base;
use order::range::Range;
use order::variables::Variables;
use rows::storage::Rows;
use std::alloc::Global;
use std::test::Fail;
use ties::classes::Ties;

// A from 2 to 4 and B from 7 to 10.
fn two_variables(heap: Global) -> Result<Variables, Fail> {
    let mut variables = Variables::new(heap);
    for (low, high) in [(2, 4), (7, 10)] {
        if let Some(range) = Range::new(low, high) {
            variables.add(range)?;
        }
    }
    Ok(variables)
}

#[test]
fn values_are_read(rt: HostRuntime) -> Result<(), Fail> {
    let heap = rt.alloc();
    let variables = two_variables(heap)?;
    let mut ties = Ties::new(heap);
    ties.grow(5)?;
    let bits = bit_truths(heap, &ties, &[false, true, false, true, true, false])?;
    let shown = Shown {
        variables: &variables,
        bits: bits.as_slice(),
    };
    assert!(rt; shown.first_unordered().is_none());
    let values = shown.all_values(heap)?;
    assert!(rt; values.as_slice() == [3, 9].as_slice());
    let declared = [false, true];
    assert_eq!(rt; count_declared(&declared), 1);
    let mut buffer = [0, 1];
    put_declared(&declared, values.as_slice(), &mut buffer);
    assert!(rt; buffer.as_slice() == [9, 1].as_slice());
    Ok(())
}

#[test]
fn the_first_at_fault_is_named(rt: HostRuntime) -> Result<(), Fail> {
    let heap = rt.alloc();
    let variables = two_variables(heap)?;
    let shown = Shown {
        variables: &variables,
        bits: &[true, false, false, true, false],
    };
    assert_eq!(rt; shown.first_unordered(), Some(1));
    let mut rows = Rows::new(heap);
    rows.add(2, &[Item::Variable(0), Item::Variable(1)])?;
    rows.add(2, &[Item::Variable(1), Item::Variable(0)])?;
    assert_eq!(rt; first_unmet::<Base<End>>(&rows, &[3, 9]), Some(1));
    assert_eq!(rt; first_unmet::<Base<End>>(&rows, &[4, 4]), None);
    Ok(())
}
