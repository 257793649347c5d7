//! Lists kept in one list.
use flat::lists::Lists;
use std::test::Fail;

#[test]
fn lists_are_kept(rt: HostRuntime) -> Result<(), Fail> {
    let mut lists: Lists<(), u8> = Lists::new(rt.alloc());
    lists.push((), &[1, 2])?;
    lists.push((), &[])?;
    lists.push((), &[3])?;
    assert_eq!(rt; lists.len(), 3);
    assert!(rt; lists.at(0) == [1, 2].as_slice());
    assert!(rt; lists.at(1).is_empty());
    assert!(rt; lists.at(2) == [3].as_slice());
    assert!(rt; lists.at(3).is_empty());
    lists.clear();
    assert_eq!(rt; lists.len(), 0);
    Ok(())
}

#[test]
fn lists_are_gone_over(rt: HostRuntime) -> Result<(), Fail> {
    let mut lists: Lists<u8, u16> = Lists::new(rt.alloc());
    lists.reserve(2, 3)?;
    lists.push(7, &[1, 2])?;
    lists.push(9, &[3])?;
    assert_eq!(rt; lists.items_in_all(), 3);
    assert_eq!(rt; lists.head(1), Some(9));
    assert_eq!(rt; lists.head(2), None);
    assert_eq!(rt; lists.iter().count(), 2);
    for (place, (head, list)) in lists.iter().enumerate() {
        assert_eq!(rt; lists.head(place), Some(head));
        assert!(rt; lists.at(place) == list);
    }
    Ok(())
}
