//! Nodes go from one list to another, and leave all lists.

use sat_lists::NodeLists;
use std::test::Fail;

#[test]
fn nodes_go_from_one_list_to_another(rt: HostRuntime) -> Result<(), Fail> {
    let mut lists = NodeLists::new(rt.alloc(), 3)?;
    lists.add_pair(0, 1, 0)?;
    lists.add_pair(0, 2, 2)?;
    lists.begin(0);
    // The earliest node stands first.
    assert_eq!(rt; lists.first(), Some(0));
    lists.settle(1)?;
    assert_eq!(rt; lists.first(), Some(2));
    lists.keep();
    assert_eq!(rt; lists.first(), None);
    lists.finish();
    lists.begin(1);
    assert_eq!(rt; lists.first(), Some(1));
    lists.settle(2)?;
    assert_eq!(rt; lists.first(), Some(0));
    lists.settle(1)?;
    assert_eq!(rt; lists.first(), None);
    Ok(())
}

#[test]
fn marked_pairs_leave_all_lists(rt: HostRuntime) -> Result<(), Fail> {
    let mut lists = NodeLists::new(rt.alloc(), 2)?;
    lists.add_pair(0, 1, 0)?;
    lists.add_pair(0, 1, 2)?;
    lists.retain(&[true]);
    lists.begin(0);
    assert_eq!(rt; lists.first(), Some(2));
    lists.keep();
    assert_eq!(rt; lists.first(), None);
    Ok(())
}
