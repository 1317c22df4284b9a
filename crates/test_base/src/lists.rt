//! Lists that are made of others.

use base_lists::Items;
use std::test::Fail;

#[test]
fn lists_made_of_others(rt: HostRuntime) -> Result<(), Fail> {
    let alloc = rt.alloc();
    let mut list = Items::from_slice(alloc, &[1, 2])?;
    list.append(Items::from_vec(vec![in alloc; 3]?))?;
    list.push_some(None)?;
    list.push_some(Some(4))?;
    assert_eq!(rt; list.as_slice(), [1, 2, 3, 4].as_slice());
    Ok(())
}
