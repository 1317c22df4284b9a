//! What no clause says of a chooser: which variable it picks.

use sat_decide::{Activity, Chooser};
use std::test::Fail;

#[test]
fn activity_picks_the_most_bumped_with_its_sign(rt: HostRuntime) -> Result<(), Fail> {
    let mut chooser = Activity::new(rt.alloc());
    chooser.start(4)?;
    for _ in 0..3 {
        chooser.bump(3);
    }
    chooser.bump(-2);
    assert_eq!(rt; chooser.pick(&[0, 0, 0, 0]), 3);
    assert_eq!(rt; chooser.pick(&[0, 0, 1, 0]), -2);
    // Variable 3 was set aside with the sign that it had.
    chooser.bump(9);
    chooser.bump(i64::MIN);
    chooser.decay();
    chooser.bump(4);
    assert_eq!(rt; chooser.pick(&[0, 0, 0, 0]), 3);
    // A bump behind a decay counts more, so variable 4 comes before variable 2.
    assert_eq!(rt; chooser.pick(&[0, 0, 1, 0]), 4);
    Ok(())
}

#[test]
fn weights_stay_in_range(rt: HostRuntime) -> Result<(), Fail> {
    let mut chooser = Activity::new(rt.alloc());
    chooser.start(2)?;
    // All these bumps together count about 12 of the latest, however often the weights are scaled down.
    for _ in 0..2000 {
        chooser.bump(1);
        chooser.decay();
    }
    for _ in 0..11 {
        chooser.bump(2);
    }
    assert_eq!(rt; chooser.pick(&[0, 0]), 1);
    for _ in 0..2 {
        chooser.bump(2);
    }
    assert_eq!(rt; chooser.pick(&[0, 0]), 2);
    Ok(())
}
