//! Items that are changed and dropped in their place.
use crate::cells::example::{AMPLE, Example, in_each_space};
use crate::cells::steps::{close, opened, shared};
use sdd_core::Refused;
use sdd_participants::Idle;
use sdd_space::{Deferrals, Space};
use std::process::Abort;

/// An owner that may have others beside it.
struct SharedInPlace;

impl Example for SharedInPlace {
    fn run<R: Abort, S: Space<u64> + Deferrals<u64, Job = Idle>>(rt: &R, s: &mut S) {
        let mut owner = shared::made(rt, s, 38);
        assert!(rt; shared::put(s, &mut owner, 39) == Ok(38));
        let other = shared::copied(rt, s, &owner);
        assert!(rt; shared::put(s, &mut owner, 40) == Err(Refused::NotAlone));
        let guard = opened(rt, s);
        assert!(rt; !shared::dropped_in_place(rt, s, other));
        assert!(rt; shared::put(s, &mut owner, 40) == Err(Refused::GuardOpen));
        close(s, guard);
        assert!(rt; shared::dropped_in_place(rt, s, owner));
    }
}

#[test]
fn a_shared_item_is_changed_and_dropped_in_its_place_by_an_owner_that_is_alone(rt: HostRuntime) {
    in_each_space::<SharedInPlace, _>(&rt, AMPLE, &[(0, 0, false)], 1);
}
