//! Worlds that can't be made.
use crate::steps::{AMPLE, closed};
use sdd_core::{Limits, Refused};
use sdd_world::{Place, World};
use std::alloc::AllocGlobal;
use std::process::Abort;

#[test]
fn limits_out_of_range_are_refused(rt: HostRuntime) {
    let out_of_range = [
        Limits {
            participants: 0,
            ..AMPLE
        },
        Limits {
            participants: 1025,
            ..AMPLE
        },
        Limits {
            slots: 16_777_217,
            ..AMPLE
        },
        Limits { tries: 0, ..AMPLE },
    ];
    for limits in out_of_range {
        let made: Result<World<u64>, Refused> = World::new(rt.alloc(), limits);
        match made {
            Ok(world) => {
                closed(&rt, world);
                panic!(rt; "{limits:?}")
            }
            Err(refused) => assert_eq!(rt; refused, Refused::BadLimits, "{limits:?}"),
        }
    }
}

/// A world of that count. Where memory is refused once it is made at the second try.
fn made_at_last<R: Abort + AllocGlobal>(rt: &R, count: u64) -> World<u64> {
    match World::starting_at(rt.alloc(), AMPLE, count) {
        Ok(world) => world,
        Err(refused) => {
            assert_eq!(rt; refused, Refused::NoMemory);
            World::starting_at(rt.alloc(), AMPLE, count).expect(rt, "memory is refused once")
        }
    }
}

/// One more participant's place, at the second try where memory is refused once.
fn joined_at_last(rt: &impl Abort, world: &mut World<u64>) -> Place {
    match world.register() {
        Ok(place) => place,
        Err(refused) => {
            assert_eq!(rt; refused, Refused::NoMemory);
            world.register().expect(rt, "memory is refused once")
        }
    }
}

/// With ample memory all are there. Under `rt try --test --fail-alloc N` one of them is refused, and is made at the second try.
#[test]
fn only_want_of_memory_refuses(rt: HostRuntime) {
    let made: Result<World<u64>, Refused> = World::new(rt.alloc(), AMPLE);
    match made {
        Ok(world) => {
            closed(&rt, world);
        }
        Err(refused) => assert_eq!(rt; refused, Refused::NoMemory),
    }
    let mut world = made_at_last(&rt, 5);
    assert_eq!(rt; joined_at_last(&rt, &mut world).index(), 0);
    assert_eq!(rt; joined_at_last(&rt, &mut world).index(), 1);
    closed(&rt, world);
}
