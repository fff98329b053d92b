//! Ample memory for worlds of the greatest sizes. A body that refuses with `NoMemory` beyond some size meets every contract.
use crate::steps::{closed, joined};
use sdd_core::{Limits, Refused};
use sdd_world::World;

/// Each limit at the end of its range, but for slots and cells: an eighth of the most, as more take a minute.
const GREATEST: Limits = Limits {
    participants: 1024,
    slots: 2_097_152,
    cells: 2_097_152,
    jobs: 65_536,
    nesting: 4_294_967_295,
    tries: 65_535,
};

#[test]
fn a_world_has_the_greatest_limits(rt: HostRuntime) -> Result<(), Refused> {
    let mut world: World<u64> = World::new(rt.alloc(), GREATEST)?;
    let place = joined(&rt, &mut world);
    assert!(rt; place.index() == 0);
    closed(&rt, world);
    Ok(())
}

/// With 65,536 slots, since each participant has room for as many items as there are slots.
#[test]
fn a_world_has_the_most_participants(rt: HostRuntime) -> Result<(), Refused> {
    let limits = Limits {
        slots: 65_536,
        cells: 1,
        ..GREATEST
    };
    let mut world: World<u64> = World::new(rt.alloc(), limits)?;
    for index in 0usize..1024 {
        let place = joined(&rt, &mut world);
        assert!(rt; place.index() == index);
    }
    assert!(rt; world.register().err() == Some(Refused::NoPlace));
    closed(&rt, world);
    Ok(())
}
