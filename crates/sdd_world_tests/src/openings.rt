//! Which epochs guards show, and when an item that was retired is reclaimed.
ghost use Rattle.std.specs.Prelude.{◌≡◌};
ghost use Rattle.sdd_world_model.specs.World.{IsPlaceOf};
ghost use Rattle.sdd_world.specs.Place.{index_of};
ghost use Rattle.sdd_world_tests.specs.Stays.{Stays};

use crate::steps::{
    AMPLE, accelerate, accelerated, close, closed, epoch, joined, made, new_world, opened, plain,
    retire, shows,
};
use sdd_world::{Place, World};
use std::process::Abort;

#[test]
fn an_item_goes_at_the_fourth_accelerated_guard(rt: HostRuntime) {
    let mut world: World<u64> = new_world(&rt, AMPLE, 0);
    let place = joined(&rt, &mut world);
    let owner = made(&rt, &mut world, &place, 7);
    retire(&mut world, &place, owner);
    shows(&rt, &mut world, &place, &[(0, 0), (1, 0), (2, 0), (3, 1)]);
    closed(&rt, world);
}

/// Each of the next 128 guards shows the epoch, and reclaims nothing.
fn shows_128_times(rt: &impl Abort, world: &mut World<u64>, place: &Place, epoch: u8)
    requires place { IsPlaceOf world.old (index_of place.now) }
    ensures stays { Stays world.old world.new }
{
    for opening in 1u8..129 {
        assert_eq!(rt;
            plain(rt, world, place),
            epoch,
            "at opening {opening} of {epoch}"
        );
        assert_eq!(rt;
            world.tally().reclaimed,
            0,
            "at opening {opening} of {epoch}"
        );
    }
}

#[test]
fn without_acceleration_an_item_goes_at_guard_385(rt: HostRuntime) {
    let mut world: World<u64> = new_world(&rt, AMPLE, 0);
    let place = joined(&rt, &mut world);
    assert!(rt; plain(&rt, &mut world, &place) == 0);
    let owner = made(&rt, &mut world, &place, 7);
    retire(&mut world, &place, owner);
    shows_128_times(&rt, &mut world, &place, 0);
    shows_128_times(&rt, &mut world, &place, 1);
    shows_128_times(&rt, &mut world, &place, 2);
    assert!(rt; plain(&rt, &mut world, &place) == 3);
    assert!(rt; world.tally().reclaimed == 1);
    closed(&rt, world);
}

#[test]
fn an_open_guard_of_another_participant_keeps_an_item(rt: HostRuntime) {
    let mut world: World<u64> = new_world(&rt, AMPLE, 0);
    let first = joined(&rt, &mut world);
    let second = joined(&rt, &mut world);
    let guard = opened(&rt, &mut world, &first);
    assert!(rt; epoch(&mut world, &first, &guard) == 0);
    let owner = made(&rt, &mut world, &second, 7);
    retire(&mut world, &second, owner);
    shows(&rt, &mut world, &second, &[(0, 0), (1, 0), (1, 0), (1, 0)]);
    close(&mut world, &first, guard);
    shows(&rt, &mut world, &second, &[(1, 0), (2, 0), (3, 1)]);
    closed(&rt, world);
}

#[test]
fn at_the_last_count_an_item_stays_until_the_world_is_closed(rt: HostRuntime) {
    let mut world: World<u64> = new_world(&rt, AMPLE, u64::MAX - 1);
    let place = joined(&rt, &mut world);
    assert!(rt; accelerated(&rt, &mut world, &place) == 62);
    let guard = opened(&rt, &mut world, &place);
    assert!(rt; epoch(&mut world, &place, &guard) == 63);
    let owner = made(&rt, &mut world, &place, 7);
    retire(&mut world, &place, owner);
    accelerate(&mut world, &place, &guard);
    close(&mut world, &place, guard);
    shows(
        &rt,
        &mut world,
        &place,
        &[(63, 0), (63, 0), (63, 0), (63, 0), (63, 0), (63, 0)],
    );
    let tally = closed(&rt, world);
    assert_eq!(rt; (tally.made, tally.reclaimed, tally.in_place), (1, 1, 0));
}

/// The first guard finds another count than the 0 of a participant that is new, so that what was retired before it goes at the third.
#[test]
fn a_world_that_begins_at_a_later_count_reclaims_at_the_third_guard(rt: HostRuntime) {
    for (count, table) in [
        (100, [(36, 0), (37, 0), (38, 1)]),
        (u64::MAX - 2, [(61, 0), (62, 0), (63, 1)]),
    ] {
        let mut world: World<u64> = new_world(&rt, AMPLE, count);
        let place = joined(&rt, &mut world);
        let owner = made(&rt, &mut world, &place, 7);
        retire(&mut world, &place, owner);
        shows(&rt, &mut world, &place, table.as_slice());
        closed(&rt, world);
    }
}
