//! Participants of a world that end: what they left goes with another, and their places are taken until then. And worlds that can't be closed.
ghost use Rattle.std.specs.Prelude.{◌≡◌, ◌≢◌, ℕ};
ghost use Rattle.sdd_world_model.specs.World.{IsPlaceOf};
ghost use Rattle.sdd_world.specs.Place.{index_of};

use crate::steps::{AMPLE, closed, joined, made, new_world, retire, shows};
use sdd_core::{Limits, Refused};
use sdd_world::{Place, World};
use std::process::Abort;

/// One participant, and enough of everything else.
const ALONE: Limits = Limits {
    participants: 1,
    ..AMPLE
};

/// The participant ends, with no guard open.
fn ends(rt: &impl Abort, world: &mut World<u64>, place: Place)
    requires place { IsPlaceOf world.old (index_of place) }
    ensures others { (p : ℕ) → p ≢ index_of place → IsPlaceOf world.old p → IsPlaceOf world.new p }
    ensures home { world.new.home ≡ world.old.home }
{
    match world.end(place) {
        Ok(()) => {}
        Err((_place, refused)) => panic!(rt; "{refused:?}"),
    }
}

#[test]
fn what_was_left_goes_at_the_fourth_guard_of_another(rt: HostRuntime) {
    let mut world: World<u64> = new_world(&rt, AMPLE, 0);
    let first = joined(&rt, &mut world);
    let second = joined(&rt, &mut world);
    let owner = made(&rt, &mut world, &first, 7);
    retire(&mut world, &first, owner);
    ends(&rt, &mut world, first);
    shows(&rt, &mut world, &second, &[(0, 0), (1, 0), (2, 0), (3, 1)]);
    closed(&rt, world);
}

#[test]
fn an_ended_place_counts_as_taken(rt: HostRuntime) {
    let mut world: World<u64> = new_world(&rt, ALONE, 0);
    let place = joined(&rt, &mut world);
    ends(&rt, &mut world, place);
    match world.register() {
        Ok(_place) => panic!(rt; "the place was not adopted"),
        Err(refused) => assert_eq!(rt; refused, Refused::NoPlace),
    }
    let tally = closed(&rt, world);
    assert!(rt; tally.made == 0);
}

#[test]
fn a_world_does_not_end_while_an_owner_is_out(rt: HostRuntime) {
    let mut world: World<u64> = new_world(&rt, ALONE, 0);
    let place = joined(&rt, &mut world);
    let first = made(&rt, &mut world, &place, 1);
    let second = made(&rt, &mut world, &place, 2);
    retire(&mut world, &place, first);
    match world.close() {
        Ok(_tally) => panic!(rt; "an owner is out"),
        Err((mut world, refused)) => {
            assert_eq!(rt; (refused, world.tally().reclaimed), (Refused::OwnerOut, 1));
            retire(&mut world, &place, second);
            let tally = closed(&rt, world);
            assert_eq!(rt; (tally.made, tally.reclaimed, tally.in_place), (2, 2, 0));
        }
    }
}

/// Its memory stays taken, and the value in it.
#[test]
fn a_world_in_which_an_item_is_out_as_raw_is_let_go_of(rt: HostRuntime) {
    let mut world: World<u64> = new_world(&rt, ALONE, 0);
    let place = joined(&rt, &mut world);
    let first = made(&rt, &mut world, &place, 1);
    let second = made(&rt, &mut world, &place, 2);
    retire(&mut world, &place, first);
    second.into_raw(&mut world.at(&place));
    match world.close() {
        Ok(_tally) => panic!(rt; "an item is out as raw"),
        Err((world, refused)) => {
            assert_eq!(rt; (refused, world.tally().reclaimed), (Refused::OwnerOut, 1));
            world.leak();
        }
    }
}
