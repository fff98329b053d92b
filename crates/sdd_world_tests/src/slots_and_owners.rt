//! Slots that run out, and what an owner shows.
ghost use Rattle.std.specs.Prelude.{◌≡◌};
ghost use Rattle.sdd_space.specs.Guard.{reader_of};
ghost use Rattle.sdd_space.specs.Owned.{slots_home};
ghost use Rattle.sdd_space.specs.CallerId.{reader_at};
ghost use Rattle.sdd_world_model.specs.World.{IsPlaceOf};
ghost use Rattle.sdd_world.specs.Place.{index_of};
ghost use Rattle.sdd_world_tests.specs.Stays.{Stays};

use crate::steps::{
    AMPLE, close, closed, joined, made, new_world, opened, pointer, refused, retire, seen, shows,
};
use sdd_core::{Limits, Refused};
use sdd_space::{Guard, Owned, Space};
use sdd_world::{Place, Turn, World};
use std::process::Abort;

#[test]
fn a_turn_is_alone_with_its_world(rt: HostRuntime) {
    assert!(rt; <Turn<'_, u64> as Space<u64>>::ALONE);
}

#[test]
fn a_slot_is_free_again_once_its_item_was_reclaimed(rt: HostRuntime) {
    let limits = Limits { slots: 2, ..AMPLE };
    let mut world: World<u64> = new_world(&rt, limits, 0);
    let place = joined(&rt, &mut world);
    let first = made(&rt, &mut world, &place, 1);
    let second = made(&rt, &mut world, &place, 2);
    assert!(rt; refused(&mut world, &place, 3) == Some((3, Refused::NoSlot)));
    retire(&mut world, &place, first);
    assert!(rt; refused(&mut world, &place, 3) == Some((3, Refused::NoSlot)));
    shows(&rt, &mut world, &place, &[(0, 0), (1, 0), (2, 0), (3, 1)]);
    assert!(rt; refused(&mut world, &place, 3) == None);
    retire(&mut world, &place, second);
    closed(&rt, world);
}

/// The owner of an item that a closure makes.
fn made_by_closure(rt: &impl Abort, world: &mut World<u64>, place: &Place) -> Owned<u64>
    requires place { IsPlaceOf world.old (index_of place.now) }
    ensures stays { Stays world.old world.new }
    ensures home { slots_home result ≡ world.new.home.slots }
{
    let mut turn = world.at(place);
    match Owned::new_with(|| 7u64, &mut turn) {
        Ok(owner) => owner,
        Err((_make, refused)) => panic!(rt; "{refused:?}"),
    }
}

/// What a closure that is refused would have made.
fn refused_closure(world: &mut World<u64>, place: &Place) -> Option<(u64, Refused)>
    requires place { IsPlaceOf world.old (index_of place.now) }
    ensures stays { Stays world.old world.new }
{
    let mut turn = world.at(place);
    match Owned::new_with(|| 8u64, &mut turn) {
        Ok(second) => {
            second.retire(&mut turn);
            None
        }
        Err((make, refused)) => Some((make(), refused)),
    }
}

/// What the participant sees of an owner's item.
fn value(world: &mut World<u64>, place: &Place, owner: &Owned<u64>) -> u64
    requires place { IsPlaceOf world.old (index_of place.now) }
    requires home { slots_home owner.now ≡ world.old.home.slots }
    ensures stays { Stays world.old world.new }
{
    *owner.get(&world.at(place))
}

#[test]
fn a_closure_that_is_refused_comes_back_uncalled(rt: HostRuntime) {
    let limits = Limits { slots: 1, ..AMPLE };
    let mut world: World<u64> = new_world(&rt, limits, 0);
    let place = joined(&rt, &mut world);
    let owner = made_by_closure(&rt, &mut world, &place);
    assert!(rt; value(&mut world, &place, &owner) == 7);
    let back = refused_closure(&mut world, &place);
    assert!(rt; back == Some((8, Refused::NoSlot)));
    retire(&mut world, &place, owner);
    closed(&rt, world);
}

/// The value that the participant sees by its guard.
fn value_under(world: &mut World<u64>, place: &Place, owner: &Owned<u64>, guard: &Guard) -> u64
    requires place { IsPlaceOf world.old (index_of place.now) }
    requires home { slots_home owner.now ≡ world.old.home.slots }
    requires reader { reader_of guard.now ≡ reader_at world.old (index_of place.now) }
    ensures stays { Stays world.old world.new }
{
    *owner.get_guarded_ref(guard, &mut world.at(place))
}

#[test]
fn a_guarded_pointer_shows_a_retired_item(rt: HostRuntime) {
    let mut world: World<u64> = new_world(&rt, AMPLE, 0);
    let place = joined(&rt, &mut world);
    let guard = opened(&rt, &mut world, &place);
    let owner = made(&rt, &mut world, &place, 7);
    assert!(rt; value_under(&mut world, &place, &owner, &guard) == 7);
    let ptr = pointer(&mut world, &place, &owner, &guard);
    retire(&mut world, &place, owner);
    assert!(rt; seen(&mut world, &place, ptr) == Some(7));
    assert!(rt; ptr.as_ref(&world).copied() == Some(7));
    close(&mut world, &place, guard);
    closed(&rt, world);
}
