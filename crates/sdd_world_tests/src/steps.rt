//! Steps that the tests share.
ghost use Rattle.std.specs.Prelude.{◌≡◌, ◌≢◌, ℕ};
ghost use Rattle.sdd_space.specs.Owned.{slots_home};
ghost use Rattle.sdd_space.specs.Guard.{reader_of};
ghost use Rattle.sdd_space.specs.CallerId.{reader_at};
ghost use Rattle.sdd_world_model.specs.World.{IsPlaceOf};
ghost use Rattle.sdd_world.specs.Place.{index_of};
ghost use Rattle.sdd_world_tests.specs.Stays.{Stays};

use sdd_core::{Limits, Refused};
use sdd_participants::Tally;
use sdd_space::{Guard, Owned, Ptr};
use sdd_world::{Place, World};
use std::process::Abort;

/// Enough of everything.
pub const AMPLE: Limits = Limits {
    participants: 8,
    slots: 64,
    cells: 64,
    jobs: 8,
    nesting: 8,
    tries: 1,
};

/// A world that starts at a count of epochs.
pub fn new_world<R: Abort + AllocGlobal>(rt: &R, limits: Limits, count: u64) -> World<u64> {
    World::starting_at(rt.alloc(), limits, count).expect(rt, "the limits are in range")
}

/// One more participant.
pub fn joined(rt: &impl Abort, world: &mut World<u64>) -> Place
    ensures place { IsPlaceOf world.new (index_of result) }
    ensures home { world.new.home ≡ world.old.home }
    ensures others { (p : ℕ) → IsPlaceOf world.old p → (p ≢ index_of result) × IsPlaceOf world.new p }
{
    world.register().expect(rt, "a place is free")
}

/// The tally of a world that a test is done with.
pub fn closed(rt: &impl Abort, world: World<u64>) -> Tally {
    match world.close() {
        Ok(tally) => tally,
        Err((_world, refused)) => panic!(rt; "{refused:?}"),
    }
}

/// One more guard of the participant.
pub fn opened(rt: &impl Abort, world: &mut World<u64>, place: &Place) -> Guard
    requires place { IsPlaceOf world.old (index_of place.now) }
    ensures stays { Stays world.old world.new }
    ensures reader { reader_of result ≡ reader_at world.new (index_of place.now) }
{
    Guard::new(&mut world.at(place)).expect(rt, "a guard may be opened")
}

/// Closes a guard of the participant.
pub fn close(world: &mut World<u64>, place: &Place, guard: Guard)
    requires place { IsPlaceOf world.old (index_of place.now) }
    requires reader { reader_of guard ≡ reader_at world.old (index_of place.now) }
    ensures stays { Stays world.old world.new }
{
    guard.close(&mut world.at(place));
}

/// Which epoch the guard shows now.
pub fn epoch(world: &mut World<u64>, place: &Place, guard: &Guard) -> u8
    requires place { IsPlaceOf world.old (index_of place.now) }
    ensures stays { Stays world.old world.new }
{
    u8::from(guard.epoch(&mut world.at(place)))
}

/// Has the participant's next outermost close scan.
pub fn accelerate(world: &mut World<u64>, place: &Place, guard: &Guard)
    requires place { IsPlaceOf world.old (index_of place.now) }
    ensures stays { Stays world.old world.new }
{
    guard.accelerate(&mut world.at(place));
}

/// Something may wait with the participant.
pub fn has_garbage(world: &mut World<u64>, place: &Place, guard: &Guard) -> bool
    requires place { IsPlaceOf world.old (index_of place.now) }
    ensures stays { Stays world.old world.new }
{
    guard.has_garbage(&world.at(place))
}

/// A pointer that is good under the guard.
pub fn pointer<'g>(
    world: &mut World<u64>,
    place: &Place,
    owner: &Owned<u64>,
    guard: &'g Guard,
) -> Ptr<'g, u64>
    requires place { IsPlaceOf world.old (index_of place.now) }
    requires home { slots_home owner.now ≡ world.old.home.slots }
    requires reader { reader_of guard.now ≡ reader_at world.old (index_of place.now) }
    ensures stays { Stays world.old world.new }
{
    owner.get_guarded_ptr(guard, &mut world.at(place))
}

/// What the participant sees through a pointer.
pub fn seen(world: &mut World<u64>, place: &Place, ptr: Ptr<'_, u64>) -> Option<u64>
    requires place { IsPlaceOf world.old (index_of place.now) }
    ensures stays { Stays world.old world.new }
{
    ptr.as_ref(&world.at(place)).copied()
}

/// Opens and closes a guard, and tells which epoch it showed.
pub fn plain(rt: &impl Abort, world: &mut World<u64>, place: &Place) -> u8
    requires place { IsPlaceOf world.old (index_of place.now) }
    ensures stays { Stays world.old world.new }
{
    let guard = opened(rt, world, place);
    let shown = epoch(world, place, &guard);
    close(world, place, guard);
    shown
}

/// Opens, accelerates and closes a guard, and tells which epoch it showed.
pub fn accelerated(rt: &impl Abort, world: &mut World<u64>, place: &Place) -> u8
    requires place { IsPlaceOf world.old (index_of place.now) }
    ensures stays { Stays world.old world.new }
{
    let guard = opened(rt, world, place);
    let shown = epoch(world, place, &guard);
    accelerate(world, place, &guard);
    close(world, place, guard);
    shown
}

/// The accelerated guards of a participant show these epochs, and at each so many items are reclaimed in all.
pub fn shows(rt: &impl Abort, world: &mut World<u64>, place: &Place, table: &[(u8, u128)])
    requires place { IsPlaceOf world.old (index_of place.now) }
    ensures stays { Stays world.old world.new }
{
    for (epoch, reclaimed) in table {
        assert!(rt; accelerated(rt, world, place) == *epoch);
        assert_eq!(rt; world.tally().reclaimed, *reclaimed, "at epoch {epoch}");
    }
}

/// The owner of a new item.
pub fn made(rt: &impl Abort, world: &mut World<u64>, place: &Place, value: u64) -> Owned<u64>
    requires place { IsPlaceOf world.old (index_of place.now) }
    ensures stays { Stays world.old world.new }
    ensures home { slots_home result ≡ world.new.home.slots }
{
    let mut turn = world.at(place);
    match Owned::new(value, &mut turn) {
        Ok(owner) => owner,
        Err((_value, refused)) => panic!(rt; "{refused:?}"),
    }
}

/// The item waits with the participant.
pub fn retire(world: &mut World<u64>, place: &Place, owner: Owned<u64>)
    requires place { IsPlaceOf world.old (index_of place.now) }
    requires home { slots_home owner ≡ world.old.home.slots }
    ensures stays { Stays world.old world.new }
{
    let mut turn = world.at(place);
    owner.retire(&mut turn);
}

/// What an item that can't be made is refused with.
pub fn refused(world: &mut World<u64>, place: &Place, value: u64) -> Option<(u64, Refused)>
    requires place { IsPlaceOf world.old (index_of place.now) }
    ensures stays { Stays world.old world.new }
{
    let mut turn = world.at(place);
    match Owned::new(value, &mut turn) {
        Ok(owner) => {
            owner.retire(&mut turn);
            None
        }
        Err(back) => Some(back),
    }
}
