//! Programs of `sdd_examples` over a queue and over a cell, run once.
ghost use Rattle.std.specs.Prelude.{◌≡◌, ℕ};
ghost use Rattle.sdd_space.specs.Owned.{cells_home};
ghost use Rattle.sdd_world_model.specs.World.{AnyGuardOpen, IsPlaceOf};
ghost use Rattle.sdd_world.specs.Place.{index_of};
ghost use Rattle.sdd_world_tests.specs.LeavesTime.{LeavesTime};

use crate::lists::example::{AMPLE, ended};
use sdd_core::Limits;
use sdd_examples::task_queue::{Task, two_tasks_in_turn};
use sdd_examples::work_under_guards::works;
use sdd_lists::LinkedEntry;
use sdd_space::AtomicOwned;
use sdd_world::{Place, World};
use std::process::Abort;

#[test]
fn two_tasks_come_out_as_they_went_in(rt: HostRuntime) {
    let mut world: World<LinkedEntry<Task>> = World::new(rt.alloc(), AMPLE).expect(
        &rt,
        "the limits are in range",
    );
    let place = world.register().expect(&rt, "a place is free");
    let tasks = two_tasks_in_turn(&mut world, &place, Task::Sweep, Task::Print(7));
    assert!(rt; matches!(tasks, Ok((Some(Task::Sweep), Some(Task::Print(7))))));
    ended(&rt, world, 2);
}

/// One more participant.
fn joined(rt: &impl Abort, world: &mut World<u64>) -> Place
    ensures place { IsPlaceOf world.new (index_of result) }
    ensures others { (p : ℕ) → IsPlaceOf world.old p → IsPlaceOf world.new p }
    ensures quiet { ¬ (AnyGuardOpen world.old) → ¬ (AnyGuardOpen world.new) }
    ensures same { LeavesTime world.old.time world.new.time }
{
    world.register().expect(rt, "a place is free")
}

/// A cell that holds nothing yet.
fn empty_cell(rt: &impl Abort, world: &mut World<u64>, place: &Place) -> AtomicOwned<u64>
    requires place { IsPlaceOf world.old (index_of place.now) }
    ensures home { cells_home result ≡ world.new.home.cells }
    ensures same { world.new.time ≡ world.old.time }
{
    AtomicOwned::null(&mut world.at(place)).expect(rt, "a cell is free")
}

/// A world with a participant, a reader, and a cell that holds nothing.
fn at_work<R: Abort + AllocGlobal>(
    rt: &R,
    limits: Limits,
) -> (World<u64>, Place, Place, AtomicOwned<u64>)
    ensures place { IsPlaceOf result.0 (index_of result.1) }
    ensures reader { IsPlaceOf result.0 (index_of result.2) }
    ensures home { cells_home result.3 ≡ result.0.home.cells }
    ensures quiet { ¬ (AnyGuardOpen result.0) }
    ensures nesting { result.0.time.nesting ≡ limits.nesting }
    ensures count { result.0.time.count ≡ 0 }
{
    let mut world = World::new(rt.alloc(), limits).expect(rt, "the limits are in range");
    let place = joined(rt, &mut world);
    let reader = joined(rt, &mut world);
    let cell = empty_cell(rt, &mut world, &place);
    (world, place, reader, cell)
}

#[test]
fn what_is_replaced_under_guards_goes_meanwhile(rt: HostRuntime) {
    let (mut world, place, reader, cell) = at_work(&rt, AMPLE);
    let values = vec![in rt.alloc(); 1, 2, 3, 4, 5, 6, 7].expect(&rt, "there is memory");
    match works(&mut world, &place, &reader, &cell, values) {
        Ok(()) => {}
        Err(_) => panic!(rt; "a slot is free"),
    }
    // The first to be replaced was so under the second guard, and goes at the third opening after it.
    assert!(rt; world.tally().reclaimed == 3);
    cell.close(&mut world.at(&place));
    ended(&rt, world, 7);
}

#[test]
fn values_that_find_no_slot_come_back(rt: HostRuntime) {
    let (mut world, place, reader, cell) = at_work(&rt, Limits { slots: 1, ..AMPLE });
    let values = vec![in rt.alloc(); 1, 2, 3].expect(&rt, "there is memory");
    match works(&mut world, &place, &reader, &cell, values) {
        Ok(()) => panic!(rt; "one slot is not enough for two items"),
        Err((refused, left)) => assert!(rt; refused == 2 && left.as_slice() == [1u64].as_slice()),
    }
    cell.close(&mut world.at(&place));
    ended(&rt, world, 1);
}
