//! Guards in a world, and what can be known under them.
ghost use Rattle.std.specs.Prelude.{◌≡◌, IfOk, IsTrue, Some, ℕ, ◌+◌, ◌^◌, ◌<◌, ◌≤◌};
ghost use Rattle.sdd_world_model.specs.World.{World, AnyGuardOpen, IsPlaceOf, place_at, standing_at, value_at};
ghost use Rattle.sdd_world_model.specs.Out.{out};
ghost use Rattle.sdd_world_model.specs.ReclaimBound.{WaitsWith, IsCleared, accelerated_guard, four_guards};
ghost use Rattle.sdd_world_model.specs.AcceleratedGuards.{Passes};
ghost use Rattle.sdd_world_model.specs.WorldInvariant.{IsCounted, taken};
ghost use Rattle.sdd_world_model.specs.ReclaimBound.{left};
ghost use Rattle.sdd_world_model.specs.Adopting.{AdoptsWhatIsLeft};
ghost use Rattle.sdd_world_model.specs.UnderGuards.{CallsUnder, JobStaysUnder};
ghost use Rattle.sdd_space.specs.Guard.{reader_of};
ghost use Rattle.sdd_space.specs.Owned.{slot_of, slots_home};
ghost use Rattle.sdd_space.specs.CallerId.{IsSeated, IsExact, MayNest, reader_at};
ghost use Rattle.sdd_participants.specs.EpochState.{is_open};
ghost use Rattle.sdd_participants.specs.Slab.{IsEmptyAt};
ghost use Rattle.sdd_participants.specs.declared.waiting.LimboEntry.{LimboEntry};
ghost use Rattle.sdd_world.specs.Place.{index_of};

use sdd_core::Refused;
use sdd_participants::{Idle, Job, Standing};
use sdd_space::laws::epoch_moves_by_one;
use sdd_space::{Guard, Guards, Item, Owned};
use sdd_world::{Place, World};

/// Opens a guard, accelerates it and closes it.
pub fn accelerated_guard<T: Item<T>>(world: &mut World<T>, place: &Place)
    requires place { IsPlaceOf world.old (index_of place.now) }
    requires quiet { ¬ (AnyGuardOpen world.old) }
    requires nesting { 1 ≤ world.old.time.nesting }
    ensures passed { world.new ≡ accelerated_guard T.holds world.old (index_of place.now) }
    ensures passes { Passes T.holds world.old (index_of place.now) }
{
    world.accelerated_guards_pass();
    accelerated(&mut world.at(place));
}

/// Opens a guard, accelerates it and closes it, in any exact space in which one more may be opened.
pub fn accelerated<T: Item<T>, S: Guards<T>>(s: &mut S)
    requires seated { IsSeated (S.caller s.old) }
    requires exact { IsExact (S.caller s.old) }
    requires may { MayNest (S.caller s.old) (S.own s.old) }
    ensures caller { S.caller s.new ≡ S.caller s.old }
    ensures passed { S.world s.new ≡ accelerated_guard T.holds (S.world s.old) (S.caller s.old).place }
{
    let Ok(guard) = Guard::new(s) else {
        unreachable!()
    };
    guard.accelerate(s);
    guard.close(s);
}

/// Four accelerated guards, one after another: what waited with the participant is reclaimed, and jobs that waited ran.
pub fn four_guards<T: Item<T>>(world: &mut World<T>, place: &Place)
    requires place { IsPlaceOf world.old (index_of place.now) }
    requires quiet { ¬ (AnyGuardOpen world.old) }
    requires nesting { 1 ≤ world.old.time.nesting }
    requires early { world.old.time.count + 4 ≤ 2 ^ 64 }
    ensures passed { world.new ≡ four_guards T.holds world.old (index_of place.now) }
    ensures reclaimed { (what : LimboEntry) (seen : ℕ) → WaitsWith world.old (index_of place.now) what seen → IsCleared world.new what }
    ensures quiet { ¬ (AnyGuardOpen world.new) }
    ensures made { world.new.tally.made ≡ world.old.tally.made }
    ensures in_place { world.new.tally.in_place ≡ world.old.tally.in_place }
    ensures out { out world.new ≤ out world.old }
{
    world.four_guards_reclaim();
    accelerated_guard(world, place);
    accelerated_guard(world, place);
    accelerated_guard(world, place);
    accelerated_guard(world, place);
}

/// The epoch, looked at twice under one guard, has moved on by one at most.
pub fn has_hardly_moved<T: Item<T>, S: Guards<T>>(guard: &Guard, s: &mut S) -> bool
    requires seated { IsSeated (S.caller s.old) }
    requires guarded { IsTrue (is_open (S.own s.old)) }
    ensures { IsTrue result }
{
    let (first, second) = epoch_moves_by_one::<T, S>(guard, s);
    second == first || second == first.next()
}

/// What waits in a world is reclaimed, or runs, within 385 openings of the participant with which it waits.
pub fn waits_a_bounded_time<T: Item<T>>(world: &World<T>)
    ensures { (q : ℕ) (what : LimboEntry) (seen : ℕ) → WaitsWith world.now q what seen → left world.now.time q seen ≤ 385 }
{
    world.reclaims_in_time();
}

/// What a participant that has ended left waits with whoever scans next, for three changes, and its place is free.
pub fn takes_over_what_was_left<T: Item<T>>(world: &World<T>)
    ensures { AdoptsWhatIsLeft world.now }
{
    world.adopts_what_is_left();
}

/// Each item that was made is in its slot, was reclaimed, or was dropped in place.
pub fn accounts_for_each_item<T: Item<T>>(world: &World<T>)
    ensures { IsCounted world.now.tally (taken world.now) }
{
    world.is_whole();
}

/// Retires an item while a reader's guard is open: it is in its slot, with its value, as long as that guard is open, whatever is called.
pub fn retired_under_a_guard<T: Item<T>>(
    world: &mut World<T>,
    reader: &Place,
    writer: &Place,
    owner: Owned<T>,
)
    requires writer { IsPlaceOf world.old (index_of writer.now) }
    requires guarded { IsTrue (is_open (place_at world.old (index_of reader.now))) }
    requires home { slots_home owner ≡ world.old.home.slots }
    ensures { (new : World T Idle) → CallsUnder T.holds (index_of reader.now) world.new new →
        (standing_at new (slot_of owner) ≡ Some Standing.Retired) × (value_at new (slot_of owner) ≡ value_at world.old (slot_of owner)) }
{
    world.keeps_under_guards();
    owner.retire(&mut world.at(writer));
}

/// Defers a job under a guard of the writer while one of a reader is open: it waits in its place as long as the reader's guard is open, whatever is called,
/// and no opening runs it.
///
/// `NoJob` where as many jobs wait as the limits say; the job comes back.
pub fn deferred_under_a_guard<T: Item<T>, J: Job>(
    world: &mut World<T, J>,
    reader: &Place,
    writer: &Place,
    guard: &Guard,
    job: J,
) -> Result<(), (J, Refused)>
    requires writer { IsPlaceOf world.old (index_of writer.now) }
    requires guard { reader_of guard.now ≡ reader_at world.old (index_of writer.now) }
    requires guarded { IsTrue (is_open (place_at world.old (index_of reader.now))) }
    ensures { IfOk result (λ _. (place : ℕ) × IsEmptyAt world.old.jobs place ×
        ((new : World T J) → CallsUnder T.holds (index_of reader.now) world.new new → JobStaysUnder new (index_of reader.now) place)) }
{
    world.keeps_under_guards();
    guard.defer_execute(job, &mut world.at(writer))
}
