//! Work under a guard, by its participant and by a reader.
ghost use Rattle.std.specs.Prelude.{ℕ, ◌≡◌, ◌+◌, ◌<◌, ◌≤◌, List, ◌∷◌, ◌++◌, IfErr, IfOk, length};
ghost use Rattle.sdd_participants.specs.declared.waiting.LimboEntry.{LimboEntry};
ghost use Rattle.sdd_participants.specs.EpochState.{last_count};
ghost use Rattle.sdd_participants.specs.Slab.{IsFull};
ghost use Rattle.sdd_space.specs.CallerId.{IsSeated, IsExact};
ghost use Rattle.sdd_world_model.specs.Out.{HoldsNothing};
ghost use Rattle.sdd_space.specs.Owned.{cells_home};
ghost use Rattle.sdd_world_model.specs.ReclaimBound.{WaitsWith};
ghost use Rattle.sdd_world_model.specs.World.{World, AnyGuardOpen, IsPlaceOf};
ghost use Rattle.sdd_world_model.specs.WorkingGuards.{HasGone, PassesWork, Works};
ghost use Rattle.sdd_world.specs.Place.{index_of};

use sdd_core::{Refused, Tag};
use sdd_space::laws::calls_are_work;
use sdd_space::{AtomicOwned, Cells, Guard, Guards, Item, Items, Owned};
use sdd_world::{Place, World};

/// Puts an item of this value into the cell and retires the one that was there.
///
/// `NoSlot` where no slot is free, and only there; the value comes back, and the cell stays as it is.
pub fn replaced<T: Item<T>, S: Items<T> + Cells<T>>(
    cell: &AtomicOwned<T>,
    value: T,
    s: &mut S,
) -> Result<(), (T, Refused)>
    requires seated { IsSeated (S.caller s.old) }
    requires exact { IsExact (S.caller s.old) }
    requires home { cells_home cell.now ≡ (S.caller s.old).home.cells }
    requires place { IsPlaceOf (S.world s.old) (S.caller s.old).place }
    requires plain { HoldsNothing T.holds }
    ensures caller { S.caller s.new ≡ S.caller s.old }
    ensures back { IfErr result (λ e. (e ≡ (value, Refused.NoSlot)) × IsFull (S.world s.old).standings) }
    ensures works { Works T.holds (S.world s.old) (S.world s.new) }
{
    calls_are_work::<T>();
    let next = Owned::new(value, s)?;
    let (before, _tag) = cell.swap((Some(next), Tag::None), s);
    let Some(before) = before else {
        return Ok(());
    };
    before.retire(s);
    Ok(())
}

/// Opens a guard, looks at what the cell holds, and closes the guard.
pub fn looked_at<T: Item<T>, S: Guards<T> + Cells<T>>(cell: &AtomicOwned<T>, s: &mut S)
    requires seated { IsSeated (S.caller s.old) }
    requires exact { IsExact (S.caller s.old) }
    requires home { cells_home cell.now ≡ (S.caller s.old).home.cells }
    requires place { IsPlaceOf (S.world s.old) (S.caller s.old).place }
    ensures caller { S.caller s.new ≡ S.caller s.old }
    ensures works { Works T.holds (S.world s.old) (S.world s.new) }
{
    calls_are_work::<T>();
    let Ok(guard) = Guard::new(s) else {
        return;
    };
    let _seen = cell.load(&guard, s);
    guard.close(s);
}

/// Opens a guard, under which the item of a cell is replaced and a reader looks, has it scan and closes it.
///
/// `NoSlot` where no slot was free; the value comes back.
pub fn works_under_a_guard<T: Item<T>>(
    world: &mut World<T>,
    place: &Place,
    reader: &Place,
    cell: &AtomicOwned<T>,
    value: T,
) -> Result<(), (T, Refused)>
    requires place { IsPlaceOf world.old (index_of place.now) }
    requires reader { IsPlaceOf world.old (index_of reader.now) }
    requires home { cells_home cell.now ≡ world.old.home.cells }
    requires quiet { ¬ (AnyGuardOpen world.old) }
    requires nesting { 1 ≤ world.old.time.nesting }
    requires early { world.old.time.count < last_count }
    requires plain { HoldsNothing T.holds }
    ensures home { world.new.home ≡ world.old.home }
    ensures back { IfErr result (λ e. e ≡ (value, Refused.NoSlot)) }
    ensures passed { PassesWork T.holds (index_of place.now) world.old world.new }
{
    world.working_guards_reclaim();
    calls_are_work::<T>();
    let mut turn = world.at(place);
    let Ok(guard) = Guard::new(&mut turn) else {
        unreachable!()
    };
    let done = replaced(cell, value, &mut turn);
    drop(turn);
    looked_at(cell, &mut world.at(reader));
    let mut turn = world.at(place);
    guard.accelerate(&mut turn);
    guard.close(&mut turn);
    done
}

/// Replaces the item of a cell by each of these values, the last one first, each under a guard of its own. After four of them all that waited with the
/// participant before has gone, items and jobs, though an item was retired under each of these guards, and a reader had one open.
///
/// `NoSlot` where no slot was free: the value that was refused comes back, and those in front of it, which weren't tried.
pub fn works<T: Item<T>>(
    world: &mut World<T>,
    place: &Place,
    reader: &Place,
    cell: &AtomicOwned<T>,
    mut values: Vec<T>,
) -> Result<(), (T, Vec<T>)>
    requires place { IsPlaceOf world.old (index_of place.now) }
    requires reader { IsPlaceOf world.old (index_of reader.now) }
    requires home { cells_home cell.now ≡ world.old.home.cells }
    requires quiet { ¬ (AnyGuardOpen world.old) }
    requires nesting { 1 ≤ world.old.time.nesting }
    requires early { world.old.time.count + length values.items ≤ last_count }
    requires plain { HoldsNothing T.holds }
    ensures home { world.new.home ≡ world.old.home }
    ensures places { (p : ℕ) → IsPlaceOf world.old p → IsPlaceOf world.new p }
    ensures quiet { ¬ (AnyGuardOpen world.new) }
    ensures back { IfErr result (λ e. (used : List T) × (values.items ≡ e.1.items ++ e.0 ∷ used)) }
    ensures gone { IfOk result (λ _. 4 ≤ length values.items → (what : LimboEntry) (seen : ℕ) →
        WaitsWith world.old (index_of place.now) what seen → HasGone T.holds what world.old world.new) }
{
    world.working_guards_reclaim();
    calls_are_work::<T>();
    while let Some(value) = values.pop() {
        if let Err((value, _no_slot)) = works_under_a_guard(world, place, reader, cell, value) {
            return Err((value, values));
        }
    }
    values.destroy_empty();
    Ok(())
}
