//! What participants do with the owners that cells hold.
ghost use Rattle.std.specs.Prelude.{◌≡◌, ◌≢◌, ◌⊎◌, ◌+◌, ◌^◌, ◌<◌, ℕ, IfOk, IfSome, IsSome, Some, MatchOption, MatchResult, option_map};
ghost use Rattle.sdd_participants.specs.Slab.{IsEmptyAt, IsFull, entry_at};
ghost use Rattle.sdd_participants.specs.declared.standing.Standing.TheVariants.{Shared as shared_by};
ghost use Rattle.sdd_participants.specs.declared.standing.CellContents.{CellContents};
ghost use Rattle.sdd_world_model.specs.Slots.{IsSharedBy};
ghost use Rattle.sdd_world_model.specs.OwnerOrCell.{IsOf};
ghost use Rattle.sdd_space.specs.Ptr.{cell_seen, slot_named};
ghost use Rattle.sdd_world_model.specs.WorldChanges.{with_cell, with_standing, without_cell};
ghost use Rattle.sdd_world_model.specs.World.{standing_at, World, IsPlaceOf};
ghost use Rattle.sdd_space.specs.Guard.{reader_of};
ghost use Rattle.sdd_script_model.specs.Val.{Val};
ghost use Rattle.sdd_script_model.specs.ScriptState.{slot_of};
ghost use Rattle.sdd_interpreter.specs.Owners.{cell_holding, cell_kind, cell_number, filling_holding, filling_kind, held_as};
ghost use Rattle.sdd_core.specs.declared.refused.Refused.TheVariants as refused;
ghost use Rattle.sdd_space.specs.Shared as shared;
ghost use Rattle.sdd_world_model.specs.UnderGuards.{CannotGo};
ghost use Rattle.sdd_space.specs.CallerId.{reader_at};
ghost use Rattle.sdd_world.specs.Place.{index_of};

use crate::commands::step::CellCommand;
use crate::holding::{AnyCell, CellOwner};
use sdd_core::{Refused, SlotName, Tag};
use sdd_participants::CellContents;
use sdd_script_model::Val;
use sdd_space::inner::{null_with, slot_of_ptr};
use sdd_space::{AtomicShared, Cells, Guard, Ptr, Shared};
use sdd_world::inner::ptr_at;
use sdd_world::{Place, World};

/// The cell holds this from now on, with this tag. Out come what it held, and the tag before.
pub struct SwapIn<'a> {
    pub cell: &'a AnyCell,
    pub next: CellOwner,
    pub tag: Tag,
}

impl CellCommand for SwapIn<'_> {
    type Out = (CellOwner, Tag);

    ghost asks = { λ step home _ _. IsOf home (cell_holding step.cell.now) × (filling_kind step.next ≡ cell_kind step.cell.now)
        × IfSome (filling_holding step.next) (IsOf home) };

    ghost does = { λ step home _ before out after. (held : CellContents) × (entry_at before.cells (cell_number step.cell.now) ≡ Some held) × (out.1 ≡ held.tag)
        × (filling_holding out.0 ≡ held_as (cell_kind step.cell.now) held.held home.slots)
        × (after ≡ with_cell before (cell_number step.cell.now) (record { held = slot_of (filling_holding step.next); tag = step.tag })) };

    fn done<S: Cells<Val>>(self, s: &mut S) -> (CellOwner, Tag) {
        let SwapIn { cell, next, tag } = self;
        match (cell, next) {
            (AnyCell::Sole(cell), CellOwner::Sole(next)) => {
                let (old, was) = cell.swap((next, tag), s);
                (CellOwner::Sole(old), was)
            }
            (AnyCell::Share(cell), CellOwner::Share(next)) => {
                let (old, was) = cell.swap((next, tag), s);
                (CellOwner::Share(old), was)
            }
            _ => unreachable!(),
        }
    }
}

/// The cell holds this from now on, if it held what the pointer names: then what it held comes back. Else what was to go in, and what the cell holds.
pub struct ExchangeIn<'a> {
    pub cell: &'a AnyCell,
    pub guard: &'a Guard,
    pub current: Ptr<'a, Val>,
    pub next: CellOwner,
    pub tag: Tag,
}

impl CellCommand for ExchangeIn<'_> {
    type Out = Result<CellOwner, (CellOwner, CellContents)>;

    ghost asks = { λ step home reader _. (reader_of step.guard.now ≡ reader) × IsOf home (cell_holding step.cell.now)
        × (filling_kind step.next ≡ cell_kind step.cell.now) × IfSome (filling_holding step.next) (IsOf home) };

    ghost does = { λ step home _ before result after. MatchResult result
        (λ old. (entry_at before.cells (cell_number step.cell.now) ≡ Some (cell_seen step.current))
        × (filling_holding old ≡ held_as (cell_kind step.cell.now) (slot_named step.current) home.slots)
        × (after ≡ with_cell before (cell_number step.cell.now) (record { held = slot_of (filling_holding step.next); tag = step.tag })))
        (λ e. (filling_holding e.0 ≡ filling_holding step.next) × (entry_at before.cells (cell_number step.cell.now) ≡ Some e.1)
        × (e.1 ≢ cell_seen step.current) × (after ≡ before)) };

    fn done<S: Cells<Val>>(self, s: &mut S) -> Result<CellOwner, (CellOwner, CellContents)> {
        let ExchangeIn {
            cell,
            guard,
            current,
            next,
            tag,
        } = self;
        match (cell, next) {
            (AnyCell::Sole(cell), CellOwner::Sole(next)) => {
                match cell.compare_exchange(current, (next, tag), guard, s) {
                    Ok((old, _)) => Ok(CellOwner::Sole(old)),
                    Err((back, ptr)) => Err((CellOwner::Sole(back), seen_by(&ptr))),
                }
            }
            (AnyCell::Share(cell), CellOwner::Share(next)) => {
                match cell.compare_exchange(current, (next, tag), guard, s) {
                    Ok((old, _)) => Ok(CellOwner::Share(old)),
                    Err((back, ptr)) => Err((CellOwner::Share(back), seen_by(&ptr))),
                }
            }
            _ => unreachable!(),
        }
    }
}

/// What the cell holds that the pointer was loaded from.
fn seen_by(ptr: &Ptr<'_, Val>) -> CellContents
    ensures { result ≡ cell_seen ptr.now }
{
    CellContents {
        held: slot_of_ptr(ptr),
        tag: ptr.tag(),
    }
}

/// The cell is spent, and what it held comes back.
pub struct TakeOut {
    pub cell: AnyCell,
}

impl CellCommand for TakeOut {
    type Out = CellOwner;

    ghost asks = { λ step home _ _. IsOf home (cell_holding step.cell) };

    ghost does = { λ step home _ before filling after. (held : CellContents) × (entry_at before.cells (cell_number step.cell) ≡ Some held)
        × (filling_holding filling ≡ held_as (cell_kind step.cell) held.held home.slots)
        × (after ≡ without_cell before (cell_number step.cell)) };

    fn done<S: Cells<Val>>(self, s: &mut S) -> CellOwner {
        let TakeOut { cell } = self;
        match cell {
            AnyCell::Sole(cell) => CellOwner::Sole(cell.into_owned(s)),
            AnyCell::Share(cell) => CellOwner::Share(cell.into_shared(s)),
        }
    }
}

/// One owner more of what the cell holds, if it holds something.
pub struct ShareHeld<'a> {
    pub guard: &'a Guard,
    pub cell: &'a AtomicShared<Val>,
}

impl CellCommand for ShareHeld<'_> {
    type Out = Result<Option<Shared<Val>>, Refused>;

    ghost asks = { λ step home reader _. (reader_of step.guard.now ≡ reader) × (shared.cells_home step.cell.now ≡ home.cells) };

    ghost does = { λ step home _ before result after. (IfOk result (shared.IsOfSlots home.slots))
        × ((held : CellContents) × (entry_at before.cells (shared.cell_of step.cell.now) ≡ Some held) × MatchResult result
        (λ o. (option_map shared.slot_of o ≡ held.held) × MatchOption o (after ≡ before)
        (λ owner. (owners : ℕ) × IsSharedBy owners (standing_at before (shared.slot_of owner)) × (owners < 2 ^ 62)
        × (after ≡ with_standing before (shared.slot_of owner) (shared_by (owners + 1)))))
        (λ e. (e ≡ refused.TooManyOwners) × IfSome held.held (λ slot. IsSharedBy (2 ^ 62) (standing_at before slot)) × IsSome held.held
        × (after ≡ before))) };

    fn done<S: Cells<Val>>(self, s: &mut S) -> Result<Option<Shared<Val>>, Refused> {
        let ShareHeld { guard, cell } = self;
        cell.get_shared(guard, s)
    }
}

/// Another cell, with one owner more of what the cell holds, if it holds something.
pub struct CopyCell<'a> {
    pub guard: &'a Guard,
    pub cell: &'a AtomicShared<Val>,
}

impl CellCommand for CopyCell<'_> {
    type Out = Result<AtomicShared<Val>, Refused>;

    ghost asks = { λ step home reader _. (reader_of step.guard.now ≡ reader) × (shared.cells_home step.cell.now ≡ home.cells) };

    ghost does = { λ step home _ before result after. (IfOk result (λ other. shared.cells_home other ≡ home.cells))
        × ((held : CellContents) × (entry_at before.cells (shared.cell_of step.cell.now) ≡ Some held) × MatchResult result
        (λ other. IsEmptyAt before.cells (shared.cell_of other) × MatchOption held.held
        (after ≡ with_cell before (shared.cell_of other) held)
        (λ slot. (owners : ℕ) × IsSharedBy owners (standing_at before slot) × (owners < 2 ^ 62)
        × (after ≡ with_cell (with_standing before slot (shared_by (owners + 1))) (shared.cell_of other) held)))
        (λ e. (after ≡ before) × (IsFull before.cells × (e ≡ refused.NoCell) ⊎
        ¬ (IsFull before.cells) × (e ≡ refused.TooManyOwners) × IsSome held.held
        × IfSome held.held (λ slot. IsSharedBy (2 ^ 62) (standing_at before slot))))) };

    fn done<S: Cells<Val>>(self, s: &mut S) -> Result<AtomicShared<Val>, Refused> {
        let CopyCell { guard, cell } = self;
        cell.clone(guard, s)
    }
}

/// A pointer to the item in a slot, or to none, with this tag, under a guard of the participant.
fn ptr_compared<'g>(
    world: &mut World<Val>,
    place: &Place,
    guard: &'g Guard,
    slot: Option<SlotName>,
    tag: Tag,
) -> Ptr<'g, Val>
    requires place { IsPlaceOf world.old (index_of place.now) }
    requires reader { reader_of guard.now ≡ reader_at world.old (index_of place.now) }
    requires stays { IfSome slot (CannotGo world.old (index_of place.now)) }
    ensures seen { cell_seen result ≡ record { held = slot; tag = tag } }
    ensures world { world.new ≡ world.old }
{
    let Some(slot) = slot else {
        return null_with(tag);
    };
    ptr_at(world, place, slot.number(), guard).with_tag(tag)
}

/// The cell holds this from now on, with this tag, if it held that: then what it held comes back. Else what was to go in, and what the cell holds.
pub fn exchange_at(
    world: &mut World<Val>,
    place: &Place,
    guard: &Guard,
    cell: &AnyCell,
    was: CellContents,
    next: CellOwner,
    tag: Tag,
) -> Result<CellOwner, (CellOwner, CellContents)>
    requires place { IsPlaceOf world.old (index_of place.now) }
    requires reader { reader_of guard.now ≡ reader_at world.old (index_of place.now) }
    requires stays { IfSome was.held (CannotGo world.old (index_of place.now)) }
    requires home { IsOf world.old.home (cell_holding cell.now) }
    requires of_kind { filling_kind next ≡ cell_kind cell.now }
    requires owner { IfSome (filling_holding next) (IsOf world.old.home) }
    ensures exchanged { MatchResult result
        (λ old. (entry_at world.old.cells (cell_number cell.now) ≡ Some was)
        × (filling_holding old ≡ held_as (cell_kind cell.now) was.held world.old.home.slots)
        × (world.new ≡ with_cell world.old (cell_number cell.now) (record { held = slot_of (filling_holding next); tag = tag })))
        (λ e. (filling_holding e.0 ≡ filling_holding next) × (entry_at world.old.cells (cell_number cell.now) ≡ Some e.1)
        × (e.1 ≢ was) × (world.new ≡ world.old)) }
{
    let current = ptr_compared(world, place, guard, was.held, was.tag);
    exchange_in(world, place, guard, cell, current, next, tag)
}

/// The cell holds this from now on, with this tag, if it held what the pointer names, with its tag: then what it held comes back. Else what was to go in,
/// and what the cell holds.
fn exchange_in<'g>(
    world: &mut World<Val>,
    place: &Place,
    guard: &'g Guard,
    cell: &AnyCell,
    current: Ptr<'g, Val>,
    next: CellOwner,
    tag: Tag,
) -> Result<CellOwner, (CellOwner, CellContents)>
    requires place { IsPlaceOf world.old (index_of place.now) }
    requires reader { reader_of guard.now ≡ reader_at world.old (index_of place.now) }
    requires home { IsOf world.old.home (cell_holding cell.now) }
    requires of_kind { filling_kind next ≡ cell_kind cell.now }
    requires owner { IfSome (filling_holding next) (IsOf world.old.home) }
    ensures exchanged { MatchResult result
        (λ old. (entry_at world.old.cells (cell_number cell.now) ≡ Some (cell_seen current.entry))
        × (filling_holding old ≡ held_as (cell_kind cell.now) (slot_named current.entry) world.old.home.slots)
        × (world.new ≡ with_cell world.old (cell_number cell.now) (record { held = slot_of (filling_holding next); tag = tag })))
        (λ e. (filling_holding e.0 ≡ filling_holding next) × (entry_at world.old.cells (cell_number cell.now) ≡ Some e.1)
        × (e.1 ≢ cell_seen current.entry) × (world.new ≡ world.old)) }
{
    let exchanges = ExchangeIn {
        cell,
        guard,
        current,
        next,
        tag,
    };
    exchanges.at(world, place)
}
