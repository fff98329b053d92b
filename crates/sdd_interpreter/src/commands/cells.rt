//! What participants do with cells.
ghost use Rattle.std.specs.Prelude.{◌≡◌, ◌<◌, ℕ, IfSome, Some, IsTrue, ◌↔◌, if◌then◌else◌};
ghost use Rattle.sdd_core.specs.declared.tag.Tag.TheVariants.{None as no_tag};
ghost use Rattle.sdd_participants.specs.Slab.{IsEmptyAt, IsFull, entry_at};
ghost use Rattle.sdd_participants.specs.declared.standing.CellContents.{CellContents};
ghost use Rattle.sdd_space.specs.Guard.{reader_of};
ghost use Rattle.sdd_space.specs.RawPtr.{tag_of as tag_held};
ghost use Rattle.sdd_world_model.specs.OwnerOrCell.{IsOf};
ghost use Rattle.sdd_world_model.specs.WorldChanges.{cell_closed, held_in, with_cell};
ghost use Rattle.sdd_script_model.specs.Val.{Val};
ghost use Rattle.sdd_script_model.specs.ScriptState.{slot_of};
ghost use Rattle.sdd_interpreter.specs.Owners.{cell_holding, cell_number, filling_holding, filling_kind, holding_around};

use crate::commands::step::{CellCommand, ItemCommand};
use crate::holding::{AnyCell, CellOwner, slot_of_share, slot_of_sole};
use sdd_core::Tag;
use sdd_participants::CellContents;
use sdd_script_model::Val;
use sdd_space::inner::slot_of_ptr;
use sdd_space::{AtomicOwned, AtomicShared, Cells, Guard, Items, RawPtr, SharedItems};

/// A new cell, filled with this.
pub struct MakeCell {
    pub filling: CellOwner,
}

impl CellCommand for MakeCell {
    type Out = AnyCell;

    ghost asks = { λ step home _ world. ¬ (IsFull world.cells) × IfSome (filling_holding step.filling) (IsOf home) };

    ghost does = { λ step home _ before made after. (k : ℕ) × (cell_holding made ≡ holding_around (filling_kind step.filling) k home.cells) ×
        IsEmptyAt before.cells k
        × (after ≡ with_cell before k (record { held = slot_of (filling_holding step.filling); tag = no_tag })) };

    fn done<S: Cells<Val>>(self, s: &mut S) -> AnyCell {
        let MakeCell { filling } = self;
        match filling {
            CellOwner::Sole(None) => match AtomicOwned::null(s) {
                Ok(cell) => AnyCell::Sole(cell),
                Err(_) => unreachable!(),
            },
            CellOwner::Sole(Some(owner)) => match AtomicOwned::from(owner, s) {
                Ok(cell) => AnyCell::Sole(cell),
                Err(_) => unreachable!(),
            },
            CellOwner::Share(None) => match AtomicShared::null(s) {
                Ok(cell) => AnyCell::Share(cell),
                Err(_) => unreachable!(),
            },
            CellOwner::Share(Some(owner)) => match AtomicShared::from(owner, s) {
                Ok(cell) => AnyCell::Share(cell),
                Err(_) => unreachable!(),
            },
        }
    }
}

/// What a cell holds, and its tag, as a pointer shows them.
pub struct LoadCell<'a> {
    pub cell: &'a AnyCell,
    pub guard: &'a Guard,
}

impl CellCommand for LoadCell<'_> {
    type Out = CellContents;

    ghost asks = { λ step home reader _. IsOf home (cell_holding step.cell.now) × (reader_of step.guard.now ≡ reader) };

    ghost does = { λ step _ _ before loaded after. (entry_at before.cells (cell_number step.cell.now) ≡ Some loaded) × (after ≡ before) };

    fn done<S: Cells<Val>>(self, s: &mut S) -> CellContents {
        let LoadCell { cell, guard } = self;
        let ptr = match cell {
            AnyCell::Sole(cell) => cell.load(guard, s),
            AnyCell::Share(cell) => cell.load(guard, s),
        };
        CellContents {
            held: slot_of_ptr(&ptr),
            tag: ptr.tag(),
        }
    }
}

/// The tag of a cell.
pub struct ReadTag<'a> {
    pub cell: &'a AnyCell,
}

impl CellCommand for ReadTag<'_> {
    type Out = Tag;

    ghost asks = { λ step home _ _. IsOf home (cell_holding step.cell.now) };

    ghost does = { λ step _ _ before tag after. (held : CellContents) × (entry_at before.cells (cell_number step.cell.now) ≡ Some held) × (tag ≡ held.tag) ×
        (after ≡ before) };

    fn done<S: Cells<Val>>(self, s: &mut S) -> Tag {
        let ReadTag { cell } = self;
        match cell {
            AnyCell::Sole(cell) => cell.tag(s),
            AnyCell::Share(cell) => cell.tag(s),
        }
    }
}

/// Gives a cell a tag if it has this one, and tells whether it had.
pub struct TagIf<'a> {
    pub cell: &'a AnyCell,
    pub tag: Tag,
    pub was: Tag,
}

impl CellCommand for TagIf<'_> {
    type Out = bool;

    ghost asks = { λ step home _ _. IsOf home (cell_holding step.cell.now) };

    ghost does = { λ step _ _ before had after. (held : CellContents) × (entry_at before.cells (cell_number step.cell.now) ≡ Some held)
        × (IsTrue had ↔ (held.tag ≡ step.was))
        × (after ≡ (if had then with_cell before (cell_number step.cell.now) (record held { tag = step.tag }) else before)) };

    fn done<S: Cells<Val>>(self, s: &mut S) -> bool {
        let TagIf { cell, tag, was } = self;
        let has_tag = move |ptr: RawPtr<Val>| -> bool
            ensures { IsTrue result ↔ (tag_held ptr ≡ was) }
        { ptr.tag() == was };
        match cell {
            AnyCell::Sole(cell) => match cell.update_tag_if(tag, has_tag, s) {
                Ok(changed) => changed,
                Err(_) => unreachable!(),
            },
            AnyCell::Share(cell) => match cell.update_tag_if(tag, has_tag, s) {
                Ok(changed) => changed,
                Err(_) => unreachable!(),
            },
        }
    }
}

/// The slot whose item a cell holds: it is taken out and put back.
pub struct PeekCell<'a> {
    pub cell: &'a AnyCell,
}

impl CellCommand for PeekCell<'_> {
    type Out = Option<u32>;

    ghost asks = { λ step home _ _. IsOf home (cell_holding step.cell.now) };

    ghost does = { λ step _ _ before slot after. (slot ≡ held_in (entry_at before.cells (cell_number step.cell.now))) × (after ≡ before) };

    fn done<S: Cells<Val>>(self, s: &mut S) -> Option<u32> {
        let PeekCell { cell } = self;
        match cell {
            AnyCell::Sole(cell) => {
                let (owner, tag) = cell.swap((None, Tag::None), s);
                let slot = owner.as_ref().map(slot_of_sole);
                let (rest, _) = cell.swap((owner, tag), s);
                match rest {
                    None => slot,
                    Some(_) => unreachable!(),
                }
            }
            AnyCell::Share(cell) => {
                let (owner, tag) = cell.swap((None, Tag::None), s);
                let slot = owner.as_ref().map(slot_of_share);
                let (rest, _) = cell.swap((owner, tag), s);
                match rest {
                    None => slot,
                    Some(_) => unreachable!(),
                }
            }
        }
    }
}

/// A cell is closed, and the participant is given what it held.
pub struct CloseCell {
    pub cell: AnyCell,
}

impl ItemCommand for CloseCell {
    type Out = ();

    ghost asks = { λ step home _ _. IsOf home (cell_holding step.cell) };

    ghost does = { λ step _ place before _ after. after ≡ cell_closed before place (cell_number step.cell) };

    fn done<S: Items<Val> + SharedItems<Val> + Cells<Val>>(self, s: &mut S) {
        let CloseCell { cell } = self;
        match cell {
            AnyCell::Sole(cell) => cell.close(s),
            AnyCell::Share(cell) => cell.close(s),
        }
    }
}
