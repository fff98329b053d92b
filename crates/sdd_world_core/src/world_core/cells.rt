//! Cells hold owners.
ghost use Rattle.std.specs.Prelude.{◌≡◌, ◌≢◌, ℕ, ◌+◌, ◌^◌, ◌<◌, ◌⊎◌, Some, IsSome, MatchOption, MatchResult, IfOk, IfSome, IsTrue, ◌↔◌, option_copied};
ghost use Rattle.sdd_rights.specs.StandingKind.{IsOwner};
ghost use Rattle.sdd_rights.specs.Right.{number_of, home_of, kind_of};
ghost use Rattle.sdd_world_model.specs.Slots.{IsOwnedBy, IsSharedBy};
ghost use Rattle.sdd_world_model.specs.Cells.{MayHold, cell_with, slot_held};
ghost use Rattle.sdd_participants.specs.EpochState as time;
ghost use Rattle.sdd_participants.specs.Slab.{entry_at, IsEmptyAt, IsFull};
ghost use Rattle.sdd_world_model.specs.World.{KeepsSizes, standing_at, HasPlace};
ghost use Rattle.sdd_world_model.specs.WorldChanges.{cell_closed, held_in, with_cell, with_standing, without_cell};
ghost use Rattle.sdd_world_model.specs.WorldInvariant.{IsWhole};
ghost use Rattle.sdd_world_core.specs.Lending.{AreLent};

use super::WorldCore;
use sdd_core::{Refused, Tag};
use sdd_participants::{CellContents, Job, Standing};
use sdd_rights::{Right, StandingKind};
use sdd_space::Item;

impl<T: Item<T>, J: Job> WorldCore<T, J> {
    /// No cell is free.
    pub fn has_no_cell(&self) -> bool
        ensures { IsTrue result ↔ IsFull self.now.world.cells }
    {
        self.cells.is_full()
    }

    /// Some cell holds an owner of this slot.
    pub fn is_held(&self, slot: u32) -> bool
        ensures { IsTrue result ↔ ((k : ℕ) × (held_in (entry_at self.now.world.cells k) ≡ Some slot)) }
    {
        self.cells.is_held(slot)
    }

    /// A free cell for owners of this kind holds this one, if there is one.
    pub fn cell_from(
        &mut self,
        held: Option<Right>,
        tag: Tag,
        kind: StandingKind,
    ) -> Result<Right, Option<Right>>
        requires owner { IsOwner kind }
        requires held { MayHold self.old.world.home.slots kind held }
        ensures made { MatchResult result
            (λ cell. (home_of cell ≡ self.old.world.home.cells) × (kind_of cell ≡ kind) × IsEmptyAt self.old.world.cells (number_of cell)
            × (self.new ≡ record self.old { world = with_cell self.old.world (number_of cell) (cell_with held tag) }))
            (λ back. IsFull self.old.world.cells × (back ≡ held) × (self.new ≡ self.old)) }
        ensures sizes { KeepsSizes self.old.world self.new.world }
        ensures whole { IsWhole self.old.world → IsWhole self.new.world }
        ensures lent { IsWhole self.old.world → AreLent self.old → AreLent self.new }
    {
        self.cells.claim(held, tag, kind)
    }

    /// The same, where a cell is free.
    pub fn fill_cell(&mut self, held: Option<Right>, tag: Tag, kind: StandingKind) -> Right
        requires owner { IsOwner kind }
        requires held { MayHold self.old.world.home.slots kind held }
        requires room { ¬ (IsFull self.old.world.cells) }
        ensures home { home_of result ≡ self.old.world.home.cells }
        ensures kind { kind_of result ≡ kind }
        ensures empty { IsEmptyAt self.old.world.cells (number_of result) }
        ensures made { self.new ≡ record self.old { world = with_cell self.old.world (number_of result) (cell_with held tag) } }
        ensures sizes { KeepsSizes self.old.world self.new.world }
        ensures whole { IsWhole self.old.world → IsWhole self.new.world }
        ensures lent { IsWhole self.old.world → AreLent self.old → AreLent self.new }
    {
        match self.cell_from(held, tag, kind) {
            Ok(cell) => cell,
            Err(_) => unreachable!(),
        }
    }

    /// What a cell holds.
    pub fn cell(&self, cell: &Right) -> CellContents
        requires { home_of cell.now ≡ self.now.world.home.cells }
        ensures { entry_at self.now.world.cells (number_of cell.now) ≡ Some result }
    {
        self.cells.get(cell)
    }

    /// The slot whose item a cell holds, as its owner finds it.
    pub(super) fn slot_held(&self, cell: &Right) -> Option<u32>
        requires { home_of cell.now ≡ self.now.world.home.cells }
        ensures taken { IsSome (entry_at self.now.world.cells (number_of cell.now)) }
        ensures held { IfSome (entry_at self.now.world.cells (number_of cell.now)) (λ old. old.held ≡ result) }
        ensures owned { IfSome result (λ slot. IsOwnedBy (kind_of cell.now) (standing_at self.now.world slot)) }
    {
        let right = self.cells.owner(cell)?;
        Some(self.slots.slot_of(right))
    }

    /// Where the right of the owner lies that a cell holds, if it holds one.
    pub fn right_in(&self, cell: &Right) -> &Option<Right>
        requires { home_of cell.now ≡ self.now.world.home.cells }
        ensures home { IfSome result.now (λ owner. home_of owner ≡ self.now.world.home.slots) }
        ensures held { slot_held result.now ≡ held_in (entry_at self.now.world.cells (number_of cell.now)) }
    {
        self.cells.right_in(cell)
    }

    /// One owner more of what a cell of shared owners holds, if it holds anything.
    ///
    /// `TooManyOwners` where as many share it as may.
    pub fn owner_held(&mut self, cell: &Right) -> Result<Option<Right>, Refused>
        requires home { home_of cell.now ≡ self.old.world.home.cells }
        requires kind { kind_of cell.now ≡ StandingKind.Shared }
        ensures held { (old : CellContents) × (entry_at self.old.world.cells (number_of cell.now) ≡ Some old) × MatchResult result
            (λ o. (old.held ≡ slot_held o) × MayHold self.old.world.home.slots StandingKind.Shared o)
            (λ e. (e ≡ Refused.TooManyOwners) × IsSome old.held × IfSome old.held (λ slot. IsSharedBy (2 ^ 62) (standing_at self.old.world slot))) }
        ensures upgraded { MatchResult result
            (λ o. MatchOption (slot_held o) (self.new ≡ self.old)
            (λ slot. (owners : ℕ) × IsSharedBy owners (standing_at self.old.world slot) × (owners < 2 ^ 62) ×
            (self.new ≡ record self.old { world = with_standing self.old.world slot (Standing.Shared (owners + 1)) })))
            (λ _. self.new ≡ self.old) }
        ensures sizes { KeepsSizes self.old.world self.new.world }
        ensures whole { IsWhole self.old.world → IsWhole self.new.world }
        ensures lent { IsWhole self.old.world → AreLent self.old → AreLent self.new }
    {
        match self.slot_held(cell) {
            Some(slot) => self.get_shared(slot),
            None => Ok(None),
        }
    }

    /// The cell holds another owner, or none, and has this tag. What it held comes back.
    pub fn swap(&mut self, cell: &Right, new: Option<Right>, tag: Tag) -> Option<Right>
        requires home { home_of cell.now ≡ self.old.world.home.cells }
        requires held { MayHold self.old.world.home.slots (kind_of cell.now) new }
        ensures taken { IsSome (entry_at self.old.world.cells (number_of cell.now)) }
        ensures held { IfSome (entry_at self.old.world.cells (number_of cell.now)) (λ old. old.held ≡ slot_held result) }
        ensures owner { MayHold self.old.world.home.slots (kind_of cell.now) result }
        ensures swapped { self.new ≡ record self.old { world = with_cell self.old.world (number_of cell.now) (cell_with new tag) } }
        ensures sizes { KeepsSizes self.old.world self.new.world }
        ensures whole { IsWhole self.old.world → IsWhole self.new.world }
        ensures lent { IsWhole self.old.world → AreLent self.old → AreLent self.new }
    {
        self.cells.swap(cell, new, tag)
    }

    /// A swap, if the cell holds what was expected, its tag counted; else the owner handed in comes back.
    pub fn compare_exchange(
        &mut self,
        cell: &Right,
        current: CellContents,
        new: Option<Right>,
        tag: Tag,
    ) -> Result<Option<Right>, Option<Right>>
        requires home { home_of cell.now ≡ self.old.world.home.cells }
        requires held { MayHold self.old.world.home.slots (kind_of cell.now) new }
        ensures exchanged { MatchResult result
            (λ old. (entry_at self.old.world.cells (number_of cell.now) ≡ Some current) × (slot_held old ≡ current.held)
            × MayHold self.old.world.home.slots (kind_of cell.now) old
            × (self.new ≡ record self.old { world = with_cell self.old.world (number_of cell.now) (cell_with new tag) }))
            (λ back. (entry_at self.old.world.cells (number_of cell.now) ≢ Some current) × (back ≡ new) × (self.new ≡ self.old)) }
        ensures sizes { KeepsSizes self.old.world self.new.world }
        ensures whole { IsWhole self.old.world → IsWhole self.new.world }
        ensures lent { IsWhole self.old.world → AreLent self.old → AreLent self.new }
    {
        if self.cell(cell) != current {
            return Err(new);
        }
        Ok(self.swap(cell, new, tag))
    }

    /// A free cell for shared owners holds one owner more of what such a cell holds, if it holds anything, and has the same tag.
    ///
    /// `NoCell` where no cell is free; `TooManyOwners` where as many share the item as may.
    pub fn clone_cell(&mut self, cell: &Right) -> Result<Right, Refused>
        requires home { home_of cell.now ≡ self.old.world.home.cells }
        requires kind { kind_of cell.now ≡ StandingKind.Shared }
        ensures home { IfOk result (λ other. home_of other ≡ self.old.world.home.cells) }
        ensures kind { IfOk result (λ other. kind_of other ≡ StandingKind.Shared) }
        ensures copied { (old : CellContents) × (entry_at self.old.world.cells (number_of cell.now) ≡ Some old) × MatchResult result
            (λ other. IsEmptyAt self.old.world.cells (number_of other) × MatchOption old.held
            (self.new ≡ record self.old { world = with_cell self.old.world (number_of other) old })
            (λ slot. (owners : ℕ) × IsSharedBy owners (standing_at self.old.world slot) × (owners < 2 ^ 62) × (self.new ≡
            record self.old { world = with_cell (with_standing self.old.world slot (Standing.Shared (owners + 1))) (number_of other) old })))
            (λ e. (self.new ≡ self.old) × (IsFull self.old.world.cells × (e ≡ Refused.NoCell) ⊎
            ¬ (IsFull self.old.world.cells) × (e ≡ Refused.TooManyOwners) × IsSome old.held ×
            IfSome old.held (λ slot. IsSharedBy (2 ^ 62) (standing_at self.old.world slot)))) }
        ensures time { self.new.world.time ≡ self.old.world.time }
        ensures values { self.new.world.values ≡ self.old.world.values }
        ensures sizes { KeepsSizes self.old.world self.new.world }
        ensures whole { IsWhole self.old.world → IsWhole self.new.world }
        ensures lent { IsWhole self.old.world → AreLent self.old → AreLent self.new }
    {
        let tag = self.cell(cell).tag;
        if self.has_no_cell() {
            return Err(Refused::NoCell);
        }
        let owner = self.owner_held(cell)?;
        Ok(self.fill_cell(owner, tag, StandingKind::Shared))
    }

    /// The cell has this tag.
    pub fn set_tag(&mut self, cell: &Right, tag: Tag)
        requires { home_of cell.now ≡ self.old.world.home.cells }
        ensures taken { IsSome (entry_at self.old.world.cells (number_of cell.now)) }
        ensures tagged { IfSome (entry_at self.old.world.cells (number_of cell.now))
            (λ old. self.new ≡ record self.old { world = with_cell self.old.world (number_of cell.now) (record old { tag = tag }) }) }
        ensures sizes { KeepsSizes self.old.world self.new.world }
        ensures whole { IsWhole self.old.world → IsWhole self.new.world }
        ensures lent { IsWhole self.old.world → AreLent self.old → AreLent self.new }
    {
        self.cells.set_tag(cell, tag);
    }

    /// Gives a cell up. What it held comes back.
    pub fn into_contents(&mut self, cell: Right) -> Option<Right>
        requires { home_of cell ≡ self.old.world.home.cells }
        ensures taken { IsSome (entry_at self.old.world.cells (number_of cell)) }
        ensures held { IfSome (entry_at self.old.world.cells (number_of cell)) (λ old. old.held ≡ slot_held result) }
        ensures owner { MayHold self.old.world.home.slots (kind_of cell) result }
        ensures freed { self.new ≡ record self.old { world = without_cell self.old.world (number_of cell) } }
        ensures sizes { KeepsSizes self.old.world self.new.world }
        ensures whole { IsWhole self.old.world → IsWhole self.new.world }
        ensures lent { IsWhole self.old.world → AreLent self.old → AreLent self.new }
    {
        self.cells.close(cell)
    }

    /// A cell for owners of this kind is free, and a place is given what it held.
    pub(super) fn close_cell(&mut self, place: usize, cell: Right, kind: StandingKind)
        requires place { HasPlace self.old.world place }
        requires home { home_of cell ≡ self.old.world.home.cells }
        requires kind { kind_of cell ≡ kind }
        ensures closed { self.new ≡ record self.old { world = cell_closed self.old.world place (number_of cell) } }
        ensures sizes { KeepsSizes self.old.world self.new.world }
        ensures whole { IsSome (time.phase_at self.old.world.time place) → IsWhole self.old.world → IsWhole self.new.world }
        ensures lent { IsWhole self.old.world → AreLent self.old → AreLent self.new }
    {
        if let Some(right) = self.into_contents(cell) {
            let _ = self.release(place, right, kind);
        }
    }
}
