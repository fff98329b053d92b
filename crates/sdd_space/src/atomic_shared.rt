//! What a cell for one of an item's owners does.
ghost use Rattle.std.specs.Prelude.{ℕ, ◌≡◌, ◌+◌, ◌^◌, ◌<◌, ◌⊎◌, IfErr, IfOk, IfSome, IsSome, MatchOption, MatchResult, None, Some, option_map};
ghost use Rattle.sdd_world_model.specs.Slots.{IsSharedBy};
ghost use Rattle.sdd_world_model.specs.World.{World, standing_at};
ghost use Rattle.sdd_space.specs.CallerId.{IsSeated, IsExact};
ghost use Rattle.sdd_space.specs.Refusals.{IsRefusedBy};
ghost use Rattle.sdd_space.specs.Undisturbed.{Undisturbed};
ghost use Rattle.sdd_space.specs.Guard.{reader_of};
ghost use Rattle.sdd_world_model.specs.WorldChanges.{with_cell, without_cell, with_standing};
ghost use Rattle.sdd_space.specs.Shared.{slot_of, cell_of, cells_home, cell_with, IsOfSlots};
ghost use Rattle.sdd_participants.specs.Slab.{IsEmptyAt, IsFull, entry_at};

use crate::atomic_cell::{AtomicCell, AtomicShared};
use crate::guard::Guard;
use crate::item::Item;
use crate::owner::Shared;
use crate::ownership::SharedOwnership;
use crate::space::Cells;
use sdd_core::{Refused, Tag};
use sdd_participants::{CellContents, Standing};
use sdd_rights::StandingKind;

impl<T: Item<T>> AtomicCell<SharedOwnership, T> {
    /// Frees the cell. What it held comes back.
    pub fn into_shared<S: Cells<T>>(self, s: &mut S) -> Option<Shared<T>>
        requires seated { IsSeated (S.caller s.old) }
        requires home { cells_home self ≡ (S.caller s.old).home.cells }
        ensures undisturbed { Undisturbed S.caller S.own S.known S.shows s.old s.new }
        ensures owner { IsOfSlots (S.caller s.old).home.slots result }
        ensures exact { IsExact (S.caller s.old) → ((tag : Tag) × (entry_at (S.world s.old).cells (cell_of self) ≡ Some (cell_with result tag))) ×
            (S.world s.new ≡ without_cell (S.world s.old) (cell_of self)) }
    {
        Shared::of_held(s.into_contents(self.into_right(), StandingKind::Shared))
    }

    /// One owner more of the item that the cell holds; None where it holds nothing.
    ///
    /// `TooManyOwners` where 2^62 own it, cells counted; `Contended`, in a domain alone, where others changed the cell or the item's owners meanwhile as often
    /// as its limits allow.
    pub fn get_shared<S: Cells<T>>(
        &self,
        guard: &Guard,
        s: &mut S,
    ) -> Result<Option<Shared<T>>, Refused>
        requires seated { IsSeated (S.caller s.old) }
        requires home { cells_home self.now ≡ (S.caller s.old).home.cells }
        requires reader { reader_of guard.now ≡ (S.caller s.old).reader }
        ensures undisturbed { Undisturbed S.caller S.own S.known S.shows s.old s.new }
        ensures owner { IfOk result (IsOfSlots (S.caller s.old).home.slots) }
        ensures back { IfErr result (IsRefusedBy (S.caller s.old) Refused.TooManyOwners) }
        ensures exact { IsExact (S.caller s.old) → (cell : CellContents) × (entry_at (S.world s.old).cells (cell_of self.now) ≡ Some cell) × MatchResult result
            (λ o. (option_map slot_of o ≡ cell.held) × MatchOption o (S.world s.new ≡ S.world s.old)
            (λ owner. (owners : ℕ) × IsSharedBy owners (standing_at (S.world s.old) (slot_of owner)) × (owners < 2 ^ 62) ×
            (S.world s.new ≡ with_standing (S.world s.old) (slot_of owner) (Standing.Shared (owners + 1)))))
            (λ e. (e ≡ Refused.TooManyOwners) × IfSome cell.held (λ slot. IsSharedBy (2 ^ 62) (standing_at (S.world s.old) slot)) × IsSome cell.held ×
            (S.world s.new ≡ S.world s.old)) }
    {
        match s.share_held(self.right(), guard) {
            Ok(held) => Ok(Shared::of_held(held)),
            Err(refused) => Err(refused),
        }
    }

    /// Another cell that holds one owner more of the same item, or nothing, with the same tag.
    ///
    /// `NoCell` where no cell is free, else `TooManyOwners` where 2^62 own the item, cells counted; `Contended`, in a domain alone, where as many exchanges
    /// were lost as its limits allow.
    pub fn clone<S: Cells<T>>(&self, guard: &Guard, s: &mut S) -> Result<AtomicShared<T>, Refused>
        requires seated { IsSeated (S.caller s.old) }
        requires home { cells_home self.now ≡ (S.caller s.old).home.cells }
        requires reader { reader_of guard.now ≡ (S.caller s.old).reader }
        ensures undisturbed { Undisturbed S.caller S.own S.known S.shows s.old s.new }
        ensures home { IfOk result (λ other. cells_home other ≡ (S.caller s.old).home.cells) }
        ensures back { IfErr result (λ e. (e ≡ Refused.NoCell) ⊎ IsRefusedBy (S.caller s.old) Refused.TooManyOwners e) }
        ensures exact { IsExact (S.caller s.old) → (cell : CellContents) × (entry_at (S.world s.old).cells (cell_of self.now) ≡ Some cell) × MatchResult result
            (λ other. IsEmptyAt (S.world s.old).cells (cell_of other) × MatchOption cell.held
            (S.world s.new ≡ with_cell (S.world s.old) (cell_of other) cell)
            (λ slot. (owners : ℕ) × IsSharedBy owners (standing_at (S.world s.old) slot) × (owners < 2 ^ 62) ×
            (S.world s.new ≡ with_cell (with_standing (S.world s.old) slot (Standing.Shared (owners + 1))) (cell_of other) cell)))
            (λ e. (S.world s.new ≡ S.world s.old) × (IsFull (S.world s.old).cells × (e ≡ Refused.NoCell) ⊎
            ¬ (IsFull (S.world s.old).cells) × (e ≡ Refused.TooManyOwners) × IsSome cell.held ×
            IfSome cell.held (λ slot. IsSharedBy (2 ^ 62) (standing_at (S.world s.old) slot)))) }
    {
        Ok(AtomicShared::of_right(s.clone_cell(self.right(), guard)?))
    }
}
