ghost use Rattle.std.specs.Prelude.{◌≡◌, ◌≢◌, ◌+◌, ◌^◌, ◌<◌, ◌⊎◌, ℕ, IfErr, IfOk, IfSome, IsOk, IsSome, MatchOption, MatchResult, Some, if◌then◌else◌, true};
ghost use Rattle.sdd_participants.specs.Slab.{IsEmptyAt, IsFull, entry_at};
ghost use Rattle.sdd_world_model.specs.Asked.{WasAsked};
ghost use Rattle.sdd_world_model.specs.OwnerOrCell.{AreOf};
ghost use Rattle.sdd_world_model.specs.World.{standing_at};
ghost use Rattle.sdd_core.specs.declared.tag.Tag.TheVariants.{None as no_tag};
ghost use Rattle.sdd_space.specs.CallerId.{IsSeated, IsExact};
ghost use Rattle.sdd_space.specs.Refusals.{IsContended, IsRefusedBy};
ghost use Rattle.sdd_space.specs.Undisturbed.{Undisturbed};
ghost use Rattle.sdd_rights.specs.StandingKind.{IsOwner};
ghost use Rattle.sdd_rights.specs.Right.{number_of, home_of, kind_of};
ghost use Rattle.sdd_world_model.specs.Slots.{IsOwnedBy, IsSharedBy, first_standing};
ghost use Rattle.sdd_world_model.specs.Cells.{MayHold, cell_with, slot_held};
ghost use Rattle.sdd_space.specs.Guard.{reader_of};
ghost use Rattle.sdd_space.specs.Ptr.{PtrIsShown, slot_named, cell_seen};
ghost use Rattle.sdd_space.specs.RawPtr as raw;
ghost use Rattle.sdd_world_model.specs.WorldChanges.{made_as, with_standing, with_cell, without_cell};

use crate::guard::Guard;
use crate::item::Item;
use crate::ptr::Ptr;
use crate::raw_ptr::RawPtr;
use crate::space::caller::Caller;
use sdd_core::{Refused, Tag};
use sdd_participants::{CellContents, Standing};
use sdd_rights::{Right, StandingKind};

/// The cells of a world or domain that hold owners.
///
/// A cell is here the right that its owner has to it.
pub trait Cells<T: Item<T>>: Caller<T> {
    /// A free cell for owners of this kind, which holds this one, if there is one, with this tag.
    ///
    /// `NoCell` where none is free; `Contended`, in a domain alone, where as many exchanges were lost as its limits allow.
    fn cell_from(
        &mut self,
        held: Option<Right>,
        tag: Tag,
        kind: StandingKind,
    ) -> Result<Right, (Option<Right>, Refused)>
        requires seated { IsSeated (Self.caller self.old) }
        requires owner { IsOwner kind }
        requires held { MayHold (Self.caller self.old).home.slots kind held }
        ensures undisturbed { Undisturbed Self.caller Self.own Self.known Self.shows self.old self.new }
        ensures home { IfOk result (λ cell. home_of cell ≡ (Self.caller self.old).home.cells) }
        ensures kind { IfOk result (λ cell. kind_of cell ≡ kind) }
        ensures back { IfErr result (λ e. (e.0 ≡ held) × IsRefusedBy (Self.caller self.old) Refused.NoCell e.1) }
        ensures exact { IsExact (Self.caller self.old) → MatchResult result
            (λ cell. IsEmptyAt (Self.world self.old).cells (number_of cell) ×
            (Self.world self.new ≡ with_cell (Self.world self.old) (number_of cell) (cell_with held tag)))
            (λ e. IsFull (Self.world self.old).cells × (e ≡ (held, Refused.NoCell)) × (Self.world self.new ≡ Self.world self.old)) };

    /// Puts a value into a free slot, and its owner, which is of this kind, into a free cell.
    ///
    /// `NoSlot` where no slot is free, else `NoCell` where no cell is; `Contended`, in a domain alone, where as many exchanges were lost as its limits
    /// allow.
    fn new_in_cell(&mut self, value: T, kind: StandingKind) -> Result<Right, (T, Refused)>
        requires seated { IsSeated (Self.caller self.old) }
        requires home { AreOf (Self.caller self.old).home (T.holds value) }
        requires owner { IsOwner kind }
        ensures undisturbed { Undisturbed Self.caller Self.own Self.known Self.shows self.old self.new }
        ensures home { IfOk result (λ cell. home_of cell ≡ (Self.caller self.old).home.cells) }
        ensures kind { IfOk result (λ cell. kind_of cell ≡ kind) }
        ensures shown { IsExact (Self.caller self.old) → IfOk result (λ cell. (slot : ℕ) × Self.shows self.new slot value ×
            (entry_at (Self.world self.new).cells (number_of cell) ≡ Some (record { held = Some slot; tag = no_tag }))) }
        ensures back { IfErr result (λ e. (e.0 ≡ value) × ((e.1 ≡ Refused.NoSlot) ⊎ IsRefusedBy (Self.caller self.old) Refused.NoCell e.1)) }
        ensures exact { IsExact (Self.caller self.old) → MatchResult result
            (λ cell. (slot : ℕ) × IsEmptyAt (Self.world self.old).standings slot × IsEmptyAt (Self.world self.old).cells (number_of cell) ×
            (Self.world self.new ≡ with_cell (made_as (Self.world self.old) slot value (first_standing kind)) (number_of cell)
            (record { held = Some slot; tag = no_tag })))
            (λ e. (IsFull (Self.world self.old).standings × (e ≡ (value, Refused.NoSlot)) ⊎
            ¬ (IsFull (Self.world self.old).standings) × IsFull (Self.world self.old).cells × (e ≡ (value, Refused.NoCell))) ×
            (Self.world self.new ≡ Self.world self.old)) };

    /// What a cell holds at this moment.
    fn cell(&mut self, cell: &Right) -> CellContents
        requires seated { IsSeated (Self.caller self.old) }
        requires home { home_of cell.now ≡ (Self.caller self.old).home.cells }
        ensures undisturbed { Undisturbed Self.caller Self.own Self.known Self.shows self.old self.new }
        ensures exact { IsExact (Self.caller self.old) →
            (entry_at (Self.world self.old).cells (number_of cell.now) ≡ Some result) × (Self.world self.new ≡ Self.world self.old) };

    /// A pointer to what a cell holds, with the cell's tag.
    fn load<'g>(&mut self, cell: &Right, guard: &'g Guard) -> Ptr<'g, T>
        requires seated { IsSeated (Self.caller self.old) }
        requires home { home_of cell.now ≡ (Self.caller self.old).home.cells }
        requires reader { reader_of guard.now ≡ (Self.caller self.old).reader }
        ensures undisturbed { Undisturbed Self.caller Self.own Self.known Self.shows self.old self.new }
        ensures shown { PtrIsShown (Self.shows self.new) result }
        ensures owned { IsExact (Self.caller self.old) →
            IfSome (slot_named result) (λ slot. IsOwnedBy (kind_of cell.now) (standing_at (Self.world self.old) slot)) }
        ensures exact { IsExact (Self.caller self.old) →
            (entry_at (Self.world self.old).cells (number_of cell.now) ≡ Some (cell_seen result)) × (Self.world self.new ≡ Self.world self.old) };

    /// The cell, which is for owners of this kind, holds another owner, or none, and has this tag. What it held, and its tag, come back.
    fn swap(
        &mut self,
        cell: &Right,
        new: Option<Right>,
        tag: Tag,
        kind: StandingKind,
    ) -> (Option<Right>, Tag)
        requires seated { IsSeated (Self.caller self.old) }
        requires home { home_of cell.now ≡ (Self.caller self.old).home.cells }
        requires kind { kind_of cell.now ≡ kind }
        requires owner { IsOwner kind }
        requires held { MayHold (Self.caller self.old).home.slots (kind_of cell.now) new }
        ensures undisturbed { Undisturbed Self.caller Self.own Self.known Self.shows self.old self.new }
        ensures held { MayHold (Self.caller self.old).home.slots (kind_of cell.now) result.0 }
        ensures exact { IsExact (Self.caller self.old) →
            (entry_at (Self.world self.old).cells (number_of cell.now) ≡ Some (cell_with result.0 result.1)) ×
            (Self.world self.new ≡ with_cell (Self.world self.old) (number_of cell.now) (cell_with new tag)) };

    /// The same, if the cell holds what was expected. Then what it held comes back, with a pointer to what it holds now; else the one handed in,
    /// with a pointer to what it holds.
    fn compare_exchange<'g>(
        &mut self,
        cell: &Right,
        current: CellContents,
        new: Option<Right>,
        tag: Tag,
        kind: StandingKind,
        guard: &'g Guard,
    ) -> Result<(Option<Right>, Ptr<'g, T>), (Option<Right>, Ptr<'g, T>)>
        requires seated { IsSeated (Self.caller self.old) }
        requires home { home_of cell.now ≡ (Self.caller self.old).home.cells }
        requires kind { kind_of cell.now ≡ kind }
        requires owner { IsOwner kind }
        requires held { MayHold (Self.caller self.old).home.slots (kind_of cell.now) new }
        requires reader { reader_of guard.now ≡ (Self.caller self.old).reader }
        ensures undisturbed { Undisturbed Self.caller Self.own Self.known Self.shows self.old self.new }
        ensures held { IfOk result (λ o. MayHold (Self.caller self.old).home.slots (kind_of cell.now) o.0) }
        ensures old { IfOk result (λ o. slot_held o.0 ≡ current.held) }
        ensures now { IfOk result (λ o. cell_seen o.1 ≡ cell_with new tag) }
        ensures back { IfErr result (λ e. e.0 ≡ new) }
        ensures shown { MatchResult result (λ o. PtrIsShown (Self.shows self.new) o.1) (λ e. PtrIsShown (Self.shows self.new) e.1) }
        ensures exact { IsExact (Self.caller self.old) → MatchResult result
            (λ _. (entry_at (Self.world self.old).cells (number_of cell.now) ≡ Some current) ×
            (Self.world self.new ≡ with_cell (Self.world self.old) (number_of cell.now) (cell_with new tag)))
            (λ e. (entry_at (Self.world self.old).cells (number_of cell.now) ≡ Some (cell_seen e.1)) × (cell_seen e.1 ≢ current) ×
            (Self.world self.new ≡ Self.world self.old)) };

    /// The cell has another tag, if the condition holds of what it holds.
    ///
    /// `Contended`, in a domain alone, where as many exchanges were lost as its limits allow.
    fn update_tag_if<F: FnMut(RawPtr<T>) -> bool>(
        &mut self,
        cell: &Right,
        tag: Tag,
        condition: F,
    ) -> Result<bool, Refused>
        requires seated { IsSeated (Self.caller self.old) }
        requires home { home_of cell.now ≡ (Self.caller self.old).home.cells }
        requires callable { F.IsAlwaysCallable condition }
        ensures undisturbed { Undisturbed Self.caller Self.own Self.known Self.shows self.old self.new }
        ensures back { IfErr result (IsContended (Self.caller self.old)) }
        ensures asked { IfOk result (λ changed. (ptr : RawPtr T) ×
            WasAsked (λ p x q. F.step p x true q) (λ p x r. F.post p x r) condition ptr changed) }
        ensures exact { IsExact (Self.caller self.old) → IsOk result × IfOk result (λ changed. (ptr : RawPtr T) ×
            (entry_at (Self.world self.old).cells (number_of cell.now) ≡ Some (raw.cell_seen ptr)) × F.post condition ptr changed ×
            (Self.world self.new ≡ (if changed then with_cell (Self.world self.old) (number_of cell.now) (record (raw.cell_seen ptr) { tag = tag })
            else Self.world self.old))) };

    /// One owner more of what a cell of shared owners holds, if it holds anything.
    ///
    /// `TooManyOwners` where as many share the item as may; `Contended`, in a domain alone, where others changed the cell or its item's owners meanwhile
    /// as often as its limits allow.
    fn share_held(&mut self, cell: &Right, guard: &Guard) -> Result<Option<Right>, Refused>
        requires seated { IsSeated (Self.caller self.old) }
        requires home { home_of cell.now ≡ (Self.caller self.old).home.cells }
        requires kind { kind_of cell.now ≡ StandingKind.Shared }
        requires reader { reader_of guard.now ≡ (Self.caller self.old).reader }
        ensures undisturbed { Undisturbed Self.caller Self.own Self.known Self.shows self.old self.new }
        ensures owner { IfOk result (MayHold (Self.caller self.old).home.slots StandingKind.Shared) }
        ensures back { IfErr result (IsRefusedBy (Self.caller self.old) Refused.TooManyOwners) }
        ensures exact { IsExact (Self.caller self.old) → (old : CellContents) × (entry_at (Self.world self.old).cells (number_of cell.now) ≡ Some old) ×
            MatchResult result
            (λ owner. (slot_held owner ≡ old.held) × MatchOption (slot_held owner) (Self.world self.new ≡ Self.world self.old)
            (λ slot. (owners : ℕ) × IsSharedBy owners (standing_at (Self.world self.old) slot) × (owners < 2 ^ 62) ×
            (Self.world self.new ≡ with_standing (Self.world self.old) slot (Standing.Shared (owners + 1)))))
            (λ e. (e ≡ Refused.TooManyOwners) × IfSome old.held (λ slot. IsSharedBy (2 ^ 62) (standing_at (Self.world self.old) slot)) ×
            IsSome old.held × (Self.world self.new ≡ Self.world self.old)) };

    /// Another cell that holds one owner more of what a cell holds, if it holds anything, with its tag.
    ///
    /// `NoCell` where no cell is free, else `TooManyOwners` where as many share the item as may; `Contended`, in a domain alone, where as many exchanges
    /// were lost as its limits allow.
    fn clone_cell(&mut self, cell: &Right, guard: &Guard) -> Result<Right, Refused>
        requires seated { IsSeated (Self.caller self.old) }
        requires home { home_of cell.now ≡ (Self.caller self.old).home.cells }
        requires kind { kind_of cell.now ≡ StandingKind.Shared }
        requires reader { reader_of guard.now ≡ (Self.caller self.old).reader }
        ensures undisturbed { Undisturbed Self.caller Self.own Self.known Self.shows self.old self.new }
        ensures home { IfOk result (λ other. home_of other ≡ (Self.caller self.old).home.cells) }
        ensures kind { IfOk result (λ other. kind_of other ≡ StandingKind.Shared) }
        ensures back { IfErr result (λ e. (e ≡ Refused.NoCell) ⊎ IsRefusedBy (Self.caller self.old) Refused.TooManyOwners e) }
        ensures exact { IsExact (Self.caller self.old) → (old : CellContents) × (entry_at (Self.world self.old).cells (number_of cell.now) ≡ Some old) ×
            MatchResult result
            (λ other. IsEmptyAt (Self.world self.old).cells (number_of other) × MatchOption old.held
            (Self.world self.new ≡ with_cell (Self.world self.old) (number_of other) old)
            (λ slot. (owners : ℕ) × IsSharedBy owners (standing_at (Self.world self.old) slot) × (owners < 2 ^ 62) ×
            (Self.world self.new ≡ with_cell (with_standing (Self.world self.old) slot (Standing.Shared (owners + 1))) (number_of other) old)))
            (λ e. (Self.world self.new ≡ Self.world self.old) × (IsFull (Self.world self.old).cells × (e ≡ Refused.NoCell) ⊎
            ¬ (IsFull (Self.world self.old).cells) × (e ≡ Refused.TooManyOwners) × IsSome old.held ×
            IfSome old.held (λ slot. IsSharedBy (2 ^ 62) (standing_at (Self.world self.old) slot)))) };

    /// Gives a cell up, which is for owners of this kind. What it held comes back.
    fn into_contents(&mut self, cell: Right, kind: StandingKind) -> Option<Right>
        requires seated { IsSeated (Self.caller self.old) }
        requires home { home_of cell ≡ (Self.caller self.old).home.cells }
        requires kind { kind_of cell ≡ kind }
        requires owner { IsOwner kind }
        ensures undisturbed { Undisturbed Self.caller Self.own Self.known Self.shows self.old self.new }
        ensures held { MayHold (Self.caller self.old).home.slots (kind_of cell) result }
        ensures exact { IsExact (Self.caller self.old) →
            IfSome (entry_at (Self.world self.old).cells (number_of cell)) (λ old. old.held ≡ slot_held result) ×
            IsSome (entry_at (Self.world self.old).cells (number_of cell)) ×
            (Self.world self.new ≡ without_cell (Self.world self.old) (number_of cell)) };
}
