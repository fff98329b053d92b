ghost use Rattle.std.specs.Prelude.{◌≡◌, ◌≢◌, IfErr, IfOk, IsOk, MatchResult, None, Some, if◌then◌else◌, true};
ghost use Rattle.sdd_participants.specs.Slab.{IsEmptyAt, IsFull};
ghost use Rattle.sdd_world_model.specs.Asked.{WasAsked};
ghost use Rattle.sdd_world_model.specs.World.{pointer_at};
ghost use Rattle.sdd_space.specs.CallerId.{IsSeated, IsExact};
ghost use Rattle.sdd_space.specs.Refusals.{IsContended, IsRefusedBy};
ghost use Rattle.sdd_space.specs.Undisturbed.{Undisturbed};
ghost use Rattle.sdd_rights.specs.Right.{raw_number_of, raw_home_of};
ghost use Rattle.sdd_space.specs.RawPtr as raw;
ghost use Rattle.sdd_world_model.specs.Out.{IsNullCell};
ghost use Rattle.sdd_world_model.specs.WorldChanges.{with_pointer, pointing, without_cell};

use crate::item::Item;
use crate::raw_ptr::RawPtr;
use crate::space::caller::Caller;
use sdd_core::{Refused, Tag};
use sdd_participants::RawCellContents;
use sdd_rights::RawRight;

/// The cells of a world or domain that hold raw pointers.
pub trait RawCells<T: Item<T>>: Caller<T> {
    /// A free cell that points to this.
    ///
    /// `NoCell` where none is free; `Contended`, in a domain alone, where as many exchanges were lost as its limits allow.
    fn new_raw_cell(&mut self, pointer: RawCellContents) -> Result<RawRight, Refused>
        requires seated { IsSeated (Self.caller self.old) }
        ensures undisturbed { Undisturbed Self.caller Self.own Self.known Self.shows self.old self.new }
        ensures home { IfOk result (λ cell. raw_home_of cell ≡ (Self.caller self.old).home.cells) }
        ensures back { IfErr result (IsRefusedBy (Self.caller self.old) Refused.NoCell) }
        ensures exact { IsExact (Self.caller self.old) → MatchResult result
            (λ cell. IsEmptyAt (Self.world self.old).cells (raw_number_of cell) ×
            (Self.world self.new ≡ pointing (Self.world self.old) (raw_number_of cell) pointer))
            (λ e. IsFull (Self.world self.old).cells × (e ≡ Refused.NoCell) × (Self.world self.new ≡ Self.world self.old)) };

    /// What a raw cell points to at this moment.
    fn pointer(&mut self, cell: &RawRight) -> RawCellContents
        requires seated { IsSeated (Self.caller self.old) }
        requires home { raw_home_of cell.now ≡ (Self.caller self.old).home.cells }
        ensures undisturbed { Undisturbed Self.caller Self.own Self.known Self.shows self.old self.new }
        ensures exact { IsExact (Self.caller self.old) →
            (pointer_at (Self.world self.old) (raw_number_of cell.now) ≡ Some result) × (Self.world self.new ≡ Self.world self.old) };

    /// A raw cell points to this. What it pointed to.
    fn swap_raw(&mut self, cell: &RawRight, new: RawCellContents) -> RawCellContents
        requires seated { IsSeated (Self.caller self.old) }
        requires home { raw_home_of cell.now ≡ (Self.caller self.old).home.cells }
        ensures undisturbed { Undisturbed Self.caller Self.own Self.known Self.shows self.old self.new }
        ensures exact { IsExact (Self.caller self.old) →
            (pointer_at (Self.world self.old) (raw_number_of cell.now) ≡ Some result) ×
            (Self.world self.new ≡ with_pointer (Self.world self.old) (raw_number_of cell.now) new) };

    /// The same, if it points to what was expected; else what it points to comes back.
    fn compare_exchange_raw(
        &mut self,
        cell: &RawRight,
        current: RawCellContents,
        new: RawCellContents,
    ) -> Result<(), RawCellContents>
        requires seated { IsSeated (Self.caller self.old) }
        requires home { raw_home_of cell.now ≡ (Self.caller self.old).home.cells }
        ensures undisturbed { Undisturbed Self.caller Self.own Self.known Self.shows self.old self.new }
        ensures differs { IfErr result (λ now. now ≢ current) }
        ensures exact { IsExact (Self.caller self.old) → MatchResult result
            (λ _. (pointer_at (Self.world self.old) (raw_number_of cell.now) ≡ Some current) ×
            (Self.world self.new ≡ with_pointer (Self.world self.old) (raw_number_of cell.now) new))
            (λ now. (pointer_at (Self.world self.old) (raw_number_of cell.now) ≡ Some now) × (now ≢ current) × (Self.world self.new ≡ Self.world self.old)) };

    /// A raw cell's pointer has another tag, if the condition holds of it.
    ///
    /// `Contended`, in a domain alone, where as many exchanges were lost as its limits allow.
    fn update_raw_tag_if<F: FnMut(RawPtr<T>) -> bool>(
        &mut self,
        cell: &RawRight,
        tag: Tag,
        condition: F,
    ) -> Result<bool, Refused>
        requires seated { IsSeated (Self.caller self.old) }
        requires home { raw_home_of cell.now ≡ (Self.caller self.old).home.cells }
        requires callable { F.IsAlwaysCallable condition }
        ensures undisturbed { Undisturbed Self.caller Self.own Self.known Self.shows self.old self.new }
        ensures back { IfErr result (IsContended (Self.caller self.old)) }
        ensures asked { IfOk result (λ changed. (ptr : RawPtr T) ×
            WasAsked (λ p x q. F.step p x true q) (λ p x r. F.post p x r) condition ptr changed) }
        ensures exact { IsExact (Self.caller self.old) → IsOk result × IfOk result (λ changed. (ptr : RawPtr T) ×
            (pointer_at (Self.world self.old) (raw_number_of cell.now) ≡ Some (raw.pointer_of ptr)) × F.post condition ptr changed ×
            (Self.world self.new ≡ (if changed
            then with_pointer (Self.world self.old) (raw_number_of cell.now) (record (raw.pointer_of ptr) { tag = tag }) else Self.world self.old))) };

    /// A raw cell points to what `f` makes of its pointer, if that is anything. What it pointed to, or points to still.
    ///
    /// `Contended`, in a domain alone, where as many exchanges were lost as its limits allow.
    fn fetch_update_raw<F: FnMut(RawPtr<T>) -> Option<RawPtr<T>>>(
        &mut self,
        cell: &RawRight,
        f: F,
    ) -> Result<Result<RawPtr<T>, RawPtr<T>>, Refused>
        requires seated { IsSeated (Self.caller self.old) }
        requires home { raw_home_of cell.now ≡ (Self.caller self.old).home.cells }
        requires callable { F.IsAlwaysCallable f }
        ensures undisturbed { Undisturbed Self.caller Self.own Self.known Self.shows self.old self.new }
        ensures back { IfErr result (IsContended (Self.caller self.old)) }
        ensures asked { IfOk result (λ updated. MatchResult updated
            (λ was. (next : RawPtr T) × WasAsked (λ p x q. (r : RawPtr T) × F.step p x (Some r) q) (λ p x r. F.post p x r) f was (Some next))
            (λ now. WasAsked (λ p x q. (r : RawPtr T) × F.step p x (Some r) q) (λ p x r. F.post p x r) f now None)) }
        ensures exact { IsExact (Self.caller self.old) → IsOk result × IfOk result (λ updated. MatchResult updated
            (λ was. (next : RawPtr T) × (pointer_at (Self.world self.old) (raw_number_of cell.now) ≡ Some (raw.pointer_of was)) × F.post f was (Some next) ×
            (Self.world self.new ≡ with_pointer (Self.world self.old) (raw_number_of cell.now) (raw.pointer_of next)))
            (λ now. (pointer_at (Self.world self.old) (raw_number_of cell.now) ≡ Some (raw.pointer_of now)) × F.post f now None ×
            (Self.world self.new ≡ Self.world self.old))) };

    /// Gives a raw cell up. It holds nothing.
    fn close_raw_cell(&mut self, cell: RawRight)
        requires seated { IsSeated (Self.caller self.old) }
        requires home { raw_home_of cell ≡ (Self.caller self.old).home.cells }
        ensures undisturbed { Undisturbed Self.caller Self.own Self.known Self.shows self.old self.new }
        ensures exact { IsExact (Self.caller self.old) → IsNullCell (Self.world self.old) (raw_number_of cell) ×
            (Self.world self.new ≡ without_cell (Self.world self.old) (raw_number_of cell)) };
}
