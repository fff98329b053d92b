ghost use Rattle.std.specs.Prelude.{◌≡◌, ◌≢◌, ◌↔◌, IfErr, IfOk, IsOk, IsTrue, MatchResult, None, Some, if◌then◌else◌, true};
ghost use Rattle.sdd_world_model.specs.Asked.{WasAsked};
ghost use Rattle.sdd_world_model.specs.World.{World, pointer_at};
ghost use Rattle.sdd_space.specs.CallerId.{IsSeated, IsExact};
ghost use Rattle.sdd_space.specs.Refusals.{IsContended, IsRefusedBy};
ghost use Rattle.sdd_space.specs.Undisturbed.{Undisturbed};
ghost use Rattle.sdd_space.specs.RawPtr as raw;
ghost use Rattle.sdd_space.specs.Guard.{reader_of};
ghost use Rattle.sdd_world_model.specs.Out.{IsNullCell};
ghost use Rattle.sdd_world_model.specs.WorldChanges.{pointing, with_pointer, without_cell};
ghost use Rattle.sdd_space.specs.RawCell.{cell_of, cells_home};
ghost use Rattle.sdd_world_model.specs.Cells.{null_pointer};
ghost use Rattle.sdd_participants.specs.declared.standing.RawCellContents.{RawCellContents};
ghost use Rattle.sdd_participants.specs.Slab.{IsEmptyAt, IsFull};

use crate::guard::Guard;
use crate::item::Item;
use crate::raw_ptr::RawPtr;
use crate::space::RawCells;
use sdd_core::{Refused, Tag};
use sdd_rights::RawRight;
use std::marker::PhantomData;

/// A cell that has a raw pointer, and owns nothing.
///
/// It must be spent: by `close`, or given into a value.
pub struct AtomicRaw<T> {
    pub(crate) right: RawRight,
    of: PhantomData<T>,
}

const _: () = prove!(size_of::<AtomicRaw<u64>>() == 4);

impl<T> AtomicRaw<T> {
    pub(crate) fn of_right(right: RawRight) -> AtomicRaw<T>
        ensures { result.right ≡ right }
    {
        AtomicRaw {
            right,
            of: PhantomData,
        }
    }

    pub(crate) fn into_right(self) -> RawRight
        ensures { result ≡ self.right }
    {
        let AtomicRaw { right, of: _ } = self;
        right
    }
}

impl<T: Item<T>> AtomicRaw<T> {
    /// A cell with this pointer.
    ///
    /// `NoCell` where no cell is free; `Contended`, in a domain alone, where as many exchanges were lost as its limits allow.
    pub fn new<S: RawCells<T>>(ptr: RawPtr<T>, s: &mut S) -> Result<AtomicRaw<T>, Refused>
        requires seated { IsSeated (S.caller s.old) }
        ensures undisturbed { Undisturbed S.caller S.own S.known S.shows s.old s.new }
        ensures home { IfOk result (λ cell. cells_home cell ≡ (S.caller s.old).home.cells) }
        ensures back { IfErr result (IsRefusedBy (S.caller s.old) Refused.NoCell) }
        ensures exact { IsExact (S.caller s.old) → MatchResult result
            (λ cell. IsEmptyAt (S.world s.old).cells (cell_of cell) × (S.world s.new ≡ pointing (S.world s.old) (cell_of cell) (raw.pointer_of ptr)))
            (λ e. IsFull (S.world s.old).cells × (e ≡ Refused.NoCell) × (S.world s.new ≡ S.world s.old)) }
    {
        Ok(AtomicRaw::of_right(s.new_raw_cell(ptr.pointer())?))
    }

    /// A cell with the null pointer, without a tag.
    ///
    /// `NoCell` where no cell is free; `Contended`, in a domain alone, where as many exchanges were lost as its limits allow.
    pub fn null<S: RawCells<T>>(s: &mut S) -> Result<AtomicRaw<T>, Refused>
        requires seated { IsSeated (S.caller s.old) }
        ensures undisturbed { Undisturbed S.caller S.own S.known S.shows s.old s.new }
        ensures home { IfOk result (λ cell. cells_home cell ≡ (S.caller s.old).home.cells) }
        ensures back { IfErr result (IsRefusedBy (S.caller s.old) Refused.NoCell) }
        ensures exact { IsExact (S.caller s.old) → MatchResult result
            (λ cell. IsEmptyAt (S.world s.old).cells (cell_of cell) × (S.world s.new ≡ pointing (S.world s.old) (cell_of cell) null_pointer))
            (λ e. IsFull (S.world s.old).cells × (e ≡ Refused.NoCell) × (S.world s.new ≡ S.world s.old)) }
    {
        AtomicRaw::new(RawPtr::null(), s)
    }

    /// The cell's pointer is null, whatever its tag is.
    pub fn is_null<S: RawCells<T>>(&self, s: &mut S) -> bool
        requires seated { IsSeated (S.caller s.old) }
        requires home { cells_home self.now ≡ (S.caller s.old).home.cells }
        ensures undisturbed { Undisturbed S.caller S.own S.known S.shows s.old s.new }
        ensures exact { IsExact (S.caller s.old) → (S.world s.new ≡ S.world s.old) ×
            ((pointer : RawCellContents) × (pointer_at (S.world s.old) (cell_of self.now) ≡ Some pointer) × (IsTrue result ↔ (pointer.named ≡ None))) }
    {
        s.pointer(&self.right).named.is_none()
    }

    /// The tag of the cell's pointer.
    pub fn tag<S: RawCells<T>>(&self, s: &mut S) -> Tag
        requires seated { IsSeated (S.caller s.old) }
        requires home { cells_home self.now ≡ (S.caller s.old).home.cells }
        ensures undisturbed { Undisturbed S.caller S.own S.known S.shows s.old s.new }
        ensures exact { IsExact (S.caller s.old) → (S.world s.new ≡ S.world s.old) ×
            ((pointer : RawCellContents) × (pointer_at (S.world s.old) (cell_of self.now) ≡ Some pointer) × (result ≡ pointer.tag)) }
    {
        s.pointer(&self.right).tag
    }

    /// The cell's pointer.
    pub fn load<S: RawCells<T>>(&self, guard: &Guard, s: &mut S) -> RawPtr<T>
        requires seated { IsSeated (S.caller s.old) }
        requires home { cells_home self.now ≡ (S.caller s.old).home.cells }
        requires reader { reader_of guard.now ≡ (S.caller s.old).reader }
        ensures undisturbed { Undisturbed S.caller S.own S.known S.shows s.old s.new }
        ensures exact { IsExact (S.caller s.old) →
            (pointer_at (S.world s.old) (cell_of self.now) ≡ Some (raw.pointer_of result)) × (S.world s.new ≡ S.world s.old) }
    {
        let _ = guard;
        RawPtr::of_pointer(s.pointer(&self.right))
    }

    /// The cell has this pointer.
    pub fn store<S: RawCells<T>>(&self, ptr: RawPtr<T>, s: &mut S)
        requires seated { IsSeated (S.caller s.old) }
        requires home { cells_home self.now ≡ (S.caller s.old).home.cells }
        ensures undisturbed { Undisturbed S.caller S.own S.known S.shows s.old s.new }
        ensures exact { IsExact (S.caller s.old) → S.world s.new ≡ with_pointer (S.world s.old) (cell_of self.now) (raw.pointer_of ptr) }
    {
        let _ = s.swap_raw(&self.right, ptr.pointer());
    }

    /// The cell has this pointer. The one before comes back.
    pub fn swap<S: RawCells<T>>(&self, ptr: RawPtr<T>, guard: &Guard, s: &mut S) -> RawPtr<T>
        requires seated { IsSeated (S.caller s.old) }
        requires home { cells_home self.now ≡ (S.caller s.old).home.cells }
        requires reader { reader_of guard.now ≡ (S.caller s.old).reader }
        ensures undisturbed { Undisturbed S.caller S.own S.known S.shows s.old s.new }
        ensures exact { IsExact (S.caller s.old) →
            (pointer_at (S.world s.old) (cell_of self.now) ≡ Some (raw.pointer_of result)) ×
            (S.world s.new ≡ with_pointer (S.world s.old) (cell_of self.now) (raw.pointer_of ptr)) }
    {
        let _ = guard;
        RawPtr::of_pointer(s.swap_raw(&self.right, ptr.pointer()))
    }

    /// Sets the tag of the cell's pointer, if the condition holds of it, and answers whether it did. In a world the condition is asked once.
    ///
    /// `Contended`, in a domain alone, where as many exchanges were lost as its limits allow.
    pub fn update_tag_if<S: RawCells<T>, F: FnMut(RawPtr<T>) -> bool>(
        &self,
        tag: Tag,
        condition: F,
        s: &mut S,
    ) -> Result<bool, Refused>
        requires seated { IsSeated (S.caller s.old) }
        requires home { cells_home self.now ≡ (S.caller s.old).home.cells }
        requires callable { F.IsAlwaysCallable condition }
        ensures undisturbed { Undisturbed S.caller S.own S.known S.shows s.old s.new }
        ensures back { IfErr result (IsContended (S.caller s.old)) }
        ensures asked { IfOk result (λ changed. (ptr : RawPtr T) ×
            WasAsked (λ p x q. F.step p x true q) (λ p x r. F.post p x r) condition ptr changed) }
        ensures exact { IsExact (S.caller s.old) → IsOk result × IfOk result (λ changed. (ptr : RawPtr T) ×
            (pointer_at (S.world s.old) (cell_of self.now) ≡ Some (raw.pointer_of ptr)) × F.post condition ptr changed ×
            (S.world s.new ≡ (if changed
            then with_pointer (S.world s.old) (cell_of self.now) (record (raw.pointer_of ptr) { tag = tag }) else S.world s.old))) }
    {
        s.update_raw_tag_if(&self.right, tag, condition)
    }

    /// The cell has the pointer that `f` makes of its own, if it makes one: the one before comes back as `Ok`. Else its pointer does as `Err`. In a world
    /// `f` is called once.
    ///
    /// `Contended`, in a domain alone, where as many exchanges were lost as its limits allow.
    pub fn fetch_update<S: RawCells<T>, F: FnMut(RawPtr<T>) -> Option<RawPtr<T>>>(
        &self,
        f: F,
        guard: &Guard,
        s: &mut S,
    ) -> Result<Result<RawPtr<T>, RawPtr<T>>, Refused>
        requires seated { IsSeated (S.caller s.old) }
        requires home { cells_home self.now ≡ (S.caller s.old).home.cells }
        requires callable { F.IsAlwaysCallable f }
        requires reader { reader_of guard.now ≡ (S.caller s.old).reader }
        ensures undisturbed { Undisturbed S.caller S.own S.known S.shows s.old s.new }
        ensures back { IfErr result (IsContended (S.caller s.old)) }
        ensures asked { IfOk result (λ updated. MatchResult updated
            (λ was. (next : RawPtr T) × WasAsked (λ p x q. (r : RawPtr T) × F.step p x (Some r) q) (λ p x r. F.post p x r) f was (Some next))
            (λ now. WasAsked (λ p x q. (r : RawPtr T) × F.step p x (Some r) q) (λ p x r. F.post p x r) f now None)) }
        ensures exact { IsExact (S.caller s.old) → IsOk result × IfOk result (λ updated. MatchResult updated
            (λ was. (next : RawPtr T) × (pointer_at (S.world s.old) (cell_of self.now) ≡ Some (raw.pointer_of was)) × F.post f was (Some next) ×
            (S.world s.new ≡ with_pointer (S.world s.old) (cell_of self.now) (raw.pointer_of next)))
            (λ now. (pointer_at (S.world s.old) (cell_of self.now) ≡ Some (raw.pointer_of now)) × F.post f now None × (S.world s.new ≡ S.world s.old))) }
    {
        let _ = guard;
        s.fetch_update_raw(&self.right, f)
    }

    /// The cell has another pointer, if it had this one, place and tag: then that comes back as `Ok`. Else the cell's pointer does as `Err`.
    pub fn compare_exchange<S: RawCells<T>>(
        &self,
        current: RawPtr<T>,
        new: RawPtr<T>,
        guard: &Guard,
        s: &mut S,
    ) -> Result<RawPtr<T>, RawPtr<T>>
        requires seated { IsSeated (S.caller s.old) }
        requires home { cells_home self.now ≡ (S.caller s.old).home.cells }
        requires reader { reader_of guard.now ≡ (S.caller s.old).reader }
        ensures undisturbed { Undisturbed S.caller S.own S.known S.shows s.old s.new }
        ensures old { IfOk result (λ ptr. ptr ≡ current) }
        ensures differs { IfErr result (λ ptr. raw.pointer_of ptr ≢ raw.pointer_of current) }
        ensures exact { IsExact (S.caller s.old) → MatchResult result
            (λ _. (pointer_at (S.world s.old) (cell_of self.now) ≡ Some (raw.pointer_of current)) ×
            (S.world s.new ≡ with_pointer (S.world s.old) (cell_of self.now) (raw.pointer_of new)))
            (λ ptr. (pointer_at (S.world s.old) (cell_of self.now) ≡ Some (raw.pointer_of ptr)) × (raw.pointer_of ptr ≢ raw.pointer_of current) ×
            (S.world s.new ≡ S.world s.old)) }
    {
        let _ = guard;
        match s.compare_exchange_raw(&self.right, current.pointer(), new.pointer()) {
            Ok(()) => Ok(current),
            Err(now) => Err(RawPtr::of_pointer(now)),
        }
    }

    /// Frees the cell. What it points to is as before.
    pub fn close<S: RawCells<T>>(self, s: &mut S)
        requires seated { IsSeated (S.caller s.old) }
        requires home { cells_home self ≡ (S.caller s.old).home.cells }
        ensures undisturbed { Undisturbed S.caller S.own S.known S.shows s.old s.new }
        ensures exact { IsExact (S.caller s.old) → IsNullCell (S.world s.old) (cell_of self) ×
            (S.world s.new ≡ without_cell (S.world s.old) (cell_of self)) }
    {
        s.close_raw_cell(self.into_right());
    }
}
