//! What each cell does, whether the owner that it holds is alone or one of several.
ghost use Rattle.std.specs.Prelude.{ℕ, ◌≡◌, ◌≢◌, ◌⊎◌, ◌↔◌, IfErr, IfOk, IfSome, IsOk, IsTrue, MatchResult, None, Some, if◌then◌else◌, option_map, true};
ghost use Rattle.sdd_rights.specs.Right.{kind_of};
ghost use Rattle.sdd_world_model.specs.Asked.{WasAsked};
ghost use Rattle.sdd_world_model.specs.OwnerOrCell.{AreOf};
ghost use Rattle.sdd_world_model.specs.Slots.{first_standing};
ghost use Rattle.sdd_world_model.specs.World.{World, standing_at};
ghost use Rattle.sdd_space.specs.CallerId.{IsSeated, IsExact};
ghost use Rattle.sdd_space.specs.Refusals.{IsContended, IsRefusedBy};
ghost use Rattle.sdd_space.specs.Undisturbed.{Undisturbed, Unmoved};
ghost use Rattle.sdd_world_model.specs.ParticipantChanges.{HasContentsGivenUp};
ghost use Rattle.sdd_space.specs.Ptr.{PtrIsShown, cell_seen, slot_named};
ghost use Rattle.sdd_space.specs.RawPtr as raw;
ghost use Rattle.sdd_space.specs.Guard.{reader_of};
ghost use Rattle.sdd_world_model.specs.WorldChanges.{made_as, nulled, with_cell, cell_closed};
ghost use Rattle.sdd_core.specs.declared.tag.Tag.TheVariants.{None as no_tag};
ghost use Rattle.sdd_participants.specs.Slab.{IsEmptyAt, IsFull, entry_at};

use crate::guard::Guard;
use crate::item::Item;
use crate::owner::Owner;
use crate::ownership::{Ownership, RightOf, SharedOwnership, UniqueOwnership};
use crate::ptr::Ptr;
use crate::raw_ptr::RawPtr;
use crate::space::{Cells, Items};
use sdd_core::{Refused, Tag};
use sdd_participants::CellContents;
use sdd_rights::Right;
use std::marker::PhantomData;

/// A cell that holds an owner, or nothing, and a tag: [`AtomicOwned`], or [`AtomicShared`] where others may own the item too.
///
/// It must be spent.
pub struct AtomicCell<K: Ownership, T> {
    right: RightOf<K>,
    of: PhantomData<T>,
}

/// A cell that holds an owner, or nothing, and a tag.
///
/// It must be spent: by `close`, by `into_owned`, or given into a value.
pub type AtomicOwned<T> = AtomicCell<UniqueOwnership, T>;

/// A cell that holds one owner of an item that others may own too, or nothing, and a tag.
///
/// It must be spent: by `close`, by `into_shared`, or given into a value.
pub type AtomicShared<T> = AtomicCell<SharedOwnership, T>;

/// An owner, if there is one, and a pointer.
pub type OwnerPtrPair<'g, K, T> = (Option<Owner<K, T>>, Ptr<'g, T>);

/// An owner, if there is one, and a pointer.
pub type OwnedPtrPair<'g, T> = OwnerPtrPair<'g, UniqueOwnership, T>;

/// An owner, if there is one, and a pointer.
pub type SharedPtrPair<'g, T> = OwnerPtrPair<'g, SharedOwnership, T>;

const _: () = prove!(size_of::<AtomicOwned<u64>>() == 4);

const _: () = prove!(size_of::<AtomicShared<u64>>() == 4);

impl<K: Ownership, T> AtomicCell<K, T> {
    ghost use Rattle.sdd_space.specs.Owner.{cell_right};

    pub(crate) fn of_right(right: Right) -> AtomicCell<K, T>
        requires { kind_of right ≡ K.kind }
        ensures { cell_right result ≡ right }
    {
        AtomicCell {
            right: RightOf::of(right),
            of: PhantomData,
        }
    }

    pub(crate) fn into_right(self) -> Right
        ensures right { result ≡ cell_right self }
        ensures kind { kind_of result ≡ K.kind }
    {
        let AtomicCell {
            right: RightOf { right, of: _ },
            of: _,
        } = self;
        right
    }

    pub(crate) fn right(&self) -> &Right
        ensures right { result.now ≡ cell_right self.now }
        ensures kind { kind_of result.now ≡ K.kind }
    {
        &self.right.right
    }
}

impl<K: Ownership, T: Item<T>> AtomicCell<K, T> {
    ghost use Rattle.sdd_space.specs.Owner.{right_of, slot_of, slots_home, cell_of, cells_home, cell_with, IsOfSlots, StandsAs};

    /// A cell that holds the owner of a new item, with tag None.
    ///
    /// `NoSlot` where no slot is free, else `NoCell` where no cell is; `Contended`, in a domain alone, where as many exchanges were lost as its limits
    /// allow. The value comes back.
    pub fn new<S: Cells<T>>(value: T, s: &mut S) -> Result<AtomicCell<K, T>, (T, Refused)>
        requires seated { IsSeated (S.caller s.old) }
        requires home { AreOf (S.caller s.old).home (T.holds value) }
        ensures undisturbed { Undisturbed S.caller S.own S.known S.shows s.old s.new }
        ensures home { IfOk result (λ cell. cells_home cell ≡ (S.caller s.old).home.cells) }
        ensures shown { IsExact (S.caller s.old) → IfOk result (λ cell. (slot : ℕ) × S.shows s.new slot value ×
            (entry_at (S.world s.new).cells (cell_of cell) ≡ Some (record { held = Some slot; tag = no_tag }))) }
        ensures back { IfErr result (λ e. (e.0 ≡ value) × ((e.1 ≡ Refused.NoSlot) ⊎ IsRefusedBy (S.caller s.old) Refused.NoCell e.1)) }
        ensures exact { IsExact (S.caller s.old) → MatchResult result
            (λ cell. (slot : ℕ) × IsEmptyAt (S.world s.old).standings slot × IsEmptyAt (S.world s.old).cells (cell_of cell) ×
            (S.world s.new ≡ with_cell (made_as (S.world s.old) slot value (first_standing K.kind)) (cell_of cell) (record { held = Some slot; tag = no_tag })))
            (λ e. (IsFull (S.world s.old).standings × (e ≡ (value, Refused.NoSlot)) ⊎
            ¬ (IsFull (S.world s.old).standings) × IsFull (S.world s.old).cells × (e ≡ (value, Refused.NoCell))) × (S.world s.new ≡ S.world s.old)) }
    {
        Ok(AtomicCell::of_right(s.new_in_cell(value, K::kind())?))
    }

    /// A cell that holds this owner, with tag None.
    ///
    /// `NoCell` where no cell is free; `Contended`, in a domain alone, where as many exchanges were lost as its limits allow. The owner comes back.
    pub fn from<S: Cells<T>>(
        owner: Owner<K, T>,
        s: &mut S,
    ) -> Result<AtomicCell<K, T>, (Owner<K, T>, Refused)>
        requires seated { IsSeated (S.caller s.old) }
        requires home { slots_home owner ≡ (S.caller s.old).home.slots }
        ensures undisturbed { Undisturbed S.caller S.own S.known S.shows s.old s.new }
        ensures home { IfOk result (λ cell. cells_home cell ≡ (S.caller s.old).home.cells) }
        ensures back { IfErr result (λ e. (right_of e.0 ≡ right_of owner) × IsRefusedBy (S.caller s.old) Refused.NoCell e.1) }
        ensures exact { IsExact (S.caller s.old) → MatchResult result
            (λ cell. IsEmptyAt (S.world s.old).cells (cell_of cell) ×
            (S.world s.new ≡ with_cell (S.world s.old) (cell_of cell) (cell_with (Some owner) no_tag)))
            (λ e. IsFull (S.world s.old).cells × (e.1 ≡ Refused.NoCell) × (S.world s.new ≡ S.world s.old)) }
    {
        match s.cell_from(Some(owner.into_right()), Tag::None, K::kind()) {
            Ok(cell) => Ok(AtomicCell::of_right(cell)),
            Err((held, refused)) => match held {
                Some(right) => Err((Owner::of_right(right), refused)),
                None => unreachable!(),
            },
        }
    }

    /// A cell that holds nothing.
    ///
    /// `NoCell` where no cell is free; `Contended`, in a domain alone, where as many exchanges were lost as its limits allow.
    pub fn null<S: Cells<T>>(s: &mut S) -> Result<AtomicCell<K, T>, Refused>
        requires seated { IsSeated (S.caller s.old) }
        ensures undisturbed { Undisturbed S.caller S.own S.known S.shows s.old s.new }
        ensures home { IfOk result (λ cell. cells_home cell ≡ (S.caller s.old).home.cells) }
        ensures back { IfErr result (IsRefusedBy (S.caller s.old) Refused.NoCell) }
        ensures exact { IsExact (S.caller s.old) → MatchResult result
            (λ cell. IsEmptyAt (S.world s.old).cells (cell_of cell) × (S.world s.new ≡ nulled (S.world s.old) (cell_of cell)))
            (λ e. IsFull (S.world s.old).cells × (e ≡ Refused.NoCell) × (S.world s.new ≡ S.world s.old)) }
    {
        match s.cell_from(None, Tag::None, K::kind()) {
            Ok(cell) => Ok(AtomicCell::of_right(cell)),
            Err((held, refused)) => match held {
                None => Err(refused),
                Some(_) => unreachable!(),
            },
        }
    }

    /// The cell holds nothing.
    pub fn is_null<S: Cells<T>>(&self, s: &mut S) -> bool
        requires seated { IsSeated (S.caller s.old) }
        requires home { cells_home self.now ≡ (S.caller s.old).home.cells }
        ensures undisturbed { Undisturbed S.caller S.own S.known S.shows s.old s.new }
        ensures exact { IsExact (S.caller s.old) → (S.world s.new ≡ S.world s.old) ×
            ((cell : CellContents) × (entry_at (S.world s.old).cells (cell_of self.now) ≡ Some cell) × (IsTrue result ↔ (cell.held ≡ None))) }
    {
        s.cell(self.right()).held.is_none()
    }

    /// The cell's tag.
    pub fn tag<S: Cells<T>>(&self, s: &mut S) -> Tag
        requires seated { IsSeated (S.caller s.old) }
        requires home { cells_home self.now ≡ (S.caller s.old).home.cells }
        ensures undisturbed { Undisturbed S.caller S.own S.known S.shows s.old s.new }
        ensures exact { IsExact (S.caller s.old) → (S.world s.new ≡ S.world s.old) ×
            ((cell : CellContents) × (entry_at (S.world s.old).cells (cell_of self.now) ≡ Some cell) × (result ≡ cell.tag)) }
    {
        s.cell(self.right()).tag
    }

    /// A pointer to the item that the cell holds, with the cell's tag. It shows the item's value for as long as the guard is borrowed, whatever becomes of
    /// the cell and the item. The guard is one of the participant that calls.
    #[inline(always)]
    pub fn load<'g, S: Cells<T>>(&self, guard: &'g Guard, s: &mut S) -> Ptr<'g, T>
        requires seated { IsSeated (S.caller s.old) }
        requires home { cells_home self.now ≡ (S.caller s.old).home.cells }
        requires reader { reader_of guard.now ≡ (S.caller s.old).reader }
        ensures undisturbed { Undisturbed S.caller S.own S.known S.shows s.old s.new }
        ensures shown { PtrIsShown (S.shows s.new) result }
        ensures owned { IsExact (S.caller s.old) → IfSome (slot_named result) (λ slot. StandsAs K.kind (standing_at (S.world s.old) slot)) }
        ensures exact { IsExact (S.caller s.old) → (entry_at (S.world s.old).cells (cell_of self.now) ≡ Some (cell_seen result)) ×
            (S.world s.new ≡ S.world s.old) }
    {
        s.load(self.right(), guard)
    }

    /// The cell holds this owner, or nothing, with this tag. Answers what it held, and the tag before.
    #[inline(always)]
    pub fn swap<S: Cells<T>>(
        &self,
        next: (Option<Owner<K, T>>, Tag),
        s: &mut S,
    ) -> (Option<Owner<K, T>>, Tag)
        requires seated { IsSeated (S.caller s.old) }
        requires home { cells_home self.now ≡ (S.caller s.old).home.cells }
        requires owner { IsOfSlots (S.caller s.old).home.slots next.0 }
        ensures undisturbed { Undisturbed S.caller S.own S.known S.shows s.old s.new }
        ensures owner { IsOfSlots (S.caller s.old).home.slots result.0 }
        ensures exact { IsExact (S.caller s.old) → (entry_at (S.world s.old).cells (cell_of self.now) ≡ Some (cell_with result.0 result.1)) ×
            (S.world s.new ≡ with_cell (S.world s.old) (cell_of self.now) (cell_with next.0 next.1)) }
    {
        let (owner, tag) = next;
        let (old, old_tag) = s.swap(self.right(), Owner::into_held(owner), tag, K::kind());
        (Owner::of_held(old), old_tag)
    }

    /// Sets the tag, if the condition holds of what the cell holds, and answers whether it did. In a world the condition is asked once.
    ///
    /// `Contended`, in a domain alone, where as many exchanges were lost as its limits allow.
    pub fn update_tag_if<S: Cells<T>, F: FnMut(RawPtr<T>) -> bool>(
        &self,
        tag: Tag,
        condition: F,
        s: &mut S,
    ) -> Result<bool, Refused>
        requires seated { IsSeated (S.caller s.old) }
        requires home { cells_home self.now ≡ (S.caller s.old).home.cells }
        requires callable { F.IsAlwaysCallable condition }
        ensures undisturbed { Undisturbed S.caller S.own S.known S.shows s.old s.new }
        ensures back { IfErr result (IsContended (S.caller s.old)) }
        ensures asked { IfOk result (λ changed. (ptr : RawPtr T) ×
            WasAsked (λ p x q. F.step p x true q) (λ p x r. F.post p x r) condition ptr changed) }
        ensures exact { IsExact (S.caller s.old) → IsOk result × IfOk result (λ changed. (ptr : RawPtr T) ×
            (entry_at (S.world s.old).cells (cell_of self.now) ≡ Some (raw.cell_seen ptr)) × F.post condition ptr changed ×
            (S.world s.new ≡ (if changed then with_cell (S.world s.old) (cell_of self.now) (record (raw.cell_seen ptr) { tag = tag }) else S.world s.old))) }
    {
        s.update_tag_if(self.right(), tag, condition)
    }

    /// The cell holds this owner, or nothing, with this tag, if it held the item that the pointer names, or nothing where it is null, with the pointer's tag.
    /// Then what it held comes back, with a pointer to what it holds now; else the owner handed in, with a pointer to what it holds.
    #[inline(always)]
    pub fn compare_exchange<'g, S: Cells<T>>(
        &self,
        current: Ptr<'g, T>,
        next: (Option<Owner<K, T>>, Tag),
        guard: &'g Guard,
        s: &mut S,
    ) -> Result<OwnerPtrPair<'g, K, T>, OwnerPtrPair<'g, K, T>>
        requires seated { IsSeated (S.caller s.old) }
        requires home { cells_home self.now ≡ (S.caller s.old).home.cells }
        requires owner { IsOfSlots (S.caller s.old).home.slots next.0 }
        requires reader { reader_of guard.now ≡ (S.caller s.old).reader }
        ensures undisturbed { Undisturbed S.caller S.own S.known S.shows s.old s.new }
        ensures owner { IfOk result (λ o. IsOfSlots (S.caller s.old).home.slots o.0) }
        ensures old { IfOk result (λ o. option_map slot_of o.0 ≡ slot_named current.entry) }
        ensures now { IfOk result (λ o. cell_seen o.1 ≡ cell_with next.0 next.1) }
        ensures back { IfErr result (λ e. option_map right_of e.0 ≡ option_map right_of next.0) }
        ensures shown { MatchResult result (λ o. PtrIsShown (S.shows s.new) o.1) (λ e. PtrIsShown (S.shows s.new) e.1) }
        ensures exact { IsExact (S.caller s.old) → MatchResult result
            (λ _. (entry_at (S.world s.old).cells (cell_of self.now) ≡ Some (cell_seen current.entry)) ×
            (S.world s.new ≡ with_cell (S.world s.old) (cell_of self.now) (cell_with next.0 next.1)))
            (λ e. (entry_at (S.world s.old).cells (cell_of self.now) ≡ Some (cell_seen e.1)) × (cell_seen e.1 ≢ cell_seen current.entry) ×
            (S.world s.new ≡ S.world s.old)) }
    {
        let (owner, tag) = next;
        let expected = CellContents {
            held: current.slot(),
            tag: current.tag(),
        };
        match s.compare_exchange(
            self.right(),
            expected,
            Owner::into_held(owner),
            tag,
            K::kind(),
            guard,
        ) {
            Ok((old, ptr)) => Ok((Owner::of_held(old), ptr)),
            Err((back, ptr)) => Err((Owner::of_held(back), ptr)),
        }
    }

    /// The same as `compare_exchange`: it never fails where the pointers are equal.
    pub fn compare_exchange_weak<'g, S: Cells<T>>(
        &self,
        current: Ptr<'g, T>,
        next: (Option<Owner<K, T>>, Tag),
        guard: &'g Guard,
        s: &mut S,
    ) -> Result<OwnerPtrPair<'g, K, T>, OwnerPtrPair<'g, K, T>>
        requires seated { IsSeated (S.caller s.old) }
        requires home { cells_home self.now ≡ (S.caller s.old).home.cells }
        requires owner { IsOfSlots (S.caller s.old).home.slots next.0 }
        requires reader { reader_of guard.now ≡ (S.caller s.old).reader }
        ensures undisturbed { Undisturbed S.caller S.own S.known S.shows s.old s.new }
        ensures owner { IfOk result (λ o. IsOfSlots (S.caller s.old).home.slots o.0) }
        ensures old { IfOk result (λ o. option_map slot_of o.0 ≡ slot_named current.entry) }
        ensures now { IfOk result (λ o. cell_seen o.1 ≡ cell_with next.0 next.1) }
        ensures back { IfErr result (λ e. option_map right_of e.0 ≡ option_map right_of next.0) }
        ensures shown { MatchResult result (λ o. PtrIsShown (S.shows s.new) o.1) (λ e. PtrIsShown (S.shows s.new) e.1) }
        ensures exact { IsExact (S.caller s.old) → MatchResult result
            (λ _. (entry_at (S.world s.old).cells (cell_of self.now) ≡ Some (cell_seen current.entry)) ×
            (S.world s.new ≡ with_cell (S.world s.old) (cell_of self.now) (cell_with next.0 next.1)))
            (λ e. (entry_at (S.world s.old).cells (cell_of self.now) ≡ Some (cell_seen e.1)) × (cell_seen e.1 ≢ cell_seen current.entry) ×
            (S.world s.new ≡ S.world s.old)) }
    {
        self.compare_exchange(current, next, guard, s)
    }

    /// Frees the cell, and gives up what it holds. The item is retired where this was its last owner.
    pub fn close<S: Items<T> + Cells<T>>(self, s: &mut S)
        requires seated { IsSeated (S.caller s.old) }
        requires home { cells_home self ≡ (S.caller s.old).home.cells }
        ensures unmoved { Unmoved S.caller S.known S.shows s.old s.new }
        ensures own { HasContentsGivenUp (S.own s.old) (S.own s.new) }
        ensures exact { IsExact (S.caller s.old) → S.world s.new ≡ cell_closed (S.world s.old) (S.caller s.old).place (cell_of self) }
    {
        if let Some(right) = s.into_contents(self.into_right(), K::kind()) {
            let _ = s.release(right, K::kind());
        }
    }
}
