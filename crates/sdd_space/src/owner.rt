//! What each owner of an item does, alone or one of several.
ghost use Rattle.std.specs.Prelude.{◌≡◌, ◌⊎◌, IfErr, IfOk, IfSome, IsSome, MatchResult, Some, None, option_map};
ghost use Rattle.sdd_rights.specs.Right.{kind_of};
ghost use Rattle.sdd_world_model.specs.OwnerOrCell.{AreOf};
ghost use Rattle.sdd_world_model.specs.World.{World};
ghost use Rattle.sdd_world_model.specs.Slots.{first_standing};
ghost use Rattle.sdd_space.specs.CallerId.{IsSeated, IsExact, IsLone};
ghost use Rattle.sdd_space.specs.Undisturbed.{Undisturbed};
ghost use Rattle.sdd_world_model.specs.WorldChanges.{made_as};
ghost use Rattle.sdd_core.specs.declared.tag.Tag.TheVariants.{None as no_tag};
ghost use Rattle.sdd_space.specs.Ptr.{PtrIsShown, slot_named, shown_by, tag_of};
ghost use Rattle.sdd_space.specs.Guard.{reader_of};
ghost use Rattle.sdd_participants.specs.Slab.{IsEmptyAt, IsFull};

use crate::guard::Guard;
use crate::item::Item;
use crate::look::Look;
use crate::ownership::{Ownership, RightOf, SharedOwnership, UniqueOwnership};
use crate::ptr::Ptr;
use crate::space::Items;
use sdd_core::{Refused, SlotName};
use sdd_rights::Right;
use std::marker::PhantomData;

/// An owner of an item: [`Owned`], or [`Shared`] where others may own it too.
///
/// It must be spent. It may lie in a value of its own item type.
pub struct Owner<K: Ownership, T> {
    pub(crate) right: RightOf<K>,
    of: PhantomData<T>,
}

/// The one owner of an item.
///
/// It must be spent: by `retire`, or given into a cell or a value. It may lie in a value of its own item type.
pub type Owned<T> = Owner<UniqueOwnership, T>;

/// One owner of an item that others may own too: other `Shared`, and cells.
///
/// It must be spent: by `release`, or given into a cell or a value. The last owner's item is retired. It may lie in a value of its own item type.
pub type Shared<T> = Owner<SharedOwnership, T>;

const _: () = prove!(size_of::<Owned<u64>>() == 4);

const _: () = prove!(size_of::<Shared<u64>>() == 4);

impl<K: Ownership, T> Owner<K, T> {
    ghost use Rattle.sdd_space.specs.Owner.{right_of, slot_of};

    pub(crate) fn of_right(right: Right) -> Owner<K, T>
        requires { kind_of right ≡ K.kind }
        ensures { right_of result ≡ right }
    {
        Owner {
            right: RightOf::of(right),
            of: PhantomData,
        }
    }

    pub(crate) fn into_right(self) -> Right
        ensures right { result ≡ right_of self }
        ensures kind { kind_of result ≡ K.kind }
    {
        let Owner {
            right: RightOf { right, of: _ },
            of: _,
        } = self;
        right
    }

    pub(crate) fn right(&self) -> &Right
        ensures right { result.now ≡ right_of self.now }
        ensures kind { kind_of result.now ≡ K.kind }
    {
        &self.right.right
    }

    /// The owner that a cell held, if there is one.
    pub(crate) fn of_held(held: Option<Right>) -> Option<Owner<K, T>>
        requires { IfSome held (λ right. kind_of right ≡ K.kind) }
        ensures { option_map right_of result ≡ held }
    {
        match held {
            Some(right) => Some(Owner::of_right(right)),
            None => None,
        }
    }

    pub(crate) fn into_held(owner: Option<Owner<K, T>>) -> Option<Right>
        ensures right { result ≡ option_map right_of owner }
        ensures kind { IfSome result (λ right. kind_of right ≡ K.kind) }
    {
        match owner {
            Some(owner) => Some(owner.into_right()),
            None => None,
        }
    }

    pub(crate) fn slot(&self) -> SlotName
        ensures { result ≡ slot_of self.now }
    {
        self.right().name()
    }
}

impl<K: Ownership, T: Item<T>> Owner<K, T> {
    ghost use Rattle.sdd_space.specs.Owner.{right_of, slot_of, slots_home};

    /// The item's value. Its owners alone can look at it without a guard.
    pub fn get<'a, L: Look<T>>(&'a self, at: &'a L) -> &'a T
        requires home { slots_home self.now ≡ (L.home at.now).slots }
        ensures shown { L.knows_slots at.now → L.shows at.now (slot_of self.now) result.now }
        ensures value { L.owns_value at.now (right_of self.now) result.now }
        ensures held { AreOf (L.home at.now) (T.holds result.now) }
    {
        at.value(self.right())
    }

    /// The item's value, for as long as the guard is borrowed, also after the item was retired. The guard is one of the participant that calls.
    pub fn get_guarded_ref<'g, S: Items<T>>(&self, guard: &'g Guard, s: &mut S) -> &'g T
        requires seated { IsSeated (S.caller s.old) }
        requires home { slots_home self.now ≡ (S.caller s.old).home.slots }
        requires reader { reader_of guard.now ≡ (S.caller s.old).reader }
        ensures undisturbed { Undisturbed S.caller S.own S.known S.shows s.old s.new }
        ensures shown { S.shows s.new (slot_of self.now) result.now }
        ensures value { S.owns_value s.new (right_of self.now) result.now }
        ensures exact { IsExact (S.caller s.old) → S.world s.new ≡ S.world s.old }
    {
        s.get_guarded(self.right(), guard)
    }

    /// A pointer to the item, which shows its value for as long as the guard is borrowed, also after the item was retired. The guard is one of the
    /// participant that calls.
    pub fn get_guarded_ptr<'g, S: Items<T>>(&self, guard: &'g Guard, s: &mut S) -> Ptr<'g, T>
        requires seated { IsSeated (S.caller s.old) }
        requires home { slots_home self.now ≡ (S.caller s.old).home.slots }
        requires reader { reader_of guard.now ≡ (S.caller s.old).reader }
        ensures undisturbed { Undisturbed S.caller S.own S.known S.shows s.old s.new }
        ensures slot { slot_named result ≡ Some (slot_of self.now) }
        ensures tag { tag_of result ≡ no_tag }
        ensures shown { IfSome (shown_by result) (S.shows s.new (slot_of self.now)) }
        ensures value { IfSome (shown_by result) (S.owns_value s.new (right_of self.now)) }
        ensures full { IsSome (shown_by result) }
        ensures pointer { PtrIsShown (S.shows s.new) result }
        ensures exact { IsExact (S.caller s.old) → S.world s.new ≡ S.world s.old }
    {
        let value = s.get_guarded(self.right(), guard);
        Ptr::to(self.slot(), value)
    }

    /// Puts a value into a free slot, with one owner.
    ///
    /// `NoSlot` where none is free; `Contended`, in a domain alone, where as many exchanges were lost as its limits allow. The value comes back.
    #[inline(always)]
    pub fn new<S: Items<T>>(value: T, s: &mut S) -> Result<Owner<K, T>, (T, Refused)>
        requires seated { IsSeated (S.caller s.old) }
        requires home { AreOf (S.caller s.old).home (T.holds value) }
        ensures undisturbed { Undisturbed S.caller S.own S.known S.shows s.old s.new }
        ensures home { IfOk result (λ owner. slots_home owner ≡ (S.caller s.old).home.slots) }
        ensures shown { IfOk result (λ owner. S.owns_value s.new (right_of owner) value) }
        ensures back { IfErr result (λ e. (e.0 ≡ value) × ((e.1 ≡ Refused.NoSlot) ⊎ (e.1 ≡ Refused.Contended))) }
        ensures lone { IsLone (S.caller s.old) → IfErr result (λ e. (e.1 ≡ Refused.NoSlot) × S.is_used_up s.old) }
        ensures exact { IsExact (S.caller s.old) → MatchResult result
            (λ owner. IsEmptyAt (S.world s.old).standings (slot_of owner) × (S.world s.new ≡ made_as (S.world s.old) (slot_of owner) value (first_standing K.kind)))
            (λ e. IsFull (S.world s.old).standings × (e ≡ (value, Refused.NoSlot)) × (S.world s.new ≡ S.world s.old)) }
    {
        match s.new_item(value, K::kind()) {
            Ok(right) => Ok(Owner::of_right(right)),
            Err(refused) => Err(refused),
        }
    }

    /// Puts the value that `f` makes into a free slot, with one owner.
    ///
    /// `NoSlot` or `Contended` where `new` is refused so; `f` comes back uncalled.
    pub fn new_with<S: Items<T>, F: FnOnce() -> T>(
        f: F,
        s: &mut S,
    ) -> Result<Owner<K, T>, (F, Refused)>
        requires seated { IsSeated (S.caller s.old) }
        requires callable { F.pre f }
        requires home { (value : T) → F.post f value → AreOf (S.caller s.old).home (T.holds value) }
        ensures undisturbed { Undisturbed S.caller S.own S.known S.shows s.old s.new }
        ensures home { IfOk result (λ owner. slots_home owner ≡ (S.caller s.old).home.slots) }
        ensures shown { IfOk result (λ owner. (value : T) × F.post f value × S.owns_value s.new (right_of owner) value) }
        ensures back { IfErr result (λ e. (e.0 ≡ f) × ((e.1 ≡ Refused.NoSlot) ⊎ (e.1 ≡ Refused.Contended))) }
        ensures lone { IsLone (S.caller s.old) → IfErr result (λ e. (e.1 ≡ Refused.NoSlot) × S.is_used_up s.old) }
        ensures exact { IsExact (S.caller s.old) → MatchResult result
            (λ owner. IsEmptyAt (S.world s.old).standings (slot_of owner) ×
            ((value : T) × F.post f value × (S.world s.new ≡ made_as (S.world s.old) (slot_of owner) value (first_standing K.kind))))
            (λ e. IsFull (S.world s.old).standings × (e ≡ (f, Refused.NoSlot)) × (S.world s.new ≡ S.world s.old)) }
    {
        match s.new_item_with(f, K::kind()) {
            Ok(right) => Ok(Owner::of_right(right)),
            Err(refused) => Err(refused),
        }
    }
}
