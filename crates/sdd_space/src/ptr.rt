ghost use Rattle.std.specs.Prelude.{◌≡◌, ◌↔◌, IsSome, IsTrue};

use crate::item::Item;
use crate::look::LookThrough;
use crate::owner::Shared;
use crate::space::SharedItems;
use sdd_core::{Refused, SlotName, Tag};
use sdd_values::Nullable;
use std::alloc::AllocError;
use std::fmt::{self, Debug, Formatter};

/// A pointer to an item, or null, with a tag. It shows one value for as long as its guard is borrowed, whatever becomes of the item.
///
/// Two pointers are equal exactly if they name the same slot, or none, and have the same tag.
pub struct Ptr<'g, T> {
    /// Of the value that it was made with; of nothing where it is null.
    nullable: &'g Nullable<T>,
    /// The number of the slot's name: 0 where it is null, so that equal pointers have equal fields.
    slot: u32,
    tag: Tag,
    /// It isn't null.
    named: bool,
    pub ghost full: { IsTrue named ↔ IsSome nullable.now },
    pub ghost zero: { ¬ (IsTrue named) → slot ≡ 0 },
}

const _: () = prove!(size_of::<Ptr<'_, u64>>() == 16);

impl<T> Debug for Ptr<'_, T> {
    fn fmt<W: fmt::Write>(&self, f: &mut Formatter<W>) -> fmt::Result {
        f.debug_struct("Ptr")
            .field("slot", &self.slot())
            .field("tag", &self.tag)
            .finish_non_exhaustive()
    }
}

impl<'g, T> Clone for Ptr<'g, T> {
    ghost use Rattle.std.specs.Prelude.{◌≡◌};

    ghost is_clone = { λ x y. y ≡ x };

    ghost is_infallible = { λ _. Unit {0} };

    fn clone(&self) -> Result<Self, AllocError> {
        Ok(*self)
    }
}

impl<'g, T> Copy for Ptr<'g, T> {}

impl<T> PartialEq for Ptr<'_, T> {
    ghost use Rattle.std.proofs.Common.{rules};
    ghost use Rattle.std.specs.Cmp.Rules.{comparing};
    ghost use Rattle.sdd_space.specs.Ptr.{are_equal};

    ghost eq = { are_equal };

    ghost laws = { Prim.search (comparing, rules) };

    fn eq(&self, other: &Self) -> bool {
        self.named == other.named && self.slot == other.slot && self.tag == other.tag
    }
}

impl<T> Eq for Ptr<'_, T> {
    ghost use Rattle.std.proofs.Common.{rules};
    ghost use Rattle.std.specs.Cmp.Rules.{comparing};

    ghost laws = { Prim.search (comparing, rules) };
}

impl<'g, T> Ptr<'g, T> {
    ghost use Rattle.std.specs.Prelude.{◌≡◌, ◌↔◌, Option, None, Some, IsSome, IsTrue, option_copied};
    ghost use Rattle.sdd_core.specs.declared.tag.Tag.TheVariants.{None as no_tag};
    ghost use Rattle.sdd_space.specs.Ptr.{slot_named, shown_by, tag_of, IsNull};

    /// The null pointer, without a tag.
    pub fn null() -> Ptr<'g, T>
        ensures null { IsNull result }
        ensures tag { tag_of result ≡ no_tag }
    {
        let nullable = Nullable::none();
        Ptr {
            nullable,
            slot: 0,
            tag: Tag::None,
            named: false,
        }
    }

    pub(crate) fn to(slot: SlotName, value: &'g T) -> Ptr<'g, T>
        ensures slot { slot_named result ≡ Some slot }
        ensures shown { shown_by result ≡ Some value.now }
        ensures tag { tag_of result ≡ no_tag }
    {
        let nullable = Nullable::of(value);
        Ptr {
            nullable,
            slot: slot.number(),
            tag: Tag::None,
            named: true,
        }
    }

    pub(crate) fn value(self) -> Option<&'g T>
        ensures { option_copied result ≡ shown_by self.entry }
    {
        if self.named {
            Some(self.nullable.get())
        } else {
            None
        }
    }

    pub(crate) fn slot(&self) -> Option<SlotName>
        ensures { result ≡ slot_named self.now }
    {
        if self.named {
            Some(SlotName::of(self.slot))
        } else {
            None
        }
    }

    /// Null, whatever the tag is.
    pub fn is_null(&self) -> bool
        ensures { IsTrue result ↔ IsNull self.now }
    {
        !self.named
    }

    /// The tag.
    pub fn tag(&self) -> Tag
        ensures { result ≡ tag_of self.now }
    {
        self.tag
    }

    /// Sets the tag, and answers the one before.
    pub fn set_tag(&mut self, tag: Tag) -> Tag
        ensures old { result ≡ tag_of self.old }
        ensures tag { tag_of self.new ≡ tag }
        ensures slot { slot_named self.new ≡ slot_named self.old }
        ensures shown { shown_by self.new ≡ shown_by self.old }
    {
        let old = self.tag;
        self.tag = tag;
        old
    }

    /// Sets the tag to None, and answers the one before.
    pub fn unset_tag(&mut self) -> Tag
        ensures old { result ≡ tag_of self.old }
        ensures tag { tag_of self.new ≡ no_tag }
        ensures slot { slot_named self.new ≡ slot_named self.old }
        ensures shown { shown_by self.new ≡ shown_by self.old }
    {
        self.set_tag(Tag::None)
    }

    /// The same item with another tag.
    pub fn with_tag(self, tag: Tag) -> Ptr<'g, T>
        ensures tag { tag_of result ≡ tag }
        ensures slot { slot_named result ≡ slot_named self.entry }
        ensures shown { shown_by result ≡ shown_by self.entry }
    {
        let mut ptr = self;
        ptr.tag = tag;
        ptr
    }

    /// The same item with tag None.
    pub fn without_tag(self) -> Ptr<'g, T>
        ensures tag { tag_of result ≡ no_tag }
        ensures slot { slot_named result ≡ slot_named self.entry }
        ensures shown { shown_by result ≡ shown_by self.entry }
    {
        self.with_tag(Tag::None)
    }
}

impl<'g, T: Item<T>> Ptr<'g, T> {
    ghost use Rattle.std.specs.Prelude.{ℕ, ◌≡◌, ◌↔◌, ◌+◌, ◌^◌, ◌<◌, IfErr, IfOk, IfSome, IsSome, MatchOption, MatchResult, None, Some, option_copied};
    ghost use Rattle.sdd_world_model.specs.Slots.{IsSharedBy, owners_of};
    ghost use Rattle.sdd_participants.specs.declared.standing.Standing.TheVariants.{Shared as shared_by};
    ghost use Rattle.sdd_world_model.specs.World.{World, standing_at};
    ghost use Rattle.sdd_space.specs.CallerId.{IsSeated, IsExact};
    ghost use Rattle.sdd_space.specs.Refusals.{IsRefusedBy};
    ghost use Rattle.sdd_space.specs.Undisturbed.{Undisturbed};
    ghost use Rattle.sdd_world_model.specs.WorldChanges.{with_standing};
    ghost use Rattle.sdd_space.specs.Shared.{IsOfSlots, right_of, slot_of};
    ghost use Rattle.sdd_space.specs.Ptr.{IsNull, PtrIsShown, shown_by, slot_named};

    /// The value of the item, which is the one that the pointer was made with, whatever was called since; None for null.
    ///
    /// Nothing is read of the space.
    pub fn as_ref<L: LookThrough<T>>(&self, at: &L) -> Option<&'g T>
        ensures shown { option_copied result ≡ shown_by self.now }
        ensures null { IsSome result ↔ ¬ (IsNull self.now) }
    {
        self.value()
    }

    /// One owner more of the item, if it is shared: None for null, for an item with one owner that can't be shared, and after the last owner went.
    ///
    /// In a domain with others the guard under which the pointer was had is one of the participant that calls.
    ///
    /// `TooManyOwners` where 2^62 own it, cells counted; `Contended`, in a domain alone, where as many exchanges were lost as its limits allow.
    pub fn get_shared<S: SharedItems<T>>(&self, s: &mut S) -> Result<Option<Shared<T>>, Refused>
        requires seated { IsSeated (S.caller s.old) }
        requires shown { S.asks_shown s.old → PtrIsShown (S.shows s.old) self.now }
        ensures undisturbed { Undisturbed S.caller S.own S.known S.shows s.old s.new }
        ensures owner { IfOk result (IsOfSlots (S.caller s.old).home.slots) }
        ensures slot { IfOk result (λ o. IfSome o (λ owner. slot_named self.now ≡ Some (slot_of owner))) }
        ensures value { IfOk result (λ o. IfSome o (λ owner. (v : T) → S.shows s.old (slot_of owner) v → S.owns_value s.new (right_of owner) v)) }
        ensures back { IfErr result (IsRefusedBy (S.caller s.old) Refused.TooManyOwners) }
        ensures exact { IsExact (S.caller s.old) → MatchResult result
            (λ o. MatchOption o
            ((S.world s.new ≡ S.world s.old) × IfSome (slot_named self.now) (λ slot. owners_of (standing_at (S.world s.old) slot) ≡ None))
            (λ owner. (owners : ℕ) × IsSharedBy owners (standing_at (S.world s.old) (slot_of owner)) × (owners < 2 ^ 62) ×
            (S.world s.new ≡ with_standing (S.world s.old) (slot_of owner) (shared_by (owners + 1)))))
            (λ e. (e ≡ Refused.TooManyOwners) × (S.world s.new ≡ S.world s.old) ×
            ((slot : ℕ) × (slot_named self.now ≡ Some slot) × IsSharedBy (2 ^ 62) (standing_at (S.world s.old) slot))) }
    {
        let Some(slot) = self.slot() else {
            return Ok(None);
        };
        Ok(Shared::of_held(s.get_shared(slot)?))
    }
}

impl<T> Default for Ptr<'_, T> {
    ghost use Rattle.std.specs.Prelude.{◌≡◌};
    ghost use Rattle.sdd_core.specs.declared.tag.Tag.TheVariants.{None as no_tag};
    ghost use Rattle.sdd_space.specs.Ptr.{IsNull, tag_of};

    ghost is_default = { λ p. IsNull p × (tag_of p ≡ no_tag) };

    fn default() -> Self {
        Ptr::null()
    }
}
