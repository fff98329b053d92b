ghost use Rattle.std.specs.Prelude.{◌≡◌, ◌↔◌, IsTrue};

use crate::guard::Guard;
use crate::item::Item;
use crate::ptr::Ptr;
use crate::space::RawItems;
use sdd_core::{SlotName, Tag};
use sdd_participants::RawCellContents;
use std::alloc::AllocError;
use std::fmt::{self, Debug, Formatter};
use std::marker::PhantomData;

/// A pointer to an item, or null, with a tag, that nobody's guard stands behind: it shows nothing.
///
/// Two pointers are equal exactly if they name the same slot, or none, and have the same tag.
pub struct RawPtr<T> {
    /// The number of the slot's name: 0 where it is null, so that equal pointers have equal fields.
    slot: u32,
    tag: Tag,
    /// It isn't null.
    named: bool,
    of: PhantomData<T>,
    pub ghost zero: { ¬ (IsTrue named) → slot ≡ 0 },
}

const _: () = prove!(size_of::<RawPtr<u64>>() == 8);

impl<T> Debug for RawPtr<T> {
    fn fmt<W: fmt::Write>(&self, f: &mut Formatter<W>) -> fmt::Result {
        f.debug_struct("RawPtr")
            .field("slot", &self.slot())
            .field("tag", &self.tag)
            .finish()
    }
}

impl<T> Clone for RawPtr<T> {
    ghost use Rattle.std.specs.Prelude.{◌≡◌};

    ghost is_clone = { λ x y. y ≡ x };

    ghost is_infallible = { λ _. Unit {0} };

    fn clone(&self) -> Result<Self, AllocError> {
        Ok(*self)
    }
}

impl<T> Copy for RawPtr<T> {}

impl<T> PartialEq for RawPtr<T> {
    ghost use Rattle.std.proofs.Common.{rules};
    ghost use Rattle.std.specs.Cmp.Rules.{comparing};
    ghost use Rattle.sdd_space.specs.RawPtr.{are_equal};

    ghost eq = { are_equal };

    ghost laws = { Prim.search (comparing, rules) };

    fn eq(&self, other: &Self) -> bool {
        self.named == other.named && self.slot == other.slot && self.tag == other.tag
    }
}

impl<T> Eq for RawPtr<T> {
    ghost use Rattle.std.proofs.Common.{rules};
    ghost use Rattle.std.specs.Cmp.Rules.{comparing};

    ghost laws = { Prim.search (comparing, rules) };
}

impl<T> RawPtr<T> {
    ghost use Rattle.std.specs.Prelude.{◌≡◌, ◌↔◌, Option, None, Some, IsTrue};
    ghost use Rattle.sdd_core.specs.declared.tag.Tag.TheVariants.{None as no_tag};
    ghost use Rattle.sdd_space.specs.RawPtr.{slot_named, pointer_of, tag_of, IsNull};

    /// The null pointer, without a tag.
    pub fn null() -> RawPtr<T>
        ensures null { IsNull result }
        ensures tag { tag_of result ≡ no_tag }
    {
        RawPtr::of(None, Tag::None)
    }

    pub(crate) fn of(named: Option<SlotName>, tag: Tag) -> RawPtr<T>
        ensures slot { slot_named result ≡ named }
        ensures tag { tag_of result ≡ tag }
    {
        RawPtr {
            slot: named.map_or(0, SlotName::number),
            tag,
            named: named.is_some(),
            of: PhantomData,
        }
    }

    pub(crate) fn slot(&self) -> Option<SlotName>
        ensures { result ≡ slot_named self.now }
    {
        if self.named {
            Some(SlotName::of(self.slot))
        } else {
            None
        }
    }

    /// The pointer that a raw cell has.
    pub(crate) fn of_pointer(pointer: RawCellContents) -> RawPtr<T>
        ensures { pointer_of result ≡ pointer }
    {
        RawPtr::of(pointer.named.map(SlotName::of), pointer.tag)
    }

    /// What a raw cell has that points to the same.
    pub(crate) fn pointer(&self) -> RawCellContents
        ensures { result ≡ pointer_of self.now }
    {
        RawCellContents {
            named: if self.named { Some(self.slot) } else { None },
            tag: self.tag,
        }
    }

    /// Null, whatever the tag is.
    pub fn is_null(&self) -> bool
        ensures { IsTrue result ↔ IsNull self.now }
    {
        !self.named
    }

    /// The tag.
    pub fn tag(&self) -> Tag
        ensures { result ≡ tag_of self.now }
    {
        self.tag
    }

    /// Sets the tag, and answers the one before.
    pub fn set_tag(&mut self, tag: Tag) -> Tag
        ensures old { result ≡ tag_of self.old }
        ensures tag { tag_of self.new ≡ tag }
        ensures slot { slot_named self.new ≡ slot_named self.old }
    {
        let old = self.tag;
        self.tag = tag;
        old
    }

    /// Sets the tag to None, and answers the one before.
    pub fn unset_tag(&mut self) -> Tag
        ensures old { result ≡ tag_of self.old }
        ensures tag { tag_of self.new ≡ no_tag }
        ensures slot { slot_named self.new ≡ slot_named self.old }
    {
        self.set_tag(Tag::None)
    }

    /// The same item with another tag.
    pub fn with_tag(self, tag: Tag) -> RawPtr<T>
        ensures tag { tag_of result ≡ tag }
        ensures slot { slot_named result ≡ slot_named self }
    {
        let mut ptr = self;
        ptr.tag = tag;
        ptr
    }

    /// The same item with tag None.
    pub fn without_tag(self) -> RawPtr<T>
        ensures tag { tag_of result ≡ no_tag }
        ensures slot { slot_named result ≡ slot_named self }
    {
        self.with_tag(Tag::None)
    }
}

impl<T: Item<T>> RawPtr<T> {
    ghost use Rattle.std.specs.Prelude.{◌≡◌, ◌↔◌, IfSome, IsSome, Some};
    ghost use Rattle.sdd_participants.specs.declared.standing.Standing.TheVariants.{Raw};
    ghost use Rattle.sdd_world_model.specs.World.{World, standing_at};
    ghost use Rattle.sdd_space.specs.CallerId.{IsSeated, IsExact};
    ghost use Rattle.sdd_space.specs.Undisturbed.{Undisturbed};
    ghost use Rattle.sdd_space.specs.Guard.{reader_of};
    ghost use Rattle.sdd_space.specs.RawPtr.{slot_named, cell_seen};
    ghost use Rattle.sdd_space.specs.Ptr.{PtrIsShown};
    ghost use Rattle.sdd_space.specs.Ptr as guarded;

    /// A pointer to the item, with the same tag, where it is out as raw; it shows its value for as long as the guard is borrowed, whatever becomes of the
    /// item. A null pointer is one to nothing. None for a slot whose item isn't out as raw. The guard is one of the participant that calls.
    pub fn into_ptr<'g, S: RawItems<T>>(self, s: &mut S, guard: &'g Guard) -> Option<Ptr<'g, T>>
        requires seated { IsSeated (S.caller s.old) }
        requires reader { reader_of guard.now ≡ (S.caller s.old).reader }
        ensures undisturbed { Undisturbed S.caller S.own S.known S.shows s.old s.new }
        ensures same { IfSome result (λ ptr. guarded.cell_seen ptr ≡ cell_seen self) }
        ensures shown { IfSome result (λ ptr. PtrIsShown (S.shows s.new) ptr) }
        ensures exact { IsExact (S.caller s.old) →
            (IsSome result ↔ IfSome (slot_named self) (λ slot. standing_at (S.world s.old) slot ≡ Some Raw)) × (S.world s.new ≡ S.world s.old) }
    {
        let Some(slot) = self.slot() else {
            return Some(Ptr::null().with_tag(self.tag));
        };
        let value = s.get_guarded_raw(slot, guard)?;
        Some(Ptr::to(slot, value).with_tag(self.tag))
    }
}

impl<T> Default for RawPtr<T> {
    ghost use Rattle.std.specs.Prelude.{◌≡◌};
    ghost use Rattle.sdd_core.specs.declared.tag.Tag.TheVariants.{None as no_tag};
    ghost use Rattle.sdd_space.specs.RawPtr.{IsNull, tag_of};

    ghost is_default = { λ p. IsNull p × (tag_of p ≡ no_tag) };

    fn default() -> Self {
        RawPtr::null()
    }
}
