//! What the one owner of an item does.
ghost use Rattle.std.specs.Fn.{FnOnceReturnsAtMut};
ghost use Rattle.std.specs.Prelude.{◌≡◌, ◌≢◌, IfErr, IfOk, IfSome, MatchOption, MatchResult, Some};
ghost use Rattle.sdd_world_model.specs.OwnerOrCell.{AreOf};
ghost use Rattle.sdd_world_model.specs.World.{World, AnyGuardOpen, standing_at, value_at};
ghost use Rattle.sdd_space.specs.CallerId.{IsSeated, IsExact};
ghost use Rattle.sdd_world_model.specs.KnownEpochs.{KnowsOn};
ghost use Rattle.sdd_space.specs.Undisturbed.{Undisturbed, Unmoved};
ghost use Rattle.sdd_world_model.specs.ParticipantChanges.{KeepsMoreWaiting};
ghost use Rattle.sdd_world_model.specs.WorldChanges.{retired, with_standing, with_value, dropped};
ghost use Rattle.sdd_space.specs.Owned.{right_of, slot_of, slots_home, IsOfSlots};
ghost use Rattle.sdd_core.specs.declared.tag.Tag.TheVariants.{None as no_tag};
ghost use Rattle.sdd_space.specs.Ptr.{KeepsOthers, KeepsShown};
ghost use Rattle.sdd_space.specs.RawPtr as raw;
ghost use Rattle.sdd_participants.specs.EpochState as time;
ghost use Rattle.sdd_participants.specs.declared.waiting.LimboEntry.TheVariants.{Item};

use crate::item::Item;
use crate::owner::{Owned, Owner};
use crate::ownership::UniqueOwnership;
use crate::raw_ptr::RawPtr;
use crate::space::{InPlaceItems, Items, RawItems};
use sdd_core::{Refused, Tag};
use sdd_participants::Standing;
use sdd_rights::StandingKind;

impl<T: Item<T>> Owner<UniqueOwnership, T> {
    /// Retires the item: it waits with the calling participant, which reclaims it at its third later outermost opening that finds another epoch.
    pub fn retire<S: Items<T>>(self, s: &mut S)
        requires seated { IsSeated (S.caller s.old) }
        requires home { slots_home self ≡ (S.caller s.old).home.slots }
        ensures unmoved { Unmoved S.caller S.known S.shows s.old s.new }
        ensures own { S.own s.new ≡ time.awaiting (Item (slot_of self)) (S.own s.old) }
        ensures owned { IsExact (S.caller s.old) → standing_at (S.world s.old) (slot_of self) ≡ Some Standing.Owned }
        ensures exact { IsExact (S.caller s.old) → S.world s.new ≡ retired (S.world s.old) (S.caller s.old).place (slot_of self) }
    {
        let _ = s.release(self.into_right(), StandingKind::Owned);
    }

    /// Changes the value by `f`, where no guard of any participant is open.
    ///
    /// `GuardOpen` where one is: `f` comes back uncalled. A `&mut` to the value can't be answered, since what a value holds has to stay of this
    /// world or domain.
    pub fn get_mut<R, F: FnOnce(&mut T) -> R, S: InPlaceItems<T>>(
        &mut self,
        f: F,
        s: &mut S,
    ) -> Result<R, (F, Refused)>
        requires seated { IsSeated (S.caller s.old) }
        requires home { slots_home self.old ≡ (S.caller s.old).home.slots }
        requires callable { F.IsAlwaysCallable f }
        requires held { (was now : T) (r : R) → FnOnceReturnsAtMut F.FnOnce f was r now →
            AreOf (S.caller s.old).home (T.holds was) → AreOf (S.caller s.old).home (T.holds now) }
        ensures back { IfErr result (λ e. (e.0 ≡ f) × (e.1 ≡ Refused.GuardOpen)) }
        ensures slot { slot_of self.new ≡ slot_of self.old }
        ensures home { slots_home self.new ≡ slots_home self.old }
        ensures same { IfErr result (λ _. self.new ≡ self.old) }
        ensures kept { S.keeps_right → self.new ≡ self.old }
        ensures caller { S.caller s.new ≡ S.caller s.old }
        ensures own { S.own s.new ≡ S.own s.old }
        ensures known { KnowsOn (S.known s.old) (S.known s.new) }
        ensures owned { IsExact (S.caller s.old) → standing_at (S.world s.old) (slot_of self.old) ≡ Some Standing.Owned }
        ensures shown { IfOk result (λ r. (was : T) × (now : T) × S.owns_value s.old (right_of self.old) was ×
            FnOnceReturnsAtMut F.FnOnce f was r now × S.owns_value s.new (right_of self.new) now) }
        ensures exact { IsExact (S.caller s.old) → MatchResult result
            (λ r. ¬ (AnyGuardOpen (S.world s.old)) ×
            ((was : T) × (now : T) × (value_at (S.world s.old) (slot_of self.old) ≡ Some was) × FnOnceReturnsAtMut F.FnOnce f was r now ×
            (S.world s.new ≡ with_value (S.world s.old) (slot_of self.old) now)))
            (λ e. AnyGuardOpen (S.world s.old) × (e.1 ≡ Refused.GuardOpen) × (S.world s.new ≡ S.world s.old)) }
        ensures keeps { MatchResult result (λ _. KeepsOthers (slot_of self.old) (S.shows s.old) (S.shows s.new))
            (λ _. KeepsShown (S.shows s.old) (S.shows s.new)) }
    {
        s.get_mut(&mut self.right.right, StandingKind::Owned, f)
    }

    /// Drops the item in its place, where no guard of any participant is open: its value gives up at once what it holds, and its slot is free.
    ///
    /// `GuardOpen` where one is: the owner comes back, and nothing more waits than before.
    pub fn drop_in_place<S: InPlaceItems<T>>(self, s: &mut S) -> Result<(), (Owned<T>, Refused)>
        requires seated { IsSeated (S.caller s.old) }
        requires home { slots_home self ≡ (S.caller s.old).home.slots }
        ensures caller { S.caller s.new ≡ S.caller s.old }
        ensures own { MatchResult result (λ _. KeepsMoreWaiting (S.own s.old) (S.own s.new)) (λ _. S.own s.new ≡ S.own s.old) }
        ensures known { KnowsOn (S.known s.old) (S.known s.new) }
        ensures owned { IsExact (S.caller s.old) → standing_at (S.world s.old) (slot_of self) ≡ Some Standing.Owned }
        ensures back { IfErr result (λ e. (right_of e.0 ≡ right_of self) × (e.1 ≡ Refused.GuardOpen)) }
        ensures exact { IsExact (S.caller s.old) → MatchResult result
            (λ _. ¬ (AnyGuardOpen (S.world s.old)) × (S.world s.new ≡ dropped T.holds (S.world s.old) (S.caller s.old).place (slot_of self)))
            (λ e. AnyGuardOpen (S.world s.old) × (e.1 ≡ Refused.GuardOpen) × (S.world s.new ≡ S.world s.old)) }
        ensures keeps { MatchResult result (λ _. KeepsOthers (slot_of self) (S.shows s.old) (S.shows s.new))
            (λ _. KeepsShown (S.shows s.old) (S.shows s.new)) }
    {
        match s.drop_in_place(self.into_right(), StandingKind::Owned) {
            Ok(_) => Ok(()),
            Err((right, refused)) => Err((Owned::of_right(right), refused)),
        }
    }

    /// Puts the item out as raw: nobody owns it, until `from_raw` makes an owner of a pointer to it again.
    pub fn into_raw<S: RawItems<T>>(self, s: &mut S) -> RawPtr<T>
        requires seated { IsSeated (S.caller s.old) }
        requires home { slots_home self ≡ (S.caller s.old).home.slots }
        ensures undisturbed { Undisturbed S.caller S.own S.known S.shows s.old s.new }
        ensures slot { raw.slot_named result ≡ Some (slot_of self) }
        ensures tag { raw.tag_of result ≡ no_tag }
        ensures owned { IsExact (S.caller s.old) → standing_at (S.world s.old) (slot_of self) ≡ Some Standing.Owned }
        ensures exact { IsExact (S.caller s.old) → S.world s.new ≡ with_standing (S.world s.old) (slot_of self) Standing.Raw }
    {
        let slot = s.into_raw(self.into_right());
        RawPtr::of(Some(slot), Tag::None)
    }

    /// The owner of an item that is out as raw: none for null, and for a slot whose item isn't out as raw. The pointer's tag is ignored.
    pub fn from_raw<S: RawItems<T>>(ptr: RawPtr<T>, s: &mut S) -> Option<Owned<T>>
        requires seated { IsSeated (S.caller s.old) }
        ensures undisturbed { Undisturbed S.caller S.own S.known S.shows s.old s.new }
        ensures home { IsOfSlots (S.caller s.old).home.slots result }
        ensures slot { IfSome result (λ owner. raw.slot_named ptr ≡ Some (slot_of owner)) }
        ensures exact { IsExact (S.caller s.old) → MatchOption result
            (IfSome (raw.slot_named ptr) (λ slot. standing_at (S.world s.old) slot ≢ Some Standing.Raw) × (S.world s.new ≡ S.world s.old))
            (λ owner. (standing_at (S.world s.old) (slot_of owner) ≡ Some Standing.Raw) ×
            (S.world s.new ≡ with_standing (S.world s.old) (slot_of owner) Standing.Owned)) }
    {
        let slot = ptr.slot()?;
        Owned::of_held(s.from_raw(slot))
    }
}
