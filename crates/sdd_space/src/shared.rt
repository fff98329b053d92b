//! What one of several owners of an item does.
ghost use Rattle.std.specs.Fn.{FnOnceReturnsAtMut};
ghost use Rattle.std.specs.Prelude.{ℕ, ◌≡◌, ◌+◌, ◌^◌, ◌<◌, ◌↔◌, ◌⊎◌, ◌-◌, IfErr, IfOk, IfSome, IsSome, IsTrue, MatchBool, MatchOption, MatchResult, Some, None, option_map, if◌then◌else◌};
ghost use Rattle.sdd_world_model.specs.OwnerOrCell.{AreOf};
ghost use Rattle.sdd_world_model.specs.World.{World, AnyGuardOpen, standing_at, value_at};
ghost use Rattle.sdd_space.specs.CallerId.{IsSeated, IsExact};
ghost use Rattle.sdd_space.specs.Refusals.{IsRefusedBy};
ghost use Rattle.sdd_world_model.specs.KnownEpochs.{KnowsOn};
ghost use Rattle.sdd_world_model.specs.Releases.{Releases, left_waiting};
ghost use Rattle.sdd_space.specs.Undisturbed.{Undisturbed, Unmoved};
ghost use Rattle.sdd_world_model.specs.ParticipantChanges.{KeepsMoreWaiting};
ghost use Rattle.sdd_world_model.specs.WorldChanges.{with_standing, with_value, dropped};
ghost use Rattle.sdd_space.specs.Shared.{right_of, slot_of, slots_home};
ghost use Rattle.sdd_space.specs.Ptr.{PtrIsShown, slot_named, KeepsOthers, KeepsShown};
ghost use Rattle.sdd_world_model.specs.Slots.{IsSharedBy, owners_of};

use crate::item::Item;
use crate::owner::{Owner, Shared};
use crate::ownership::SharedOwnership;
use crate::ptr::Ptr;
use crate::space::{InPlaceItems, Items, SharedItems, SharedOwners};
use sdd_core::Refused;
use sdd_participants::Standing;
use sdd_rights::StandingKind;

impl<T: Item<T>> Owner<SharedOwnership, T> {
    /// One owner more of the item that a pointer names, if it is shared. In a domain with others the guard under which the pointer was had is one of the
    /// participant that calls.
    ///
    /// The pointer comes back for null, for an item with one owner that can't be shared, and after the last owner went; with `TooManyOwners` where 2^62 own
    /// the item, cells counted; and with `Contended`, in a domain alone, where as many exchanges were lost as its limits allow.
    pub fn try_from_ptr<'g, S: SharedItems<T>>(
        ptr: Ptr<'g, T>,
        s: &mut S,
    ) -> Result<Shared<T>, (Ptr<'g, T>, Option<Refused>)>
        requires seated { IsSeated (S.caller s.old) }
        requires shown { S.asks_shown s.old → PtrIsShown (S.shows s.old) ptr }
        ensures undisturbed { Undisturbed S.caller S.own S.known S.shows s.old s.new }
        ensures home { IfOk result (λ owner. slots_home owner ≡ (S.caller s.old).home.slots) }
        ensures slot { IfOk result (λ owner. slot_named ptr.entry ≡ Some (slot_of owner)) }
        ensures value { IfOk result (λ owner. (v : T) → S.shows s.old (slot_of owner) v → S.owns_value s.new (right_of owner) v) }
        ensures back { IfErr result (λ e. (e.0 ≡ ptr.entry) × IfSome e.1 (IsRefusedBy (S.caller s.old) Refused.TooManyOwners)) }
        ensures exact { IsExact (S.caller s.old) → MatchResult result
            (λ owner. (owners : ℕ) × IsSharedBy owners (standing_at (S.world s.old) (slot_of owner)) × (owners < 2 ^ 62) ×
            (S.world s.new ≡ with_standing (S.world s.old) (slot_of owner) (Standing.Shared (owners + 1))))
            (λ e. (S.world s.new ≡ S.world s.old) × MatchOption e.1
            (IfSome (slot_named ptr.entry) (λ slot. owners_of (standing_at (S.world s.old) slot) ≡ None))
            (λ why. (why ≡ Refused.TooManyOwners) ×
            ((slot : ℕ) × (slot_named ptr.entry ≡ Some slot) × IsSharedBy (2 ^ 62) (standing_at (S.world s.old) slot)))) }
    {
        match ptr.get_shared(s) {
            Ok(Some(owner)) => Ok(owner),
            Ok(None) => Err((ptr, None)),
            Err(refused) => Err((ptr, Some(refused))),
        }
    }

    /// One owner more of the same item, with the same value.
    ///
    /// `TooManyOwners` where 2^62 own it, cells counted.
    pub fn clone<S: SharedOwners<T>>(&self, s: &mut S) -> Result<Shared<T>, Refused>
        requires seated { IsSeated (S.caller s.old) }
        requires home { slots_home self.now ≡ (S.caller s.old).home.slots }
        ensures undisturbed { Undisturbed S.caller S.own S.known S.shows s.old s.new }
        ensures home { IfOk result (λ other. slots_home other ≡ (S.caller s.old).home.slots) }
        ensures slot { IfOk result (λ other. slot_of other ≡ slot_of self.now) }
        ensures value { IfOk result (λ other. (v : T) → S.owns_value s.old (right_of self.now) v → S.owns_value s.new (right_of other) v) }
        ensures back { IfErr result (λ e. e ≡ Refused.TooManyOwners) }
        ensures exact { IsExact (S.caller s.old) → (owners : ℕ) × IsSharedBy owners (standing_at (S.world s.old) (slot_of self.now)) × MatchResult result
            (λ _. (owners < 2 ^ 62) × (S.world s.new ≡ with_standing (S.world s.old) (slot_of self.now) (Standing.Shared (owners + 1))))
            (λ e. (owners ≡ 2 ^ 62) × (e ≡ Refused.TooManyOwners) × (S.world s.new ≡ S.world s.old)) }
    {
        Ok(Shared::of_right(s.clone_owner(self.right())?))
    }

    /// Gives this owner up, and answers whether it was the last, cells counted. The last one's item is retired: it waits with the calling participant.
    #[inline]
    pub fn release<S: Items<T>>(self, s: &mut S) -> bool
        requires seated { IsSeated (S.caller s.old) }
        requires home { slots_home self ≡ (S.caller s.old).home.slots }
        ensures unmoved { Unmoved S.caller S.known S.shows s.old s.new }
        ensures own { S.own s.new ≡ left_waiting result (slot_of self) (S.own s.old) }
        ensures released { IsExact (S.caller s.old) →
            Releases (S.world s.old) (S.caller s.old).place (slot_of self) StandingKind.Shared result (S.world s.new) }
    {
        s.release(self.into_right(), StandingKind::Shared)
    }

    /// Changes the value by `f`, where this owner is alone, cells counted, and no guard of any participant is open.
    ///
    /// `NotAlone` where others own the item, and else `GuardOpen` where a guard is open: `f` comes back uncalled.
    pub fn get_mut<R, F: FnOnce(&mut T) -> R, S: InPlaceItems<T>>(
        &mut self,
        f: F,
        s: &mut S,
    ) -> Result<R, (F, Refused)>
        requires seated { IsSeated (S.caller s.old) }
        requires home { slots_home self.old ≡ (S.caller s.old).home.slots }
        requires callable { F.IsAlwaysCallable f }
        requires held { (was now : T) (r : R) → FnOnceReturnsAtMut F.FnOnce f was r now →
            AreOf (S.caller s.old).home (T.holds was) → AreOf (S.caller s.old).home (T.holds now) }
        ensures back { IfErr result (λ e. (e.0 ≡ f) × ((e.1 ≡ Refused.NotAlone) ⊎ (e.1 ≡ Refused.GuardOpen))) }
        ensures slot { slot_of self.new ≡ slot_of self.old }
        ensures home { slots_home self.new ≡ slots_home self.old }
        ensures same { IfErr result (λ _. self.new ≡ self.old) }
        ensures kept { S.keeps_right → self.new ≡ self.old }
        ensures caller { S.caller s.new ≡ S.caller s.old }
        ensures own { S.own s.new ≡ S.own s.old }
        ensures known { KnowsOn (S.known s.old) (S.known s.new) }
        ensures shown { IfOk result (λ r. (was : T) × (now : T) × S.owns_value s.old (right_of self.old) was ×
            FnOnceReturnsAtMut F.FnOnce f was r now × S.owns_value s.new (right_of self.new) now) }
        ensures exact { IsExact (S.caller s.old) → (owners : ℕ) × IsSharedBy owners (standing_at (S.world s.old) (slot_of self.old)) × MatchResult result
            (λ r. (owners ≡ 1) × ¬ (AnyGuardOpen (S.world s.old)) ×
            ((was : T) × (now : T) × (value_at (S.world s.old) (slot_of self.old) ≡ Some was) × FnOnceReturnsAtMut F.FnOnce f was r now ×
            (S.world s.new ≡ with_value (S.world s.old) (slot_of self.old) now)))
            (λ e. ((1 < owners) × (e.1 ≡ Refused.NotAlone) ⊎ (owners ≡ 1) × AnyGuardOpen (S.world s.old) × (e.1 ≡ Refused.GuardOpen)) ×
            (S.world s.new ≡ S.world s.old)) }
        ensures keeps { MatchResult result (λ _. KeepsOthers (slot_of self.old) (S.shows s.old) (S.shows s.new))
            (λ _. KeepsShown (S.shows s.old) (S.shows s.new)) }
    {
        s.get_mut(&mut self.right.right, StandingKind::Shared, f)
    }

    /// Gives this owner up, and answers whether it was the last, cells counted. The last one's item is dropped in its place, where no guard of any
    /// participant is open: its value gives up at once what it holds, and its slot is free.
    ///
    /// `GuardOpen` where this is the last owner and a guard is open; `Contended`, in a domain alone, where as many exchanges were lost as its limits
    /// allow. The owner comes back, and nothing more waits than before.
    pub fn drop_in_place<S: InPlaceItems<T>>(self, s: &mut S) -> Result<bool, (Shared<T>, Refused)>
        requires seated { IsSeated (S.caller s.old) }
        requires home { slots_home self ≡ (S.caller s.old).home.slots }
        ensures caller { S.caller s.new ≡ S.caller s.old }
        ensures own { MatchResult result (λ _. KeepsMoreWaiting (S.own s.old) (S.own s.new)) (λ _. S.own s.new ≡ S.own s.old) }
        ensures known { KnowsOn (S.known s.old) (S.known s.new) }
        ensures back { IfErr result (λ e. (right_of e.0 ≡ right_of self) × IsRefusedBy (S.caller s.old) Refused.GuardOpen e.1) }
        ensures exact { IsExact (S.caller s.old) → (owners : ℕ) × IsSharedBy owners (standing_at (S.world s.old) (slot_of self)) × MatchResult result
            (λ last. MatchBool last
            ((owners ≡ 1) × ¬ (AnyGuardOpen (S.world s.old)) × (S.world s.new ≡ dropped T.holds (S.world s.old) (S.caller s.old).place (slot_of self)))
            ((1 < owners) × (S.world s.new ≡ with_standing (S.world s.old) (slot_of self) (Standing.Shared (owners - 1)))))
            (λ e. (owners ≡ 1) × AnyGuardOpen (S.world s.old) × (e.1 ≡ Refused.GuardOpen) × (S.world s.new ≡ S.world s.old)) }
        ensures others { KeepsOthers (slot_of self) (S.shows s.old) (S.shows s.new) }
        ensures keeps { MatchResult result (λ last. ¬ (IsTrue last) → KeepsShown (S.shows s.old) (S.shows s.new))
            (λ _. KeepsShown (S.shows s.old) (S.shows s.new)) }
    {
        match s.drop_in_place(self.into_right(), StandingKind::Shared) {
            Ok(last) => Ok(last),
            Err((right, refused)) => Err((Shared::of_right(right), refused)),
        }
    }
}
