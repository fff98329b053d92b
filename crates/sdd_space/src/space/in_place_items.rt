ghost use Rattle.std.specs.Fn.{FnOnceReturnsAtMut};
ghost use Rattle.std.specs.Prelude.{◌≡◌, ◌⊎◌, IfErr, IfOk, IsTrue, MatchBool, MatchResult, Some};
ghost use Rattle.sdd_world_model.specs.OwnerOrCell.{AreOf};
ghost use Rattle.sdd_world_model.specs.World.{AnyGuardOpen, standing_at, value_at};
ghost use Rattle.sdd_space.specs.CallerId.{IsSeated, IsExact};
ghost use Rattle.sdd_space.specs.Refusals.{IsRefusedBy};
ghost use Rattle.sdd_world_model.specs.ParticipantChanges.{KeepsMoreWaiting};
ghost use Rattle.sdd_world_model.specs.KnownEpochs.{KnowsOn};
ghost use Rattle.sdd_rights.specs.Right.{number_of, home_of, kind_of};
ghost use Rattle.sdd_world_model.specs.Slots.{IsOwnedBy, has_others};
ghost use Rattle.sdd_space.specs.Ptr.{KeepsShown, KeepsOthers};
ghost use Rattle.sdd_world_model.specs.InPlace.{IsAlone, MayInPlace, RefusedInPlace};
ghost use Rattle.sdd_world_model.specs.WorldChanges.{with_value, dropped, owner_given};

use crate::item::Item;
use crate::space::caller::Caller;
use sdd_core::Refused;
use sdd_rights::{Right, StandingKind};

/// Items that are changed and dropped in their place.
pub trait InPlaceItems<T: Item<T>>: Caller<T> {
    /// An owner's right stays as it is when the value of its item changes. In a world it does; in a domain the right tells the value.
    ghost keeps_right: { Type 0 } = { ⊥ };

    /// Changes the value of an owner's item in its place, where the owner, which is of this kind, is alone and no guard is open. It owns the same item
    /// afterwards, and its right tells the new value where rights tell values, and else is the same.
    ///
    /// `NotAlone` where others own the item, and else `GuardOpen`: `f` comes back uncalled.
    fn get_mut<R, F: FnOnce(&mut T) -> R>(
        &mut self,
        right: &mut Right,
        kind: StandingKind,
        f: F,
    ) -> Result<R, (F, Refused)>
        requires seated { IsSeated (Self.caller self.old) }
        requires home { home_of right.old ≡ (Self.caller self.old).home.slots }
        requires kind { kind_of right.old ≡ kind }
        requires callable { F.IsAlwaysCallable f }
        requires held { (was now : T) (r : R) → FnOnceReturnsAtMut F.FnOnce f was r now →
            AreOf (Self.caller self.old).home (T.holds was) → AreOf (Self.caller self.old).home (T.holds now) }
        ensures caller { Self.caller self.new ≡ Self.caller self.old }
        ensures own { Self.own self.new ≡ Self.own self.old }
        ensures known { KnowsOn (Self.known self.old) (Self.known self.new) }
        ensures home { home_of right.new ≡ home_of right.old }
        ensures slot { number_of right.new ≡ number_of right.old }
        ensures kind { kind_of right.new ≡ kind_of right.old }
        ensures same { IfErr result (λ _. right.new ≡ right.old) }
        ensures kept { Self.keeps_right → right.new ≡ right.old }
        ensures back { IfErr result (λ e. (e.0 ≡ f) × ((e.1 ≡ Refused.NotAlone) ⊎ (e.1 ≡ Refused.GuardOpen))) }
        ensures sole { kind ≡ StandingKind.Owned → IfErr result (λ e. e.1 ≡ Refused.GuardOpen) }
        ensures shown { IfOk result (λ r. (was : T) × (now : T) × Self.owns_value self.old right.old was ×
            FnOnceReturnsAtMut F.FnOnce f was r now × Self.owns_value self.new right.new now) }
        ensures owned { IsExact (Self.caller self.old) → IsOwnedBy (kind_of right.old) (standing_at (Self.world self.old) (number_of right.old)) }
        ensures exact { IsExact (Self.caller self.old) → MatchResult result
            (λ r. MayInPlace (Self.world self.old) (number_of right.old) ×
            ((was : T) × (now : T) × (value_at (Self.world self.old) (number_of right.old) ≡ Some was) × FnOnceReturnsAtMut F.FnOnce f was r now ×
            (Self.world self.new ≡ with_value (Self.world self.old) (number_of right.old) now)))
            (λ e. RefusedInPlace (Self.world self.old) (number_of right.old) e.1 × (Self.world self.new ≡ Self.world self.old)) }
        ensures keeps { MatchResult result
            (λ _. KeepsOthers (number_of right.old) (Self.shows self.old) (Self.shows self.new))
            (λ _. KeepsShown (Self.shows self.old) (Self.shows self.new)) };

    /// An owner of this kind goes, and is told whether it was the last. The last one's item is dropped in its place, where no guard is open: its value
    /// gives up at once what it holds.
    ///
    /// `GuardOpen` for the last owner alone; `Contended`, in a domain and for an owner that may have others alone, where as many exchanges were lost as
    /// its limits allow. The owner comes back, and nothing more waits than before.
    fn drop_in_place(&mut self, right: Right, kind: StandingKind) -> Result<bool, (Right, Refused)>
        requires seated { IsSeated (Self.caller self.old) }
        requires home { home_of right ≡ (Self.caller self.old).home.slots }
        requires kind { kind_of right ≡ kind }
        ensures caller { Self.caller self.new ≡ Self.caller self.old }
        ensures own { MatchResult result (λ _. KeepsMoreWaiting (Self.own self.old) (Self.own self.new)) (λ _. Self.own self.new ≡ Self.own self.old) }
        ensures known { KnowsOn (Self.known self.old) (Self.known self.new) }
        ensures back { IfErr result (λ e. (e.0 ≡ right) × IsRefusedBy (Self.caller self.old) Refused.GuardOpen e.1) }
        ensures sole { kind ≡ StandingKind.Owned → IfErr result (λ e. e.1 ≡ Refused.GuardOpen) }
        ensures owned { IsExact (Self.caller self.old) → IsOwnedBy (kind_of right) (standing_at (Self.world self.old) (number_of right)) }
        ensures exact { IsExact (Self.caller self.old) → MatchResult result
            (λ last. MatchBool last
            (MayInPlace (Self.world self.old) (number_of right) ×
            (Self.world self.new ≡ dropped T.holds (Self.world self.old) (Self.caller self.old).place (number_of right)))
            (IsTrue (has_others (standing_at (Self.world self.old) (number_of right))) × (Self.world self.new ≡
            owner_given (Self.world self.old) (Self.caller self.old).place (number_of right) (standing_at (Self.world self.old) (number_of right)))))
            (λ e. IsAlone (standing_at (Self.world self.old) (number_of right)) × AnyGuardOpen (Self.world self.old) × (e.1 ≡ Refused.GuardOpen) ×
            (Self.world self.new ≡ Self.world self.old)) }
        ensures others { KeepsOthers (number_of right) (Self.shows self.old) (Self.shows self.new) }
        ensures keeps { MatchResult result
            (λ last. ¬ (IsTrue last) → KeepsShown (Self.shows self.old) (Self.shows self.new))
            (λ _. KeepsShown (Self.shows self.old) (Self.shows self.new)) };
}
