//! Items are made, looked at and changed in their place.
ghost use Rattle.std.specs.Fn.{FnOnceReturnsAtMut};
ghost use Rattle.std.specs.Prelude.{◌≡◌, ℕ, ◌+◌, ◌^◌, ◌≤◌, Some, IfOk, IsSome, MatchOption, MatchResult, IsTrue, length, ◌↔◌};
ghost use Rattle.sdd_rights.specs.StandingKind.{IsOwner};
ghost use Rattle.sdd_rights.specs.Right.{number_of, home_of, kind_of};
ghost use Rattle.sdd_rights.specs.SharedRights as shares;
ghost use Rattle.sdd_world_model.specs.Slots.{IsOwnedBy, first_standing};
ghost use Rattle.sdd_participants.specs.Slab.{IsEmptyAt, IsFull};
ghost use Rattle.sdd_world_model.specs.OwnerOrCell.{AreOf};
ghost use Rattle.sdd_world_model.specs.World.{KeepsSizes, standing_at, value_at};
ghost use Rattle.sdd_world_model.specs.WorldChanges.{made_as, with_value};
ghost use Rattle.sdd_world_model.specs.InPlace.{MayInPlace, RefusedInPlace};
ghost use Rattle.sdd_world_model.specs.WorldInvariant.{IsWhole};
ghost use Rattle.sdd_world_core.specs.Lending.{AreLent};

use super::WorldCore;
use sdd_core::Refused;
use sdd_participants::{Job, Standing};
use sdd_rights::{Right, SharedRights, StandingKind};
use sdd_space::Item;

impl<T: Item<T>, J: Job> WorldCore<T, J> {
    /// How many slots there are.
    pub fn slots(&self) -> u64
        ensures home { result ≡ self.now.world.home.slots.size }
        ensures standings { result ≡ length self.now.world.standings }
    {
        self.slots.len() as u64
    }

    /// No slot is free.
    pub fn is_full(&self) -> bool
        ensures { IsTrue result ↔ IsFull self.now.world.standings }
    {
        self.slots.is_full()
    }

    /// Puts a value into a free slot, for an owner of this kind.
    pub fn new_item(&mut self, value: T, kind: StandingKind) -> Result<Right, T>
        requires home { AreOf self.old.world.home (T.holds value) }
        requires owner { IsOwner kind }
        ensures made { MatchResult result
            (λ right. (home_of right ≡ self.old.world.home.slots) × (kind_of right ≡ kind) × IsEmptyAt self.old.world.standings (number_of right) ×
            (self.new ≡ record self.old { world = made_as self.old.world (number_of right) value (first_standing kind) }))
            (λ back. IsFull self.old.world.standings × (back ≡ value) × (self.new ≡ self.old)) }
        ensures sizes { KeepsSizes self.old.world self.new.world }
        ensures whole { IsWhole self.old.world → IsWhole self.new.world }
        ensures lent { IsWhole self.old.world → AreLent self.old → AreLent self.new }
        ensures keeps { IsWhole self.old.world → (k : ℕ) (v : T) → value_at self.old.world k ≡ Some v → value_at self.new.world k ≡ Some v }
    {
        let right = self.slots.new_item(value, kind)?;
        self.tally.count_made();
        Ok(right)
    }

    /// Puts a value into a free slot, for an owner of this kind, where one is there.
    pub fn fill(&mut self, value: T, kind: StandingKind) -> Right
        requires home { AreOf self.old.world.home (T.holds value) }
        requires owner { IsOwner kind }
        requires room { ¬ (IsFull self.old.world.standings) }
        ensures home { home_of result ≡ self.old.world.home.slots }
        ensures kind { kind_of result ≡ kind }
        ensures empty { IsEmptyAt self.old.world.standings (number_of result) }
        ensures made { self.new ≡ record self.old { world = made_as self.old.world (number_of result) value (first_standing kind) } }
        ensures whole { IsWhole self.old.world → IsWhole self.new.world }
        ensures lent { IsWhole self.old.world → AreLent self.old → AreLent self.new }
        ensures keeps { IsWhole self.old.world → (k : ℕ) (v : T) → value_at self.old.world k ≡ Some v → value_at self.new.world k ≡ Some v }
    {
        match self.new_item(value, kind) {
            Ok(right) => right,
            Err(_) => unreachable!(),
        }
    }

    /// Puts a value into a free slot, for so many owners at once, who share it: the right of one, and those of the others in one piece.
    pub fn make_several(&mut self, value: T, owners: u64) -> Result<(Right, SharedRights), T>
        requires home { AreOf self.old.world.home (T.holds value) }
        requires several { 2 ≤ owners }
        requires most { owners ≤ 2 ^ 62 }
        ensures made { MatchResult result
            (λ made. (home_of made.0 ≡ self.old.world.home.slots) × (kind_of made.0 ≡ StandingKind.Shared) ×
            IsEmptyAt self.old.world.standings (number_of made.0) ×
            (self.new ≡ record self.old { world = made_as self.old.world (number_of made.0) value (Standing.Shared owners) }))
            (λ back. IsFull self.old.world.standings × (back ≡ value) × (self.new ≡ self.old)) }
        ensures others { IfOk result (λ made. (shares.home_of made.1 ≡ self.old.world.home.slots) × (shares.number_of made.1 ≡ number_of made.0) ×
            (shares.count_of made.1 + 1 ≡ owners)) }
        ensures sizes { KeepsSizes self.old.world self.new.world }
        ensures whole { IsWhole self.old.world → IsWhole self.new.world }
        ensures lent { IsWhole self.old.world → AreLent self.old → AreLent self.new }
        ensures keeps { IsWhole self.old.world → (k : ℕ) (v : T) → value_at self.old.world k ≡ Some v → value_at self.new.world k ≡ Some v }
    {
        let made = self.slots.new_shared(value, owners)?;
        self.tally.count_made();
        Ok(made)
    }

    /// The value of an owner's item.
    pub fn value<'a>(&'a self, right: &Right) -> &'a T
        requires { home_of right.now ≡ self.now.world.home.slots }
        ensures { value_at self.now.world (number_of right.now) ≡ Some result.now }
    {
        self.slots.value(right)
    }

    /// The value in a slot that is not free.
    pub fn value_in(&self, slot: u32) -> &T
        requires { IsSome (value_at self.now.world slot) }
        ensures { value_at self.now.world slot ≡ Some result.now }
    {
        self.slots.value_in(slot)
    }

    /// How the item in a slot stands; nothing where the slot is free.
    pub fn standing(&self, slot: u32) -> Option<Standing>
        ensures { result ≡ standing_at self.now.world slot }
    {
        self.slots.standing(slot)
    }

    /// Why an owner of this kind may not change or drop its item in its place, if it may not: others own it, or else a guard is open.
    pub fn refused_in_place(&self, right: &Right, kind: StandingKind) -> Option<Refused>
        requires home { home_of right.now ≡ self.now.world.home.slots }
        requires kind { kind_of right.now ≡ kind }
        ensures owned { IsOwnedBy (kind_of right.now) (standing_at self.now.world (number_of right.now)) }
        ensures refused { MatchOption result (MayInPlace self.now.world (number_of right.now)) (RefusedInPlace self.now.world (number_of right.now)) }
    {
        if self.slots.has_others(right, kind) {
            return Some(Refused::NotAlone);
        }
        if self.is_guarded() {
            return Some(Refused::GuardOpen);
        }
        None
    }

    /// Changes the value of an owner's item in its place.
    pub fn get_mut<R, F: FnOnce(&mut T) -> R>(&mut self, right: &Right, f: F) -> R
        requires home { home_of right.now ≡ self.old.world.home.slots }
        requires may { MayInPlace self.old.world (number_of right.now) }
        requires lent { AreLent self.old }
        requires callable { F.IsAlwaysCallable f }
        requires held { (was now : T) (r : R) → FnOnceReturnsAtMut F.FnOnce f was r now →
            AreOf self.old.world.home (T.holds was) → AreOf self.old.world.home (T.holds now) }
        ensures changed { (was : T) × (now : T) × (value_at self.old.world (number_of right.now) ≡ Some was) × FnOnceReturnsAtMut F.FnOnce f was result now ×
            (self.new ≡ record self.old { world = with_value self.old.world (number_of right.now) now }) }
        ensures sizes { KeepsSizes self.old.world self.new.world }
        ensures whole { IsWhole self.old.world → IsWhole self.new.world }
        ensures lent { AreLent self.new }
    {
        self.slots.get_mut(right, f)
    }
}
