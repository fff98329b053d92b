//! Items get owners and lose them, and go raw and come back.
ghost use Rattle.std.specs.Prelude.{◌≡◌, ◌≢◌, ℕ, ◌+◌, ◌^◌, ◌<◌, ◌≤◌, if◌then◌else◌, Some, None, IsSome, MatchOption, MatchResult, IfOk, IfSome, IsTrue, ◌↔◌};
ghost use Rattle.sdd_rights.specs.Right.{number_of, home_of, kind_of};
ghost use Rattle.sdd_rights.specs.SharedRights as shares;
ghost use Rattle.sdd_world_model.specs.Slots.{IsSharedBy, released_standing, owners_of};
ghost use Rattle.sdd_participants.specs.EpochState as time;
ghost use Rattle.sdd_world_model.specs.Releases.{Releases};
ghost use Rattle.sdd_world_model.specs.World.{KeepsSizes, standing_at, HasPlace};
ghost use Rattle.sdd_world_model.specs.WorldChanges.{with_standing, retired};
ghost use Rattle.sdd_world_model.specs.WorldInvariant.{IsWhole};
ghost use Rattle.sdd_world_core.specs.Lending.{AreLent};

use super::WorldCore;
use sdd_core::Refused;
use sdd_participants::{Job, LimboEntry, Standing};
use sdd_rights::{Right, SharedRights, StandingKind};
use sdd_space::Item;
use sdd_world_slots::MOST_OWNERS;

impl<T: Item<T>, J: Job> WorldCore<T, J> {
    /// One owner more of the item in a slot, if it is shared.
    ///
    /// `TooManyOwners` where as many share it as may.
    pub fn get_shared(&mut self, slot: u32) -> Result<Option<Right>, Refused>
        ensures right { IfOk result (λ o. IfSome o
            (λ right. (home_of right ≡ self.old.world.home.slots) × (number_of right ≡ slot) × (kind_of right ≡ StandingKind.Shared))) }
        ensures upgraded { MatchResult result
            (λ o. MatchOption o
            ((owners_of (standing_at self.old.world slot) ≡ None) × (self.new ≡ self.old))
            (λ _. (owners : ℕ) × IsSharedBy owners (standing_at self.old.world slot) × (owners < 2 ^ 62) ×
            (self.new ≡ record self.old { world = with_standing self.old.world slot (Standing.Shared (owners + 1)) })))
            (λ e. IsSharedBy (2 ^ 62) (standing_at self.old.world slot) × (e ≡ Refused.TooManyOwners) × (self.new ≡ self.old)) }
        ensures sizes { KeepsSizes self.old.world self.new.world }
        ensures whole { IsWhole self.old.world → IsWhole self.new.world }
        ensures lent { IsWhole self.old.world → AreLent self.old → AreLent self.new }
    {
        match self.slots.owners(slot) {
            Some(owners) if owners < MOST_OWNERS => Ok(Some(self.slots.clone_owner(slot, owners))),
            Some(_) => Err(Refused::TooManyOwners),
            None => Ok(None),
        }
    }

    /// One owner more beside an owner that may have others.
    ///
    /// `TooManyOwners` where as many share the item as may.
    pub fn clone_owner(&mut self, right: &Right) -> Result<Right, Refused>
        requires home { home_of right.now ≡ self.old.world.home.slots }
        requires kind { kind_of right.now ≡ StandingKind.Shared }
        ensures home { IfOk result (λ other. home_of other ≡ self.old.world.home.slots) }
        ensures slot { IfOk result (λ other. number_of other ≡ number_of right.now) }
        ensures kind { IfOk result (λ other. kind_of other ≡ StandingKind.Shared) }
        ensures added { (owners : ℕ) × IsSharedBy owners (standing_at self.old.world (number_of right.now)) × MatchResult result
            (λ _. (owners < 2 ^ 62) ×
            (self.new ≡ record self.old { world = with_standing self.old.world (number_of right.now) (Standing.Shared (owners + 1)) }))
            (λ e. (owners ≡ 2 ^ 62) × (e ≡ Refused.TooManyOwners) × (self.new ≡ self.old)) }
        ensures sizes { KeepsSizes self.old.world self.new.world }
        ensures whole { IsWhole self.old.world → IsWhole self.new.world }
        ensures lent { IsWhole self.old.world → AreLent self.old → AreLent self.new }
    {
        let owners = self.slots.owners_with(right);
        if owners < MOST_OWNERS {
            Ok(self.slots.clone_owner(right.number(), owners))
        } else {
            Err(Refused::TooManyOwners)
        }
    }

    /// So many owners more at once, in one piece, of the item of an owner that may have others beside it.
    ///
    /// `TooManyOwners` where with them more would share it than may.
    pub fn add_owners(&mut self, right: &Right, more: u64) -> Result<SharedRights, Refused>
        requires home { home_of right.now ≡ self.old.world.home.slots }
        requires kind { kind_of right.now ≡ StandingKind.Shared }
        requires some { 1 ≤ more }
        ensures home { IfOk result (λ several. shares.home_of several ≡ self.old.world.home.slots) }
        ensures slot { IfOk result (λ several. shares.number_of several ≡ number_of right.now) }
        ensures count { IfOk result (λ several. shares.count_of several ≡ more) }
        ensures added { (owners : ℕ) × IsSharedBy owners (standing_at self.old.world (number_of right.now)) × MatchResult result
            (λ _. (owners + more ≤ 2 ^ 62) ×
            (self.new ≡ record self.old { world = with_standing self.old.world (number_of right.now) (Standing.Shared (owners + more)) }))
            (λ e. (2 ^ 62 < owners + more) × (e ≡ Refused.TooManyOwners) × (self.new ≡ self.old)) }
        ensures sizes { KeepsSizes self.old.world self.new.world }
        ensures whole { IsWhole self.old.world → IsWhole self.new.world }
        ensures lent { IsWhole self.old.world → AreLent self.old → AreLent self.new }
    {
        let owners = self.slots.owners_with(right);
        if more <= MOST_OWNERS - owners {
            Ok(self.slots.add_owners(right.number(), owners, more))
        } else {
            Err(Refused::TooManyOwners)
        }
    }

    /// Owners go that came in one piece, all but one.
    pub fn release_all_but_one(&mut self, several: SharedRights) -> Right
        requires { shares.home_of several ≡ self.old.world.home.slots }
        ensures home { home_of result ≡ self.old.world.home.slots }
        ensures slot { number_of result ≡ shares.number_of several }
        ensures kind { kind_of result ≡ StandingKind.Shared }
        ensures gone { (others : ℕ) × IsSharedBy (others + shares.count_of several) (standing_at self.old.world (shares.number_of several))
            × (self.new ≡ record self.old { world = with_standing self.old.world (shares.number_of several) (Standing.Shared (others + 1)) }) }
        ensures sizes { KeepsSizes self.old.world self.new.world }
        ensures whole { IsWhole self.old.world → IsWhole self.new.world }
        ensures lent { IsWhole self.old.world → AreLent self.old → AreLent self.new }
    {
        self.slots.release_all_but_one(several)
    }

    /// An owner of this kind lets its item go, and is told whether it was the last. The last one's item waits with a place.
    pub fn release(&mut self, place: usize, right: Right, kind: StandingKind) -> bool
        requires place { HasPlace self.old.world place }
        requires home { home_of right ≡ self.old.world.home.slots }
        requires kind { kind_of right ≡ kind }
        ensures released { Releases self.old.world place (number_of right) (kind_of right) result self.new.world }
        ensures rest { self.new ≡ record self.old { world = self.new.world } }
        ensures waits { (if result then retired self.old.world place (number_of right)
            else with_standing self.old.world (number_of right) (released_standing (standing_at self.old.world (number_of right)))) ≡ self.new.world }
        ensures sizes { KeepsSizes self.old.world self.new.world }
        ensures whole { IsSome (time.phase_at self.old.world.time place) → IsWhole self.old.world → IsWhole self.new.world }
        ensures lent { AreLent self.old → AreLent self.new }
    {
        if self.slots.has_others(&right, kind) {
            self.slots.release(right, kind);
            return false;
        }
        let slot = right.name();
        self.slots.retire(right, Standing::Retired);
        self.time.wait(place, LimboEntry::Item(slot));
        true
    }

    /// The item of the one owner is out as raw.
    pub fn into_raw(&mut self, right: Right) -> u32
        requires home { home_of right ≡ self.old.world.home.slots }
        requires kind { kind_of right ≡ StandingKind.Owned }
        ensures slot { result ≡ number_of right }
        ensures owned { standing_at self.old.world (number_of right) ≡ Some Standing.Owned }
        ensures raw { self.new ≡ record self.old { world = with_standing self.old.world (number_of right) Standing.Raw } }
        ensures sizes { KeepsSizes self.old.world self.new.world }
        ensures whole { IsWhole self.old.world → IsWhole self.new.world }
        ensures lent { IsWhole self.old.world → AreLent self.old → AreLent self.new }
    {
        self.slots.into_raw(right)
    }

    /// The owner of an item that is out as raw; of any other slot none.
    pub fn from_raw(&mut self, slot: u32) -> Option<Right>
        ensures right { IfSome result (λ right. (home_of right ≡ self.old.world.home.slots) × (number_of right ≡ slot) × (kind_of right ≡ StandingKind.Owned)) }
        ensures back { MatchOption result
            ((standing_at self.old.world slot ≢ Some Standing.Raw) × (self.new ≡ self.old))
            (λ _. (standing_at self.old.world slot ≡ Some Standing.Raw) ×
            (self.new ≡ record self.old { world = with_standing self.old.world slot Standing.Owned })) }
        ensures sizes { KeepsSizes self.old.world self.new.world }
        ensures whole { IsWhole self.old.world → IsWhole self.new.world }
        ensures lent { IsWhole self.old.world → AreLent self.old → AreLent self.new }
    {
        self.slots.from_raw(slot)
    }
}
