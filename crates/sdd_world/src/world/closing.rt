ghost use Rattle.std.specs.Prelude.{◌≡◌, ◌≢◌, [], ◌↔◌, ℕ, ◌⊎◌, IfErr, IfOk, IsOk, List, MatchResult};
ghost use Rattle.sdd_participants.specs.EpochState.{without_waiting, place_at, with_place};
ghost use Rattle.sdd_world_model.specs.World.{World, AnyGuardOpen, KeepsSizes, HasPlace, IsPlaceOf};
ghost use Rattle.sdd_world_model.specs.WorldInvariant.{taken};
ghost use Rattle.sdd_world_model.specs.Out.{out, HoldsNothing};
ghost use Rattle.sdd_world_core.specs.Closing.{NothingIsOut};
ghost use Rattle.sdd_world.specs.Closing.{aged_out, all_aged_out, ReclaimsAll, AllGo, Accounts, Sweeps, with_reclaimed};

use super::World;
use sdd_core::Refused;
use sdd_participants::{Job, Tally};
use sdd_space::Item;
use std::mem::ManuallyDrop;

impl<T: Item<T>, J: Job> World<T, J> {
    /// Ends the world: reclaims what waits, with what it gives up in turn, and answers the tally. Participants need not have ended.
    /// What ended ones left is reclaimed too.
    ///
    /// `GuardOpen` where a guard of some participant is open: nothing has changed. `OwnerOut` where an owner or a cell is still out: what waited
    /// has been reclaimed. With either the world comes back, with the same participants.
    pub fn close(mut self) -> Result<Tally, (World<T, J>, Refused)>
        ensures closed { MatchResult result
            (λ tally. ¬ (AnyGuardOpen self) × ((end : World T J) × ReclaimsAll T.holds self end × NothingIsOut end × (tally ≡ end.tally)))
            (λ e. ((e.1 ≡ Refused.GuardOpen) × AnyGuardOpen self × (e.0 ≡ self)) ⊎
            ((e.1 ≡ Refused.OwnerOut) × ¬ (AnyGuardOpen self) × ReclaimsAll T.holds self e.0 × ¬ (NothingIsOut e.0))) }
        ensures exactly { IsOk result ↔ (¬ (AnyGuardOpen self) × AllGo T.holds self) }
        ensures spent { ¬ (AnyGuardOpen self) → out self ≡ 0 → IsOk result }
        ensures plainly { HoldsNothing T.holds → (IsOk result ↔ (¬ (AnyGuardOpen self) × (out self ≡ 0))) }
        ensures tally { IfOk result (λ tally. tally ≡ with_reclaimed (taken self) self.tally) }
        ensures accounts { IfOk result (λ tally. Accounts self.tally tally) }
        ensures swept { IfErr result (λ e. e.1 ≡ Refused.OwnerOut → Sweeps T.holds self e.0) }
        ensures places { IfErr result (λ e. (p : ℕ) → (IsPlaceOf self p ↔ IsPlaceOf e.0 p)) }
    {
        if self.is_guarded() {
            return Err((self, Refused::GuardOpen));
        }
        self.clear();
        if !self.core.is_unused() {
            return Err((self, Refused::OwnerOut));
        }
        let World {
            core,
            spare: _,
            alloc: _,
        } = self;
        Ok(core.destroy())
    }

    /// Lets go of a world in which something is out for ever, or a guard open. Its memory, and the values in it, stay where they are, and no job that waits
    /// runs.
    pub fn leak(self) {
        let _leaked = unsafe { ManuallyDrop::new_unchecked(self) };
    }

    /// Reclaims what waits. No guard is open, so nothing is lent.
    fn clear(&mut self)
        requires quiet { ¬ (AnyGuardOpen self.old) }
        ensures { ReclaimsAll T.holds self.old self.new }
    {
        for place in 0..self.time().len() {
            self.clear_place(place);
        }
    }

    /// Reclaims what waits with a place. No guard is open.
    fn clear_place(&mut self, place: usize)
        requires place { HasPlace self.old place }
        requires quiet { ¬ (AnyGuardOpen self.old) }
        ensures changes { (places : List ℕ) × (self.new ≡ all_aged_out T.holds self.old places) }
        ensures time { self.new.time ≡ with_place self.old.time place (without_waiting (place_at self.old.time place)) }
        ensures home { self.new.home ≡ self.old.home }
    {
        while !self.time().is_clear(place) {
            self.age_out(place);
        }
    }

    /// A change of a place, which keeps its pace. No guard is open.
    fn age_out(&mut self, place: usize)
        requires place { HasPlace self.old place }
        requires quiet { ¬ (AnyGuardOpen self.old) }
        requires waits { (place_at self.old.time place).bags.waiting ≢ [] }
        ensures aged { self.new ≡ aged_out T.holds self.old place }
        ensures sizes { KeepsSizes self.old self.new }
    {
        let pace = self.time().pace(place);
        self.core.change(place, &mut self.spare);
        self.core.set_pace(place, pace);
    }
}
