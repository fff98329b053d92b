//! A change reclaims what is due, and a value that is reclaimed gives up what it holds.
ghost use Rattle.std.specs.Prelude.{◌≡◌, ◌≢◌, ◌⊎◌, ◌+◌, ◌<◌, ◌≤◌, ℕ, true, List, [], length, IfErr, IfOk, IsSome, IsTrue, MatchBool, MatchResult, None, Some, ◌∷◌};
ghost use Rattle.sdd_rights.specs.Right.{number_of, home_of, kind_of, raw_number_of, raw_home_of};
ghost use Rattle.sdd_rights.specs.StandingKind.{is_shared};
ghost use Rattle.sdd_world_model.specs.Slots.{IsOwnedBy, has_others};
ghost use Rattle.sdd_world_model.specs.InPlace.{IsAlone};
ghost use Rattle.sdd_world_model.specs.World.{standing_at};
ghost use Rattle.sdd_world_model.specs.KnownEpochs.{KnowsOn};
ghost use Rattle.sdd_world_model.specs.ParticipantChanges.{IsCollected, KeepsMoreWaiting, all_awaiting};
ghost use Rattle.sdd_space.specs.Owned as owned;
ghost use Rattle.sdd_space.specs.RawCell as raw_cell;
ghost use Rattle.sdd_space.specs.CallerId.{IsSeated, IsExact};
ghost use Rattle.sdd_space.specs.Shared as shared;
ghost use Rattle.sdd_world_model.specs.WorldChanges.{cell_closed, given, given_all, all_reclaimed, dropped, owner_given, reclaimed, ran};
ghost use Rattle.sdd_world_model.specs.WorldChanges as steps;
ghost use Rattle.sdd_participants.specs.EpochState.{awaiting, settled};
ghost use Rattle.sdd_participants.specs.Slab.{entry_at, without_entry};
ghost use Rattle.sdd_participants.specs.Jobs.{jobs_without, jobs_without_all};
ghost use Rattle.sdd_participants.specs.declared.waiting.LimboEntry.{LimboEntry as Entry};
ghost use Rattle.sdd_participants.specs.declared.waiting.LimboEntry.TheVariants.{Item as item, Job as job};
ghost use Rattle.sdd_domain_steps.specs.WaitingItems.{items_in};
ghost use Rattle.sdd_domain_steps.specs.SpaceIds.{home_in};
ghost use Rattle.sdd_domain_steps.specs.Local.{LocalModel};
ghost use Rattle.sdd_domain_steps.specs.LocalState.{HasOpenGuard, IsLone};
ghost use Rattle.sdd_domain_steps.specs.Receipt.{with_reclaimed};
ghost use Rattle.sdd_domain_steps.specs.Local.{world_of};
ghost use Rattle.sdd_domain_core.specs.Reclaiming.{counted_where, kept_of, rest_of};
ghost use Rattle.sdd_domain_core.specs.OpeningTally.{CountsGone};
ghost use Rattle.sdd_domain_core.specs.Collectors.{AllWaitFor, IsClosing};
ghost use Rattle.sdd_world_model.specs.Collecting.{collector_closed};
ghost use Rattle.sdd_world_model.specs.Out.{IsNullCell};
ghost use Rattle.sdd_domain_core.specs.Space.{caller_of, known_of, slots_home};

use crate::local_core::LocalCore;
use sdd_core::Refused;
use sdd_participants::{Job, LimboEntry};
use sdd_rights::{RawRight, Right, StandingKind};
use sdd_shared_values::GhostValues;
use sdd_space::inner::{right_of_cell, right_of_owner, right_of_raw_cell};
use sdd_space::{AtomicOwned, AtomicRaw, AtomicShared, Giver, Item, Owned, Shared};
use std::marker::Model;

/// A participant with the ghost values of what it moved into slots, also while it reclaims.
pub struct LocalGiver<'d, T: Item<T>, J: Job> {
    pub core: LocalCore<'d, T, J>,
    pub ghost_values: GhostValues<T>,
}

impl<'d, T: Item<T>, J: Job> Model for LocalGiver<'d, T, J> {
    ghost use Rattle.sdd_domain_steps.specs.Local.{LocalModel};
    ghost use Rattle.sdd_domain_steps.specs.WordsAndValues.{WordsMatchValues};

    ghost Value = { LocalModel T J };

    ghost view = { λ p. record { member = p.core; entries = p.ghost_values.entries } };

    ghost invariant = { λ p. WordsMatchValues p.core p.ghost_values.entries };
}

/// It retires what it is given.
impl<T: Item<T>, J: Job> Giver<T> for LocalGiver<'_, T, J> {
    ghost world = { λ p. world_of p };

    ghost caller = { λ p. caller_of p };

    ghost own = { λ p. p.member.own };

    ghost known = { λ p. known_of p };

    ghost Kept = { LocalModel T J };

    ghost kept = { λ p. kept_of p };

    fn owned(&mut self, owner: Owned<T>)
        requires seated { IsSeated (caller_of self.old) }
        requires home { owned.slots_home owner ≡ (home_in self.old.member).slots }
        ensures caller { caller_of self.new ≡ caller_of self.old }
        ensures own { KeepsMoreWaiting self.old.member.own self.new.member.own }
        ensures known { KnowsOn (known_of self.old) (known_of self.new) }
        ensures kept { kept_of self.new ≡ kept_of self.old }
        ensures waits { self.new.member.own ≡ awaiting (item (owned.slot_of owner)) self.old.member.own }
        ensures exact { IsExact (caller_of self.old) → world_of self.new ≡ given (world_of self.old) self.old.member.place (owned.holding_of owner) }
    {
        self.core
            .release(right_of_owner(owner), StandingKind::Owned);
    }

    fn shared(&mut self, owner: Shared<T>)
        requires seated { IsSeated (caller_of self.old) }
        requires home { shared.slots_home owner ≡ (home_in self.old.member).slots }
        ensures caller { caller_of self.new ≡ caller_of self.old }
        ensures own { KeepsMoreWaiting self.old.member.own self.new.member.own }
        ensures known { KnowsOn (known_of self.old) (known_of self.new) }
        ensures kept { kept_of self.new ≡ kept_of self.old }
        ensures exact { IsExact (caller_of self.old) → world_of self.new ≡ given (world_of self.old) self.old.member.place (shared.holding_of owner) }
    {
        self.core
            .release(right_of_owner(owner), StandingKind::Shared);
    }

    fn atomic_owned(&mut self, cell: AtomicOwned<T>)
        requires seated { IsSeated (caller_of self.old) }
        requires home { owned.cells_home cell ≡ (home_in self.old.member).cells }
        ensures caller { caller_of self.new ≡ caller_of self.old }
        ensures own { KeepsMoreWaiting self.old.member.own self.new.member.own }
        ensures known { KnowsOn (known_of self.old) (known_of self.new) }
        ensures kept { kept_of self.new ≡ kept_of self.old }
        ensures exact { IsExact (caller_of self.old) → world_of self.new ≡ given (world_of self.old) self.old.member.place (owned.cell_holding cell) }
    {
        self.close_cell(right_of_cell(cell), StandingKind::Owned);
    }

    fn atomic_shared(&mut self, cell: AtomicShared<T>)
        requires seated { IsSeated (caller_of self.old) }
        requires home { shared.cells_home cell ≡ (home_in self.old.member).cells }
        ensures caller { caller_of self.new ≡ caller_of self.old }
        ensures own { KeepsMoreWaiting self.old.member.own self.new.member.own }
        ensures known { KnowsOn (known_of self.old) (known_of self.new) }
        ensures kept { kept_of self.new ≡ kept_of self.old }
        ensures exact { IsExact (caller_of self.old) → world_of self.new ≡ given (world_of self.old) self.old.member.place (shared.cell_holding cell) }
    {
        self.close_cell(right_of_cell(cell), StandingKind::Shared);
    }

    fn atomic_raw(&mut self, cell: AtomicRaw<T>)
        requires seated { IsSeated (caller_of self.old) }
        requires home { raw_cell.cells_home cell ≡ (home_in self.old.member).cells }
        ensures caller { caller_of self.new ≡ caller_of self.old }
        ensures own { KeepsMoreWaiting self.old.member.own self.new.member.own }
        ensures known { KnowsOn (known_of self.old) (known_of self.new) }
        ensures kept { kept_of self.new ≡ kept_of self.old }
        ensures exact { IsExact (caller_of self.old) → world_of self.new ≡ given (world_of self.old) self.old.member.place (raw_cell.cell_holding cell) }
    {
        self.core.free_raw_cell(right_of_raw_cell(cell));
    }
}

impl<T: Item<T>, J: Job> LocalGiver<'_, T, J> {
    /// A cell is free again, and the participant lets the owner go that it held, if it held one.
    fn close_cell(&mut self, right: Right, kind: StandingKind)
        requires home { home_of right ≡ (home_in self.old.member).cells }
        requires kind { kind_of right ≡ kind }
        ensures caller { caller_of self.new ≡ caller_of self.old }
        ensures own { KeepsMoreWaiting self.old.member.own self.new.member.own }
        ensures known { KnowsOn (known_of self.old) (known_of self.new) }
        ensures kept { kept_of self.new ≡ kept_of self.old }
        ensures exact { IsExact (caller_of self.old) → world_of self.new ≡ cell_closed (world_of self.old) self.old.member.place (number_of right) }
    {
        let (held, _word) = self.core.into_contents(right, kind);
        let Some(owner) = held else {
            return;
        };
        self.core.release(owner, kind);
    }

    /// The item that is due before all others, in this slot, is reclaimed, and what its value held is retired then.
    fn reclaim_item(&mut self, slot: u32)
        requires first { (rest : List Entry) × (self.old.member.due ≡ item slot ∷ rest) }
        requires closes { self.old.member.slots.closes ≡ None }
        ensures first { self.old.member.due ≡ item slot ∷ self.new.member.due }
        ensures own { KeepsMoreWaiting self.old.member.own self.new.member.own }
        ensures known { KnowsOn (known_of self.old) (known_of self.new) }
        ensures rest { rest_of self.new ≡ rest_of self.old }
        ensures counted { CountsGone 1 self.old.member self.new.member }
        ensures jobs { self.new.member.jobs ≡ self.old.member.jobs }
        ensures exact { IsLone self.old.member → world_of self.new ≡ reclaimed T.holds (world_of self.old) self.old.member.place (item slot) }
    {
        self.ghost_values.codes();
        self.core.stands();
        if let Some(value) = self.core.reclaim(slot) {
            value.give_up(self);
        }
    }

    /// The job that is due before all others, in this place, runs, once; the place is free before it does.
    fn run_job(&mut self, place: u32)
        requires first { (rest : List Entry) × (self.old.member.due ≡ job place ∷ rest) }
        ensures first { self.old.member.due ≡ job place ∷ self.new.member.due }
        ensures own { self.new.member.own ≡ self.old.member.own }
        ensures known { known_of self.new ≡ known_of self.old }
        ensures rest { rest_of self.new ≡ rest_of self.old }
        ensures counted { CountsGone 0 self.old.member self.new.member }
        ensures there { IsSome (entry_at self.old.member.jobs place) }
        ensures jobs { self.new.member.jobs ≡ without_entry self.old.member.jobs place }
        ensures exact { IsLone self.old.member → world_of self.new ≡ ran (world_of self.old) place }
    {
        // There is one: where a job does nothing when it runs, nothing is left of the test.
        if let Some(job) = self.core.take_job(place) {
            job.run();
        }
    }

    /// What is due before all others is reclaimed: an item, or a job, which runs.
    #[inline]
    fn reclaim_first(&mut self, what: LimboEntry)
        requires first { (rest : List Entry) × (self.old.member.due ≡ what ∷ rest) }
        requires closes { self.old.member.slots.closes ≡ None }
        ensures first { self.old.member.due ≡ what ∷ self.new.member.due }
        ensures own { KeepsMoreWaiting self.old.member.own self.new.member.own }
        ensures known { KnowsOn (known_of self.old) (known_of self.new) }
        ensures rest { rest_of self.new ≡ rest_of self.old }
        ensures counted { CountsGone (items_in (what ∷ [])) self.old.member self.new.member }
        ensures jobs { self.new.member.jobs ≡ jobs_without self.old.member.jobs what }
        ensures exact { IsLone self.old.member → world_of self.new ≡ reclaimed T.holds (world_of self.old) self.old.member.place what }
    {
        match what {
            LimboEntry::Item(slot) => self.reclaim_item(slot.number()),
            LimboEntry::Job(place) => self.run_job(place),
        }
    }

    /// What is due is reclaimed, one after another, and what each value held is retired then.
    fn reclaim_due(&mut self)
        requires closes { self.old.member.slots.closes ≡ None }
        ensures own { KeepsMoreWaiting self.old.member.own self.new.member.own }
        ensures none { self.old.member.due ≡ [] → self.new.member.own ≡ self.old.member.own }
        ensures known { KnowsOn (known_of self.old) (known_of self.new) }
        ensures rest { rest_of self.new ≡ rest_of self.old }
        ensures due { self.new.member.due ≡ [] }
        ensures counted { CountsGone (items_in self.old.member.due) self.old.member self.new.member }
        ensures jobs { self.new.member.jobs ≡ jobs_without_all self.old.member.jobs self.old.member.due }
        ensures exact { IsLone self.old.member → world_of self.new
            ≡ all_reclaimed T.holds (world_of self.old) self.old.member.place self.old.member.due }
    {
        while let Some(what) = self.core.first_due() {
            self.reclaim_first(what);
        }
    }

    /// The rest of a change: what is due is reclaimed, and what each value held is retired then; and then it is decided whether anything waits.
    #[inline(never)]
    pub fn change(&mut self)
        requires closes { self.old.member.slots.closes ≡ None }
        ensures own { (given : List ℕ) × (self.new.member.own ≡ settled (all_awaiting given self.old.member.own)) × (self.old.member.due ≡ [] → given ≡ []) }
        ensures known { KnowsOn (known_of self.old) (known_of self.new) }
        ensures rest { rest_of self.new ≡ rest_of self.old }
        ensures due { self.new.member.due ≡ [] }
        ensures counted { CountsGone (items_in self.old.member.due) self.old.member self.new.member }
        ensures jobs { self.new.member.jobs ≡ jobs_without_all self.old.member.jobs self.old.member.due }
        ensures near { HasOpenGuard self.new.member → self.new.member.known ≤ self.new.member.since + 1 }
        ensures exact { IsLone self.old.member → world_of self.new
            ≡ steps.settled (all_reclaimed T.holds (world_of self.old) self.old.member.place self.old.member.due) self.old.member.place }
    {
        self.reclaim_due();
        self.core.settle();
        self.core.stands();
    }

    /// The item that was taken out of the bags before all others for the collector that is closed, in this slot, is reclaimed, and what its value held is
    /// retired then.
    fn empty_item(&mut self, slot: u32, collector: u32)
        requires first { (rest : List Entry) × (self.old.member.due ≡ item slot ∷ rest) }
        requires taken { AllWaitFor self.old.member collector self.old.member.due }
        requires closing { IsClosing collector self.old.member }
        ensures first { self.old.member.due ≡ item slot ∷ self.new.member.due }
        ensures taken { AllWaitFor self.new.member collector self.new.member.due }
        ensures closing { IsClosing collector self.new.member }
        ensures own { KeepsMoreWaiting self.old.member.own self.new.member.own }
        ensures known { KnowsOn (known_of self.old) (known_of self.new) }
        ensures rest { rest_of self.new ≡ rest_of self.old }
        ensures jobs { self.new.member.jobs ≡ self.old.member.jobs }
        ensures exact { IsLone self.old.member → world_of self.new ≡ reclaimed T.holds (world_of self.old) self.old.member.place (item slot) }
    {
        self.ghost_values.codes();
        self.core.stands();
        if let Some(value) = self.core.empty_first(slot, collector) {
            value.give_up(self);
        }
    }

    /// What was taken out of the bags for the collector that is closed is reclaimed, one item after another, and what each value held is retired then.
    fn empty_own(&mut self, collector: u32)
        requires taken { AllWaitFor self.old.member collector self.old.member.due }
        requires closing { IsClosing collector self.old.member }
        ensures closing { IsClosing collector self.new.member }
        ensures own { KeepsMoreWaiting self.old.member.own self.new.member.own }
        ensures known { KnowsOn (known_of self.old) (known_of self.new) }
        ensures rest { rest_of self.new ≡ rest_of self.old }
        ensures due { self.new.member.due ≡ [] }
        ensures jobs { self.new.member.jobs ≡ self.old.member.jobs }
        ensures exact { IsLone self.old.member → world_of self.new
            ≡ all_reclaimed T.holds (world_of self.old) self.old.member.place self.old.member.due }
    {
        while let Some(what) = self.core.first_due() {
            let LimboEntry::Item(slot) = what else {
                unreachable!()
            };
            self.empty_item(slot.number(), collector);
        }
    }

    /// The item in this slot is reclaimed if it waits with another for the collector that is closed, and what its value held is retired then.
    fn empty_other(&mut self, slot: u32, collector: u32)
        requires inside { slot < self.old.member.limits.slots }
        requires settled { self.old.member.due ≡ [] }
        requires closing { IsClosing collector self.old.member }
        ensures closing { IsClosing collector self.new.member }
        ensures own { KeepsMoreWaiting self.old.member.own self.new.member.own }
        ensures known { KnowsOn (known_of self.old) (known_of self.new) }
        ensures rest { rest_of self.new ≡ rest_of self.old }
        ensures due { self.new.member.due ≡ [] }
        ensures jobs { self.new.member.jobs ≡ self.old.member.jobs }
        ensures alone { IsLone self.old.member → self.new ≡ self.old }
    {
        self.core.stands();
        if let Some(value) = self.core.empty_slot(slot, collector) {
            value.give_up(self);
        }
    }

    /// What waits with others for the collector that is closed is reclaimed, one item after another, and what each value held is retired then.
    fn empty_others(&mut self, collector: u32)
        requires settled { self.old.member.due ≡ [] }
        requires closing { IsClosing collector self.old.member }
        ensures closing { IsClosing collector self.new.member }
        ensures own { KeepsMoreWaiting self.old.member.own self.new.member.own }
        ensures known { KnowsOn (known_of self.old) (known_of self.new) }
        ensures rest { rest_of self.new ≡ rest_of self.old }
        ensures due { self.new.member.due ≡ [] }
        ensures jobs { self.new.member.jobs ≡ self.old.member.jobs }
        ensures alone { IsLone self.old.member → self.new ≡ self.old }
    {
        for slot in 0..self.core.domain().limits.slots as u32 {
            self.empty_other(slot, collector);
        }
    }

    /// Gives a collector up. What waits for it, with whomever, is reclaimed at once, and what its values give up waits with the participant.
    ///
    /// `GuardOpen` where a guard is open: the collector comes back, and nothing has changed.
    pub fn close_collector(&mut self, collector: RawRight) -> Result<(), (RawRight, Refused)>
        requires home { raw_home_of collector ≡ (home_in self.old.member).cells }
        requires settled { self.old.member.due ≡ [] }
        requires closes { self.old.member.slots.closes ≡ None }
        ensures own { MatchResult result (λ _. IsCollected self.old.member.own self.new.member.own) (λ _. self.new ≡ self.old) }
        ensures known { KnowsOn (known_of self.old) (known_of self.new) }
        ensures rest { rest_of self.new ≡ rest_of self.old }
        ensures settled { (self.new.member.due ≡ []) × (self.new.member.slots.closes ≡ None) }
        ensures jobs { self.new.member.jobs ≡ self.old.member.jobs }
        ensures shut { IfOk result (λ _. ¬ (HasOpenGuard self.old.member)) }
        ensures back { IfErr result (λ e. (e.0 ≡ collector) × (e.1 ≡ Refused.GuardOpen) × (IsLone self.old.member → HasOpenGuard self.old.member)) }
        ensures exact { IsLone self.old.member → IfOk result (λ _. IsNullCell (world_of self.old) (raw_number_of collector)
            × (world_of self.new ≡ collector_closed T.holds (world_of self.old) self.old.member.place (raw_number_of collector))) }
    {
        let number = collector.number();
        self.core.stands();
        let right = self.core.begin_close(collector)?;
        self.empty_own(number);
        self.empty_others(number);
        self.core.end_close(number, right);
        Ok(())
    }

    /// Lets an owner go, and answers whether it was the last, whose item is dropped in its place: its value gives up at once what it holds.
    ///
    /// The owner comes back: `GuardOpen` where it is the last and a guard is open; `Contended` where others came or went as often as the limits allow.
    pub fn drop_in_place(
        &mut self,
        right: Right,
        kind: StandingKind,
    ) -> Result<bool, (Right, Refused)>
        requires home { home_of right ≡ slots_home self.old }
        requires kind { kind_of right ≡ kind }
        requires closes { self.old.member.slots.closes ≡ None }
        ensures own { MatchResult result (λ _. KeepsMoreWaiting self.old.member.own self.new.member.own) (λ _. self.new.member.own ≡ self.old.member.own) }
        ensures known { KnowsOn (known_of self.old) (known_of self.new) }
        ensures kept { MatchResult result
            (λ last. kept_of self.new ≡ kept_of (counted_where last self.old)) (λ _. kept_of self.new ≡ kept_of self.old) }
        ensures back { IfErr result (λ e. (e.0 ≡ right) × ((e.1 ≡ Refused.GuardOpen) ⊎ ((e.1 ≡ Refused.Contended) × (is_shared kind ≡ true)))) }
        ensures owned { IsLone self.old.member → IsOwnedBy (kind_of right) (standing_at (world_of self.old) (number_of right)) }
        ensures exact { IsLone self.old.member → MatchResult result
            (λ last. MatchBool last
            (IsAlone (standing_at (world_of self.old) (number_of right)) × ¬ (HasOpenGuard self.old.member)
            × (world_of self.new ≡ dropped T.holds (world_of self.old) self.old.member.place (number_of right)))
            (IsTrue (has_others (standing_at (world_of self.old) (number_of right))) × (world_of self.new
            ≡ owner_given (world_of self.old) self.old.member.place (number_of right) (standing_at (world_of self.old) (number_of right)))))
            (λ e. IsAlone (standing_at (world_of self.old) (number_of right)) × HasOpenGuard self.old.member × (e.1 ≡ Refused.GuardOpen)
            × (world_of self.new ≡ world_of self.old)) }
    {
        self.ghost_values.codes();
        self.core.stands();
        match self.core.drop_in_place(right, kind)? {
            Some(value) => {
                value.give_up(self);
                Ok(true)
            }
            None => Ok(false),
        }
    }
}
