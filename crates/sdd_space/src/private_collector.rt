ghost use Rattle.std.specs.Prelude.{ℕ, ◌≡◌, ◌≢◌, ◌↔◌, IfErr, IfOk, IsTrue, MatchResult, Some, if◌then◌else◌};
ghost use Rattle.sdd_world_model.specs.World.{World, AnyGuardOpen, standing_at};
ghost use Rattle.sdd_space.specs.CallerId.{IsSeated, IsExact};
ghost use Rattle.sdd_space.specs.Refusals.{IsRefusedBy};
ghost use Rattle.sdd_world_model.specs.KnownEpochs.{KnowsOn};
ghost use Rattle.sdd_space.specs.Undisturbed.{Undisturbed, Unmoved};
ghost use Rattle.sdd_world_model.specs.ParticipantChanges.{IsCollected};
ghost use Rattle.sdd_space.specs.Ptr.{KeepsShown};
ghost use Rattle.sdd_space.specs.Guard.{reader_of};
ghost use Rattle.sdd_world_model.specs.Out.{IsNullCell};
ghost use Rattle.sdd_world_model.specs.WorldChanges.{pointing};
ghost use Rattle.sdd_world_model.specs.Collecting.{collected, owner_collected, collector_closed};
ghost use Rattle.sdd_space.specs.Collector.{collector_of, cells_home};
ghost use Rattle.sdd_space.specs.Owned as owned;
ghost use Rattle.sdd_space.specs.Shared as shared;
ghost use Rattle.sdd_rights.specs.Right.{raw_number_of};
ghost use Rattle.sdd_world_model.specs.Slots.{IsSharedBy};
ghost use Rattle.sdd_world_model.specs.Cells.{null_pointer};
ghost use Rattle.sdd_participants.specs.Slab.{IsEmptyAt, IsFull};
ghost use Rattle.sdd_participants.specs.EpochState as time;
ghost use Rattle.sdd_participants.specs.declared.waiting.LimboEntry.TheVariants.{Item};

use crate::guard::Guard;
use crate::item::Item;
use crate::owner::{Owned, Shared};
use crate::raw_ptr::RawPtr;
use crate::space::{Collectors, RawCells};
use sdd_core::Refused;
use sdd_participants::Standing;
use sdd_rights::{RawRight, StandingKind};
use std::marker::PhantomData;

/// A collector of items that end with it at latest.
///
/// An item that it is given waits as one that is retired does, and goes as that one at the third later outermost opening of the participant with which it
/// waits that finds another epoch. When the collector is closed, all that still waits for it goes at once. It takes one cell, and must be spent by
/// `close`.
pub struct PrivateCollector<T> {
    right: RawRight,
    of: PhantomData<T>,
}

const _: () = prove!(size_of::<PrivateCollector<u64>>() == 4);

impl<T> PrivateCollector<T> {
    fn of_right(right: RawRight) -> PrivateCollector<T>
        ensures { result.right ≡ right }
    {
        PrivateCollector {
            right,
            of: PhantomData,
        }
    }

    pub(crate) fn into_right(self) -> RawRight
        ensures { result ≡ self.right }
    {
        let PrivateCollector { right, of: _ } = self;
        right
    }

    /// The number of its cell.
    pub(crate) fn number(&self) -> u32
        ensures { result ≡ raw_number_of self.now.right }
    {
        self.right.number()
    }
}

impl<T: Item<T>> PrivateCollector<T> {
    /// A collector for which nothing waits.
    ///
    /// `NoCell` where no cell is free; `Contended`, in a domain alone, where as many exchanges were lost as its limits allow.
    pub fn new<S: RawCells<T> + Collectors<T>>(s: &mut S) -> Result<PrivateCollector<T>, Refused>
        requires seated { IsSeated (S.caller s.old) }
        ensures undisturbed { Undisturbed S.caller S.own S.known S.shows s.old s.new }
        ensures home { IfOk result (λ collector. cells_home collector ≡ (S.caller s.old).home.cells) }
        ensures back { IfErr result (IsRefusedBy (S.caller s.old) Refused.NoCell) }
        ensures exact { IsExact (S.caller s.old) → MatchResult result
            (λ collector. IsEmptyAt (S.world s.old).cells (collector_of collector) ×
            (S.world s.new ≡ pointing (S.world s.old) (collector_of collector) null_pointer))
            (λ e. IsFull (S.world s.old).cells × (e ≡ Refused.NoCell) × (S.world s.new ≡ S.world s.old)) }
    {
        Ok(PrivateCollector::of_right(s.new_raw_cell(RawPtr::<T>::null().pointer())?))
    }

    /// The item waits for the collector, with the calling participant. The guard is one of that participant.
    pub fn collect_owned<S: Collectors<T>>(&self, owner: Owned<T>, guard: &Guard, s: &mut S)
        requires seated { IsSeated (S.caller s.old) }
        requires collector { cells_home self.now ≡ (S.caller s.old).home.cells }
        requires home { owned.slots_home owner ≡ (S.caller s.old).home.slots }
        requires reader { reader_of guard.now ≡ (S.caller s.old).reader }
        ensures unmoved { Unmoved S.caller S.known S.shows s.old s.new }
        ensures own { S.own s.new ≡ time.awaiting (Item (owned.slot_of owner)) (S.own s.old) }
        ensures owned { IsExact (S.caller s.old) → standing_at (S.world s.old) (owned.slot_of owner) ≡ Some Standing.Owned }
        ensures exact { IsExact (S.caller s.old) → S.world s.new ≡
            collected (S.world s.old) (S.caller s.old).place (collector_of self.now) (owned.slot_of owner) }
    {
        let _ = guard;
        let _ = s.collect(&self.right, owner.into_right(), StandingKind::Owned);
    }

    /// Gives this owner up, and answers whether it was the last, cells counted. The last one's item waits for the collector, with the calling participant.
    /// The guard is one of that participant.
    pub fn collect_shared<S: Collectors<T>>(
        &self,
        owner: Shared<T>,
        guard: &Guard,
        s: &mut S,
    ) -> bool
        requires seated { IsSeated (S.caller s.old) }
        requires collector { cells_home self.now ≡ (S.caller s.old).home.cells }
        requires home { shared.slots_home owner ≡ (S.caller s.old).home.slots }
        requires reader { reader_of guard.now ≡ (S.caller s.old).reader }
        ensures unmoved { Unmoved S.caller S.known S.shows s.old s.new }
        ensures own { S.own s.new ≡ (if result then time.awaiting (Item (shared.slot_of owner)) (S.own s.old) else S.own s.old) }
        ensures exact { IsExact (S.caller s.old) → (owners : ℕ) × IsSharedBy owners (standing_at (S.world s.old) (shared.slot_of owner)) ×
            (IsTrue result ↔ (owners ≡ 1)) ×
            (S.world s.new ≡ owner_collected (S.world s.old) (S.caller s.old).place (collector_of self.now) (shared.slot_of owner)
            (Some (Standing.Shared owners))) }
    {
        let _ = guard;
        s.collect(&self.right, owner.into_right(), StandingKind::Shared)
    }

    /// Frees the collector's cell. What waits for the collector, with whichever participant, also with one that has ended, is reclaimed at once, and what
    /// its values give up waits with the calling participant. Each slot whose item didn't wait for it shows what it showed.
    ///
    /// `GuardOpen` where a guard of any participant is open: the collector comes back, and nothing has changed.
    pub fn close<S: Collectors<T>>(self, s: &mut S) -> Result<(), (PrivateCollector<T>, Refused)>
        requires seated { IsSeated (S.caller s.old) }
        requires collector { cells_home self ≡ (S.caller s.old).home.cells }
        ensures caller { S.caller s.new ≡ S.caller s.old }
        ensures own { MatchResult result (λ _. IsCollected (S.own s.old) (S.own s.new)) (λ _. S.own s.new ≡ S.own s.old) }
        ensures known { KnowsOn (S.known s.old) (S.known s.new) }
        ensures shut { IfOk result (λ _. (S.own s.old).guards ≡ 0) }
        ensures back { IfErr result (λ e. (e.0 ≡ self) × (e.1 ≡ Refused.GuardOpen)) }
        ensures exact { IsExact (S.caller s.old) → MatchResult result
            (λ _. ¬ (AnyGuardOpen (S.world s.old)) × IsNullCell (S.world s.old) (collector_of self) ×
            (S.world s.new ≡ collector_closed T.holds (S.world s.old) (S.caller s.old).place (collector_of self)))
            (λ e. AnyGuardOpen (S.world s.old) × (e.1 ≡ Refused.GuardOpen) × (S.world s.new ≡ S.world s.old)) }
        ensures others { (k : ℕ) (value : T) →
            (IsExact (S.caller s.old) → standing_at (S.world s.old) k ≢ Some (Standing.Private (collector_of self))) → S.shows s.old k value →
            S.shows s.new k value }
        ensures keeps { IfErr result (λ _. KeepsShown (S.shows s.old) (S.shows s.new)) }
    {
        match s.close_collector(self.into_right()) {
            Ok(()) => Ok(()),
            Err((right, refused)) => Err((PrivateCollector::of_right(right), refused)),
        }
    }
}
