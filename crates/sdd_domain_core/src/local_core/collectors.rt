//! Private items: a participant collects one, takes those for a collector out of its bags, and empties what waits for it.
ghost use Rattle.std.specs.Prelude.{◌≡◌, ◌<◌, ℕ, List, [], ◌∷◌, IfSome, IsTrue, MatchBool, MatchOption, MatchResult, Some, None, option_map};
ghost use base.Stored.{Gv};
ghost use Rattle.sdd_participants.specs.Slab.{entry_at};
ghost use Rattle.sdd_participants.specs.declared.waiting.LimboEntry.{LimboEntry as Entry};
ghost use Rattle.sdd_participants.specs.declared.waiting.LimboEntry.TheVariants.{Item as item};
ghost use Rattle.sdd_rights.specs.StandingKind.{is_shared};
ghost use Rattle.sdd_rights.specs.Right.{number_of, home_of, kind_of, raw_number_of, raw_home_of};
ghost use Rattle.sdd_domain_invariant.specs.Codes.{held_slots};
ghost use Rattle.sdd_rights.specs.Owner.{witness_of_cell};
ghost use Rattle.sdd_rights.specs.declared.views.CellKind.TheVariants.{Collector as of_closed};
ghost use Rattle.sdd_shared_values.specs.SharedValues.{showing};
ghost use Rattle.sdd_world_model.specs.OwnerOrCell.{AreOf};
ghost use Rattle.sdd_domain_steps.specs.SpaceIds.{home_in, cells_home};
ghost use Rattle.sdd_domain_steps.specs.Items.{slots_home, HasValue};
ghost use Rattle.sdd_domain_steps.specs.Cells.{FreesAt};
ghost use Rattle.sdd_domain_steps.specs.LocalState.{HasOpenGuard, IsLone, KnowsOwner, LocalState};
ghost use Rattle.sdd_domain_core.specs.Collectors.{BeginsClose, ClaimsFirst, EmptiesAt, LosesItem, GoesFirst, IsClosing, OwnerCollected, ends_close};

use crate::local_core::LocalCore;
use crate::local_core::cells::MOST_CELLS;
use sdd_atomics::steps::cells::{cut_right, take_in_right};
use sdd_atomics::steps::collectors::{collect, end_close};
use sdd_core::Refused;
use sdd_domain_steps::collectors::close::begin_where_shut;
use sdd_domain_steps::collectors::private_items::{claim_back, empty_anothers, empty_own};
use sdd_participants::Job;
use sdd_rights::{RawRight, Right, StandingKind};
use sdd_space::Item;
use sdd_witness::Witness;

impl<'d, T: Item<T>, J: Job> LocalCore<'d, T, J> {
    /// Lets an owner of this kind go, and answers whether it was the last. The last one's item waits for the collector until three changes were seen, or the
    /// collector is closed. No memory is taken.
    pub fn collect(&mut self, collector: &RawRight, right: Right, kind: StandingKind) -> bool
        requires collector { raw_home_of collector.now ≡ cells_home self.old.home }
        requires home { home_of right ≡ slots_home self.old }
        requires kind { kind_of right ≡ kind }
        requires closes { self.old.slots.closes ≡ None }
        ensures went { OwnerCollected (raw_number_of collector.now) (number_of right) (is_shared (kind_of right)) result self.old self.new }
        ensures unique { kind_of right ≡ StandingKind.Owned → IsTrue result }
        ensures recalled { IsLone self.old → (value : Gv) × KnowsOwner self.old (number_of right) (is_shared (kind_of right)) value }
    {
        let slot = right.number();
        if !self.release(right, kind) {
            return false;
        }
        let number = collector.number();
        collect(&mut self.seat, slot, number, collector.witness());
        self.privates.put(slot, number);
        true
    }

    /// Claims the item of this slot that is due before all others, if it waits for a collector: it waits as any other from then on. False where the close of
    /// its
    /// collector came first: then the item is let go of, and due no more.
    #[inline]
    pub fn claim_first(&mut self, slot: u32) -> bool
        requires first { (rest : List Entry) × (self.old.due ≡ item slot ∷ rest) }
        requires closes { self.old.slots.closes ≡ None }
        ensures { MatchBool result (ClaimsFirst slot self.old self.new) (LosesItem slot self.old self.new) }
    {
        let Some(collector) = self.privates.take(slot) else {
            return true;
        };
        if claim_back(&mut self.seat, &mut self.known, slot, collector) {
            return true;
        }
        self.due.next();
        false
    }

    /// Begins to close a collector, where no guard is open at any place, the own one too. What waits with the participant for it comes out of its bags, and
    /// is to
    /// be emptied. The right to its cell is kept for `end_close`.
    ///
    /// `GuardOpen` where one is: the right comes back, and nothing has changed.
    pub fn begin_close(&mut self, collector: RawRight) -> Result<Witness, (RawRight, Refused)>
        requires home { raw_home_of collector ≡ cells_home self.old.home }
        requires settled { self.old.due ≡ [] }
        requires closes { self.old.slots.closes ≡ None }
        ensures begun { MatchResult result
            (λ right. BeginsClose (raw_number_of collector) self.old self.new × (right.table_id ≡ self.old.home)
            × (right.views ≡ witness_of_cell (raw_number_of collector) of_closed))
            (λ e. (e.0 ≡ collector) × (e.1 ≡ Refused.GuardOpen) × (self.new ≡ self.old) × (IsLone self.old → HasOpenGuard self.old)) }
        ensures inside { raw_number_of collector < self.old.sizes.cells }
    {
        let cell = collector.number();
        let right = collector.into_witness();
        match begin_where_shut(&mut self.seat, cell, right) {
            Ok(right) => {
                self.due.take_for(&mut self.own.bags, cell, &self.privates);
                Ok(right)
            }
            Err(right) => Err((
                RawRight::of_cell(cell, MOST_CELLS, right),
                Refused::GuardOpen,
            )),
        }
    }

    /// Moves the value out of the item that was taken out of the bags before all others, in this slot, which is given back. None where a close of another had
    /// claimed it.
    pub fn empty_first(&mut self, slot: u32, collector: u32) -> Option<T>
        requires first { (rest : List Entry) × (self.old.due ≡ item slot ∷ rest) }
        requires kept { entry_at self.old.collectors slot ≡ Some collector }
        requires closing { IsClosing collector self.old }
        ensures gone { GoesFirst slot (option_map (λ (value : T). showing T.row value) result) self.old self.new }
        ensures home { IfSome result (λ value. AreOf (home_in self.old) (T.holds value)) }
    {
        self.due.next();
        self.privates.take(slot);
        let value = empty_own(
            &self.domain.values,
            &mut self.seat,
            &mut self.known,
            slot,
            collector,
        )?;
        self.tally.count_reclaimed();
        Some(value)
    }

    /// Moves the value out of an item that waits for the collector with another participant, if one does in this slot.
    pub fn empty_slot(&mut self, slot: u32, collector: u32) -> Option<T>
        requires inside { slot < self.old.limits.slots }
        requires closing { IsClosing collector self.old }
        ensures emptied { MatchOption result (self.new ≡ self.old) (λ _. EmptiesAt collector slot self.old self.new) }
        ensures home { IfSome result (λ value. AreOf (home_in self.old) (T.holds value)) }
    {
        let value = empty_anothers(&self.domain.values, &mut self.seat, slot, collector)?;
        self.tally.count_reclaimed();
        Some(value)
    }

    /// Ends the close of a collector, whose cell is free again. Answers its word before.
    pub fn end_close(&mut self, collector: u32, right: Witness) -> u64
        requires closing { IsClosing collector self.old }
        requires settled { self.old.due ≡ [] }
        requires inside { collector < self.old.sizes.cells }
        requires right { (right.table_id ≡ self.old.home) × (right.views ≡ witness_of_cell collector of_closed) }
        ensures freed { FreesAt collector result (ends_close self.old) self.new }
        ensures bare { held_slots result ≡ [] }
    {
        take_in_right(&mut self.seat, right);
        end_close(&mut self.seat, collector);
        let right = cut_right(&mut self.seat);
        self.free_raw_cell(RawRight::of_cell(collector, MOST_CELLS, right))
    }
}
