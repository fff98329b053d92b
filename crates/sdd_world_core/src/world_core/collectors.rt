//! Items are collected for a private collector, and go with it.
ghost use Rattle.std.specs.Prelude.{◌≡◌, ◌+◌, ◌≤◌, if◌then◌else◌, [], length, vec_capacity, IsTrue, ◌↔◌};
ghost use Rattle.sdd_rights.specs.Right.{number_of, home_of, kind_of, raw_number_of, raw_home_of};
ghost use Rattle.sdd_world_model.specs.Slots.{IsOwnedBy, has_others, released_to};
ghost use Rattle.sdd_world_model.specs.World.{most, weight, AnyGuardOpen, KeepsSizes, standing_at, IsPlaceOf};
ghost use Rattle.sdd_world_model.specs.WorldChanges.{with_standing};
ghost use Rattle.sdd_world_model.specs.Out.{IsNullCell};
ghost use Rattle.sdd_world_model.specs.Collecting.{collected, owner_collected, is_for, waiting_for, collector_closed};
ghost use Rattle.sdd_participants.specs.Collecting.{time_without};
ghost use Rattle.sdd_world_model.specs.WorldInvariant.{IsWhole};
ghost use Rattle.sdd_world_core.specs.Lending.{AreLent};

use super::WorldCore;
use sdd_participants::{Job, LimboEntry, Standing};
use sdd_rights::{RawRight, Right, StandingKind};
use sdd_space::Item;

impl<T: Item<T>, J: Job> WorldCore<T, J> {
    /// An owner of this kind lets its item go, and is told whether it was the last. The last one's item waits with a place, for a collector.
    pub fn collect(
        &mut self,
        place: usize,
        collector: u32,
        right: Right,
        kind: StandingKind,
    ) -> bool
        requires place { IsPlaceOf self.old.world place }
        requires home { home_of right ≡ self.old.world.home.slots }
        requires kind { kind_of right ≡ kind }
        ensures owned { IsOwnedBy (kind_of right) (standing_at self.old.world (number_of right)) }
        ensures last { IsTrue result ↔ ¬ (IsTrue (has_others (standing_at self.old.world (number_of right)))) }
        ensures gone { self.new ≡ record self.old {
          world = owner_collected self.old.world place collector (number_of right) (standing_at self.old.world (number_of right));
        } }
        ensures waits { (if result then collected self.old.world place collector (number_of right)
            else with_standing self.old.world (number_of right) (released_to (Standing.Private collector) (standing_at self.old.world (number_of right))))
            ≡ self.new.world }
        ensures sizes { KeepsSizes self.old.world self.new.world }
        ensures whole { IsWhole self.old.world → IsWhole self.new.world }
        ensures lent { IsWhole self.old.world → AreLent self.old → AreLent self.new }
    {
        if self.slots.has_others(&right, kind) {
            self.slots.release(right, kind);
            return false;
        }
        let slot = right.name();
        self.slots.retire(right, Standing::Private(collector));
        self.time.wait(place, LimboEntry::Item(slot));
        true
    }

    /// A collector's cell is free, and what waits for the collector is reclaimed, where no guard is open. An empty bag is lent.
    pub fn close_collector(&mut self, place: usize, collector: RawRight, bag: &mut Vec<LimboEntry>)
        requires place { IsPlaceOf self.old.world place }
        requires home { raw_home_of collector ≡ self.old.world.home.cells }
        requires quiet { ¬ (AnyGuardOpen self.old.world) }
        requires lent { AreLent self.old }
        requires empty { bag.old.items ≡ [] }
        requires reserved { most self.old.world ≤ vec_capacity bag.old }
        ensures null { IsNullCell self.old.world (raw_number_of collector) }
        ensures closed { self.new ≡ record self.old { world = collector_closed T.holds self.old.world place (raw_number_of collector) } }
        ensures sizes { KeepsSizes self.old.world self.new.world }
        ensures whole { IsWhole self.old.world → IsWhole self.new.world }
        ensures lent { AreLent self.new }
        ensures empty { bag.new.items ≡ [] }
        ensures reserved { most self.new.world ≤ vec_capacity bag.new }
    {
        self.take_for(collector.number(), bag);
        self.close_raw_cell(collector);
        self.reclaim_all(place, bag.as_slice());
        bag.clear();
    }

    /// What waits for a collector, with whomever, comes out, into the empty bag that is handed in.
    fn take_for(&mut self, collector: u32, bag: &mut Vec<LimboEntry>)
        requires empty { bag.old.items ≡ [] }
        requires reserved { most self.old.world ≤ vec_capacity bag.old }
        ensures left { self.new ≡ record self.old {
          world = record self.old.world { time = time_without (is_for self.old.world collector) self.old.world.time };
        } }
        ensures taken { bag.new.items ≡ waiting_for self.old.world collector }
        ensures reserved { most self.new.world ≤ vec_capacity bag.new }
        ensures room { weight self.new.world + length bag.new.items ≤ most self.new.world }
        ensures sizes { KeepsSizes self.old.world self.new.world }
    {
        self.time.take_for(collector, &self.slots, bag);
    }
}
