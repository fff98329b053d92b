//! A place finds another count of epochs.
ghost use Rattle.std.specs.Prelude.{◌≡◌, ℕ, ◌+◌, ◌≤◌, Contains, [], length, vec_capacity};
ghost use Rattle.sdd_participants.specs.declared.waiting.LimboEntry.TheVariants.{Item};
ghost use Rattle.sdd_participants.specs.EpochState as time;
ghost use Rattle.sdd_participants.specs.Jobs.{jobs_without_all};
ghost use Rattle.sdd_world_model.specs.World.{most, weight, KeepsSizes, place_at, HasPlace};
ghost use Rattle.sdd_world_model.specs.WorldChanges.{rotated, settled, changed};
ghost use Rattle.sdd_values.specs.Block.{IsUnlent};
ghost use Rattle.sdd_world_core.specs.Closing.{paced};

use super::WorldCore;
use sdd_participants::{CountdownState, Job, LimboEntry, NO_GARBAGE};
use sdd_space::Item;

impl<T: Item<T>, J: Job> WorldCore<T, J> {
    /// A change of a place: what is due is reclaimed.
    pub fn change(&mut self, place: usize, spare: &mut Vec<LimboEntry>)
        requires place { HasPlace self.old.world place }
        requires empty { spare.old.items ≡ [] }
        requires reserved { most self.old.world ≤ vec_capacity spare.old }
        requires home { (k : ℕ) → Contains (time.due_next (place_at self.old.world place)) (Item k) → IsUnlent self.old.lending.fractions k }
        ensures changed { self.new ≡ record self.old {
          world = changed T.holds self.old.world place;
          deferred = jobs_without_all self.old.deferred (time.due_next (place_at self.old.world place));
        } }
        ensures sizes { KeepsSizes self.old.world self.new.world }
        ensures empty { spare.new.items ≡ [] }
        ensures reserved { most self.new.world ≤ vec_capacity spare.new }
    {
        if self.time.is_clear(place) {
            self.catch_up(place);
        } else {
            self.reclaim_due(place, spare);
        }
    }

    /// A change of a place with which something waits.
    #[inline(never)]
    fn reclaim_due(&mut self, place: usize, spare: &mut Vec<LimboEntry>)
        requires place { HasPlace self.old.world place }
        requires empty { spare.old.items ≡ [] }
        requires reserved { most self.old.world ≤ vec_capacity spare.old }
        requires home { (k : ℕ) → Contains (time.due_next (place_at self.old.world place)) (Item k) → IsUnlent self.old.lending.fractions k }
        ensures changed { self.new ≡ record self.old {
          world = changed T.holds self.old.world place;
          deferred = jobs_without_all self.old.deferred (time.due_next (place_at self.old.world place));
        } }
        ensures sizes { KeepsSizes self.old.world self.new.world }
        ensures empty { spare.new.items ≡ [] }
        ensures reserved { most self.new.world ≤ vec_capacity spare.new }
    {
        self.rotate(place, spare);
        self.reclaim_all(place, spare.as_slice());
        self.settle(place);
        spare.clear();
    }

    /// A change of a place with which nothing waits.
    fn catch_up(&mut self, place: usize)
        requires place { HasPlace self.old.world place }
        requires clear { (place_at self.old.world place).bags.waiting ≡ [] }
        ensures changed { self.new ≡ record self.old {
          world = changed T.holds self.old.world place;
          deferred = jobs_without_all self.old.deferred (time.due_next (place_at self.old.world place));
        } }
        ensures sizes { KeepsSizes self.old.world self.new.world }
    {
        let found = self.time.count();
        let pace = CountdownState {
            found,
            countdown: NO_GARBAGE,
        };
        self.time.set_pace(place, pace);
    }

    /// What has seen three changes comes out, into the empty bag that is handed in.
    fn rotate(&mut self, place: usize, bag: &mut Vec<LimboEntry>)
        requires place { HasPlace self.old.world place }
        requires empty { bag.old.items ≡ [] }
        requires reserved { most self.old.world ≤ vec_capacity bag.old }
        ensures rotated { self.new ≡ record self.old { world = rotated self.old.world place } }
        ensures taken { bag.new.items ≡ time.due_next (place_at self.old.world place) }
        ensures reserved { most self.old.world ≤ vec_capacity bag.new }
        ensures room { weight self.new.world + length bag.new.items ≤ most self.new.world }
        ensures sizes { KeepsSizes self.old.world self.new.world }
    {
        self.time.rotate(place, bag);
    }

    /// After what was due went: whether anything waits with the place still.
    fn settle(&mut self, place: usize)
        requires place { HasPlace self.old.world place }
        ensures settled { self.new ≡ record self.old { world = settled self.old.world place } }
        ensures sizes { KeepsSizes self.old.world self.new.world }
    {
        self.time.settle(place);
    }

    /// A place found this count last, and this is its countdown.
    pub fn set_pace(&mut self, place: usize, pace: CountdownState)
        requires place { HasPlace self.old.world place }
        ensures paced { self.new ≡ record self.old { world = paced self.old.world place pace } }
        ensures sizes { KeepsSizes self.old.world self.new.world }
    {
        self.time.set_pace(place, pace);
    }
}
