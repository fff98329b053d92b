//! What waits is reclaimed, or runs.
ghost use Rattle.std.specs.Prelude.{◌≡◌, ℕ, ◌+◌, ◌<◌, ◌≤◌, Contains, length, MatchResult};
ghost use Rattle.sdd_participants.specs.declared.waiting.LimboEntry.TheVariants.{Item};
ghost use Rattle.sdd_participants.specs.Slab.{entry_at, with_entry, without_entry, IsEmptyAt, IsFull};
ghost use Rattle.sdd_participants.specs.Jobs.{jobs_without, jobs_without_all};
ghost use Rattle.sdd_world_model.specs.World.{most, weight, KeepsSizes, HasPlace, IsPlaceOf};
ghost use Rattle.sdd_world_model.specs.WorldChanges.{deferred, ran, slot_reclaimed, reclaimed, all_reclaimed};
ghost use Rattle.sdd_world_model.specs.WorldInvariant.{IsWhole};
ghost use Rattle.sdd_values.specs.Block.{IsUnlent};
ghost use Rattle.sdd_world_core.specs.Lending.{AreLent};

use super::WorldCore;
use sdd_participants::{Job, LimboEntry};
use sdd_space::Item;

impl<T: Item<T>, J: Job> WorldCore<T, J> {
    /// A job waits with a place, if a place of the table of jobs is free, where it is put, and which that is is told; else it comes back. It doesn't run.
    pub fn defer_execute(&mut self, place: usize, job: J) -> Result<u32, J>
        requires place { IsPlaceOf self.old.world place }
        ensures deferred { MatchResult result
            (λ number. IsEmptyAt self.old.world.jobs number × IsEmptyAt self.old.deferred number
            × (self.new ≡ record self.old { world = deferred self.old.world place number; deferred = with_entry self.old.deferred number job }))
            (λ back. IsFull self.old.world.jobs × (back ≡ job) × (self.new ≡ self.old)) }
        ensures sizes { KeepsSizes self.old.world self.new.world }
        ensures whole { IsWhole self.old.world → IsWhole self.new.world }
        ensures lent { IsWhole self.old.world → AreLent self.old → AreLent self.new }
    {
        let number = self.jobs.put(job)?;
        self.time.wait(place, LimboEntry::Job(number));
        Ok(number)
    }

    /// An item that waited is reclaimed, and its value gives up to the place what it holds.
    fn reclaim_item(&mut self, place: usize, slot: u32)
        requires place { HasPlace self.old.world place }
        requires room { weight self.old.world < most self.old.world }
        requires home { IsUnlent self.old.lending.fractions slot }
        ensures { self.new ≡ record self.old { world = slot_reclaimed T.holds self.old.world place slot } }
    {
        let Some(value) = self.slots.reclaim(slot) else {
            return;
        };
        self.tally.count_reclaimed();
        self.give_up(place, value);
    }

    /// Takes the job out that waits in a place of the table, if one does; then the place is free. The job is to run: it hasn't so far.
    fn take_job(&mut self, number: u32) -> Option<J>
        requires room { weight self.old.world < most self.old.world }
        ensures job { result ≡ entry_at self.old.deferred number }
        ensures free { self.new ≡ record self.old { world = ran self.old.world number; deferred = without_entry self.old.deferred number } }
    {
        self.jobs.take(number)
    }

    /// The job that waits in a place of the table runs, if one does; the place is free before it does.
    fn run_job(&mut self, number: u32)
        requires room { weight self.old.world < most self.old.world }
        ensures { self.new ≡ record self.old { world = ran self.old.world number; deferred = without_entry self.old.deferred number } }
    {
        if let Some(job) = self.take_job(number) {
            job.run();
        }
    }

    /// An item that waited is reclaimed, or a job that waited runs.
    fn reclaim(&mut self, place: usize, what: LimboEntry)
        requires place { HasPlace self.old.world place }
        requires room { weight self.old.world < most self.old.world }
        requires home { (k : ℕ) → what ≡ Item k → IsUnlent self.old.lending.fractions k }
        ensures { self.new ≡ record self.old {
          world = reclaimed T.holds self.old.world place what;
          deferred = jobs_without self.old.deferred what;
        } }
    {
        match what {
            LimboEntry::Item(slot) => self.reclaim_item(place, slot.number()),
            LimboEntry::Job(number) => self.run_job(number),
        }
    }

    /// The same of one after another.
    pub(super) fn reclaim_all(&mut self, place: usize, due: &[LimboEntry])
        requires place { HasPlace self.old.world place }
        requires room { weight self.old.world + length due.now ≤ most self.old.world }
        requires home { (k : ℕ) → Contains due.now (Item k) → IsUnlent self.old.lending.fractions k }
        ensures reclaimed { self.new ≡ record self.old {
          world = all_reclaimed T.holds self.old.world place due.now;
          deferred = jobs_without_all self.old.deferred due.now;
        } }
        ensures sizes { KeepsSizes self.old.world self.new.world }
    {
        for what in due {
            self.reclaim(place, *what);
        }
    }
}
