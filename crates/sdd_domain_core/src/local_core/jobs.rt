//! Jobs in places of the domain's table of jobs: a participant defers one, and takes one out that is to run.
ghost use Rattle.std.specs.Prelude.{◌≡◌, ◌⊎◌, ℕ, List, ◌∷◌, Some, MatchResult};
ghost use Rattle.sdd_participants.specs.declared.waiting.LimboEntry.{LimboEntry as Entry};
ghost use Rattle.sdd_participants.specs.declared.waiting.LimboEntry.TheVariants.{Job as waiting_job};
ghost use Rattle.sdd_domain_steps.specs.LocalState.{AllPlacesTaken, DefersTo, IsLone, TakesJob};

use crate::local_core::LocalCore;
use sdd_atomics::steps::jobs::give_place_back;
use sdd_core::Refused;
use sdd_domain_steps::jobs::claims::claim_place;
use sdd_domain_steps::sightings::without_sightings;
use sdd_participants::{Job, LimboEntry};
use sdd_space::Item;

impl<'d, T: Item<T>, J: Job> LocalCore<'d, T, J> {
    /// Puts a job into a free place of the table of jobs, and tells which. It waits from then on, as an item does that is retired. No memory is taken.
    ///
    /// The job comes back where it is refused: `NoJob` where a walk over all places found none free; `Contended` where as many exchanges were lost as
    /// the limits allow.
    #[inline]
    pub fn defer_execute(&mut self, job: J) -> Result<u32, (J, Refused)>
        ensures { MatchResult result
            (λ place. (count : ℕ) × DefersTo place count job self.old self.new)
            (λ e. (e.0 ≡ job) × (self.new ≡ self.old) × ((e.1 ≡ Refused.NoJob) ⊎ ((e.1 ≡ Refused.Contended) × ¬ (IsLone self.old)))
            × (IsLone self.old → AllPlacesTaken self.old)) }
    {
        match claim_place(&mut self.seat, self.next_job, &self.domain.limits) {
            Ok(place) => {
                self.jobs.put(place, job);
                self.next_job = place + 1;
                self.own.bags.push(LimboEntry::Job(place));
                self.own.set_has_garbage();
                Ok(place)
            }
            Err(missed) => Err((job, without_sightings(missed))),
        }
    }

    /// Takes the job out that is due before all others, in this place, which is given back. The job is to run: it hasn't so far.
    pub fn take_job(&mut self, place: u32) -> Option<J>
        requires first { (rest : List Entry) × (self.old.due ≡ waiting_job place ∷ rest) }
        ensures { (job : J) × (result ≡ Some job) × TakesJob place job self.old self.new }
    {
        self.due.next();
        let job = self.jobs.take(place);
        let slots = self.domain.limits.slots as u32;
        give_place_back(&mut self.seat, slots + place);
        job
    }
}
