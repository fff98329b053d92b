ghost use Rattle.std.specs.Prelude.{◌≡◌, IfErr, MatchResult};
ghost use Rattle.sdd_participants.specs.declared.waiting.LimboEntry.TheVariants.{Job};
ghost use Rattle.sdd_participants.specs.EpochState as time;
ghost use Rattle.sdd_participants.specs.Slab.{IsEmptyAt, IsFull};
ghost use Rattle.sdd_space.specs.CallerId.{IsSeated, IsExact};
ghost use Rattle.sdd_space.specs.Refusals.{IsRefusedBy};
ghost use Rattle.sdd_space.specs.Undisturbed.{Unmoved};
ghost use Rattle.sdd_world_model.specs.WorldChanges.{deferred};

use crate::item::Item;
use crate::space::caller::Caller;
use sdd_core::Refused;
use sdd_participants::Job;

/// What a participant defers.
pub trait Deferrals<T: Item<T>>: Caller<T> {
    /// What can be deferred.
    type Job: Job;

    /// Puts a job into a free place of the table of jobs, and tells which. It waits with the participant, as an item does that is retired.
    ///
    /// `NoJob` where as many jobs wait as the limits say; `Contended`, in a domain alone, where as many exchanges were lost as its limits allow. The job
    /// comes back.
    fn defer_execute(&mut self, job: Self::Job) -> Result<u32, (Self::Job, Refused)>
        requires seated { IsSeated (Self.caller self.old) }
        ensures unmoved { Unmoved Self.caller Self.known Self.shows self.old self.new }
        ensures own { MatchResult result
            (λ number. Self.own self.new ≡ time.awaiting (Job number) (Self.own self.old))
            (λ _. Self.own self.new ≡ Self.own self.old) }
        ensures back { IfErr result (λ e. (e.0 ≡ job) × IsRefusedBy (Self.caller self.old) Refused.NoJob e.1) }
        ensures exact { IsExact (Self.caller self.old) → MatchResult result
            (λ number. IsEmptyAt (Self.world self.old).jobs number ×
            (Self.world self.new ≡ deferred (Self.world self.old) (Self.caller self.old).place number))
            (λ e. IsFull (Self.world self.old).jobs × (e.1 ≡ Refused.NoJob) × (Self.world self.new ≡ Self.world self.old)) };
}
