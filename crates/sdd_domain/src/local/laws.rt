//! What is always true of a participant, and of a lone one's world, as calls that give it out. They do nothing when the program runs.
ghost use Rattle.std.specs.Prelude.{◌≡◌, ◌↔◌};
ghost use Rattle.sdd_world_model.specs.Collecting.{CollectedEnds};
ghost use Rattle.sdd_world_model.specs.WorldInvariant.{IsWhole};
ghost use Rattle.sdd_world_model.specs.Out.{OutLaws};
ghost use Rattle.sdd_world_model.specs.Jobs.{RunsJobsOnce};
ghost use Rattle.sdd_world_model.specs.ReclaimBound.{FourGuardsReclaim, GoesAtLatest, GoesInTime};
ghost use Rattle.sdd_world_model.specs.Ledger.{LedgerLaws};
ghost use Rattle.sdd_world_model.specs.AcceleratedGuards.{GuardsPass, ItemsPass};
ghost use Rattle.sdd_world_model.specs.WorkingGuards.{BusyGuardsCount, WorkingGuardsPass, WorkingGuardsReclaim};
ghost use Rattle.sdd_world_model.specs.UnderGuards.{KeepsCollectedUnderGuards, KeepsFreshJobsUnderGuards, KeepsFreshUnderGuards, KeepsJobsUnderGuards, KeepsUnderGuards};
ghost use Rattle.sdd_world_model.specs.World.{World, AnyGuardOpen, IsPlaceOf};
ghost use Rattle.sdd_domain_steps.specs.Local.{world_of};
ghost use Rattle.sdd_domain_steps.specs.LocalState.{IsLone};

use super::Local;
use sdd_participants::Job;
use sdd_space::Item;

impl<T: Item<T>, J: Job> Local<'_, T, J> {
    /// What the parts of its world keep true of each other: a value where a slot is taken, each item that waits once, the participant abreast of the
    /// count, each item accounted for. It has its place there, and a guard is open there
    /// exactly while one of its own is.
    pub fn is_whole(&self)
        ensures whole { IsLone self.now.member → IsWhole (world_of self.now) }
        ensures place { IsPlaceOf (world_of self.now) self.now.member.place }
        ensures shut { (self.now.member.own.guards ≡ 0) ↔ ¬ (AnyGuardOpen (world_of self.now)) }
    {
        let _ledger = &self.giver.ghost_values;
    }
}

impl<T: Item<T>, J: Job> Local<'_, T, J> {
    /// What each call puts out of the hands of a world, and what it takes back. So it is in a lone participant's: each call that it makes is one of a world.
    pub fn counts_what_is_out(&self)
        ensures { (w : World T) → OutLaws T.holds w }
    {}

    /// A job that waits is run once, by the opening that finds it due, and its place is free after that.
    pub fn runs_jobs_once(&self)
        ensures { IsLone self.now.member → RunsJobsOnce T.holds (world_of self.now) }
    {
        self.is_whole();
    }

    /// After how many openings an item that waits is reclaimed at latest, or a job runs.
    pub fn reclaims_in_time(&self)
        ensures latest { IsLone self.now.member → GoesAtLatest T.holds (world_of self.now) }
        ensures in_time { IsLone self.now.member → GoesInTime T.holds (world_of self.now) }
    {
        self.is_whole();
    }

    /// An accelerated guard leaves none open, and no more out than was, where no guard is open.
    pub fn accelerated_guards_pass(&self)
        ensures { GuardsPass T.holds (world_of self.now) }
    {}

    /// An item that is made and retired at once opens no guard, and leaves as much out as was.
    pub fn items_pass(&self)
        ensures { ItemsPass T }
    {}

    /// Four accelerated guards, one after another, reclaim each item that waits and run each job, where no guard is open.
    pub fn four_guards_reclaim(&self)
        ensures { IsLone self.now.member → FourGuardsReclaim T.holds (world_of self.now) }
    {
        self.is_whole();
    }

    /// What is called under guards doesn't hinder them: four, one after another, each accelerated last and closed where no other is open, see all gone that
    /// waited before.
    pub fn working_guards_reclaim(&self)
        ensures reclaimed { IsLone self.now.member → WorkingGuardsReclaim T.holds (world_of self.now) }
        ensures passed { IsLone self.now.member → WorkingGuardsPass T.holds (world_of self.now) }
        ensures counted { IsLone self.now.member → BusyGuardsCount T.holds (world_of self.now) }
    {
        self.is_whole();
    }

    /// The close of a collector reclaims all that waits for it, and nothing else.
    pub fn ends_with_collectors(&self)
        ensures { IsLone self.now.member → CollectedEnds T.holds (world_of self.now) }
    {
        self.is_whole();
    }

    /// No item is reclaimed and no job runs while a guard that was open when it began to wait is open.
    pub fn keeps_under_guards(&self)
        ensures retired { IsLone self.now.member → KeepsUnderGuards T.holds (world_of self.now) }
        ensures collected { IsLone self.now.member → KeepsCollectedUnderGuards T.holds (world_of self.now) }
        ensures fresh { IsLone self.now.member → KeepsFreshUnderGuards T.holds (world_of self.now) }
        ensures deferred { IsLone self.now.member → KeepsJobsUnderGuards T.holds (world_of self.now) }
        ensures fresh_jobs { IsLone self.now.member → KeepsFreshJobsUnderGuards T.holds (world_of self.now) }
    {
        self.is_whole();
    }

    /// Of each owner and of each right to a cell there are as many as a world needs: so many outside, as the caller counts them, and the others in cells
    /// and in values. So it is in a lone participant's world: `is_whole` says that it is whole, and each call that it makes is one of a world.
    pub fn keeps_its_ledger(&self)
        ensures { (w : World T) → LedgerLaws T.holds w }
    {}
}
