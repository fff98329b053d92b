//! What is always true of a world, as calls that give it out. They do nothing when the program runs.
ghost use Rattle.sdd_world_model.specs.WorldInvariant.{IsWhole};
ghost use Rattle.sdd_world_model.specs.Out.{OutLaws};
ghost use Rattle.sdd_world_model.specs.Jobs.{RunsJobsOnce};
ghost use Rattle.sdd_world_model.specs.ReclaimBound.{FourGuardsReclaim, GoesAtLatest, GoesInTime};
ghost use Rattle.sdd_world_model.specs.World.{World};
ghost use Rattle.sdd_world_model.specs.AcceleratedGuards.{GuardsPass, ItemsPass};
ghost use Rattle.sdd_world_model.specs.Collecting.{CollectedEnds};
ghost use Rattle.sdd_world_model.specs.Adopting.{AdoptsWhatIsLeft};
ghost use Rattle.sdd_world_model.specs.Ledger.{LedgerLaws};
ghost use Rattle.sdd_world_model.specs.WorkingGuards.{BusyGuardsCount, WorkingGuardsPass, WorkingGuardsReclaim};
ghost use Rattle.sdd_world_model.specs.UnderGuards.{KeepsCollectedUnderGuards, KeepsFreshJobsUnderGuards, KeepsFreshUnderGuards, KeepsJobsUnderGuards, KeepsUnderGuards};

use super::World;
use sdd_participants::Job;
use sdd_space::Item;

impl<T: Item<T>, J: Job> World<T, J> {
    /// What the parts of a world keep true of each other: a value where a slot is taken, each item that waits once, each participant abreast of the
    /// count, each item accounted for.
    pub fn is_whole(&self)
        ensures { IsWhole self.now }
    {
        let _core = &self.core;
    }

    /// What each call puts out of the world's hands, and what it takes back.
    pub fn counts_what_is_out(&self)
        ensures { (w : World T J) → OutLaws T.holds w }
    {}

    /// Of each owner and of each right to a cell there are as many as the world needs: so many outside, as the caller counts them, and the others in
    /// cells and in values. So who has all owners of an item knows what `release` will answer, and who has a cell knows that nobody else has it, and that
    /// no call of others changes what it holds, but by a reference to the cell.
    pub fn keeps_its_ledger(&self)
        ensures { (w : World T J) → LedgerLaws T.holds w }
    {}

    /// A job that waits is run once, by the opening that finds it due, and its place is free after that.
    pub fn runs_jobs_once(&self)
        ensures { RunsJobsOnce T.holds self.now }
    {
        self.is_whole();
    }

    /// After how many openings of its holder an item that waits is reclaimed at latest, or a job runs.
    pub fn reclaims_in_time(&self)
        ensures latest { GoesAtLatest T.holds self.now }
        ensures in_time { GoesInTime T.holds self.now }
    {
        self.is_whole();
    }

    /// An accelerated guard leaves no guard open, and no more out than was.
    pub fn accelerated_guards_pass(&self)
        ensures { GuardsPass T.holds self.now }
    {}

    /// An item that is made and retired at once opens no guard, and leaves as much out as was.
    pub fn items_pass(&self)
        ensures { ItemsPass T }
    {}

    /// Four accelerated guards of a participant, one after another, reclaim each item that waits with it and run each job, where no other guard is open.
    pub fn four_guards_reclaim(&self)
        ensures { FourGuardsReclaim T.holds self.now }
    {
        self.is_whole();
    }

    /// What is retired, loaded, swapped or deferred under guards doesn't hinder them, and no more do calls of others that leave no guard open: four of a
    /// participant, one after another, each accelerated last and closed where no other is open, see all gone that waited with it before, items and jobs.
    pub fn working_guards_reclaim(&self)
        ensures reclaimed { WorkingGuardsReclaim T.holds self.now }
        ensures passed { WorkingGuardsPass T.holds self.now }
        ensures counted { BusyGuardsCount T.holds self.now }
    {
        self.is_whole();
    }

    /// A close that scans takes over what ended participants left, items and jobs: it waits with who scans, with no change seen, and their places are free.
    pub fn adopts_what_is_left(&self)
        ensures { AdoptsWhatIsLeft self.now }
    {
        self.is_whole();
    }

    /// The close of a collector reclaims all that waits for it, and nothing else.
    pub fn ends_with_collectors(&self)
        ensures { CollectedEnds T.holds self.now }
    {
        self.is_whole();
    }

    /// No item is reclaimed and no job runs while a guard that was open when it began to wait is open.
    pub fn keeps_under_guards(&self)
        ensures retired { KeepsUnderGuards T.holds self.now }
        ensures collected { KeepsCollectedUnderGuards T.holds self.now }
        ensures fresh { KeepsFreshUnderGuards T.holds self.now }
        ensures deferred { KeepsJobsUnderGuards T.holds self.now }
        ensures fresh_jobs { KeepsFreshJobsUnderGuards T.holds self.now }
    {
        self.is_whole();
    }
}
