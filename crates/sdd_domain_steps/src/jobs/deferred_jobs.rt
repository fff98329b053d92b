//! The jobs that a participant deferred.
ghost use Rattle.std.specs.Prelude.{◌≡◌, ℕ, ◌<◌, IfOk, None, length, replicate, slice_index_or};
ghost use Rattle.sdd_participants.specs.Slab.{with_entry, without_entry};

use sdd_participants::Job;
use std::alloc::{AllocError, Global};
use std::marker::Model;

/// The jobs that wait with a participant, each by its place in the domain's table of jobs.
///
/// It is spent by `destroy`, once no job waits any more; only where the jobs' type is `Drop` may it be let go of with what waits.
#[derive(Drop)]
pub struct DeferredJobs<J: Job> {
    jobs: Vec<Option<J>>,
}

impl<J: Job> Model for DeferredJobs<J> {
    ghost use Rattle.std.specs.Prelude.{List, Option};

    ghost Value = { List (Option J) };

    ghost view = { λ d. d.jobs.items };
}

/// So many places without a job.
fn no_jobs<J: Job>(alloc: Global, places: u32) -> Result<Vec<Option<J>>, AllocError>
    ensures { IfOk result (λ jobs. jobs.items ≡ replicate places None) }
{
    let mut jobs = Vec::with_capacity(alloc, places as usize)?;
    for _place in 0..places {
        jobs.push_reserved(None);
    }
    Ok(jobs)
}

impl<J: Job> DeferredJobs<J> {
    /// None, with memory for so many places. No memory is taken later: a box is the caller's.
    pub fn new(alloc: Global, places: u32) -> Result<DeferredJobs<J>, AllocError>
        ensures none { IfOk result (λ made. made ≡ replicate places None) }
    {
        Ok(DeferredJobs {
            jobs: no_jobs(alloc, places)?,
        })
    }

    /// A job waits in a place.
    pub fn put(&mut self, place: u32, job: J)
        requires inside { place < length self.old }
        requires free { slice_index_or self.old place None ≡ None }
        ensures { self.new ≡ with_entry self.old place job }
    {
        // Nothing was there. What was would run: so nothing is left of the test where a job does nothing.
        if let Some(early) = self.jobs[place as usize].replace(job) {
            early.run();
        }
    }

    /// Takes the job of a place out, which is free then.
    pub fn take(&mut self, place: u32) -> Option<J>
        requires { place < length self.old }
        ensures job { result ≡ slice_index_or self.old place None }
        ensures free { self.new ≡ without_entry self.old place }
    {
        self.jobs[place as usize].take()
    }

    /// Lets go of a table in which no job waits.
    pub fn destroy(self)
        requires free { (place : ℕ) → slice_index_or self place None ≡ None }
    {
        let DeferredJobs { mut jobs } = self;
        while let Some(job) = jobs.pop() {
            if let Some(_) = job {
                unreachable!()
            }
        }
        jobs.destroy_empty();
    }
}
