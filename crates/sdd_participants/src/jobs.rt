ghost use Rattle.std.specs.Prelude.{◌≡◌, ℕ, IsSome, IsTrue, ◌↔◌, IfOk, MatchResult, None, replicate};
ghost use Rattle.sdd_participants.specs.Slab.{entry_at, with_entry, without_entry, IsEmptyAt, IsFull};

use crate::slab::Slab;
use std::alloc::{AllocError, Global};
use std::marker::Model;

/// A job that can be deferred. Its run spends it, and a type that isn't `Drop` can't be let go otherwise: so whoever has one of such a type `J: Job` runs
/// it or hands it on, and no job runs twice.
pub trait Job {
    fn run(self);
}

/// A job that can stand in a box, whose type a caller doesn't see. A call through a box can't take what is in it by value, so it is borrowed for its run,
/// and let go of then.
pub trait BoxedJob: Drop {
    fn run_boxed(&mut self);
}

/// What a caller defers: a job in a box, or one that does nothing. It must be spent by its run.
///
/// A closure can't be in the box, since no contract of a table can say of many closures that each may be called.
pub enum Deferred {
    Boxed(Box<dyn BoxedJob + Send>),
    Empty,
}

impl Job for Deferred {
    fn run(self) {
        match self {
            Deferred::Boxed(mut job) => job.run_boxed(),
            Deferred::Empty => {}
        }
    }
}

/// A job that does nothing. What a world's participants can defer is of one type, and this is the type where they defer nothing.
#[derive(Drop, Clone, Copy, Debug, PartialEq, Eq)]
pub struct Idle;

impl Job for Idle {
    fn run(self) {}
}

/// A table of a fixed number of places for jobs, each free or with a job that waits.
///
/// A free place is found at once. Memory is taken when the table is made, and never again: a box is the caller's. A table must be spent by `destroy`.
pub struct Jobs<J: Job> {
    numbers: Slab<()>,
    jobs: Vec<Option<J>>,
}

impl<J: Job> Model for Jobs<J> {
    ghost use Rattle.sdd_participants.specs.Slab.{Entries};
    ghost use Rattle.sdd_participants.specs.Jobs.{AreBeside};

    ghost Value = { Entries J };

    ghost view = { λ t. t.jobs.items };

    ghost invariant = { λ t. AreBeside t.numbers t.jobs.items };
}

impl<J: Job> Jobs<J> {
    /// A table of that many places, all free.
    pub fn new(alloc: Global, size: u32) -> Result<Jobs<J>, AllocError>
        ensures { IfOk result (λ t. t ≡ replicate size None) }
    {
        let numbers = Slab::new(alloc, size, ())?;
        let jobs = no_jobs(alloc, size)?;
        Ok(Jobs { numbers, jobs })
    }

    /// No place is free.
    pub fn is_full(&self) -> bool
        ensures { IsTrue result ↔ IsFull self.now }
    {
        self.numbers.is_full()
    }

    /// Puts a job into some free place, and tells which; where none is free it comes back, and hasn't run.
    pub fn put(&mut self, job: J) -> Result<u32, J>
        ensures put { MatchResult result
            (λ k. IsEmptyAt self.old k × (self.new ≡ with_entry self.old k job))
            (λ back. IsFull self.old × (back ≡ job) × (self.new ≡ self.old)) }
    {
        let Ok(place) = self.numbers.claim(()) else {
            return Err(job);
        };
        if let Some(_) = self.jobs[place as usize].replace(job) {
            unreachable!()
        }
        Ok(place)
    }

    /// Takes the job out that waits in a place, if one does; then the place is free. Whoever takes it is to run it.
    pub fn take(&mut self, place: u32) -> Option<J>
        ensures job { result ≡ entry_at self.old place }
        ensures free { self.new ≡ without_entry self.old place }
    {
        if !self.is_taken(place) {
            return None;
        }
        let job = self.jobs[place as usize].take();
        self.numbers.release(place);
        job
    }

    /// A job waits in a place.
    fn is_taken(&self, place: u32) -> bool
        ensures { IsTrue result ↔ IsSome (entry_at self.now place) }
    {
        match self.jobs.get(place as usize) {
            Some(job) => job.is_some(),
            None => false,
        }
    }

    /// Lets go of a table in which no job waits.
    pub fn destroy(self)
        requires free { (place : ℕ) → entry_at self place ≡ None }
    {
        let Jobs {
            numbers: _,
            mut jobs,
        } = self;
        while let Some(job) = jobs.pop() {
            if let Some(_) = job {
                unreachable!()
            }
        }
        jobs.destroy_empty();
    }
}

/// So many places without a job.
fn no_jobs<J>(alloc: Global, size: u32) -> Result<Vec<Option<J>>, AllocError>
    ensures { IfOk result (λ jobs. jobs.items ≡ replicate size None) }
{
    let mut jobs = Vec::with_capacity(alloc, size as usize)?;
    for _place in 0..size {
        jobs.push_reserved(None);
    }
    Ok(jobs)
}
