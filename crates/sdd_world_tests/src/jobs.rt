//! Jobs that are deferred: when they run, and where no place is free.
ghost use Rattle.std.specs.Prelude.{◌≡◌};
ghost use Rattle.sdd_space.specs.CallerId.{IsSeated};

use crate::steps::AMPLE;
use sdd_core::{Limits, Refused};
use sdd_participants::{BoxedJob, Deferred, Job};
use sdd_space::{Deferrals, Guard, Guards};
use sdd_world::World;
use std::process::Abort;
use std::sync::Arc;
use std::sync::atomic::{AtomicU64, Ordering};

/// Adds to a number that others look at.
#[derive(Drop)]
struct Adds {
    total: Arc<AtomicU64>,
    amount: u64,
}

impl BoxedJob for Adds {
    fn run_boxed(&mut self) {
        self.total.fetch_add(self.amount, Ordering::SeqCst);
    }
}

/// Opens, accelerates and closes a guard, and tells which epoch it showed, and the number that jobs add to, as it was under the guard.
fn shown<S: Guards<u64>>(rt: &impl Abort, s: &mut S, total: &AtomicU64) -> (u8, u64)
    requires { IsSeated (S.caller s.old) }
    ensures { S.caller s.new ≡ S.caller s.old }
{
    let guard = Guard::new(s).expect(rt, "a guard may be opened");
    let epoch = u8::from(guard.epoch(s));
    let sum = total.load(Ordering::SeqCst);
    guard.accelerate(s);
    guard.close(s);
    (epoch, sum)
}

/// The accelerated guards show these epochs, and under each the number that jobs add to is this one.
fn shows<S: Guards<u64>>(rt: &impl Abort, s: &mut S, total: &AtomicU64, table: &[(u8, u64)])
    requires { IsSeated (S.caller s.old) }
    ensures { S.caller s.new ≡ S.caller s.old }
{
    for (epoch, sum) in table {
        assert_eq!(rt; shown(rt, s, total), (*epoch, *sum));
    }
}

/// Defers a job under a guard of its own.
fn deferred<S: Guards<u64> + Deferrals<u64>>(
    rt: &impl Abort,
    s: &mut S,
    job: S::Job,
) -> Result<(), (S::Job, Refused)>
    requires { IsSeated (S.caller s.old) }
    ensures { S.caller s.new ≡ S.caller s.old }
{
    let guard = Guard::new(s).expect(rt, "a guard may be opened");
    let answer = guard.defer_execute(job, s);
    guard.close(s);
    answer
}

/// The job waits.
fn waits<J: Job>(rt: &impl Abort, answer: Result<(), (J, Refused)>) {
    match answer {
        Ok(()) => {}
        Err((_job, refused)) => panic!(rt; "refused: {refused:?}"),
    }
}

/// Defers two jobs where one may wait. The second one comes back, and once the first one ran it waits. What it was refused with.
fn defers_two<S: Guards<u64> + Deferrals<u64>>(
    rt: &impl Abort,
    s: &mut S,
    first: S::Job,
    second: S::Job,
    total: &AtomicU64,
) -> Refused
    requires { IsSeated (S.caller s.old) }
    ensures { S.caller s.new ≡ S.caller s.old }
{
    waits(rt, deferred(rt, s, first));
    match deferred(rt, s, second) {
        Ok(()) => panic!(rt; "no place is free"),
        Err((job, refused)) => {
            shows(rt, s, total, &[(0, 0), (1, 0), (2, 0), (3, 7), (4, 7)]);
            waits(rt, deferred(rt, s, job));
            refused
        }
    }
}

/// A number that jobs add to.
fn number<R: Abort + AllocGlobal>(rt: &R) -> Arc<AtomicU64> {
    Arc::new(rt.alloc(), AtomicU64::new(0)).expect(rt, "memory is there")
}

/// A job that adds 7.
fn adds_seven<R: Abort + AllocGlobal>(rt: &R, total: &Arc<AtomicU64>) -> Deferred {
    let adds = Adds {
        total: Arc::try_clone(total).expect(rt, "the count has room"),
        amount: 7,
    };
    let job: Box<dyn BoxedJob + Send> = Box::new(rt.alloc(), adds).expect(rt, "memory is there");
    Deferred::Boxed(job)
}

#[test]
fn a_job_runs_at_the_third_opening_that_finds_another_epoch(rt: HostRuntime) {
    let total = number(&rt);
    let limits = Limits { jobs: 1, ..AMPLE };
    let mut world: World<u64, Deferred> = World::new(rt.alloc(), limits).expect(
        &rt,
        "the limits are in range",
    );
    let place = world.register().expect(&rt, "a place is free");
    let (first, second) = (adds_seven(&rt, &total), adds_seven(&rt, &total));
    let refused = defers_two(&rt, &mut world.at(&place), first, second, &total);
    assert!(&rt; refused == Refused::NoJob);
    assert!(&rt; total.load(Ordering::SeqCst) == 7);
    match world.close() {
        Ok(tally) => assert_eq!(&rt; tally.reclaimed, 0),
        Err((_world, refused)) => panic!(&rt; "{refused:?}"),
    }
    assert!(&rt; total.load(Ordering::SeqCst) == 14);
}
