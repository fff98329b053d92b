//! A table of two places, with two jobs of different kinds, over a world and over a domain: each runs once, in the order in which they were deferred.
ghost use Rattle.std.specs.Prelude.{◌≡◌};
ghost use Rattle.sdd_space.specs.CallerId.{IsSeated};

use crate::steps::{ONE_SLOT, new_domain};
use crate::with_jobs::{Total, closed, ended, is_total, number, registered};
use sdd_core::Limits;
use sdd_participants::{BoxedJob, Deferred};
use sdd_space::{Deferrals, Guard, Guards};
use sdd_world::World;
use std::process::Abort;
use std::sync::Arc;
use std::sync::atomic::Ordering;

/// One participant, and two places for jobs.
const TWO_JOBS: Limits = Limits {
    jobs: 2,
    ..ONE_SLOT
};

/// Writes a digit behind those of a number: so this tells which jobs ran, how often, and in which order.
#[derive(Drop)]
struct WritesDigit {
    written: Total,
    digit: u64,
}

impl BoxedJob for WritesDigit {
    fn run_boxed(&mut self) {
        let before = self.written.load(Ordering::SeqCst).wrapping_mul(10);
        self.written
            .store(before.wrapping_add(self.digit), Ordering::SeqCst);
    }
}

/// Doubles the number.
#[derive(Drop)]
struct Doubles {
    written: Total,
}

impl BoxedJob for Doubles {
    fn run_boxed(&mut self) {
        let before = self.written.load(Ordering::SeqCst);
        self.written.store(before.wrapping_mul(2), Ordering::SeqCst);
    }
}

fn shared(rt: &impl Abort, written: &Total) -> Total {
    Arc::try_clone(written).expect(rt, "the count has room")
}

fn boxed_digit(rt: &(impl Abort + AllocGlobal), written: &Total, digit: u64) -> Deferred {
    let writes = WritesDigit {
        written: shared(rt, written),
        digit,
    };
    let job: Box<dyn BoxedJob + Send> = Box::new(rt.alloc(), writes).expect(rt, "memory is there");
    Deferred::Boxed(job)
}

fn boxed_doubling(rt: &(impl Abort + AllocGlobal), written: &Total) -> Deferred {
    let doubles = Doubles {
        written: shared(rt, written),
    };
    let job: Box<dyn BoxedJob + Send> = Box::new(rt.alloc(), doubles).expect(rt, "memory is there");
    Deferred::Boxed(job)
}

/// Opens, accelerates and closes a guard, under which this was written.
fn turn<S: Guards<u64>>(rt: &impl Abort, s: &mut S, written: &Total, number: u64)
    requires { IsSeated (S.caller s.old) }
    ensures { S.caller s.new ≡ S.caller s.old }
{
    let guard = Guard::new(s).expect(rt, "a guard may be opened");
    is_total(rt, written, number);
    guard.accelerate(s);
    guard.close(s);
}

/// Defers two jobs, which take both places, under a guard.
fn defers_both<S: Guards<u64> + Deferrals<u64>>(
    rt: &impl Abort,
    s: &mut S,
    first: S::Job,
    second: S::Job,
)
    requires { IsSeated (S.caller s.old) }
    ensures { S.caller s.new ≡ S.caller s.old }
{
    let guard = Guard::new(s).expect(rt, "a guard may be opened");
    match guard.defer_execute(first, s) {
        Ok(()) => {}
        Err((_job, refused)) => panic!(rt; "refused: {refused:?}"),
    }
    match guard.defer_execute(second, s) {
        Ok(()) => {}
        Err((_job, refused)) => panic!(rt; "refused: {refused:?}"),
    }
    guard.close(s);
}

/// Two jobs run at the fourth opening, by which this is written, and at no later one.
fn run_once<S: Guards<u64> + Deferrals<u64>>(
    rt: &impl Abort,
    s: &mut S,
    written: &Total,
    first: S::Job,
    second: S::Job,
    numbers: (u64, u64),
)
    requires { IsSeated (S.caller s.old) }
    ensures { S.caller s.new ≡ S.caller s.old }
{
    let (before, after) = numbers;
    defers_both(rt, s, first, second);
    turn(rt, s, written, before);
    turn(rt, s, written, before);
    turn(rt, s, written, before);
    turn(rt, s, written, after);
    turn(rt, s, written, after);
}

#[test]
fn jobs_of_a_world_run_once_in_order(rt: HostRuntime) {
    let written = number(&rt);
    let mut world: World<u64, Deferred> = World::new(rt.alloc(), TWO_JOBS).expect(
        &rt,
        "the limits are in range",
    );
    let place = world.register().expect(&rt, "a place is free");
    let (first, second) = (boxed_digit(&rt, &written, 3), boxed_doubling(&rt, &written));
    run_once(&rt, &mut world.at(&place), &written, first, second, (0, 6));
    let third = boxed_digit(&rt, &written, 5);
    run_once(
        &rt,
        &mut world.at(&place),
        &written,
        Deferred::Empty,
        third,
        (6, 65),
    );
    let (fourth, last) = (boxed_doubling(&rt, &written), boxed_digit(&rt, &written, 7));
    defers_both(&rt, &mut world.at(&place), fourth, last);
    match world.close() {
        Ok(tally) => assert_eq!(&rt; tally.reclaimed, 0),
        Err((_world, refused)) => panic!(&rt; "refused: {refused:?}"),
    }
    is_total(&rt, &written, 1307);
}

#[test]
fn jobs_of_a_domain_run_once_in_order(rt: HostRuntime) {
    let written = number(&rt);
    let domain = new_domain::<u64>(&rt, TWO_JOBS);
    let mut local = registered(&rt, &domain);
    let (first, second) = (boxed_digit(&rt, &written, 3), boxed_doubling(&rt, &written));
    run_once(&rt, &mut local, &written, first, second, (0, 6));
    let third = boxed_digit(&rt, &written, 5);
    run_once(&rt, &mut local, &written, Deferred::Empty, third, (6, 65));
    let (fourth, last) = (boxed_doubling(&rt, &written), boxed_digit(&rt, &written, 7));
    defers_both(&rt, &mut local, fourth, last);
    let receipts = vec![in rt.alloc(); ended(&rt, local)].expect(&rt, "there is memory");
    assert_eq!(&rt; closed(&rt, domain, receipts).reclaimed, 0);
    is_total(&rt, &written, 1307);
}
