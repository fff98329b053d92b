//! Jobs that participants of a domain defer: when they run, where no place is free, and what becomes of those that an ended participant left.
ghost use Rattle.std.specs.Prelude.{◌≡◌};
ghost use Rattle.sdd_space.specs.CallerId.{IsSeated};
ghost use Rattle.sdd_space.specs.Owned as owned;
ghost use Rattle.sdd_domain.specs.Space.{caller_of, slots_home};

use crate::steps::{ONE_SLOT, new_domain};
use crate::with_jobs::{
    Total, closed, ended, is_total, job_adding, keep, not_closed, number, registered,
};
use sdd_core::{Limits, Refused};
use sdd_domain::Local;
use sdd_participants::{Deferred, Job};
use sdd_space::{Deferrals, Guard, Guards, Owned};
use std::process::Abort;

/// One participant, and one place for a job.
const ONE_JOB: Limits = Limits {
    jobs: 1,
    ..ONE_SLOT
};

/// Two participants share one place for a job.
const TWO_AND_ONE_JOB: Limits = Limits {
    participants: 2,
    ..ONE_JOB
};

/// Opens, accelerates and closes a guard, under which jobs have added so much.
fn turn<S: Guards<u64>>(rt: &impl Abort, s: &mut S, total: &Total, sum: u64)
    requires { IsSeated (S.caller s.old) }
    ensures { S.caller s.new ≡ S.caller s.old }
{
    let guard = Guard::new(s).expect(rt, "a guard may be opened");
    is_total(rt, total, sum);
    guard.accelerate(s);
    guard.close(s);
}

/// Defers a job under a guard of its own.
fn deferred<S: Guards<u64> + Deferrals<u64>>(
    rt: &impl Abort,
    s: &mut S,
    job: S::Job,
) -> Result<(), (S::Job, Refused)>
    requires { IsSeated (S.caller s.old) }
    ensures { S.caller s.new ≡ S.caller s.old }
{
    let guard = Guard::new(s).expect(rt, "a guard may be opened");
    let answer = guard.defer_execute(job, s);
    guard.close(s);
    answer
}

/// A place is free for it.
fn defers<S: Guards<u64> + Deferrals<u64>>(rt: &impl Abort, s: &mut S, job: S::Job)
    requires { IsSeated (S.caller s.old) }
    ensures { S.caller s.new ≡ S.caller s.old }
{
    match deferred(rt, s, job) {
        Ok(()) => {}
        Err((_job, refused)) => panic!(rt; "refused: {refused:?}"),
    }
}

/// No place is free for it, and it comes back.
fn finds_no_place<S: Guards<u64> + Deferrals<u64>>(
    rt: &impl Abort,
    s: &mut S,
    job: S::Job,
) -> S::Job
    requires { IsSeated (S.caller s.old) }
    ensures { S.caller s.new ≡ S.caller s.old }
{
    match deferred(rt, s, job) {
        Ok(()) => panic!(rt; "a place was free"),
        Err((job, refused)) => {
            assert!(rt; refused == Refused::NoJob);
            job
        }
    }
}

/// A free slot takes a value.
fn made(rt: &impl Abort, local: &mut Local<'_, u64, Deferred>) -> Owned<u64>
    requires { IsSeated (caller_of local.old) }
    ensures caller { caller_of local.new ≡ caller_of local.old }
    ensures home { owned.slots_home result ≡ slots_home local.old }
{
    match Owned::new(5, local) {
        Ok(owner) => owner,
        Err((_value, refused)) => panic!(rt; "refused: {refused:?}"),
    }
}

/// The second job finds no place until the first one ran, at its third change; each runs once.
fn two_jobs_share_a_place(rt: &(impl Abort + AllocGlobal), limits: Limits) {
    let total = number(rt);
    let domain = new_domain::<u64>(rt, limits);
    let mut local = registered(rt, &domain);
    defers(rt, &mut local, job_adding(rt, &total, 7));
    let second = finds_no_place(rt, &mut local, job_adding(rt, &total, 100));
    turn(rt, &mut local, &total, 0);
    turn(rt, &mut local, &total, 0);
    turn(rt, &mut local, &total, 0);
    turn(rt, &mut local, &total, 7);
    turn(rt, &mut local, &total, 7);
    defers(rt, &mut local, second);
    turn(rt, &mut local, &total, 7);
    turn(rt, &mut local, &total, 7);
    turn(rt, &mut local, &total, 7);
    turn(rt, &mut local, &total, 107);
    let receipts = vec![in rt.alloc(); ended(rt, local)].expect(rt, "there is memory");
    assert_eq!(rt; closed(rt, domain, receipts).reclaimed, 0);
    is_total(rt, &total, 107);
}

#[test]
fn a_job_runs_at_its_third_change(rt: HostRuntime) {
    two_jobs_share_a_place(&rt, ONE_JOB);
    two_jobs_share_a_place(&rt, TWO_AND_ONE_JOB);
}

#[test]
fn without_a_table_no_job_is_deferred(rt: HostRuntime) {
    let total = number(&rt);
    let domain = new_domain::<u64>(&rt, ONE_SLOT);
    let mut local = registered(&rt, &domain);
    let job = finds_no_place(&rt, &mut local, job_adding(&rt, &total, 7));
    turn(&rt, &mut local, &total, 0);
    let receipts = vec![in rt.alloc(); ended(&rt, local)].expect(&rt, "there is memory");
    closed(&rt, domain, receipts);
    is_total(&rt, &total, 0);
    job.run();
    is_total(&rt, &total, 7);
}

/// The table is the domain's: where the job of one participant waits the other one finds no place.
#[test]
fn two_participants_share_the_table(rt: HostRuntime) {
    let total = number(&rt);
    let domain = new_domain::<u64>(&rt, TWO_AND_ONE_JOB);
    let (mut one, mut other) = (registered(&rt, &domain), registered(&rt, &domain));
    defers(&rt, &mut one, job_adding(&rt, &total, 7));
    let second = finds_no_place(&rt, &mut other, job_adding(&rt, &total, 100));
    turn(&rt, &mut one, &total, 0);
    turn(&rt, &mut one, &total, 0);
    turn(&rt, &mut one, &total, 0);
    turn(&rt, &mut one, &total, 7);
    defers(&rt, &mut other, second);
    let third = finds_no_place(&rt, &mut one, job_adding(&rt, &total, 1000));
    let receipts = vec![in rt.alloc(); ended(&rt, one), ended(&rt, other)].expect(
        &rt,
        "there is memory",
    );
    is_total(&rt, &total, 7);
    closed(&rt, domain, receipts);
    is_total(&rt, &total, 107);
    third.run();
    is_total(&rt, &total, 1107);
}

/// A close without the receipt with which a job waits is refused, and the job hasn't run.
#[test]
fn what_an_ended_participant_left_runs_with_its_receipt(rt: HostRuntime) {
    let total = number(&rt);
    let domain = new_domain::<u64>(&rt, ONE_JOB);
    let mut local = registered(&rt, &domain);
    defers(&rt, &mut local, job_adding(&rt, &total, 7));
    let receipt = ended(&rt, local);
    assert!(&rt; receipt.waits());
    let none = Vec::new(rt.alloc());
    let (domain, mut receipts) = not_closed(&rt, domain, none);
    is_total(&rt, &total, 0);
    keep(&rt, &domain, &mut receipts, receipt);
    assert_eq!(&rt; closed(&rt, domain, receipts).reclaimed, 0);
    is_total(&rt, &total, 7);
}

/// A refused close has reclaimed what waited: the job ran, and doesn't run again.
#[test]
fn a_refused_close_runs_a_job_once(rt: HostRuntime) {
    let total = number(&rt);
    let domain = new_domain::<u64>(&rt, TWO_AND_ONE_JOB);
    let mut local = registered(&rt, &domain);
    let owner = made(&rt, &mut local);
    defers(&rt, &mut local, job_adding(&rt, &total, 7));
    let receipts = vec![in rt.alloc(); ended(&rt, local)].expect(&rt, "there is memory");
    let (domain, mut receipts) = not_closed(&rt, domain, receipts);
    is_total(&rt, &total, 7);
    let mut other = registered(&rt, &domain);
    owner.retire(&mut other);
    let theirs = ended(&rt, other);
    keep(&rt, &domain, &mut receipts, theirs);
    assert_eq!(&rt; closed(&rt, domain, receipts).reclaimed, 1);
    is_total(&rt, &total, 7);
}
