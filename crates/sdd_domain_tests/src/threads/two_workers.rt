//! Two threads make, share and retire items and defer jobs, until both have ended. Then all that they left goes.
ghost use Rattle.std.specs.Prelude.{◌≡◌};
ghost use Rattle.sdd_space.specs.CallerId.{IsSeated};
ghost use Rattle.sdd_space.specs.Guard.{reader_of};
ghost use Rattle.sdd_space.specs.Owner.{slots_home};
ghost use Rattle.sdd_domain.specs.Domain.{slots_in};
ghost use Rattle.sdd_domain_tests.specs.Slots.{IsReceiptIn};

use crate::owners::steps::{copied, released};
use crate::steps::{ONE_SLOT, new_domain};
use crate::with_jobs::{Adds, Total, adding, closed, ended, is_total, number, registered};
use crate::worked::in_place::counts;
use sdd_core::{Limits, Refused};
use sdd_domain::{Domain, Receipt};
use sdd_space::{Deferrals, Guard, Guards, Items, Owned, Owner, Ownership, Shared, SharedOwners};
use std::process::Abort;
use std::thread::join;

/// A slot for each item, and a place for each job.
const MANY: Limits = Limits {
    participants: 2,
    slots: 2000,
    jobs: 200,
    ..ONE_SLOT
};

/// How often a call is made again that lost an exchange to the other thread.
const AGAIN: u64 = 1000;

fn owner_at_last<K: Ownership, S: Items<u64>>(
    rt: &impl Abort,
    s: &mut S,
    value: u64,
) -> Owner<K, u64>
    requires { IsSeated (S.caller s.old) }
    ensures caller { S.caller s.new ≡ S.caller s.old }
    ensures home { slots_home result ≡ (S.caller s.old).home.slots }
{
    for _ in 0..AGAIN {
        match Owner::new(value, s) {
            Ok(owner) => return owner,
            Err((_value, refused)) => assert_eq!(rt; refused, Refused::Contended),
        }
    }
    panic!(rt; "each try was lost")
}

/// The job comes back from each try that was lost.
fn defers_at_last<S: Deferrals<u64, Job = Adds>>(
    rt: &impl Abort,
    s: &mut S,
    guard: &Guard,
    job: Adds,
)
    requires seated { IsSeated (S.caller s.old) }
    requires reader { reader_of guard.now ≡ (S.caller s.old).reader }
    ensures { S.caller s.new ≡ S.caller s.old }
{
    let mut job = job;
    for _ in 0..AGAIN {
        match guard.defer_execute(job, s) {
            Ok(()) => return,
            Err((back, refused)) => {
                assert_eq!(rt; refused, Refused::Contended);
                job = back;
            }
        }
    }
    panic!(rt; "each try was lost")
}

/// Makes an item with two owners, the last of which retires it.
fn shares<S: Items<u64> + SharedOwners<u64>>(rt: &impl Abort, s: &mut S, value: u64)
    requires { IsSeated (S.caller s.old) }
    ensures { S.caller s.new ≡ S.caller s.old }
{
    let owner: Shared<u64> = owner_at_last(rt, s, value);
    let other = copied(rt, s, &owner);
    assert!(rt; !released(s, owner));
    assert!(rt; released(s, other));
}

/// Defers a job that adds one, under an accelerated guard.
fn defers<S: Guards<u64> + Deferrals<u64, Job = Adds>>(rt: &impl Abort, s: &mut S, total: &Total)
    requires { IsSeated (S.caller s.old) }
    ensures { S.caller s.new ≡ S.caller s.old }
{
    let guard = Guard::new(s).expect(rt, "a guard may be opened");
    defers_at_last(rt, s, &guard, adding(rt, total, 1));
    guard.accelerate(s);
    guard.close(s);
}

/// A thousand items, every other one of several owners, and a job after each tenth.
fn makes_a_thousand<S: Items<u64> + SharedOwners<u64> + Guards<u64> + Deferrals<u64, Job = Adds>>(
    rt: &impl Abort,
    s: &mut S,
    total: &Total,
)
    requires { IsSeated (S.caller s.old) }
    ensures { S.caller s.new ≡ S.caller s.old }
{
    for value in 0u64..1000 {
        if value % 2 == 0 {
            let owner: Owned<u64> = owner_at_last(rt, s, value);
            owner.retire(s);
        } else {
            shares(rt, s, value);
        }
        if value % 10 == 0 {
            defers(rt, s, total);
        }
    }
}

/// What a thread does: it registers, makes and retires its items, and ends.
fn works(rt: &impl Abort, domain: &Domain<u64>, total: &Total) -> Receipt<u64, Adds>
    ensures { IsReceiptIn (slots_in domain.now) result }
{
    let mut local = registered(rt, domain);
    makes_a_thousand(rt, &mut local, total);
    ended(rt, local)
}

#[test]
fn what_two_threads_retire_is_reclaimed_and_each_job_runs_once(rt: HostRuntime) {
    let total = number(&rt);
    let domain = new_domain::<u64>(&rt, MANY);
    let (one, other) = join(
        &rt,
        || works(&rt, &domain, &total),
        || works(&rt, &domain, &total),
    );
    let receipts = vec![in rt.alloc(); one, other].expect(&rt, "there is memory");
    counts(&rt, closed(&rt, domain, receipts), 2000, 2000, 0);
    is_total(&rt, &total, 200);
}
