//! Eight threads share few items: they clone and let go, change and drop in place, put out and take back, look under guards, and defer jobs.
ghost use Rattle.std.specs.Prelude.{◌≡◌, IfSome};
ghost use Rattle.sdd_space.specs.CallerId.{IsSeated};
ghost use Rattle.sdd_space.specs.Shared as shared;
ghost use Rattle.sdd_domain.specs.Domain.{slots_in};
ghost use Rattle.sdd_domain.specs.Space.{caller_of, slots_home};
ghost use Rattle.sdd_domain_tests.specs.Slots.{IsReceiptIn, AreReceiptsIn};
ghost use Rattle.sdd_domain_tests.specs.Four.{IsFourOf};

use crate::drawn::generator::Generator;
use crate::few::Four;
use crate::owners::counted::Counted;
use crate::owners::steps::{copied, owned_item, shared_item};
use crate::steps::{ONE_SLOT, new_domain};
use crate::threads::crowd_calls::{Counts, draws, is_let_go, is_taken};
use crate::with_jobs::{Adds, closed, ended, keep, keep_all, registered};
use sdd_core::Limits;
use sdd_domain::{Domain, Local, Receipt};
use sdd_participants::Tally;
use sdd_space::{Owned, RawPtr, Shared};
use std::process::Abort;
use std::sync::atomic::Ordering;
use std::thread::{Threads, join};

/// So many rounds in the gate, in about a second. By hand 3000 of them take a minute.
const ROUNDS: u64 = 40;

/// The calls of a thread in one round.
const CALLS: u64 = 100;

/// Nine participants share four slots, and places for four jobs.
const FEW: Limits = Limits {
    participants: 9,
    slots: 4,
    jobs: 4,
    tries: 3,
    ..ONE_SLOT
};

/// What a thread does: it registers, makes its calls, lets its owner go, and ends.
fn works(
    rt: &impl Abort,
    domain: &Domain<Counted>,
    counts: &Counts,
    out: RawPtr<Counted>,
    given: &mut Option<Shared<Counted>>,
) -> Receipt<Counted, Adds>
    requires { shared.IsOfSlots (slots_in domain.now) given.old }
    ensures { IsReceiptIn (slots_in domain.now) result }
{
    let Some(mut owner) = given.take() else {
        panic!(rt; "an owner was given")
    };
    let mut drawn = Generator::new(counts.seeds.fetch_add(1, Ordering::SeqCst));
    let mut local = registered(rt, domain);
    draws(rt, &mut local, counts, out, &mut owner, &mut drawn, CALLS);
    is_let_go(&mut local, counts, owner, drawn.below(2) == 0);
    ended(rt, local)
}

/// What two threads leave.
fn two(
    rt: &(impl Abort + Threads + Sync),
    domain: &Domain<Counted>,
    counts: &Counts,
    out: RawPtr<Counted>,
    one: &mut Option<Shared<Counted>>,
    other: &mut Option<Shared<Counted>>,
) -> (Receipt<Counted, Adds>, Receipt<Counted, Adds>)
    requires one { shared.IsOfSlots (slots_in domain.now) one.old }
    requires other { shared.IsOfSlots (slots_in domain.now) other.old }
    ensures { IsReceiptIn (slots_in domain.now) result.0 × IsReceiptIn (slots_in domain.now) result.1 }
{
    join(
        rt,
        || works(rt, domain, counts, out, one),
        || works(rt, domain, counts, out, other),
    )
}

/// Owners for four threads, beside one of the same item.
fn four_owners(
    rt: &impl Abort,
    local: &mut Local<'_, Counted, Adds>,
    owner: &Shared<Counted>,
) -> Four<Counted>
    requires seated { IsSeated (caller_of local.old) }
    requires home { shared.slots_home owner.now ≡ slots_home local.old }
    ensures caller { caller_of local.new ≡ caller_of local.old }
    ensures home { IsFourOf (slots_home local.old) result }
{
    Four {
        first: Some(copied(rt, local, owner)),
        second: Some(copied(rt, local, owner)),
        third: Some(copied(rt, local, owner)),
        fourth: Some(copied(rt, local, owner)),
    }
}

/// What four threads leave.
fn four_work(
    rt: &(impl Abort + AllocGlobal + Threads + Sync),
    domain: &Domain<Counted>,
    counts: &Counts,
    out: RawPtr<Counted>,
    first: &mut Option<Shared<Counted>>,
    second: &mut Option<Shared<Counted>>,
    third: &mut Option<Shared<Counted>>,
    fourth: &mut Option<Shared<Counted>>,
) -> Vec<Receipt<Counted, Adds>>
    requires first { shared.IsOfSlots (slots_in domain.now) first.old }
    requires second { shared.IsOfSlots (slots_in domain.now) second.old }
    requires third { shared.IsOfSlots (slots_in domain.now) third.old }
    requires fourth { shared.IsOfSlots (slots_in domain.now) fourth.old }
    ensures { AreReceiptsIn (slots_in domain.now) result.items }
{
    let ((one, other), (another, last)) = join(
        rt,
        ||
            requires one { shared.IsOfSlots (slots_in domain.now) first.now }
            requires other { shared.IsOfSlots (slots_in domain.now) second.now }
        { two(rt, domain, counts, out, first, second) },
        ||
            requires one { shared.IsOfSlots (slots_in domain.now) third.now }
            requires other { shared.IsOfSlots (slots_in domain.now) fourth.now }
        { two(rt, domain, counts, out, third, fourth) },
    );
    vec![in rt.alloc(); one, other, another, last].expect(rt, "there is memory")
}

/// What four threads leave, each of which was given an owner.
fn four_given(
    rt: &(impl Abort + AllocGlobal + Threads + Sync),
    domain: &Domain<Counted>,
    counts: &Counts,
    out: RawPtr<Counted>,
    given: &mut Option<Four<Counted>>,
) -> Vec<Receipt<Counted, Adds>>
    requires { IfSome given.old (IsFourOf (slots_in domain.now)) }
    ensures { AreReceiptsIn (slots_in domain.now) result.items }
{
    let Some(four) = given.take() else {
        panic!(rt; "owners were given")
    };
    let Four {
        mut first,
        mut second,
        mut third,
        mut fourth,
    } = four;
    let receipts = four_work(
        rt,
        domain,
        counts,
        out,
        &mut first,
        &mut second,
        &mut third,
        &mut fourth,
    );
    is_taken(rt, first);
    is_taken(rt, second);
    is_taken(rt, third);
    is_taken(rt, fourth);
    receipts
}

/// What eight threads leave, each of which was given an owner.
fn eight(
    rt: &(impl Abort + AllocGlobal + Threads + Sync),
    domain: &Domain<Counted>,
    counts: &Counts,
    out: RawPtr<Counted>,
    one: Four<Counted>,
    other: Four<Counted>,
) -> Vec<Receipt<Counted, Adds>>
    requires one { IsFourOf (slots_in domain.now) one }
    requires other { IsFourOf (slots_in domain.now) other }
    ensures { AreReceiptsIn (slots_in domain.now) result.items }
{
    let mut one = Some(one);
    let mut other = Some(other);
    let (mut receipts, others) = join(
        rt,
        ||
            requires { IfSome one (IsFourOf (slots_in domain.now)) }
        { four_given(rt, domain, counts, out, &mut one) },
        ||
            requires { IfSome other (IsFourOf (slots_in domain.now)) }
        { four_given(rt, domain, counts, out, &mut other) },
    );
    is_taken(rt, one);
    is_taken(rt, other);
    keep_all(rt, domain, &mut receipts, others);
    receipts
}

/// What is out comes back, and is dropped: nobody has a guard open any more.
fn comes_back(rt: &impl Abort, local: &mut Local<'_, Counted, Adds>, out: RawPtr<Counted>)
    requires { IsSeated (caller_of local.old) }
    ensures { caller_of local.new ≡ caller_of local.old }
{
    let Some(owner) = Owned::from_raw(out, local) else {
        panic!(rt; "every thread put it out again")
    };
    match owner.drop_in_place(local) {
        Ok(()) => {}
        Err((_owner, refused)) => panic!(rt; "refused: {refused:?}"),
    }
}

/// Each value was dropped once, each job ran once, and one owner was the last.
fn adds_up(rt: &impl Abort, tally: Tally, counts: &Counts) {
    let refused = u128::from(counts.refused.load(Ordering::SeqCst));
    let drops = u128::from(counts.drops.load(Ordering::SeqCst));
    assert_eq!(rt; tally.made, tally.reclaimed.saturating_add(tally.in_place));
    assert_eq!(rt; drops, tally.made.saturating_add(refused));
    assert_eq!(rt;
        counts.runs.load(Ordering::SeqCst),
        counts.deferred.load(Ordering::SeqCst)
    );
    assert_eq!(rt; counts.last.load(Ordering::SeqCst), 1);
}

/// One item has nine owners: those of eight threads, and one that goes before they begin. Another one is out.
fn plays_a_round(rt: &(impl Abort + AllocGlobal + Threads + Sync), seed: u64) {
    let counts = Counts::new(rt, seed);
    let domain = new_domain::<Counted>(rt, FEW);
    let mut local = registered(rt, &domain);
    let owner = shared_item(rt, &mut local, Counted::new(rt, 0, &counts.drops));
    let out = owned_item(rt, &mut local, Counted::new(rt, 0, &counts.drops)).into_raw(&mut local);
    let one = four_owners(rt, &mut local, &owner);
    let other = four_owners(rt, &mut local, &owner);
    assert!(rt; !owner.release(&mut local));
    let mut receipts = eight(rt, &domain, &counts, out, one, other);
    comes_back(rt, &mut local, out);
    keep(rt, &domain, &mut receipts, ended(rt, local));
    adds_up(rt, closed(rt, domain, receipts), &counts);
}

#[test]
fn eight_threads_share_an_item_and_one_that_is_out(rt: HostRuntime) {
    for round in 0..ROUNDS {
        plays_a_round(&rt, round.wrapping_mul(8));
    }
}
