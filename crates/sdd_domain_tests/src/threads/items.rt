//! Items that several threads share.
ghost use Rattle.std.specs.Prelude.{◌≡◌};
ghost use Rattle.sdd_space.specs.CallerId.{IsSeated};
ghost use Rattle.sdd_space.specs.Owned as owned;
ghost use Rattle.sdd_domain.specs.Space.{caller_of, slots_home};
ghost use Rattle.sdd_domain.specs.Domain.{slots_in};
ghost use Rattle.sdd_domain_tests.specs.Slots.{IsReceiptIn, AreReceiptsIn};

use crate::steps::{
    ONE_SLOT, add_all, close, close_and_scan, closed, ended, has_no_slot, is_tally, made,
    new_domain, opened, registered, retire, shows, turn, turns,
};
use sdd_core::Limits;
use sdd_domain::{Domain, Local, Receipt};
use sdd_space::Owned;
use std::process::Abort;
use std::thread::{Threads, join};

/// Nine participants share four slots.
const FEW_SLOTS: Limits = Limits {
    participants: 9,
    slots: 4,
    tries: 3,
    ..ONE_SLOT
};

/// More slots than two participants need who make a thousand items each, and as many tries.
const MANY_SLOTS: Limits = Limits {
    participants: 2,
    slots: 2048,
    tries: 2048,
    ..ONE_SLOT
};

/// Makes a value, where a slot is free, sees it twice, and retires it. It is seen still.
fn uses(rt: &impl Abort, local: &mut Local<'_, u64>, value: u64) -> bool
    requires { IsSeated (caller_of local.old) }
    ensures { caller_of local.new ≡ caller_of local.old }
{
    let guard = opened(rt, local);
    let mut is_made = false;
    if let Ok(owner) = Owned::new(value, local) {
        let first = shows(rt, local, &guard, &owner, value);
        let second = shows(rt, local, &guard, &owner, value);
        retire(owner, local);
        assert_eq!(rt; *first, value);
        assert_eq!(rt; *second, value);
        is_made = true;
    }
    close_and_scan(guard, local);
    is_made
}

/// How many values of so many found a slot.
fn uses_many(rt: &impl Abort, local: &mut Local<'_, u64>, values: u64) -> u64
    requires { IsSeated (caller_of local.old) }
    ensures { caller_of local.new ≡ caller_of local.old }
{
    let mut count = 0u64;
    for value in 0..values {
        if uses(rt, local, value) {
            count = count.saturating_add(1);
        }
    }
    count
}

/// What a thread does: it registers, uses so many values, and ends.
fn works(rt: &impl Abort, domain: &Domain<u64>, values: u64) -> Receipt<u64>
    ensures { IsReceiptIn (slots_in domain.now) result }
{
    let mut local = registered(rt, domain);
    let count = uses_many(rt, &mut local, values);
    let receipt = ended(rt, local);
    assert_eq!(rt; receipt.tally().made, u128::from(count));
    receipt
}

/// What two threads leave.
fn two(rt: &(impl Abort + Threads + Sync), domain: &Domain<u64>) -> (Receipt<u64>, Receipt<u64>)
    ensures { IsReceiptIn (slots_in domain.now) result.0 × IsReceiptIn (slots_in domain.now) result.1 }
{
    join(rt, || works(rt, domain, 200), || works(rt, domain, 200))
}

/// What four threads leave.
fn four(rt: &(impl Abort + AllocGlobal + Threads + Sync), domain: &Domain<u64>) -> Vec<Receipt<u64>>
    ensures { AreReceiptsIn (slots_in domain.now) result.items }
{
    let ((first, second), (third, fourth)) = join(rt, || two(rt, domain), || two(rt, domain));
    vec![in rt.alloc(); first, second, third, fourth].expect(rt, "there is memory")
}

/// Many rounds, since few of them have two threads exchange a word at one moment.
#[test]
fn eight_threads_share_four_slots(rt: HostRuntime) {
    for _ in 0..50 {
        let domain = new_domain::<u64>(&rt, FEW_SLOTS);
        let (mut receipts, others) = join(&rt, || four(&rt, &domain), || four(&rt, &domain));
        add_all(&rt, &domain, &mut receipts, others);
        let tally = closed(&rt, domain, receipts);
        assert_eq!(rt; tally.reclaimed, tally.made);
    }
}

/// None of them is refused, since there are more slots than items.
#[test]
fn two_threads_make_and_retire_a_thousand_items_each(rt: HostRuntime) {
    for _ in 0..50 {
        let domain = new_domain::<u64>(&rt, MANY_SLOTS);
        let (first, second) = join(
            &rt,
            || works(&rt, &domain, 1000),
            || works(&rt, &domain, 1000),
        );
        assert_eq!(rt; first.tally().made, 1000);
        assert_eq!(rt; second.tally().made, 1000);
        let receipts = vec![in rt.alloc(); first, second].expect(&rt, "there is memory");
        let tally = closed(&rt, domain, receipts);
        assert_eq!(rt; tally.made, 2000);
        assert_eq!(rt; tally.reclaimed, 2000);
    }
}

/// Looks twice at an item under a guard of its own.
fn looks(rt: &impl Abort, local: &mut Local<'_, u64>, owner: &Owned<u64>, value: u64)
    requires seated { IsSeated (caller_of local.old) }
    requires home { owned.slots_home owner.now ≡ slots_home local.old }
    ensures { caller_of local.new ≡ caller_of local.old }
{
    let guard = opened(rt, local);
    let first = shows(rt, local, &guard, owner, value);
    let second = shows(rt, local, &guard, owner, value);
    assert_eq!(rt; *first, value);
    assert_eq!(rt; *second, value);
    close_and_scan(guard, local);
}

fn looks_often(rt: &impl Abort, local: &mut Local<'_, u64>, owner: &Owned<u64>, value: u64)
    requires seated { IsSeated (caller_of local.old) }
    requires home { owned.slots_home owner.now ≡ slots_home local.old }
    ensures { caller_of local.new ≡ caller_of local.old }
{
    for _ in 0..200 {
        looks(rt, local, owner, value);
    }
}

/// What a reader's thread does: it registers, looks at an item of another participant, under guards and without one, and ends.
fn reads(rt: &impl Abort, domain: &Domain<u64>, owner: &Owned<u64>, value: u64) -> Receipt<u64>
    requires { owned.slots_home owner.now ≡ slots_in domain.now }
{
    let mut local = registered(rt, domain);
    looks_often(rt, &mut local, owner, value);
    assert_eq!(rt; *owner.get(domain), value);
    assert_eq!(rt; *owner.get(&local), value);
    ended(rt, local)
}

/// Two readers look at two items.
fn two_read(
    rt: &(impl Abort + Threads + Sync),
    domain: &Domain<u64>,
    one: &Owned<u64>,
    other: &Owned<u64>,
)
    requires one { owned.slots_home one.now ≡ slots_in domain.now }
    requires other { owned.slots_home other.now ≡ slots_in domain.now }
{
    join(
        rt,
        || reads(rt, domain, one, 7),
        || reads(rt, domain, other, 8),
    );
}

/// A writer makes two items, at which readers look, while another writer works on items of its own.
/// Then it retires them.
#[test]
fn readers_look_at_what_writers_share(rt: HostRuntime) {
    let domain = new_domain::<u64>(&rt, FEW_SLOTS);
    let mut writer = registered(&rt, &domain);
    let one = made(&rt, &mut writer, 7);
    let other = made(&rt, &mut writer, 8);
    let (_, worked) = join(
        &rt,
        || two_read(&rt, &domain, &one, &other),
        || works(&rt, &domain, 200),
    );
    retire(one, &mut writer);
    retire(other, &mut writer);
    let made_by_worker = worked.tally().made;
    let receipts = vec![in rt.alloc(); ended(&rt, writer), worked].expect(&rt, "there is memory");
    let tally = closed(&rt, domain, receipts);
    assert_eq!(rt; tally.made, made_by_worker.saturating_add(2));
    assert_eq!(rt; tally.reclaimed, tally.made);
}

/// What the thread of a new owner does: it takes and retires the item, and makes what it can. While
/// another guard is open it reclaims nothing.
fn retires(rt: &impl Abort, domain: &Domain<u64>, given: &mut Option<Owned<u64>>) -> Receipt<u64>
    requires { owned.IsOfSlots (slots_in domain.now) given.old }
    ensures { IsReceiptIn (slots_in domain.now) result }
{
    let owner = given.take().expect(rt, "an owner was given");
    let mut local = registered(rt, domain);
    retire(owner, &mut local);
    uses_many(rt, &mut local, 200);
    has_no_slot(rt, &mut local, 9);
    is_tally(rt, local.tally(), 3, 0);
    ended(rt, local)
}

/// Looks at a value that was seen before.
fn stays(rt: &impl Abort, seen: &u64, value: u64) {
    for _ in 0..1000 {
        assert_eq!(rt; *seen, value);
    }
}

/// A participant keeps its guard open, while another thread retires what was seen under it, and
/// fills all other slots.
#[test]
fn what_another_thread_retires_is_seen_under_an_open_guard(rt: HostRuntime) {
    let domain = new_domain::<u64>(&rt, FEW_SLOTS);
    let mut local = registered(&rt, &domain);
    let owner = made(&rt, &mut local, 7);
    let guard = opened(&rt, &mut local);
    let seen = shows(&rt, &mut local, &guard, &owner, 7);
    let mut given = Some(owner);
    let (other, _) = join(
        &rt,
        || retires(&rt, &domain, &mut given),
        || stays(&rt, seen, 7),
    );
    if let Some(_owner) = given {
        panic!(rt; "the owner was not taken")
    }
    assert_eq!(rt; *seen, 7);
    close(guard, &mut local);
    let receipts = vec![in rt.alloc(); ended(&rt, local), other].expect(&rt, "there is memory");
    is_tally(&rt, closed(&rt, domain, receipts), 4, 4);
}
