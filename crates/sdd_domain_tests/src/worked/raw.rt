//! Items that are out as raw, and that nobody owns: whoever comes first takes one back, and guards show it meanwhile.
ghost use Rattle.std.specs.Prelude.{◌≡◌};
ghost use Rattle.sdd_space.specs.CallerId.{IsSeated};
ghost use Rattle.sdd_space.specs.Guard.{reader_of};
ghost use Rattle.sdd_space.specs.Owned as owned;
ghost use Rattle.sdd_domain.specs.Space.{caller_of, slots_home};
ghost use Rattle.sdd_domain.specs.Domain.{slots_in};
ghost use Rattle.sdd_domain_tests.specs.Slots.{IsReceiptIn};

use crate::steps::{
    ONE_SLOT, TWO_AND_ONE_SLOT, add, close, closed, ended, has_no_slot, is_tally, made, new_domain,
    not_closed, opened, registered, retire, shows, turn, turns,
};
use sdd_core::Limits;
use sdd_domain::{Domain, Local, Receipt};
use sdd_space::{Guard, Owned, RawPtr};
use std::process::Abort;
use std::thread::{Threads, join};

/// The maker and two threads share one slot.
const THREE_AND_ONE_SLOT: Limits = Limits {
    participants: 3,
    ..ONE_SLOT
};

/// The item of an owner goes out.
fn put_out(owner: Owned<u64>, local: &mut Local<'_, u64>) -> RawPtr<u64>
    requires seated { IsSeated (caller_of local.old) }
    requires home { owned.slots_home owner ≡ slots_home local.old }
    ensures { caller_of local.new ≡ caller_of local.old }
{
    owner.into_raw(local)
}

/// It comes back.
fn taken_back(rt: &impl Abort, ptr: RawPtr<u64>, local: &mut Local<'_, u64>) -> Owned<u64>
    requires { IsSeated (caller_of local.old) }
    ensures caller { caller_of local.new ≡ caller_of local.old }
    ensures home { owned.slots_home result ≡ slots_home local.old }
{
    let Some(owner) = Owned::from_raw(ptr, local) else {
        panic!(rt; "the item is out")
    };
    owner
}

/// Nothing is out in the slot, so that nothing comes back, and no guard shows it as raw.
fn is_not_out(rt: &impl Abort, ptr: RawPtr<u64>, local: &mut Local<'_, u64>)
    requires { IsSeated (caller_of local.old) }
    ensures { caller_of local.new ≡ caller_of local.old }
{
    if let Some(_owner) = Owned::from_raw(ptr, local) {
        panic!(rt; "the item isn't out")
    }
    let guard = opened(rt, local);
    assert!(rt; ptr.into_ptr(local, &guard).is_none());
    close(guard, local);
}

/// Under the guard the item that is out shows this value.
fn shows_out<'g>(
    rt: &impl Abort,
    local: &mut Local<'_, u64>,
    guard: &'g Guard,
    ptr: RawPtr<u64>,
    value: u64,
) -> &'g u64
    requires seated { IsSeated (caller_of local.old) }
    requires reader { reader_of guard.now ≡ (caller_of local.old).reader }
    ensures { caller_of local.new ≡ caller_of local.old }
{
    let Some(seen) = ptr.into_ptr(local, guard) else {
        panic!(rt; "the item is out")
    };
    let Some(seen) = seen.as_ref(local) else {
        panic!(rt; "the pointer isn't null")
    };
    assert_eq!(rt; *seen, value);
    seen
}

/// Each slot is tried as it stands: owned, waiting, and free.
#[test]
fn only_what_is_out_comes_back(rt: HostRuntime) {
    let domain = new_domain::<u64>(&rt, ONE_SLOT);
    let mut local = registered(&rt, &domain);
    let owner = made(&rt, &mut local, 7);
    let ptr = put_out(owner, &mut local);
    has_no_slot(&rt, &mut local, 8);
    let owner = taken_back(&rt, ptr, &mut local);
    is_not_out(&rt, ptr, &mut local);
    assert_eq!(rt; *owner.get(&local), 7);
    retire(owner, &mut local);
    is_not_out(&rt, ptr, &mut local);
    turns(&rt, &mut local, 4);
    is_tally(&rt, local.tally(), 1, 1);
    is_not_out(&rt, ptr, &mut local);
    is_null_refused(&rt, &mut local);
    let receipts = vec![in rt.alloc(); ended(&rt, local)].expect(&rt, "there is memory");
    is_tally(&rt, closed(&rt, domain, receipts), 1, 1);
}

/// A null pointer is one to nothing.
fn is_null_refused(rt: &impl Abort, local: &mut Local<'_, u64>)
    requires { IsSeated (caller_of local.old) }
    ensures { caller_of local.new ≡ caller_of local.old }
{
    if let Some(_owner) = Owned::from_raw(RawPtr::null(), local) {
        panic!(rt; "the pointer is null")
    }
}

/// It goes out and comes back, a thousand times.
fn comes_back_often(rt: &impl Abort, owner: Owned<u64>, local: &mut Local<'_, u64>) -> Owned<u64>
    requires seated { IsSeated (caller_of local.old) }
    requires home { owned.slots_home owner ≡ slots_home local.old }
    ensures caller { caller_of local.new ≡ caller_of local.old }
    ensures home { owned.slots_home result ≡ slots_home local.old }
{
    let mut owner = owner;
    for _turn in 0..1000 {
        let ptr = put_out(owner, local);
        owner = taken_back(rt, ptr, local);
    }
    owner
}

/// It goes out and comes back so often that no count or bound is met.
#[test]
fn an_item_goes_out_and_comes_back_again_and_again(rt: HostRuntime) {
    let domain = new_domain::<u64>(&rt, ONE_SLOT);
    let mut local = registered(&rt, &domain);
    let owner = made(&rt, &mut local, 7);
    let owner = comes_back_often(&rt, owner, &mut local);
    assert_eq!(rt; *owner.get(&domain), 7);
    retire(owner, &mut local);
    let receipts = vec![in rt.alloc(); ended(&rt, local)].expect(&rt, "there is memory");
    is_tally(&rt, closed(&rt, domain, receipts), 1, 1);
}

/// The guard that saw it as raw shows it after it came back, was retired, and others made what they could of that.
#[test]
fn a_guard_shows_what_was_out_whatever_becomes_of_it(rt: HostRuntime) {
    let domain = new_domain::<u64>(&rt, TWO_AND_ONE_SLOT);
    let mut reader = registered(&rt, &domain);
    let mut other = registered(&rt, &domain);
    let ptr = put_out(made(&rt, &mut other, 7), &mut other);
    let guard = opened(&rt, &mut reader);
    let seen = shows_out(&rt, &mut reader, &guard, ptr, 7);
    let again = shows_out(&rt, &mut reader, &guard, ptr, 7);
    let owner = taken_back(&rt, ptr, &mut other);
    is_not_out(&rt, ptr, &mut reader);
    let owned = shows(&rt, &mut reader, &guard, &owner, 7);
    retire(owner, &mut other);
    turns(&rt, &mut other, 10);
    has_no_slot(&rt, &mut other, 8);
    assert_eq!(rt; (*seen, *again, *owned), (7, 7, 7));
    close(guard, &mut reader);
    turns(&rt, &mut other, 3);
    is_tally(&rt, other.tally(), 1, 1);
    is_not_out(&rt, ptr, &mut reader);
    let receipts = vec![in rt.alloc(); ended(&rt, reader), ended(&rt, other)].expect(
        &rt,
        "there is memory",
    );
    is_tally(&rt, closed(&rt, domain, receipts), 1, 1);
}

/// What one participant put out another one takes back and retires; the first is too late then.
#[test]
fn another_participant_takes_it_back(rt: HostRuntime) {
    let domain = new_domain::<u64>(&rt, TWO_AND_ONE_SLOT);
    let mut maker = registered(&rt, &domain);
    let mut other = registered(&rt, &domain);
    let ptr = put_out(made(&rt, &mut maker, 7), &mut maker);
    turn(&rt, &mut maker);
    let owner = taken_back(&rt, ptr, &mut other);
    is_not_out(&rt, ptr, &mut maker);
    assert_eq!(rt; *owner.get(&maker), 7);
    retire(owner, &mut maker);
    let receipts = vec![in rt.alloc(); ended(&rt, maker), ended(&rt, other)].expect(
        &rt,
        "there is memory",
    );
    is_tally(&rt, closed(&rt, domain, receipts), 1, 1);
}

/// The domain comes back as long as the item is out, and takes the next participant, which takes the item back.
#[test]
fn a_domain_is_not_closed_while_an_item_is_out(rt: HostRuntime) {
    let domain = new_domain::<u64>(&rt, TWO_AND_ONE_SLOT);
    let mut maker = registered(&rt, &domain);
    let ptr = put_out(made(&rt, &mut maker, 7), &mut maker);
    let receipts = vec![in rt.alloc(); ended(&rt, maker)].expect(&rt, "there is memory");
    let (domain, mut receipts) = not_closed(&rt, domain, receipts);
    let mut other = registered(&rt, &domain);
    let owner = taken_back(&rt, ptr, &mut other);
    retire(owner, &mut other);
    add(&rt, &domain, &mut receipts, ended(&rt, other));
    is_tally(&rt, closed(&rt, domain, receipts), 1, 1);
}

/// What a thread does that tries to take it back: whether it did, and then retires it.
fn tries(rt: &impl Abort, domain: &Domain<u64>, ptr: RawPtr<u64>) -> (bool, Receipt<u64>)
    ensures { IsReceiptIn (slots_in domain.now) result.1 }
{
    let mut local = registered(rt, domain);
    let won = match Owned::from_raw(ptr, &mut local) {
        Some(owner) => {
            retire(owner, &mut local);
            true
        }
        None => false,
    };
    (won, ended(rt, local))
}

#[test]
fn one_of_two_threads_takes_it_back(rt: HostRuntime) {
    let domain = new_domain::<u64>(&rt, THREE_AND_ONE_SLOT);
    let mut maker = registered(&rt, &domain);
    let ptr = put_out(made(&rt, &mut maker, 7), &mut maker);
    let mut receipts = vec![in rt.alloc(); ended(&rt, maker)].expect(&rt, "there is memory");
    let (first, second) = join(
        &rt,
        || tries(&rt, &domain, ptr),
        || tries(&rt, &domain, ptr),
    );
    assert!(rt; first.0 != second.0);
    add(&rt, &domain, &mut receipts, first.1);
    add(&rt, &domain, &mut receipts, second.1);
    is_tally(&rt, closed(&rt, domain, receipts), 1, 1);
}
