//! Items of a domain that are changed and dropped in their place, where no guard is open at any participant.
ghost use Rattle.std.specs.Prelude.{◌≡◌};
ghost use Rattle.sdd_space.specs.CallerId.{IsSeated};
ghost use Rattle.sdd_space.specs.Owned as owned;
ghost use Rattle.sdd_space.specs.Shared as shared;
ghost use Rattle.sdd_domain.specs.Space.{caller_of, slots_home};

use crate::steps::{
    ONE_SLOT, TWO_AND_ONE_SLOT, close, closed, ended, has_no_slot, made, new_domain, opened,
    registered, retire, shows,
};
use sdd_core::Refused;
use sdd_domain::Local;
use sdd_participants::Tally;
use sdd_space::{Owned, Shared};
use std::process::Abort;

/// So many were made, reclaimed and dropped in place.
pub fn counts(rt: &impl Abort, tally: Tally, made: u128, reclaimed: u128, in_place: u128) {
    assert_eq!(rt; tally.made, made);
    assert_eq!(rt; tally.reclaimed, reclaimed);
    assert_eq!(rt; tally.in_place, in_place);
}

/// The item of an owner has the value put in place of this one.
fn changes(rt: &impl Abort, local: &mut Local<'_, u64>, owner: &mut Owned<u64>, was: u64, put: u64)
    requires seated { IsSeated (caller_of local.old) }
    requires home { owned.slots_home owner.old ≡ slots_home local.old }
    ensures caller { caller_of local.new ≡ caller_of local.old }
    ensures home { owned.slots_home owner.new ≡ owned.slots_home owner.old }
{
    match owner.get_mut(|number| std::mem::replace(number, put), local) {
        Ok(found) => assert_eq!(rt; found, was),
        Err((_change, refused)) => panic!(rt; "refused: {refused:?}"),
    }
    assert_eq!(rt; *owner.get(local), put);
}

/// A guard is open: the change comes back uncalled, and the item has the value that it had.
fn changes_nothing(rt: &impl Abort, local: &mut Local<'_, u64>, owner: &mut Owned<u64>, value: u64)
    requires seated { IsSeated (caller_of local.old) }
    requires home { owned.slots_home owner.old ≡ slots_home local.old }
    ensures caller { caller_of local.new ≡ caller_of local.old }
    ensures home { owned.slots_home owner.new ≡ owned.slots_home owner.old }
{
    match owner.get_mut(|number| std::mem::replace(number, 99), local) {
        Ok(_was) => panic!(rt; "a guard is open"),
        Err((change, refused)) => {
            let mut other = 1;
            assert_eq!(rt; change(&mut other), 1);
            assert_eq!(rt; other, 99);
            assert_eq!(rt; refused, Refused::GuardOpen);
        }
    }
    assert_eq!(rt; *owner.get(local), value);
}

/// The item is dropped in its place.
fn drops(rt: &impl Abort, local: &mut Local<'_, u64>, owner: Owned<u64>)
    requires seated { IsSeated (caller_of local.old) }
    requires home { owned.slots_home owner ≡ slots_home local.old }
    ensures { caller_of local.new ≡ caller_of local.old }
{
    match owner.drop_in_place(local) {
        Ok(()) => {}
        Err((_owner, refused)) => panic!(rt; "refused: {refused:?}"),
    }
}

/// A guard is open: the owner comes back, and shows what it did.
fn drops_nothing(
    rt: &impl Abort,
    local: &mut Local<'_, u64>,
    owner: Owned<u64>,
    value: u64,
) -> Owned<u64>
    requires seated { IsSeated (caller_of local.old) }
    requires home { owned.slots_home owner ≡ slots_home local.old }
    ensures caller { caller_of local.new ≡ caller_of local.old }
    ensures home { owned.slots_home result ≡ slots_home local.old }
{
    match owner.drop_in_place(local) {
        Ok(()) => panic!(rt; "a guard is open"),
        Err((owner, refused)) => {
            assert_eq!(rt; refused, Refused::GuardOpen);
            assert_eq!(rt; *owner.get(local), value);
            owner
        }
    }
}

/// The own guard counts as any other; what is changed may be changed again, looked at under a guard, and retired.
#[test]
fn an_owner_changes_its_item_where_no_guard_is_open(rt: HostRuntime) {
    let domain = new_domain::<u64>(&rt, ONE_SLOT);
    let mut local = registered(&rt, &domain);
    let mut owner = made(&rt, &mut local, 7);
    changes(&rt, &mut local, &mut owner, 7, 8);
    let guard = opened(&rt, &mut local);
    changes_nothing(&rt, &mut local, &mut owner, 8);
    shows(&rt, &mut local, &guard, &owner, 8);
    changes_nothing(&rt, &mut local, &mut owner, 8);
    close(guard, &mut local);
    changes(&rt, &mut local, &mut owner, 8, 9);
    changes(&rt, &mut local, &mut owner, 9, 10);
    has_no_slot(&rt, &mut local, 11);
    retire(owner, &mut local);
    let receipts = vec![in rt.alloc(); ended(&rt, local)].expect(&rt, "there is memory");
    counts(&rt, closed(&rt, domain, receipts), 1, 1, 0);
}

/// The guard of another participant keeps an item as it is, whether it saw it or not, and whoever has the owner changes it afterwards.
#[test]
fn the_guard_of_another_participant_keeps_an_item(rt: HostRuntime) {
    let domain = new_domain::<u64>(&rt, TWO_AND_ONE_SLOT);
    let mut first = registered(&rt, &domain);
    let mut second = registered(&rt, &domain);
    let mut owner = made(&rt, &mut first, 7);
    let guard = opened(&rt, &mut second);
    changes_nothing(&rt, &mut first, &mut owner, 7);
    shows(&rt, &mut second, &guard, &owner, 7);
    changes_nothing(&rt, &mut first, &mut owner, 7);
    changes_nothing(&rt, &mut second, &mut owner, 7);
    close(guard, &mut second);
    changes(&rt, &mut first, &mut owner, 7, 8);
    changes(&rt, &mut second, &mut owner, 8, 9);
    let guard = opened(&rt, &mut first);
    shows(&rt, &mut first, &guard, &owner, 9);
    changes_nothing(&rt, &mut first, &mut owner, 9);
    changes_nothing(&rt, &mut second, &mut owner, 9);
    close(guard, &mut first);
    retire(owner, &mut second);
    let receipts = vec![in rt.alloc(); ended(&rt, first), ended(&rt, second)].expect(
        &rt,
        "there is memory",
    );
    counts(&rt, closed(&rt, domain, receipts), 1, 1, 0);
}

/// The slot is free at once.
#[test]
fn an_item_is_dropped_where_no_guard_is_open(rt: HostRuntime) {
    let domain = new_domain::<u64>(&rt, ONE_SLOT);
    let mut local = registered(&rt, &domain);
    let owner = made(&rt, &mut local, 7);
    let guard = opened(&rt, &mut local);
    let owner = drops_nothing(&rt, &mut local, owner, 7);
    shows(&rt, &mut local, &guard, &owner, 7);
    let owner = drops_nothing(&rt, &mut local, owner, 7);
    close(guard, &mut local);
    has_no_slot(&rt, &mut local, 8);
    drops(&rt, &mut local, owner);
    counts(&rt, local.tally(), 1, 0, 1);
    let owner = made(&rt, &mut local, 9);
    drops(&rt, &mut local, owner);
    let owner = made(&rt, &mut local, 10);
    retire(owner, &mut local);
    counts(&rt, local.tally(), 3, 0, 2);
    let receipts = vec![in rt.alloc(); ended(&rt, local)].expect(&rt, "there is memory");
    counts(&rt, closed(&rt, domain, receipts), 3, 1, 2);
}

/// What one participant made another one drops, and counts.
#[test]
fn an_item_is_dropped_where_no_participant_has_a_guard_open(rt: HostRuntime) {
    let domain = new_domain::<u64>(&rt, TWO_AND_ONE_SLOT);
    let mut first = registered(&rt, &domain);
    let mut second = registered(&rt, &domain);
    let owner = made(&rt, &mut first, 7);
    let guard = opened(&rt, &mut first);
    let owner = drops_nothing(&rt, &mut second, owner, 7);
    shows(&rt, &mut first, &guard, &owner, 7);
    let owner = drops_nothing(&rt, &mut second, owner, 7);
    close(guard, &mut first);
    drops(&rt, &mut second, owner);
    counts(&rt, first.tally(), 1, 0, 0);
    counts(&rt, second.tally(), 0, 0, 1);
    let owner = made(&rt, &mut second, 8);
    let guard = opened(&rt, &mut second);
    let owner = drops_nothing(&rt, &mut first, owner, 8);
    close(guard, &mut second);
    drops(&rt, &mut first, owner);
    let receipts = vec![in rt.alloc(); ended(&rt, first), ended(&rt, second)].expect(
        &rt,
        "there is memory",
    );
    counts(&rt, closed(&rt, domain, receipts), 2, 0, 2);
}

/// A shared owner that is alone may do both.
fn shared_item(rt: &impl Abort, local: &mut Local<'_, u64>, value: u64) -> Shared<u64>
    requires { IsSeated (caller_of local.old) }
    ensures caller { caller_of local.new ≡ caller_of local.old }
    ensures home { shared.slots_home result ≡ slots_home local.old }
{
    match Shared::new(value, local) {
        Ok(owner) => owner,
        Err((_value, refused)) => panic!(rt; "refused: {refused:?}"),
    }
}

#[test]
fn a_shared_owner_that_is_alone_changes_and_drops(rt: HostRuntime) {
    let domain = new_domain::<u64>(&rt, TWO_AND_ONE_SLOT);
    let mut local = registered(&rt, &domain);
    let mut owner = shared_item(&rt, &mut local, 7);
    match owner.get_mut(|number| std::mem::replace(number, 8), &mut local) {
        Ok(was) => assert_eq!(rt; was, 7),
        Err((_change, refused)) => panic!(rt; "refused: {refused:?}"),
    }
    let guard = opened(&rt, &mut local);
    let owner = match owner.drop_in_place(&mut local) {
        Ok(_last) => panic!(rt; "a guard is open"),
        Err((owner, refused)) => {
            assert_eq!(rt; refused, Refused::GuardOpen);
            owner
        }
    };
    assert_eq!(rt; *owner.get_guarded_ref(&guard, &mut local), 8);
    close(guard, &mut local);
    match owner.drop_in_place(&mut local) {
        Ok(last) => assert!(rt; last),
        Err((_owner, refused)) => panic!(rt; "refused: {refused:?}"),
    }
    let receipts = vec![in rt.alloc(); ended(&rt, local)].expect(&rt, "there is memory");
    counts(&rt, closed(&rt, domain, receipts), 1, 0, 1);
}
