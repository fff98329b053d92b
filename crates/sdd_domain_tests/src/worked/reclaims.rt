//! When what was retired goes, where a domain may have one participant and where it may have two.
ghost use Rattle.std.specs.Prelude.{◌≡◌};
ghost use Rattle.sdd_space.specs.CallerId.{IsSeated};
ghost use Rattle.sdd_domain.specs.Space.{caller_of};

use crate::node::Node;
use crate::owners::steps::{copied, owned_item, released, shared_item, turn_shows};
use crate::steps::{
    ONE_SLOT, close, closed_with_one, ended, has_no_slot, is_tally, new_domain, opened, registered,
    turns,
};
use sdd_core::{Limits, Refused};
use sdd_domain::Local;
use sdd_space::{Item, Items, Owned, Shared};
use std::cell::Cell;
use std::process::Abort;

/// Two slots for so many participants.
fn two_slots(participants: u64) -> Limits {
    Limits {
        participants,
        slots: 2,
        ..ONE_SLOT
    }
}

/// The next accelerated guards show these epochs; by then so many items are reclaimed, and something may wait or not.
fn shows<T: Item<T>>(rt: &impl Abort, local: &mut Local<'_, T>, table: &[(u8, u128, bool)])
    requires { IsSeated (caller_of local.old) }
    ensures { caller_of local.new ≡ caller_of local.old }
{
    for (epoch, reclaimed, waits) in table {
        assert_eq!(rt; turn_shows(rt, local), (*epoch, *waits));
        assert_eq!(rt; local.tally().reclaimed, *reclaimed);
    }
}

/// What becomes of one item at four guards.
const ONE_ITEM: [(u8, u128, bool); 4] = [(0, 0, true), (1, 0, true), (2, 0, true), (3, 1, false)];

fn only_owner_retires(rt: &(impl Abort + AllocGlobal), participants: u64) {
    let domain = new_domain::<u64>(rt, two_slots(participants));
    let mut local = registered(rt, &domain);
    owned_item(rt, &mut local, 7).retire(&mut local);
    shows(rt, &mut local, &ONE_ITEM);
    let receipt = ended(rt, local);
    is_tally(rt, closed_with_one(rt, domain, receipt), 1, 1);
}

/// The last of two owners retires. A guard that was opened before shows the value still.
fn last_owner_retires(rt: &(impl Abort + AllocGlobal), participants: u64) {
    let domain = new_domain::<u64>(rt, two_slots(participants));
    let mut local = registered(rt, &domain);
    let owner = shared_item(rt, &mut local, 47);
    let guard = opened(rt, &mut local);
    let ptr = owner.get_guarded_ptr(&guard, &mut local);
    let other = copied(rt, &mut local, &owner);
    assert!(rt; !released(&mut local, owner));
    assert_eq!(rt; *other.get(&local), 47);
    assert!(rt; released(&mut local, other));
    assert!(rt; ptr.as_ref(&local) == Some(&47));
    close(guard, &mut local);
    shows(rt, &mut local, &ONE_ITEM);
    let receipt = ended(rt, local);
    is_tally(rt, closed_with_one(rt, domain, receipt), 1, 1);
}

#[test]
fn an_item_goes_at_the_fourth_accelerated_guard(rt: HostRuntime) {
    for participants in [1, 2] {
        only_owner_retires(&rt, participants);
        last_owner_retires(&rt, participants);
    }
}

/// The outer item's value has the only owner of the inner one.
fn retires_what_holds_another(rt: &(impl Abort + AllocGlobal), participants: u64) {
    let domain = new_domain::<Node>(rt, two_slots(participants));
    let mut local = registered(rt, &domain);
    let inner = shared_item(rt, &mut local, Node::Last(2));
    let outer = owned_item(rt, &mut local, Node::Beside(1, inner));
    outer.retire(&mut local);
    shows(
        rt,
        &mut local,
        &[
            (0, 0, true),
            (1, 0, true),
            (2, 0, true),
            (3, 1, true),
            (4, 1, true),
            (5, 1, true),
            (6, 2, false),
        ],
    );
    let receipt = ended(rt, local);
    is_tally(rt, closed_with_one(rt, domain, receipt), 2, 2);
}

#[test]
fn the_last_owner_in_a_value_waits_from_its_reclaiming_on(rt: HostRuntime) {
    for participants in [1, 2] {
        retires_what_holds_another(&rt, participants);
    }
}

/// No slot is free, for an only owner or for one of several: what was handed in comes back, and no closure is called.
fn is_refused<S: Items<u64>>(rt: &impl Abort, s: &mut S)
    requires { IsSeated (S.caller s.old) }
    ensures { S.caller s.new ≡ S.caller s.old }
{
    let is_called = Cell::new(false);
    let makes = || {
        is_called.set(true);
        4
    };
    match Owned::new_with(makes, s) {
        Ok(_owner) => panic!(rt; "no slot is free"),
        Err((_back, refused)) => assert_eq!(rt; refused, Refused::NoSlot),
    }
    match Shared::new_with(makes, s) {
        Ok(_owner) => panic!(rt; "no slot is free"),
        Err((_back, refused)) => assert_eq!(rt; refused, Refused::NoSlot),
    }
    assert!(rt; !is_called.get());
    match Shared::new(3, s) {
        Ok(_owner) => panic!(rt; "no slot is free"),
        Err(back) => assert_eq!(rt; back, (3, Refused::NoSlot)),
    }
}

/// The slots are full, also after the first item was retired, until that was reclaimed.
fn fills_both_slots(rt: &(impl Abort + AllocGlobal), participants: u64) {
    let domain = new_domain::<u64>(rt, two_slots(participants));
    let mut local = registered(rt, &domain);
    let first = owned_item(rt, &mut local, 1);
    let second = owned_item(rt, &mut local, 2);
    has_no_slot(rt, &mut local, 3);
    is_refused(rt, &mut local);
    first.retire(&mut local);
    has_no_slot(rt, &mut local, 3);
    is_refused(rt, &mut local);
    turns(rt, &mut local, 4);
    let third = shared_item(rt, &mut local, 3);
    has_no_slot(rt, &mut local, 4);
    is_refused(rt, &mut local);
    assert_eq!(rt; (*second.get(&local), *third.get(&local)), (2, 3));
    second.retire(&mut local);
    assert!(rt; released(&mut local, third));
    let receipt = ended(rt, local);
    is_tally(rt, closed_with_one(rt, domain, receipt), 3, 3);
}

#[test]
fn a_full_domain_refuses_until_an_item_was_reclaimed(rt: HostRuntime) {
    for participants in [1, 2] {
        fills_both_slots(&rt, participants);
    }
}
