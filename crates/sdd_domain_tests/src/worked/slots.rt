//! In which slots the items of several participants lie, and what the close of a domain with many slots refuses.
ghost use Rattle.std.specs.Prelude.{◌≡◌};
ghost use Rattle.sdd_space.specs.CallerId.{IsSeated};
ghost use Rattle.sdd_domain.specs.Space.{caller_of};

use crate::steps::{
    ONE_SLOT, add, closed, ended, has_no_slot, is_tally, made, new_domain, not_closed, registered,
    retire, turns,
};
use sdd_core::Limits;
use sdd_domain::Local;
use sdd_space::inner::slot_of_owner;
use std::process::Abort;

/// Three slots for each participant.
const TWELVE_SLOTS: Limits = Limits {
    participants: 4,
    slots: 12,
    ..ONE_SLOT
};

const EIGHT_SLOTS: Limits = Limits {
    participants: 2,
    slots: 8,
    ..ONE_SLOT
};

/// More slots than 2^12.
const MANY_SLOTS: Limits = Limits {
    participants: 2,
    slots: 5000,
    ..ONE_SLOT
};

/// Makes an item in this slot, and retires it.
fn uses_slot(rt: &impl Abort, local: &mut Local<'_, u64>, slot: u32)
    requires { IsSeated (caller_of local.old) }
    ensures { caller_of local.new ≡ caller_of local.old }
{
    let owner = made(rt, local, u64::from(slot));
    assert_eq!(rt; slot_of_owner(&owner).number(), slot);
    retire(owner, local);
}

/// Makes so many items while each one before has an owner still, in twelve slots, from this one on and once round. Then no slot is free. Retires all.
fn fills(rt: &impl Abort, local: &mut Local<'_, u64>, slot: u32, items: u32)
    requires { IsSeated (caller_of local.old) }
    ensures { caller_of local.new ≡ caller_of local.old }
{
    if items == 0 {
        has_no_slot(rt, local, 100);
        return;
    }
    let owner = made(rt, local, u64::from(slot));
    assert_eq!(rt; slot_of_owner(&owner).number(), slot);
    fills(rt, local, slot.wrapping_add(1) % 12, items - 1);
    retire(owner, local);
}

#[test]
fn each_participant_looks_first_in_a_share_of_its_own(rt: HostRuntime) {
    let domain = new_domain::<u64>(&rt, TWELVE_SLOTS);
    let mut first = registered(&rt, &domain);
    let mut second = registered(&rt, &domain);
    let mut third = registered(&rt, &domain);
    let mut fourth = registered(&rt, &domain);
    uses_slot(&rt, &mut fourth, 9);
    uses_slot(&rt, &mut second, 3);
    uses_slot(&rt, &mut first, 0);
    uses_slot(&rt, &mut third, 6);
    uses_slot(&rt, &mut first, 1);
    let mut receipts = vec![in rt.alloc(); ended(&rt, first)].expect(&rt, "there is memory");
    add(&rt, &domain, &mut receipts, ended(&rt, second));
    add(&rt, &domain, &mut receipts, ended(&rt, third));
    add(&rt, &domain, &mut receipts, ended(&rt, fourth));
    is_tally(&rt, closed(&rt, domain, receipts), 5, 5);
}

#[test]
fn a_walk_goes_round_all_slots(rt: HostRuntime) {
    let domain = new_domain::<u64>(&rt, TWELVE_SLOTS);
    let first = registered(&rt, &domain);
    let second = registered(&rt, &domain);
    let mut third = registered(&rt, &domain);
    fills(&rt, &mut third, 6, 12);
    ended(&rt, first);
    ended(&rt, second);
    let receipts = vec![in rt.alloc(); ended(&rt, third)].expect(&rt, "there is memory");
    is_tally(&rt, closed(&rt, domain, receipts), 12, 12);
}

/// Makes so many items while each one before has an owner still. Then no slot is free. Retires all.
fn fills_all(rt: &impl Abort, local: &mut Local<'_, u64>, items: u64)
    requires { IsSeated (caller_of local.old) }
    ensures { caller_of local.new ≡ caller_of local.old }
{
    if items == 0 {
        has_no_slot(rt, local, 100);
        return;
    }
    let owner = made(rt, local, items);
    fills_all(rt, local, items - 1);
    retire(owner, local);
}

/// The other one finds none at first, and all of them once they were given back. Then it gives them back, and the first one finds them, of which it
/// remembers that it gave them back too.
#[test]
fn a_slot_that_another_participant_gave_back_is_found(rt: HostRuntime) {
    let domain = new_domain::<u64>(&rt, EIGHT_SLOTS);
    let mut one = registered(&rt, &domain);
    let mut other = registered(&rt, &domain);
    fills_all(&rt, &mut one, 8);
    has_no_slot(&rt, &mut other, 9);
    turns(&rt, &mut one, 4);
    is_tally(&rt, one.tally(), 8, 8);
    fills_all(&rt, &mut other, 8);
    has_no_slot(&rt, &mut one, 9);
    turns(&rt, &mut other, 4);
    is_tally(&rt, other.tally(), 8, 8);
    fills_all(&rt, &mut one, 8);
    let receipts = vec![in rt.alloc(); ended(&rt, one), ended(&rt, other)].expect(
        &rt,
        "there is memory",
    );
    is_tally(&rt, closed(&rt, domain, receipts), 24, 24);
}

/// Uses each slot from one up to another one.
fn uses_slots(rt: &impl Abort, local: &mut Local<'_, u64>, from: u32, to: u32)
    requires { IsSeated (caller_of local.old) }
    ensures { caller_of local.new ≡ caller_of local.old }
{
    for slot in from..to {
        uses_slot(rt, local, slot);
    }
}

/// A domain is not closed while the item in this slot has an owner, and all others wait. Once that was retired too it is closed.
fn closes_without_owner_in(rt: &(impl Abort + AllocGlobal), slot: u32) {
    let domain = new_domain::<u64>(rt, MANY_SLOTS);
    let mut local = registered(rt, &domain);
    uses_slots(rt, &mut local, 0, slot);
    let owner = made(rt, &mut local, 7);
    assert_eq!(rt; slot_of_owner(&owner).number(), slot);
    uses_slots(rt, &mut local, slot.saturating_add(1), 5000);
    has_no_slot(rt, &mut local, 8);
    let receipts = vec![in rt.alloc(); ended(rt, local)].expect(rt, "there is memory");
    let (domain, mut receipts) = not_closed(rt, domain, receipts);
    assert_eq!(rt; *owner.get(&domain), 7);
    let mut other = registered(rt, &domain);
    retire(owner, &mut other);
    add(rt, &domain, &mut receipts, ended(rt, other));
    is_tally(rt, closed(rt, domain, receipts), 5000, 5000);
}

#[test]
fn an_owner_in_any_slot_keeps_a_domain_from_its_close(rt: HostRuntime) {
    for slot in [0, 1, 63, 64, 4095, 4096, 4998, 4999] {
        closes_without_owner_in(&rt, slot);
    }
}
