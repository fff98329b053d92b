//! Items of the only participant of a domain: made, looked at under guards, retired, and reclaimed.
ghost use Rattle.std.specs.Prelude.{◌≡◌};
ghost use Rattle.sdd_space.specs.CallerId.{IsSeated};
ghost use Rattle.sdd_domain.specs.Space.{caller_of};

use crate::steps::{
    ONE_SLOT, close, close_and_scan, closed, ended, has, has_no_slot, is_tally, made, new_domain,
    opened, registered, retire, shows, turn,
};
use sdd_core::{Limits, Refused};
use sdd_domain::Local;
use sdd_space::Owned;
use std::cell::Cell;
use std::process::Abort;

/// Under an accelerated guard of its own no slot is free.
fn turn_without_slot(rt: &impl Abort, local: &mut Local<'_, u64>)
    requires { IsSeated (caller_of local.old) }
    ensures { caller_of local.new ≡ caller_of local.old }
{
    let guard = opened(rt, local);
    has_no_slot(rt, local, 5);
    close_and_scan(guard, local);
}

/// Once a guard is opened so many items were reclaimed, and something waits or not. Its close scans
/// or doesn't.
fn opening_has(
    rt: &impl Abort,
    local: &mut Local<'_, u64>,
    reclaimed: u128,
    waits: bool,
    scans: bool,
)
    requires { IsSeated (caller_of local.old) }
    ensures { caller_of local.new ≡ caller_of local.old }
{
    let guard = opened(rt, local);
    has(rt, local, &guard, reclaimed, waits);
    if scans {
        close_and_scan(guard, local);
    } else {
        close(guard, local);
    }
}

#[test]
fn a_slot_is_free_again_after_three_changes(rt: HostRuntime) {
    let domain = new_domain::<u64>(&rt, ONE_SLOT);
    let mut local = registered(&rt, &domain);
    let owner = made(&rt, &mut local, 7);
    has_no_slot(&rt, &mut local, 8);
    retire(owner, &mut local);
    turn_without_slot(&rt, &mut local);
    turn_without_slot(&rt, &mut local);
    turn_without_slot(&rt, &mut local);
    is_tally(&rt, local.tally(), 1, 0);
    turn(&rt, &mut local);
    is_tally(&rt, local.tally(), 1, 1);
    let owner = made(&rt, &mut local, 9);
    has_no_slot(&rt, &mut local, 10);
    retire(owner, &mut local);
    let receipts = vec![in rt.alloc(); ended(&rt, local)].expect(&rt, "there is memory");
    is_tally(&rt, closed(&rt, domain, receipts), 2, 2);
}

/// The openings that find another epoch are the first, the fourth and the fifth after the
/// retirement.
#[test]
fn an_item_is_reclaimed_at_the_third_opening_that_finds_another_epoch(rt: HostRuntime) {
    let domain = new_domain::<u64>(&rt, ONE_SLOT);
    let mut local = registered(&rt, &domain);
    let guard = opened(&rt, &mut local);
    let owner = made(&rt, &mut local, 7);
    has(&rt, &local, &guard, 0, false);
    retire(owner, &mut local);
    has(&rt, &local, &guard, 0, true);
    close_and_scan(guard, &mut local);
    opening_has(&rt, &mut local, 0, true, false);
    opening_has(&rt, &mut local, 0, true, false);
    opening_has(&rt, &mut local, 0, true, true);
    opening_has(&rt, &mut local, 0, true, true);
    opening_has(&rt, &mut local, 1, false, true);
    opening_has(&rt, &mut local, 1, false, false);
    let receipts = vec![in rt.alloc(); ended(&rt, local)].expect(&rt, "there is memory");
    is_tally(&rt, closed(&rt, domain, receipts), 1, 1);
}

#[test]
fn where_no_slot_is_free_a_closure_comes_back_uncalled(rt: HostRuntime) {
    let domain = new_domain::<u64>(&rt, ONE_SLOT);
    let mut local = registered(&rt, &domain);
    let is_called = Cell::new(false);
    let makes = || {
        is_called.set(true);
        70
    };
    let guard = opened(&rt, &mut local);
    let Ok(owner) = Owned::new_with(makes, &mut local) else {
        panic!(rt; "a slot is free")
    };
    assert!(rt; is_called.replace(false));
    shows(&rt, &mut local, &guard, &owner, 70);
    match Owned::new_with(makes, &mut local) {
        Ok(_owner) => panic!(rt; "no slot is free"),
        Err((_back, refused)) => assert_eq!(rt; refused, Refused::NoSlot),
    }
    assert!(rt; !is_called.get());
    retire(owner, &mut local);
    close(guard, &mut local);
    let receipts = vec![in rt.alloc(); ended(&rt, local)].expect(&rt, "there is memory");
    is_tally(&rt, closed(&rt, domain, receipts), 1, 1);
}

/// The inner guard keeps what was seen under it, after the item was retired and the outer guard
/// closed.
#[test]
fn looks_under_nested_guards_show_one_value(rt: HostRuntime) {
    let domain = new_domain::<u64>(&rt, ONE_SLOT);
    let mut local = registered(&rt, &domain);
    let outer = opened(&rt, &mut local);
    let owner = made(&rt, &mut local, 7);
    let first = shows(&rt, &mut local, &outer, &owner, 7);
    let inner = opened(&rt, &mut local);
    let second = shows(&rt, &mut local, &inner, &owner, 7);
    let third = owner.get_guarded_ptr(&inner, &mut local);
    retire(owner, &mut local);
    assert_eq!(rt; *first, 7);
    close_and_scan(outer, &mut local);
    assert_eq!(rt; *second, 7);
    assert!(rt; third.as_ref(&local) == Some(&7));
    close(inner, &mut local);
    let receipts = vec![in rt.alloc(); ended(&rt, local)].expect(&rt, "there is memory");
    is_tally(&rt, closed(&rt, domain, receipts), 1, 1);
}

/// Through the domain it looks whoever opens guards meanwhile; it looks through the participant too, which leads to the domain.
#[test]
fn an_owner_looks_without_a_guard(rt: HostRuntime) {
    let domain = new_domain::<u64>(&rt, ONE_SLOT);
    let mut local = registered(&rt, &domain);
    let owner = made(&rt, &mut local, 7);
    let seen = owner.get(&domain);
    turn(&rt, &mut local);
    turn(&rt, &mut local);
    assert_eq!(rt; *seen, 7);
    assert_eq!(rt; *owner.get(&local), 7);
    assert_eq!(rt; *owner.get(local.domain()), 7);
    retire(owner, &mut local);
    let receipts = vec![in rt.alloc(); ended(&rt, local)].expect(&rt, "there is memory");
    is_tally(&rt, closed(&rt, domain, receipts), 1, 1);
}
