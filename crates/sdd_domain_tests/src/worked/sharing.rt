//! Items that several participants share, in one thread.
ghost use Rattle.std.specs.Prelude.{◌≡◌};
ghost use Rattle.sdd_space.specs.CallerId.{IsSeated};
ghost use Rattle.sdd_domain.specs.Space.{caller_of};

use crate::steps::{
    TWO_AND_ONE_SLOT, add, close, close_and_scan, closed, ended, has, has_no_slot, is_tally, made,
    new_domain, not_closed, opened, registered, retire, shows, turn, turns,
};
use sdd_domain::Local;
use std::process::Abort;

/// An accelerated guard is opened and closed, after which the participant has made one item, and
/// reclaimed so many.
fn turn_leaves(rt: &impl Abort, local: &mut Local<'_, u64>, reclaimed: u128)
    requires { IsSeated (caller_of local.old) }
    ensures { caller_of local.new ≡ caller_of local.old }
{
    turn(rt, local);
    is_tally(rt, local.tally(), 1, reclaimed);
}

#[test]
fn an_idle_participant_holds_nothing_back(rt: HostRuntime) {
    let domain = new_domain::<u64>(&rt, TWO_AND_ONE_SLOT);
    let idle = registered(&rt, &domain);
    let mut busy = registered(&rt, &domain);
    let owner = made(&rt, &mut busy, 7);
    retire(owner, &mut busy);
    turn_leaves(&rt, &mut busy, 0);
    turn_leaves(&rt, &mut busy, 0);
    turn_leaves(&rt, &mut busy, 0);
    has_no_slot(&rt, &mut busy, 8);
    turn_leaves(&rt, &mut busy, 1);
    let owner = made(&rt, &mut busy, 9);
    retire(owner, &mut busy);
    let receipts = vec![in rt.alloc(); ended(&rt, idle), ended(&rt, busy)].expect(
        &rt,
        "there is memory",
    );
    is_tally(&rt, closed(&rt, domain, receipts), 2, 2);
}

/// The count is raised once, and then stays. Once the guard is closed three openings more reclaim
/// the item: the first of them finds no other epoch.
#[test]
fn an_open_guard_keeps_what_was_seen_under_it(rt: HostRuntime) {
    let domain = new_domain::<u64>(&rt, TWO_AND_ONE_SLOT);
    let mut maker = registered(&rt, &domain);
    let mut reader = registered(&rt, &domain);
    let owner = made(&rt, &mut maker, 7);
    let guard = opened(&rt, &mut reader);
    let seen = shows(&rt, &mut reader, &guard, &owner, 7);
    retire(owner, &mut maker);
    turns(&rt, &mut maker, 10);
    has_no_slot(&rt, &mut maker, 8);
    is_tally(&rt, maker.tally(), 1, 0);
    assert_eq!(rt; *seen, 7);
    close(guard, &mut reader);
    turn_leaves(&rt, &mut maker, 0);
    turn_leaves(&rt, &mut maker, 0);
    turn_leaves(&rt, &mut maker, 1);
    let receipts = vec![in rt.alloc(); ended(&rt, maker), ended(&rt, reader)].expect(
        &rt,
        "there is memory",
    );
    is_tally(&rt, closed(&rt, domain, receipts), 1, 1);
}

/// The guard was open before the item was made, and shows nothing of it.
#[test]
fn any_open_guard_keeps_what_is_retired(rt: HostRuntime) {
    let domain = new_domain::<u64>(&rt, TWO_AND_ONE_SLOT);
    let mut still = registered(&rt, &domain);
    let mut busy = registered(&rt, &domain);
    let guard = opened(&rt, &mut still);
    let owner = made(&rt, &mut busy, 7);
    retire(owner, &mut busy);
    turns(&rt, &mut busy, 10);
    has_no_slot(&rt, &mut busy, 8);
    is_tally(&rt, busy.tally(), 1, 0);
    close(guard, &mut still);
    let receipts = vec![in rt.alloc(); ended(&rt, still), ended(&rt, busy)].expect(
        &rt,
        "there is memory",
    );
    is_tally(&rt, closed(&rt, domain, receipts), 1, 1);
}

/// The other participant raises the count, twice before the first opening. What a nested guard
/// finds counts for nothing.
#[test]
fn only_outermost_openings_of_the_retiring_participant_count(rt: HostRuntime) {
    let domain = new_domain::<u64>(&rt, TWO_AND_ONE_SLOT);
    let mut still = registered(&rt, &domain);
    let mut busy = registered(&rt, &domain);
    let owner = made(&rt, &mut still, 7);
    retire(owner, &mut still);
    turns(&rt, &mut busy, 2);
    let first = opened(&rt, &mut still);
    has(&rt, &still, &first, 0, true);
    close(first, &mut still);
    turn(&rt, &mut busy);
    let second = opened(&rt, &mut still);
    has(&rt, &still, &second, 0, true);
    turn(&rt, &mut busy);
    let nested = opened(&rt, &mut still);
    has(&rt, &still, &nested, 0, true);
    close(nested, &mut still);
    close(second, &mut still);
    let third = opened(&rt, &mut still);
    has(&rt, &still, &third, 1, false);
    close(third, &mut still);
    is_tally(&rt, busy.tally(), 0, 0);
    let receipts = vec![in rt.alloc(); ended(&rt, still), ended(&rt, busy)].expect(
        &rt,
        "there is memory",
    );
    is_tally(&rt, closed(&rt, domain, receipts), 1, 1);
}

/// It is reclaimed by the one that retired it, which finds no other epoch at the first opening.
#[test]
fn one_participant_makes_and_another_one_retires(rt: HostRuntime) {
    let domain = new_domain::<u64>(&rt, TWO_AND_ONE_SLOT);
    let mut maker = registered(&rt, &domain);
    let mut other = registered(&rt, &domain);
    let owner = made(&rt, &mut maker, 7);
    retire(owner, &mut other);
    turns(&rt, &mut other, 3);
    is_tally(&rt, other.tally(), 0, 0);
    turn(&rt, &mut other);
    is_tally(&rt, other.tally(), 0, 1);
    is_tally(&rt, maker.tally(), 1, 0);
    let receipts = vec![in rt.alloc(); ended(&rt, maker), ended(&rt, other)].expect(
        &rt,
        "there is memory",
    );
    is_tally(&rt, closed(&rt, domain, receipts), 1, 1);
}

/// The domain is as it was after that: another participant retires the item, whose maker has ended.
#[test]
fn a_domain_is_not_closed_while_an_item_has_an_owner(rt: HostRuntime) {
    let domain = new_domain::<u64>(&rt, TWO_AND_ONE_SLOT);
    let mut maker = registered(&rt, &domain);
    let owner = made(&rt, &mut maker, 7);
    let receipts = vec![in rt.alloc(); ended(&rt, maker)].expect(&rt, "there is memory");
    let (domain, mut receipts) = not_closed(&rt, domain, receipts);
    assert_eq!(rt; receipts.len(), 1);
    let mut other = registered(&rt, &domain);
    retire(owner, &mut other);
    add(&rt, &domain, &mut receipts, ended(&rt, other));
    is_tally(&rt, closed(&rt, domain, receipts), 1, 1);
}
