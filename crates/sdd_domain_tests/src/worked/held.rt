//! Values of a domain that hold owners of other items: what is reclaimed gives them up, and they wait from then on.
ghost use Rattle.std.specs.Prelude.{◌≡◌};
ghost use Rattle.sdd_world_model.specs.OwnerOrCell.{AreOf};
ghost use Rattle.sdd_space.specs.Owned as owned;
ghost use Rattle.sdd_space.specs.CallerId.{IsSeated};
ghost use Rattle.sdd_domain.specs.Space.{caller_of, slots_home};
ghost use Rattle.sdd_domain_tests.specs.Held.{holdings_of};

use crate::node::Node;
use crate::steps::{
    ONE_SLOT, add, close_and_scan, closed, ended, is_tally, new_domain, not_closed, opened,
    registered, turn, turns,
};
use crate::worked::in_place::counts;
use sdd_core::Limits;
use sdd_domain::Local;
use sdd_space::Owned;
use std::process::Abort;

/// Three slots.
const THREE_SLOTS: Limits = Limits {
    slots: 3,
    ..ONE_SLOT
};

/// The same for two participants.
const TWO_AND_THREE_SLOTS: Limits = Limits {
    participants: 2,
    ..THREE_SLOTS
};

fn number_of(node: &Node) -> u64 {
    match node {
        Node::Last(number) | Node::Before(number, _) | Node::Beside(number, _) => *number,
    }
}

/// A free slot takes this value.
fn made(rt: &impl Abort, local: &mut Local<'_, Node>, value: Node) -> Owned<Node>
    requires seated { IsSeated (caller_of local.old) }
    requires home { AreOf (caller_of local.old).home (holdings_of value) }
    ensures caller { caller_of local.new ≡ caller_of local.old }
    ensures home { owned.slots_home result ≡ slots_home local.old }
{
    match Owned::new(value, local) {
        Ok(owner) => owner,
        Err((_value, refused)) => panic!(rt; "refused: {refused:?}"),
    }
}

/// Three items, each of which but the last holds the owner of the next. The owner of the first.
fn three(rt: &impl Abort, local: &mut Local<'_, Node>) -> Owned<Node>
    requires seated { IsSeated (caller_of local.old) }
    ensures caller { caller_of local.new ≡ caller_of local.old }
    ensures home { owned.slots_home result ≡ slots_home local.old }
{
    let third = made(rt, local, Node::Last(3));
    let second = made(rt, local, Node::Before(2, third));
    made(rt, local, Node::Before(1, second))
}

/// After so many turns so many items are reclaimed.
fn turns_reclaim(rt: &impl Abort, local: &mut Local<'_, Node>, times: u32, reclaimed: u128)
    requires { IsSeated (caller_of local.old) }
    ensures { caller_of local.new ≡ caller_of local.old }
{
    turns(rt, local, times);
    is_tally(rt, local.tally(), 3, reclaimed);
}

/// The first one goes at the fourth opening, and each other three changes after the one before it.
#[test]
fn what_a_value_held_waits_from_its_reclaiming_on(rt: HostRuntime) {
    let domain = new_domain::<Node>(&rt, THREE_SLOTS);
    let mut local = registered(&rt, &domain);
    let owner = three(&rt, &mut local);
    assert_eq!(rt; number_of(owner.get(&local)), 1);
    owner.retire(&mut local);
    turns_reclaim(&rt, &mut local, 3, 0);
    turns_reclaim(&rt, &mut local, 1, 1);
    turns_reclaim(&rt, &mut local, 2, 1);
    turns_reclaim(&rt, &mut local, 1, 2);
    turns_reclaim(&rt, &mut local, 2, 2);
    turns_reclaim(&rt, &mut local, 1, 3);
    let receipts = vec![in rt.alloc(); ended(&rt, local)].expect(&rt, "there is memory");
    is_tally(&rt, closed(&rt, domain, receipts), 3, 3);
}

/// Whether anything waits is decided once all was given up.
#[test]
fn what_was_given_up_is_garbage(rt: HostRuntime) {
    let domain = new_domain::<Node>(&rt, THREE_SLOTS);
    let mut local = registered(&rt, &domain);
    let owner = three(&rt, &mut local);
    owner.retire(&mut local);
    turns(&rt, &mut local, 3);
    let guard = opened(&rt, &mut local);
    is_tally(&rt, local.tally(), 3, 1);
    assert!(rt; guard.has_garbage::<Node, Local<'_, Node>>(&local));
    close_and_scan(guard, &mut local);
    turns(&rt, &mut local, 5);
    let guard = opened(&rt, &mut local);
    is_tally(&rt, local.tally(), 3, 3);
    assert!(rt; !guard.has_garbage::<Node, Local<'_, Node>>(&local));
    close_and_scan(guard, &mut local);
    let receipts = vec![in rt.alloc(); ended(&rt, local)].expect(&rt, "there is memory");
    is_tally(&rt, closed(&rt, domain, receipts), 3, 3);
}

/// The participant that reclaims a value retires what it held, whoever made it.
#[test]
fn another_participant_retires_what_a_value_held(rt: HostRuntime) {
    let domain = new_domain::<Node>(&rt, TWO_AND_THREE_SLOTS);
    let mut maker = registered(&rt, &domain);
    let mut other = registered(&rt, &domain);
    let owner = three(&rt, &mut maker);
    owner.retire(&mut other);
    turns(&rt, &mut other, 10);
    is_tally(&rt, maker.tally(), 3, 0);
    is_tally(&rt, other.tally(), 0, 3);
    let mut receipts = vec![in rt.alloc(); ended(&rt, maker)].expect(&rt, "there is memory");
    receipts
        .push(ended(&rt, other))
        .expect(&rt, "there is memory");
    is_tally(&rt, closed(&rt, domain, receipts), 3, 3);
}

/// The close of a domain reclaims what waits, and what that gives up then, one after another.
#[test]
fn the_close_reclaims_what_a_value_held(rt: HostRuntime) {
    let domain = new_domain::<Node>(&rt, THREE_SLOTS);
    let mut local = registered(&rt, &domain);
    let owner = three(&rt, &mut local);
    owner.retire(&mut local);
    turn(&rt, &mut local);
    let receipts = vec![in rt.alloc(); ended(&rt, local)].expect(&rt, "there is memory");
    is_tally(&rt, closed(&rt, domain, receipts), 3, 3);
}

/// What waits with one participant may hold the owner of what another one made.
#[test]
fn the_close_reclaims_what_waits_with_each_participant(rt: HostRuntime) {
    let domain = new_domain::<Node>(&rt, TWO_AND_THREE_SLOTS);
    let mut maker = registered(&rt, &domain);
    let mut other = registered(&rt, &domain);
    let last = made(&rt, &mut maker, Node::Last(3));
    let before = made(&rt, &mut other, Node::Before(2, last));
    let alone = made(&rt, &mut maker, Node::Last(1));
    alone.retire(&mut maker);
    before.retire(&mut other);
    let mut receipts = vec![in rt.alloc(); ended(&rt, maker)].expect(&rt, "there is memory");
    receipts
        .push(ended(&rt, other))
        .expect(&rt, "there is memory");
    is_tally(&rt, closed(&rt, domain, receipts), 3, 3);
}

/// A close that is refused has reclaimed what waited, and nothing that an owner has. Once that has gone the domain is closed.
#[test]
fn a_refused_close_reclaims_what_waits(rt: HostRuntime) {
    let domain = new_domain::<Node>(&rt, TWO_AND_THREE_SLOTS);
    let mut local = registered(&rt, &domain);
    let kept = made(&rt, &mut local, Node::Last(3));
    let last = made(&rt, &mut local, Node::Last(2));
    let before = made(&rt, &mut local, Node::Before(1, last));
    before.retire(&mut local);
    let receipt = ended(&rt, local);
    is_tally(&rt, receipt.tally(), 3, 0);
    assert!(rt; receipt.waits());
    let receipts = vec![in rt.alloc(); receipt].expect(&rt, "there is memory");
    let (domain, mut receipts) = not_closed(&rt, domain, receipts);
    for receipt in &receipts {
        is_tally(&rt, receipt.tally(), 3, 2);
        assert!(rt; !receipt.waits());
    }
    assert_eq!(rt; receipts.len(), 1);
    assert_eq!(rt; number_of(kept.get(&domain)), 3);
    let mut other = registered(&rt, &domain);
    kept.retire(&mut other);
    add(&rt, &domain, &mut receipts, ended(&rt, other));
    is_tally(&rt, closed(&rt, domain, receipts), 3, 3);
}

/// Whose receipt is gone with which items wait, takes part for ever.
#[test]
fn a_domain_is_not_closed_without_a_receipt_with_which_items_wait(rt: HostRuntime) {
    let domain = new_domain::<Node>(&rt, THREE_SLOTS);
    let mut local = registered(&rt, &domain);
    let owner = made(&rt, &mut local, Node::Last(1));
    owner.retire(&mut local);
    assert!(rt; ended(&rt, local).waits());
    let (domain, _receipts) = not_closed(&rt, domain, Vec::new(rt.alloc()));
    domain.leak();
}

/// What a value holds waits from the moment on in which it is dropped in its place.
#[test]
fn a_value_that_is_dropped_in_its_place_gives_up_at_once(rt: HostRuntime) {
    let domain = new_domain::<Node>(&rt, TWO_AND_THREE_SLOTS);
    let mut maker = registered(&rt, &domain);
    let mut other = registered(&rt, &domain);
    let owner = three(&rt, &mut maker);
    match owner.drop_in_place(&mut other) {
        Ok(()) => {}
        Err((_owner, refused)) => panic!(rt; "refused: {refused:?}"),
    }
    counts(&rt, other.tally(), 0, 0, 1);
    let guard = opened(&rt, &mut other);
    assert!(rt; guard.has_garbage::<Node, Local<'_, Node>>(&other));
    close_and_scan(guard, &mut other);
    turns(&rt, &mut other, 2);
    counts(&rt, other.tally(), 0, 0, 1);
    turn(&rt, &mut other);
    counts(&rt, other.tally(), 0, 1, 1);
    let mut receipts = vec![in rt.alloc(); ended(&rt, maker)].expect(&rt, "there is memory");
    receipts
        .push(ended(&rt, other))
        .expect(&rt, "there is memory");
    counts(&rt, closed(&rt, domain, receipts), 3, 2, 1);
}
