//! Domains: participants in several threads, the places that they take, and what their guards show.
ghost use Rattle.std.specs.Prelude.{◌≡◌};
ghost use Rattle.sdd_space.specs.CallerId.{IsSeated};
ghost use Rattle.sdd_domain.specs.Space.{caller_of, slots_home};
ghost use Rattle.sdd_domain.specs.Domain.{slots_in};
ghost use Rattle.sdd_domain_tests.specs.Slots.{IsReceiptIn, AreReceiptsIn};

use crate::steps::{close, closed, ended, is_tally, new_domain, opened, registered};
use sdd_core::{Limits, Refused};
use sdd_domain::{Domain, Local, Receipt};
use sdd_space::Guard;
use std::alloc::AllocGlobal;
use std::process::Abort;
use std::thread::{Threads, join};

const SMALL: Limits = Limits {
    participants: 3,
    slots: 8,
    cells: 8,
    jobs: 8,
    nesting: 2,
    tries: 1,
};

/// The same for one participant.
const ONE: Limits = Limits {
    participants: 1,
    ..SMALL
};

/// Where memory is wanting the place stays free, so that a second try takes it.
pub fn registered_at_last<'d>(rt: &impl Abort, domain: &'d Domain<u64>) -> Local<'d, u64>
    ensures { slots_home result ≡ slots_in domain.now }
{
    match Local::register(domain) {
        Ok(local) => local,
        Err(refused) => {
            assert!(rt; refused == Refused::NoMemory);
            registered(rt, domain)
        }
    }
}

/// The epoch that a guard shows now.
pub fn shown(guard: &Guard, local: &mut Local<'_, u64>) -> u8
    requires { IsSeated (caller_of local.old) }
    ensures { caller_of local.new ≡ caller_of local.old }
{
    u8::from(guard.epoch::<u64, Local<'_, u64>>(local))
}

/// Opens, accelerates and closes a guard, and tells which epoch it showed.
pub fn accelerated(rt: &impl Abort, local: &mut Local<'_, u64>) -> u8
    requires { IsSeated (caller_of local.old) }
    ensures { caller_of local.new ≡ caller_of local.old }
{
    let guard = opened(rt, local);
    let epoch = shown(&guard, local);
    guard.accelerate::<u64, Local<'_, u64>>(local);
    close(guard, local);
    epoch
}

/// The accelerated guards of a participant show these epochs.
fn shows(rt: &impl Abort, local: &mut Local<'_, u64>, epochs: &[u8])
    requires { IsSeated (caller_of local.old) }
    ensures { caller_of local.new ≡ caller_of local.old }
{
    for epoch in epochs {
        assert!(rt; accelerated(rt, local) == *epoch);
    }
}

/// What one more guard is refused with.
fn refused_guard(rt: &impl Abort, local: &mut Local<'_, u64>) -> Refused
    requires { IsSeated (caller_of local.old) }
    ensures { caller_of local.new ≡ caller_of local.old }
{
    match Guard::new::<u64, Local<'_, u64>>(local) {
        Ok(_guard) => panic!(rt; "two guards are open"),
        Err(refused) => refused,
    }
}

/// What one more participant is refused with.
pub fn refusal(rt: &impl Abort, domain: &Domain<u64>) -> Refused {
    match Local::register(domain) {
        Ok(_local) => panic!(rt; "a place is free"),
        Err(refused) => refused,
    }
}

/// The domain closes, in which nothing was made.
fn closed_unused(rt: &impl Abort, domain: Domain<u64>, receipts: Vec<Receipt<u64>>)
    requires { AreReceiptsIn (slots_in domain) receipts.items }
{
    is_tally(rt, closed(rt, domain, receipts), 0, 0);
}

/// What a thread does: it registers, runs twenty accelerated guards, and ends.
fn takes_part(rt: &impl Abort, domain: &Domain<u64>) -> Receipt<u64>
    ensures { IsReceiptIn (slots_in domain.now) result }
{
    let mut local = registered(rt, domain);
    for _ in 0..20 {
        accelerated(rt, &mut local);
    }
    ended(rt, local)
}

#[test]
fn two_threads_and_then_one(rt: HostRuntime) {
    let domain = new_domain::<u64>(&rt, SMALL);
    let (first, second) = join(
        &rt,
        || takes_part(&rt, &domain),
        || takes_part(&rt, &domain),
    );
    let mut local = registered(&rt, &domain);
    let start = accelerated(&rt, &mut local);
    assert!(rt; (1..=40).contains(&start));
    for further in 1..4 {
        assert!(rt; accelerated(&rt, &mut local) == start.wrapping_add(further));
    }
    let last = ended(&rt, local);
    let receipts = vec![in rt.alloc(); first, second, last].expect(&rt, "there is memory");
    closed_unused(&rt, domain, receipts);
}

#[test]
fn limits_out_of_range_are_refused(rt: HostRuntime) {
    let out_of_range = [
        Limits {
            participants: 0,
            ..SMALL
        },
        Limits {
            participants: 1025,
            ..SMALL
        },
        Limits {
            slots: 16_777_217,
            ..SMALL
        },
        Limits { tries: 0, ..SMALL },
    ];
    for limits in out_of_range {
        match Domain::<u64>::new(rt.alloc(), limits) {
            Ok(_domain) => panic!(rt; "a limit is out of range"),
            Err(refused) => assert_eq!(rt; refused, Refused::BadLimits),
        }
    }
}

#[test]
fn an_ended_place_is_not_free_again(rt: HostRuntime) {
    let domain = new_domain::<u64>(&rt, ONE);
    let local = registered(&rt, &domain);
    assert!(rt; local.tally().made == 0);
    let receipt = ended(&rt, local);
    assert!(rt; receipt.tally().made == 0);
    assert!(rt; refusal(&rt, &domain) == Refused::NoPlace);
    let receipts = vec![in rt.alloc(); receipt].expect(&rt, "there is memory");
    closed_unused(&rt, domain, receipts);
}

/// Two guards may be open and no third one, and with one open the participant doesn't end.
fn nests_and_ends(rt: &(impl Abort + AllocGlobal), participants: u64) {
    let limits = Limits {
        participants,
        ..SMALL
    };
    let domain = new_domain::<u64>(rt, limits);
    let mut local = registered(rt, &domain);
    let outer = opened(rt, &mut local);
    let inner = opened(rt, &mut local);
    assert!(rt; refused_guard(rt, &mut local) == Refused::TooManyGuards);
    close(inner, &mut local);
    let Err(mut local) = local.end() else {
        panic!(rt; "a guard is open")
    };
    assert!(rt; !outer.has_garbage::<u64, Local<'_, u64>>(&local));
    outer.set_has_garbage::<u64, Local<'_, u64>>(&mut local);
    assert!(rt; outer.has_garbage::<u64, Local<'_, u64>>(&local));
    close(outer, &mut local);
    let receipts = vec![in rt.alloc(); ended(rt, local)].expect(rt, "there is memory");
    closed_unused(rt, domain, receipts);
}

#[test]
fn a_participant_with_a_guard_open_does_not_end(rt: HostRuntime) {
    for participants in [1, 2, 3] {
        nests_and_ends(&rt, participants);
    }
}

#[test]
fn an_open_guard_holds_the_count(rt: HostRuntime) {
    let domain = new_domain::<u64>(&rt, SMALL);
    let mut still = registered(&rt, &domain);
    let mut busy = registered(&rt, &domain);
    let guard = opened(&rt, &mut still);
    shows(&rt, &mut busy, &[0, 1, 1, 1]);
    assert!(rt; shown(&guard, &mut still) == 1);
    close(guard, &mut still);
    shows(&rt, &mut busy, &[1, 2, 3]);
    let receipts = vec![in rt.alloc(); ended(&rt, still), ended(&rt, busy)].expect(
        &rt,
        "there is memory",
    );
    closed_unused(&rt, domain, receipts);
}

#[test]
fn a_guard_shows_the_next_epoch_where_another_participant_raised_the_count(rt: HostRuntime) {
    let domain = new_domain::<u64>(&rt, SMALL);
    let mut still = registered(&rt, &domain);
    let mut busy = registered(&rt, &domain);
    let guard = opened(&rt, &mut still);
    assert!(rt; shown(&guard, &mut still) == 0);
    assert!(rt; accelerated(&rt, &mut busy) == 0);
    assert!(rt; shown(&guard, &mut still) == 1);
    close(guard, &mut still);
    ended(&rt, still);
    ended(&rt, busy);
    closed_unused(&rt, domain, Vec::new(rt.alloc()));
}

/// A domain of one place. Where memory is refused once it is made at the second try.
fn made_at_last<R: Abort + AllocGlobal>(rt: &R) -> Domain<u64> {
    match Domain::new(rt.alloc(), ONE) {
        Ok(domain) => domain,
        Err(refused) => {
            assert_eq!(rt; refused, Refused::NoMemory);
            Domain::new(rt.alloc(), ONE).expect(rt, "memory is refused once")
        }
    }
}

/// With ample memory all are there. Under `rt try --test --fail-alloc N` one of them is refused, takes no place, and is
/// there at the second try.
#[test]
fn only_want_of_memory_refuses(rt: HostRuntime) {
    let domain = made_at_last(&rt);
    let local = registered_at_last(&rt, &domain);
    assert!(rt; refusal(&rt, &domain) == Refused::NoPlace);
    ended(&rt, local);
    closed_unused(&rt, domain, Vec::new(rt.alloc()));
}
