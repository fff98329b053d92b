//! Domains of many participants: each place is given out, and each is asked before the count is raised.
ghost use Rattle.std.specs.Prelude.{◌≡◌};
ghost use Rattle.sdd_space.specs.CallerId.{IsSeated};
ghost use Rattle.sdd_domain.specs.Space.{caller_of};
ghost use Rattle.sdd_domain.specs.Domain.{slots_in};
ghost use Rattle.sdd_domain_tests.specs.Slots.{AreReceiptsIn};

use crate::steps::{ONE_SLOT, add, close, closed, ended, is_tally, new_domain, opened, registered};
use crate::worked::domains::{accelerated, refusal, registered_at_last, shown};
use sdd_core::{Limits, Refused};
use sdd_domain::{Domain, Local, Receipt};
use std::process::Abort;

/// As many participants as may be.
const MOST_PLACES: Limits = Limits {
    participants: 1024,
    ..ONE_SLOT
};

/// Each limit but one at the end of its range, with an eighth of the most slots and cells, as more take a minute.
const GREATEST: Limits = Limits {
    participants: 1,
    slots: 2_097_152,
    cells: 2_097_152,
    jobs: 65_536,
    nesting: 4_294_967_295,
    tries: 65_535,
};

/// One participant more than a word has bits.
const MANY_PLACES: Limits = Limits {
    participants: 65,
    ..ONE_SLOT
};

const THREE_PLACES: Limits = Limits {
    participants: 3,
    ..ONE_SLOT
};

/// So many participants register, each while all before it are there. Then no place is left. They end, the last one first.
fn fill_places(rt: &impl Abort, domain: &Domain<u64>, places: u32, receipts: &mut Vec<Receipt<u64>>)
    requires { AreReceiptsIn (slots_in domain.now) receipts.old.items }
    ensures { AreReceiptsIn (slots_in domain.now) receipts.new.items }
{
    if places == 0 {
        assert!(rt; refusal(rt, domain) == Refused::NoPlace);
        return;
    }
    let local = registered(rt, domain);
    fill_places(rt, domain, places - 1, receipts);
    add(rt, domain, receipts, ended(rt, local));
}

#[test]
fn each_of_1024_places_is_given_out(rt: HostRuntime) {
    let domain = new_domain::<u64>(&rt, MOST_PLACES);
    let mut receipts = Vec::new(rt.alloc());
    fill_places(&rt, &domain, 1024, &mut receipts);
    assert_eq!(rt; receipts.len(), 1024);
    is_tally(&rt, closed(&rt, domain, receipts), 0, 0);
}

/// A body that refuses with `NoMemory` beyond some size meets every contract.
#[test]
fn a_domain_has_the_greatest_limits(rt: HostRuntime) {
    let domain = new_domain::<u64>(&rt, GREATEST);
    let local = registered(&rt, &domain);
    let receipts = vec![in rt.alloc(); ended(&rt, local)].expect(&rt, "there is memory");
    is_tally(&rt, closed(&rt, domain, receipts), 0, 0);
}

/// The accelerated guard of a participant shows this count, whose close raises it by one then.
fn takes_turn(rt: &impl Abort, local: &mut Local<'_, u64>, count: u32)
    requires { IsSeated (caller_of local.old) }
    ensures { caller_of local.new ≡ caller_of local.old }
{
    assert_eq!(rt; u32::from(accelerated(rt, local)), count % 64);
}

/// So many participants register, and each takes a turn then. Once all are there they take turns again, the last one first. So many turns were
/// taken in all.
fn take_turns(rt: &impl Abort, domain: &Domain<u64>, places: u32, before: u32) -> u32 {
    if places == 0 {
        return before;
    }
    let mut local = registered(rt, domain);
    takes_turn(rt, &mut local, before);
    let count = take_turns(rt, domain, places - 1, before.saturating_add(1));
    takes_turn(rt, &mut local, count);
    ended(rt, local);
    count.saturating_add(1)
}

/// No other guard is open at any of these closes.
#[test]
fn each_accelerated_close_of_65_participants_raises_the_count(rt: HostRuntime) {
    let domain = new_domain::<u64>(&rt, MANY_PLACES);
    assert_eq!(rt; take_turns(&rt, &domain, 65, 0), 130);
    is_tally(&rt, closed(&rt, domain, Vec::new(rt.alloc())), 0, 0);
}

/// So many participants register, and do nothing while a guard of the last one is open, and another participant takes turns.
fn hold_count(rt: &impl Abort, domain: &Domain<u64>, places: u32, busy: &mut Local<'_, u64>)
    requires { IsSeated (caller_of busy.old) }
    ensures { caller_of busy.new ≡ caller_of busy.old }
{
    let mut local = registered(rt, domain);
    if places > 1 {
        hold_count(rt, domain, places - 1, busy);
    } else {
        let guard = opened(rt, &mut local);
        takes_turn(rt, busy, 0);
        takes_turn(rt, busy, 1);
        takes_turn(rt, busy, 1);
        assert_eq!(rt; shown(&guard, &mut local), 1);
        close(guard, &mut local);
    }
    ended(rt, local);
}

/// The count is raised once, and then stays. Once the guard is closed it is raised again.
#[test]
fn an_open_guard_at_the_last_of_65_places_holds_the_count(rt: HostRuntime) {
    let domain = new_domain::<u64>(&rt, MANY_PLACES);
    let mut busy = registered(&rt, &domain);
    hold_count(&rt, &domain, 64, &mut busy);
    takes_turn(&rt, &mut busy, 1);
    takes_turn(&rt, &mut busy, 2);
    ended(&rt, busy);
    is_tally(&rt, closed(&rt, domain, Vec::new(rt.alloc())), 0, 0);
}

/// With ample memory each of three registers at once. Under `rt try --test --fail-alloc N` one of them is refused, and then takes its place all the
/// same; and that no place is left is said first, also where there is no memory.
#[test]
fn a_registering_without_memory_takes_no_place(rt: HostRuntime) {
    match Domain::<u64>::new(rt.alloc(), THREE_PLACES) {
        Ok(domain) => {
            let first = registered_at_last(&rt, &domain);
            let second = registered_at_last(&rt, &domain);
            let third = registered_at_last(&rt, &domain);
            assert!(rt; refusal(&rt, &domain) == Refused::NoPlace);
            ended(&rt, first);
            ended(&rt, second);
            ended(&rt, third);
            assert!(rt; refusal(&rt, &domain) == Refused::NoPlace);
            is_tally(&rt, closed(&rt, domain, Vec::new(rt.alloc())), 0, 0);
        }
        Err(refused) => assert_eq!(rt; refused, Refused::NoMemory),
    }
}
