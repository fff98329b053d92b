//! Private collectors: what they are given goes at its third change, and at their close at latest.
use crate::cells::example::{AMPLE, Example, in_each_space};
use crate::cells::steps::{close, collectors, opened, shared, shows};
use sdd_core::{Limits, Refused};
use sdd_participants::Idle;
use sdd_space::{Deferrals, Space};
use std::process::Abort;

/// An owned and a shared item are collected, and both go at the close.
struct BothKinds;

impl Example for BothKinds {
    fn run<R: Abort, S: Space<u64> + Deferrals<u64, Job = Idle>>(rt: &R, s: &mut S) {
        let collector = collectors::made(rt, s);
        collectors::collect(rt, s, &collector, 37);
        let owner = shared::made(rt, s, 43);
        assert!(rt; collectors::collect_shared(rt, s, &collector, owner));
        let guard = opened(rt, s);
        let (collector, refused) = collectors::refused_close(rt, s, collector);
        assert!(rt; refused == Refused::GuardOpen);
        close(s, guard);
        collectors::closed(rt, s, collector);
    }
}

#[test]
fn all_that_waits_for_a_collector_goes_when_it_is_closed(rt: HostRuntime) {
    let table = [(0, 2, true), (1, 2, false)];
    in_each_space::<BothKinds, _>(&rt, AMPLE, &table, 0);
}

/// The one slot is free at the third change of an item that was collected, and not before.
struct StaysOpen;

impl Example for StaysOpen {
    fn run<R: Abort, S: Space<u64> + Deferrals<u64, Job = Idle>>(rt: &R, s: &mut S) {
        let collector = collectors::made(rt, s);
        collectors::collect(rt, s, &collector, 37);
        shows(rt, s, &[(0, true), (1, true), (2, true)]);
        assert!(rt; !collectors::has_slot(s));
        shows(rt, s, &[(3, false)]);
        assert!(rt; collectors::has_slot(s));
        collectors::closed(rt, s, collector);
    }
}

#[test]
fn an_item_goes_at_its_third_change_while_its_collector_stays_open(rt: HostRuntime) {
    let limits = Limits { slots: 1, ..AMPLE };
    in_each_space::<StaysOpen, _>(&rt, limits, &[], 0);
}
