//! Spaces whose one cell is taken: what was to lie in another one comes back, and nothing is made for it.
ghost use Rattle.std.specs.Prelude.{◌≡◌};
ghost use Rattle.sdd_space.specs.CallerId.{IsSeated};

use crate::cells::example::{AMPLE, Example, in_each_space};
use crate::cells::steps::{close, opened, owned, owners, shared};
use sdd_core::{Limits, Refused};
use sdd_participants::Idle;
use sdd_space::{
    AtomicOwned, AtomicRaw, AtomicShared, Cells, Deferrals, Items, Look, PrivateCollector,
    RawCells, Space,
};
use std::process::Abort;

/// Values come back that were to lie in a cell.
fn values_come_back<S: Cells<u64>>(rt: &impl Abort, s: &mut S)
    requires seated { IsSeated (S.caller s.old) }
    ensures caller { S.caller s.new ≡ S.caller s.old }
{
    match AtomicOwned::new(15, s) {
        Ok(_cell) => panic!(rt; "no cell is free"),
        Err(back) => assert_eq!(rt; back, (15, Refused::NoCell)),
    }
    match AtomicShared::new(16, s) {
        Ok(_cell) => panic!(rt; "no cell is free"),
        Err(back) => assert_eq!(rt; back, (16, Refused::NoCell)),
    }
}

/// Owners come back that were to lie in a cell.
fn owners_come_back<S: Look<u64> + Items<u64> + Cells<u64>>(rt: &impl Abort, s: &mut S)
    requires seated { IsSeated (S.caller s.old) }
    ensures caller { S.caller s.new ≡ S.caller s.old }
{
    let owner = owned::made(rt, s, 17);
    match AtomicOwned::from(owner, s) {
        Ok(_cell) => panic!(rt; "no cell is free"),
        Err((owner, refused)) => {
            assert_eq!(rt; (*owner.get(s), refused), (17, Refused::NoCell));
            owner.retire(s);
        }
    }
    let owner = shared::made(rt, s, 18);
    match AtomicShared::from(owner, s) {
        Ok(_cell) => panic!(rt; "no cell is free"),
        Err((owner, refused)) => {
            assert_eq!(rt; (*owner.get(s), refused), (18, Refused::NoCell));
            assert!(rt; owner.release(s));
        }
    }
}

/// Cells that hold nothing are refused.
fn none_is_made<S: Cells<u64>>(rt: &impl Abort, s: &mut S)
    requires seated { IsSeated (S.caller s.old) }
    ensures caller { S.caller s.new ≡ S.caller s.old }
{
    match AtomicOwned::<u64>::null(s) {
        Ok(_cell) => panic!(rt; "no cell is free"),
        Err(refused) => assert_eq!(rt; refused, Refused::NoCell),
    }
    match AtomicShared::<u64>::null(s) {
        Ok(_cell) => panic!(rt; "no cell is free"),
        Err(refused) => assert_eq!(rt; refused, Refused::NoCell),
    }
}

/// Raw cells are refused.
fn none_is_bare<S: RawCells<u64>>(rt: &impl Abort, s: &mut S)
    requires seated { IsSeated (S.caller s.old) }
    ensures caller { S.caller s.new ≡ S.caller s.old }
{
    match AtomicRaw::<u64>::null(s) {
        Ok(_cell) => panic!(rt; "no cell is free"),
        Err(refused) => assert_eq!(rt; refused, Refused::NoCell),
    }
}

/// Once the cell is closed another one is made.
struct OneCell;

impl Example for OneCell {
    fn run<R: Abort, S: Space<u64> + Deferrals<u64, Job = Idle>>(rt: &R, s: &mut S) {
        let cell = owned::cell(rt, s, 14);
        values_come_back(rt, s);
        owners_come_back(rt, s);
        none_is_made(rt, s);
        owners::close_cell(s, cell);
        let cell = shared::cell(rt, s, 19);
        let guard = opened(rt, s);
        assert_eq!(rt;
            shared::refused_cell(s, &cell, &guard),
            Some(Refused::NoCell)
        );
        close(s, guard);
        owners::close_cell(s, cell);
    }
}

/// The same of what owns nothing.
struct OneRawCell;

impl Example for OneRawCell {
    fn run<R: Abort, S: Space<u64> + Deferrals<u64, Job = Idle>>(rt: &R, s: &mut S) {
        let cell = owned::cell(rt, s, 14);
        none_is_bare(rt, s);
        owners::close_cell(s, cell);
    }
}

/// A collector is refused.
struct NoCollector;

impl Example for NoCollector {
    fn run<R: Abort, S: Space<u64> + Deferrals<u64, Job = Idle>>(rt: &R, s: &mut S) {
        let cell = owned::cell(rt, s, 14);
        match PrivateCollector::<u64>::new(s) {
            Ok(_collector) => panic!(rt; "no cell is free"),
            Err(refused) => assert_eq!(rt; refused, Refused::NoCell),
        }
        owners::close_cell(s, cell);
    }
}

const FOUR_SLOTS_AND_ONE_CELL: Limits = Limits {
    slots: 4,
    cells: 1,
    ..AMPLE
};

/// Of the four items that there are then each has a slot, so that no value that came back took one.
#[test]
fn what_finds_no_cell_comes_back(rt: HostRuntime) {
    in_each_space::<OneCell, _>(
        &rt,
        FOUR_SLOTS_AND_ONE_CELL,
        &[(0, 0, true), (1, 0, true), (2, 0, true), (3, 4, false)],
        0,
    );
}

#[test]
fn what_owns_nothing_finds_no_cell(rt: HostRuntime) {
    in_each_space::<OneRawCell, _>(
        &rt,
        FOUR_SLOTS_AND_ONE_CELL,
        &[(0, 0, true), (1, 0, true), (2, 0, true), (3, 1, false)],
        0,
    );
}

#[test]
fn a_collector_finds_no_cell(rt: HostRuntime) {
    in_each_space::<NoCollector, _>(
        &rt,
        FOUR_SLOTS_AND_ONE_CELL,
        &[(0, 0, true), (1, 0, true), (2, 0, true), (3, 1, false)],
        0,
    );
}

/// No slot is free, and the value comes back whether a cell is or not.
struct NoSlots;

impl Example for NoSlots {
    fn run<R: Abort, S: Space<u64> + Deferrals<u64, Job = Idle>>(rt: &R, s: &mut S) {
        let owner = owned::made(rt, s, 14);
        match AtomicOwned::new(15, s) {
            Ok(_cell) => panic!(rt; "no slot is free"),
            Err(back) => assert_eq!(rt; back, (15, Refused::NoSlot)),
        }
        let cell = owned::null(rt, s);
        match AtomicShared::new(16, s) {
            Ok(_cell) => panic!(rt; "no slot is free, and no cell"),
            Err(back) => assert_eq!(rt; back, (16, Refused::NoSlot)),
        }
        owners::close_cell(s, cell);
        let cell = owned::cell_from(rt, s, owner);
        owners::close_cell(s, cell);
    }
}

#[test]
fn what_finds_no_slot_comes_back(rt: HostRuntime) {
    let limits = Limits {
        slots: 1,
        cells: 1,
        ..AMPLE
    };
    in_each_space::<NoSlots, _>(&rt, limits, &[], 0);
}
