//! Private collectors.
ghost use Rattle.std.specs.Prelude.{◌≡◌};
ghost use Rattle.sdd_space.specs.Collector.{cells_home};
ghost use Rattle.sdd_space.specs.CallerId.{IsSeated};
ghost use Rattle.sdd_space.specs.Shared as shared;

use crate::cells::steps::{close, opened, owned};
use sdd_core::Refused;
use sdd_space::{Collectors, Guards, Items, Owned, PrivateCollector, RawCells, Shared};
use std::process::Abort;

/// A collector for which nothing waits.
pub fn made<S: RawCells<u64> + Collectors<u64>>(rt: &impl Abort, s: &mut S) -> PrivateCollector<u64>
    requires seated { IsSeated (S.caller s.old) }
    ensures caller { S.caller s.new ≡ S.caller s.old }
    ensures home { cells_home result ≡ (S.caller s.new).home.cells }
{
    PrivateCollector::new(s).expect(rt, "a cell is free")
}

/// A new item is collected.
pub fn collect<S: Guards<u64> + Items<u64> + Collectors<u64>>(
    rt: &impl Abort,
    s: &mut S,
    collector: &PrivateCollector<u64>,
    value: u64,
)
    requires seated { IsSeated (S.caller s.old) }
    requires collector { cells_home collector.now ≡ (S.caller s.old).home.cells }
    ensures caller { S.caller s.new ≡ S.caller s.old }
{
    let owner = owned::made(rt, s, value);
    let guard = opened(rt, s);
    collector.collect_owned(owner, &guard, s);
    close(s, guard);
}

/// A shared owner is, and it is told whether it was the last.
pub fn collect_shared<S: Guards<u64> + Collectors<u64>>(
    rt: &impl Abort,
    s: &mut S,
    collector: &PrivateCollector<u64>,
    owner: Shared<u64>,
) -> bool
    requires seated { IsSeated (S.caller s.old) }
    requires collector { cells_home collector.now ≡ (S.caller s.old).home.cells }
    requires home { shared.slots_home owner ≡ (S.caller s.old).home.slots }
    ensures caller { S.caller s.new ≡ S.caller s.old }
{
    let guard = opened(rt, s);
    let was_last = collector.collect_shared(owner, &guard, s);
    close(s, guard);
    was_last
}

/// The collector is closed.
pub fn closed<S: Collectors<u64>>(rt: &impl Abort, s: &mut S, collector: PrivateCollector<u64>)
    requires seated { IsSeated (S.caller s.old) }
    requires collector { cells_home collector ≡ (S.caller s.old).home.cells }
    ensures caller { S.caller s.new ≡ S.caller s.old }
{
    match collector.close(s) {
        Ok(()) => {}
        Err((_collector, refused)) => panic!(rt; "{refused:?}"),
    }
}

/// The collector can't be closed, and comes back.
pub fn refused_close<S: Collectors<u64>>(
    rt: &impl Abort,
    s: &mut S,
    collector: PrivateCollector<u64>,
) -> (PrivateCollector<u64>, Refused)
    requires seated { IsSeated (S.caller s.old) }
    requires collector { cells_home collector ≡ (S.caller s.old).home.cells }
    ensures caller { S.caller s.new ≡ S.caller s.old }
    ensures home { cells_home result.0 ≡ (S.caller s.new).home.cells }
{
    match collector.close(s) {
        Ok(()) => panic!(rt; "the collector is closed"),
        Err(back) => back,
    }
}

/// A slot is free: one more item is made, and retired.
pub fn has_slot<S: Items<u64>>(s: &mut S) -> bool
    requires seated { IsSeated (S.caller s.old) }
    ensures caller { S.caller s.new ≡ S.caller s.old }
{
    match Owned::new(0, s) {
        Ok(owner) => {
            owner.retire(s);
            true
        }
        Err((_value, _refused)) => false,
    }
}
