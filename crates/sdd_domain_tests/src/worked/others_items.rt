//! A collector's close takes what waits for it with another participant, and what one left that has ended.
ghost use Rattle.std.specs.Prelude.{◌≡◌};
ghost use Rattle.sdd_space.specs.CallerId.{IsSeated};
ghost use Rattle.sdd_space.specs.Collector.{cells_home};
ghost use Rattle.sdd_domain.specs.Space.{caller_of};

use crate::owners::counted::Counted;
use crate::owners::steps::owned_item;
use crate::steps::{
    TWO_AND_ONE_SLOT, close, closed_with_two, ended, new_domain, opened, registered,
};
use crate::with_jobs::{Total, is_total, number};
use crate::worked::in_place::counts;
use sdd_core::Refused;
use sdd_domain::Local;
use sdd_space::PrivateCollector;
use std::process::Abort;

fn new_collector(rt: &impl Abort, local: &mut Local<'_, Counted>) -> PrivateCollector<Counted>
    requires seated { IsSeated (caller_of local.old) }
    ensures caller { caller_of local.new ≡ caller_of local.old }
    ensures home { cells_home result ≡ (caller_of local.old).home.cells }
{
    PrivateCollector::new(local).expect(rt, "a cell is free")
}

/// A new item waits for a collector with this participant.
fn gives(
    rt: &impl Abort,
    local: &mut Local<'_, Counted>,
    collector: &PrivateCollector<Counted>,
    drops: &Total,
)
    requires seated { IsSeated (caller_of local.old) }
    requires collector { cells_home collector.now ≡ (caller_of local.old).home.cells }
    ensures { caller_of local.new ≡ caller_of local.old }
{
    let owner = owned_item(rt, local, Counted::new(rt, 7, drops));
    let guard = opened(rt, local);
    collector.collect_owned(owner, &guard, local);
    close(guard, local);
}

fn closes(rt: &impl Abort, local: &mut Local<'_, Counted>, collector: PrivateCollector<Counted>)
    requires seated { IsSeated (caller_of local.old) }
    requires collector { cells_home collector ≡ (caller_of local.old).home.cells }
    ensures { caller_of local.new ≡ caller_of local.old }
{
    match collector.close(local) {
        Ok(()) => {}
        Err((_collector, refused)) => panic!(rt; "refused: {refused:?}"),
    }
}

/// A guard is open, and the collector comes back.
fn stays(
    rt: &impl Abort,
    local: &mut Local<'_, Counted>,
    collector: PrivateCollector<Counted>,
) -> PrivateCollector<Counted>
    requires seated { IsSeated (caller_of local.old) }
    requires collector { cells_home collector ≡ (caller_of local.old).home.cells }
    ensures caller { caller_of local.new ≡ caller_of local.old }
    ensures home { cells_home result ≡ cells_home collector }
{
    match collector.close(local) {
        Ok(()) => panic!(rt; "a guard is open"),
        Err((collector, refused)) => {
            assert_eq!(rt; refused, Refused::GuardOpen);
            collector
        }
    }
}

/// As long as a guard of that participant is open, the close is refused.
#[test]
fn what_waits_with_another_goes_at_the_close(rt: HostRuntime) {
    let drops = number(&rt);
    let domain = new_domain::<Counted>(&rt, TWO_AND_ONE_SLOT);
    let mut one = registered(&rt, &domain);
    let mut other = registered(&rt, &domain);
    let collector = new_collector(&rt, &mut one);
    gives(&rt, &mut other, &collector, &drops);
    let guard = opened(&rt, &mut other);
    let collector = stays(&rt, &mut one, collector);
    close(guard, &mut other);
    is_total(&rt, &drops, 0);
    closes(&rt, &mut one, collector);
    is_total(&rt, &drops, 1);
    let (one, other) = (ended(&rt, one), ended(&rt, other));
    counts(&rt, closed_with_two(&rt, domain, one, other), 1, 1, 0);
    is_total(&rt, &drops, 1);
}

#[test]
fn what_one_left_that_has_ended_goes_at_the_close(rt: HostRuntime) {
    let drops = number(&rt);
    let domain = new_domain::<Counted>(&rt, TWO_AND_ONE_SLOT);
    let mut one = registered(&rt, &domain);
    let mut other = registered(&rt, &domain);
    let collector = new_collector(&rt, &mut one);
    gives(&rt, &mut other, &collector, &drops);
    let other = ended(&rt, other);
    is_total(&rt, &drops, 0);
    closes(&rt, &mut one, collector);
    is_total(&rt, &drops, 1);
    let one = ended(&rt, one);
    counts(&rt, closed_with_two(&rt, domain, one, other), 1, 1, 0);
    is_total(&rt, &drops, 1);
}
