//! A configuration of two threads: one makes it wider by exchanges, and one looks, and keeps what it saw beyond its guard.
ghost use Rattle.std.specs.Prelude.{◌≡◌};
ghost use Rattle.sdd_space.specs.CallerId.{IsSeated};
ghost use Rattle.sdd_domain.specs.Domain.{cells_in, slots_in};
ghost use Rattle.sdd_domain.specs.Space.{caller_of};
ghost use Rattle.sdd_domain_tests.specs.Slots.{IsReceiptIn};
ghost use Rattle.sdd_examples.specs.Config.{cells_home};

use crate::steps::{ONE_SLOT, add, closed, ended, new_domain, registered};
use sdd_core::{Limits, Refused};
use sdd_domain::{Domain, Local, Receipt};
use sdd_examples::config::Config;
use sdd_examples::shared_config::{Bounds, keep, looks_twice, widen};
use std::process::Abort;
use std::thread::{Threads, join};

/// More slots than there are items in all.
const LIMITS: Limits = Limits {
    participants: 4,
    slots: 1024,
    cells: 1,
    tries: 1024,
    ..ONE_SLOT
};

/// How often it published wider bounds, and its receipt.
fn widens(
    rt: &impl Abort,
    domain: &Domain<Bounds>,
    config: &Config<Bounds>,
) -> (u64, Receipt<Bounds>)
    requires { cells_home config.now ≡ cells_in domain.now }
    ensures { IsReceiptIn (slots_in domain.now) result.1 }
{
    let mut local = registered(rt, domain);
    let mut times = 0u64;
    for _ in 0..500 {
        if widen(config, 1, &mut local) == Ok(true) {
            times = times.saturating_add(1);
        }
    }
    (times, ended(rt, local))
}

/// How wide the bounds are, which both looks show.
fn width(rt: &impl Abort, local: &mut Local<'_, Bounds>, config: &Config<Bounds>) -> u64
    requires seated { IsSeated (caller_of local.old) }
    requires home { cells_home config.now ≡ (caller_of local.old).home.cells }
    ensures { caller_of local.new ≡ caller_of local.old }
{
    let (first, second) = looks_twice(config, local).expect(rt, "a guard may be opened");
    let bounds = first.expect(rt, "bounds are published");
    let again = second.expect(rt, "bounds are published");
    assert_eq!(rt; bounds.width(), again.width());
    bounds.width()
}

/// How wide the bounds are that an owner has whose guard was closed: as wide as was seen under it. None where what was seen has no owner any more.
fn kept_width(
    rt: &impl Abort,
    local: &mut Local<'_, Bounds>,
    config: &Config<Bounds>,
) -> Option<u64>
    requires seated { IsSeated (caller_of local.old) }
    requires home { cells_home config.now ≡ (caller_of local.old).home.cells }
    ensures { caller_of local.new ≡ caller_of local.old }
{
    match keep(config, local) {
        Ok(Some((bounds, owner))) => {
            let width = owner.get(local).width();
            assert_eq!(rt; width, bounds.width());
            let _ = owner.release(local);
            Some(width)
        }
        Ok(None) => None,
        Err(refused) => {
            assert_eq!(rt; refused, Refused::Contended);
            None
        }
    }
}

/// What a reader sees, or keeps, never gets narrower.
fn looks(rt: &impl Abort, domain: &Domain<Bounds>, config: &Config<Bounds>) -> Receipt<Bounds>
    requires { cells_home config.now ≡ cells_in domain.now }
    ensures { IsReceiptIn (slots_in domain.now) result }
{
    let mut local = registered(rt, domain);
    let mut last = 0u64;
    for _ in 0..500 {
        let seen = width(rt, &mut local, config);
        assert!(rt; last <= seen);
        last = kept_width(rt, &mut local, config).unwrap_or(seen);
        assert!(rt; seen <= last);
    }
    ended(rt, local)
}

/// Bounds without numbers between them.
fn narrow(rt: &impl Abort) -> Bounds {
    Bounds::new(7, 7).expect(rt, "they are in order")
}

/// A configuration with narrow bounds.
fn new_config(rt: &impl Abort, local: &mut Local<'_, Bounds>) -> Config<Bounds>
    requires seated { IsSeated (caller_of local.old) }
    ensures caller { caller_of local.new ≡ caller_of local.old }
    ensures home { cells_home result ≡ (caller_of local.old).home.cells }
{
    match Config::new(narrow(rt), local) {
        Ok(config) => config,
        Err((_bounds, refused)) => panic!(rt; "refused: {refused:?}"),
    }
}

/// What two threads leave, one that makes the bounds wider and one that looks, and how often they were made wider.
fn two_work(
    rt: &(impl Abort + Threads + Sync),
    domain: &Domain<Bounds>,
    config: &Config<Bounds>,
) -> (u64, (Receipt<Bounds>, Receipt<Bounds>))
    requires { cells_home config.now ≡ cells_in domain.now }
    ensures first { IsReceiptIn (slots_in domain.now) result.1.0 }
    ensures second { IsReceiptIn (slots_in domain.now) result.1.1 }
{
    let ((times, writer), reader) = join(
        rt,
        || widens(rt, domain, config),
        || looks(rt, domain, config),
    );
    (times, (writer, reader))
}

/// An exchange that answers that it was done was, and no other one.
#[test]
fn the_bounds_are_as_wide_as_was_published(rt: HostRuntime) {
    let domain = new_domain::<Bounds>(&rt, LIMITS);
    let mut local = registered(&rt, &domain);
    let config = new_config(&rt, &mut local);
    let (times, (writer, reader)) = two_work(&rt, &domain, &config);
    assert!(rt; times > 0);
    assert_eq!(rt; width(&rt, &mut local, &config), times);
    assert_eq!(rt; kept_width(&rt, &mut local, &config), Some(times));
    match config.replace(narrow(&rt), &mut local) {
        Ok(()) => assert_eq!(rt; width(&rt, &mut local, &config), 0),
        Err((_bounds, refused)) => panic!(rt; "refused: {refused:?}"),
    }
    config.close(&mut local);
    let mut receipts = vec![in rt.alloc(); writer, reader].expect(&rt, "there is memory");
    add(&rt, &domain, &mut receipts, ended(&rt, local));
    let tally = closed(&rt, domain, receipts);
    assert_eq!(rt; tally.reclaimed, tally.made);
}
