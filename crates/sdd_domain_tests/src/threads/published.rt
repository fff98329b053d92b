//! A cell whose item one thread replaces, while others look at it under guards.
ghost use Rattle.std.specs.Prelude.{◌≡◌};
ghost use Rattle.sdd_space.specs.CallerId.{IsSeated};
ghost use Rattle.sdd_space.specs.Shared as shared;
ghost use Rattle.sdd_domain.specs.Domain.{cells_in, slots_in};
ghost use Rattle.sdd_domain.specs.Space.{caller_of};
ghost use Rattle.sdd_domain_tests.specs.Slots.{IsReceiptIn};

use crate::owners::steps::{released, shared_item};
use crate::steps::{
    ONE_SLOT, add, close_and_scan, closed, ended, is_tally, new_domain, opened, registered, turn,
};
use sdd_core::{Limits, Tag};
use sdd_domain::{Domain, Local, Receipt};
use sdd_space::AtomicShared;
use std::process::Abort;
use std::thread::{Threads, join};

/// More slots than there are items in all.
const LIMITS: Limits = Limits {
    participants: 4,
    slots: 600,
    cells: 1,
    tries: 600,
    ..ONE_SLOT
};

/// Another item takes the place of the one in the cell, which goes: nobody else owns it.
fn replaces(rt: &impl Abort, local: &mut Local<'_, u64>, cell: &AtomicShared<u64>, value: u64)
    requires seated { IsSeated (caller_of local.old) }
    requires home { shared.cells_home cell.now ≡ (caller_of local.old).home.cells }
    ensures { caller_of local.new ≡ caller_of local.old }
{
    let next = shared_item(rt, local, value);
    let (old, tag) = cell.swap((Some(next), Tag::None), local);
    assert!(rt; tag == Tag::None);
    match old {
        Some(owner) => {
            assert_eq!(rt; *owner.get(local), value.wrapping_sub(1));
            assert!(rt; released(local, owner));
        }
        None => panic!(rt; "the cell holds an owner"),
    }
}

/// What the writer's thread does.
fn writes(rt: &impl Abort, domain: &Domain<u64>, cell: &AtomicShared<u64>) -> Receipt<u64>
    requires home { shared.cells_home cell.now ≡ cells_in domain.now }
    ensures { IsReceiptIn (slots_in domain.now) result }
{
    let mut local = registered(rt, domain);
    for value in 1..501u64 {
        replaces(rt, &mut local, cell, value);
        turn(rt, &mut local);
    }
    ended(rt, local)
}

/// Two looks through one pointer, which are equal. What they show.
fn looks_twice(rt: &impl Abort, local: &mut Local<'_, u64>, cell: &AtomicShared<u64>) -> u64
    requires seated { IsSeated (caller_of local.old) }
    requires home { shared.cells_home cell.now ≡ (caller_of local.old).home.cells }
    ensures { caller_of local.new ≡ caller_of local.old }
{
    let guard = opened(rt, local);
    let ptr = cell.load(&guard, local);
    let first = ptr.as_ref(local).copied();
    let later = cell.load(&guard, local).as_ref(local).copied();
    let second = ptr.as_ref(local).copied();
    assert_eq!(rt; first, second);
    close_and_scan(guard, local);
    let first = first.expect(rt, "the cell holds an owner");
    assert!(rt; first <= later.expect(rt, "the cell holds an owner"));
    first
}

/// What a reader's thread does. What it sees is never older than what it saw.
fn reads(rt: &impl Abort, domain: &Domain<u64>, cell: &AtomicShared<u64>) -> Receipt<u64>
    requires home { shared.cells_home cell.now ≡ cells_in domain.now }
    ensures { IsReceiptIn (slots_in domain.now) result }
{
    let mut local = registered(rt, domain);
    let mut last = 0u64;
    for _ in 0..500 {
        let seen = looks_twice(rt, &mut local, cell);
        assert!(rt; last <= seen);
        last = seen;
    }
    ended(rt, local)
}

/// What two readers leave.
fn two_read(
    rt: &(impl Abort + Threads + Sync),
    domain: &Domain<u64>,
    cell: &AtomicShared<u64>,
) -> (Receipt<u64>, Receipt<u64>)
    requires home { shared.cells_home cell.now ≡ cells_in domain.now }
    ensures { IsReceiptIn (slots_in domain.now) result.0 × IsReceiptIn (slots_in domain.now) result.1 }
{
    join(rt, || reads(rt, domain, cell), || reads(rt, domain, cell))
}

/// What a writer leaves, and two readers beside it.
fn three_share(
    rt: &(impl Abort + Threads + Sync),
    domain: &Domain<u64>,
    cell: &AtomicShared<u64>,
) -> (Receipt<u64>, (Receipt<u64>, Receipt<u64>))
    requires home { shared.cells_home cell.now ≡ cells_in domain.now }
    ensures writer { IsReceiptIn (slots_in domain.now) result.0 }
    ensures readers { IsReceiptIn (slots_in domain.now) result.1.0 × IsReceiptIn (slots_in domain.now) result.1.1 }
{
    join(
        rt,
        || writes(rt, domain, cell),
        ||
            requires { shared.cells_home cell.now ≡ cells_in domain.now }
        { two_read(rt, domain, cell) },
    )
}

/// A cell that holds the number 0.
fn new_cell(rt: &impl Abort, local: &mut Local<'_, u64>) -> AtomicShared<u64>
    requires seated { IsSeated (caller_of local.old) }
    ensures caller { caller_of local.new ≡ caller_of local.old }
    ensures home { shared.cells_home result ≡ (caller_of local.old).home.cells }
{
    match AtomicShared::new(0, local) {
        Ok(cell) => cell,
        Err((_value, refused)) => panic!(rt; "refused: {refused:?}"),
    }
}

#[test]
fn readers_look_at_what_a_writer_replaces(rt: HostRuntime) {
    let domain = new_domain::<u64>(&rt, LIMITS);
    let mut local = registered(&rt, &domain);
    let cell = new_cell(&rt, &mut local);
    let (written, (one, other)) = three_share(&rt, &domain, &cell);
    cell.close(&mut local);
    let mut receipts = vec![in rt.alloc(); written, one, other].expect(&rt, "there is memory");
    add(&rt, &domain, &mut receipts, ended(&rt, local));
    is_tally(&rt, closed(&rt, domain, receipts), 501, 501);
}
