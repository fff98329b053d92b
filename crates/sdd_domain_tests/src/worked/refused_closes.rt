//! Domains that can't be closed as long as one item is out, while another one waited.
ghost use Rattle.std.specs.Prelude.{◌≡◌};
ghost use Rattle.sdd_domain.specs.Domain.{slots_in};
ghost use Rattle.sdd_domain_tests.specs.Slots.{IsReceiptIn, AreReceiptsIn};

use crate::owners::steps::{copied, owned_item, released, shared_item};
use crate::steps::{
    ONE_SLOT, add, closed, closed_with_one, ended, is_tally, new_domain, not_closed, registered,
    retire,
};
use crate::worked::domains::refusal;
use sdd_core::{Limits, Refused};
use sdd_domain::{Domain, Receipt};
use sdd_space::Owned;
use std::process::Abort;

/// The only participant has two slots.
const ONE_AND_TWO_SLOTS: Limits = Limits {
    slots: 2,
    ..ONE_SLOT
};

/// Two participants share two slots.
const TWO_AND_TWO_SLOTS: Limits = Limits {
    participants: 2,
    ..ONE_AND_TWO_SLOTS
};

/// What waited was reclaimed by the close, and the one that is out wasn't.
fn comes_back(
    rt: &(impl Abort + AllocGlobal),
    domain: Domain<u64>,
    receipt: Receipt<u64>,
) -> (Domain<u64>, Vec<Receipt<u64>>)
    requires { IsReceiptIn (slots_in domain) receipt }
    ensures { (result.0 ≡ domain) × AreReceiptsIn (slots_in domain) result.1.items }
{
    is_tally(rt, receipt.tally(), 2, 0);
    let receipts = vec![in rt.alloc(); receipt].expect(rt, "there is memory");
    let (domain, receipts) = not_closed(rt, domain, receipts);
    for receipt in &receipts {
        is_tally(rt, receipt.tally(), 2, 1);
    }
    (domain, receipts)
}

/// With the receipt of who spent the last item the domain is closed.
fn closes(rt: &impl Abort, domain: Domain<u64>, mut receipts: Vec<Receipt<u64>>, last: Receipt<u64>)
    requires receipts { AreReceiptsIn (slots_in domain) receipts.items }
    requires last { IsReceiptIn (slots_in domain) last }
{
    add(rt, &domain, &mut receipts, last);
    is_tally(rt, closed(rt, domain, receipts), 2, 2);
}

/// Where there was one participant nobody comes after it: what it left out as raw stays out, and each close is refused.
#[test]
fn what_the_only_participant_left_out_keeps_a_domain(rt: HostRuntime) {
    let domain = new_domain::<u64>(&rt, ONE_AND_TWO_SLOTS);
    let mut local = registered(&rt, &domain);
    let first = owned_item(&rt, &mut local, 1);
    let second = owned_item(&rt, &mut local, 2);
    second.into_raw(&mut local);
    retire(first, &mut local);
    let receipt = ended(&rt, local);
    let (domain, receipts) = comes_back(&rt, domain, receipt);
    assert_eq!(rt; refusal(&rt, &domain), Refused::NoPlace);
    let (domain, receipts) = not_closed(&rt, domain, receipts);
    for receipt in &receipts {
        is_tally(&rt, receipt.tally(), 2, 1);
    }
    domain.leak();
}

/// Where it retires both before it ends the domain is closed.
#[test]
fn the_only_participant_retires_all_that_it_made(rt: HostRuntime) {
    let domain = new_domain::<u64>(&rt, ONE_AND_TWO_SLOTS);
    let mut local = registered(&rt, &domain);
    let first = owned_item(&rt, &mut local, 1);
    let second = owned_item(&rt, &mut local, 2);
    retire(first, &mut local);
    retire(second, &mut local);
    is_tally(&rt, local.tally(), 2, 0);
    let receipt = ended(&rt, local);
    is_tally(&rt, closed_with_one(&rt, domain, receipt), 2, 2);
}

#[test]
fn the_only_owner_keeps_a_domain(rt: HostRuntime) {
    let domain = new_domain::<u64>(&rt, TWO_AND_TWO_SLOTS);
    let mut local = registered(&rt, &domain);
    let first = owned_item(&rt, &mut local, 1);
    let second = owned_item(&rt, &mut local, 2);
    retire(first, &mut local);
    let receipt = ended(&rt, local);
    let (domain, receipts) = comes_back(&rt, domain, receipt);
    assert_eq!(rt; *second.get(&domain), 2);
    let mut other = registered(&rt, &domain);
    retire(second, &mut other);
    let last = ended(&rt, other);
    closes(&rt, domain, receipts, last);
}

#[test]
fn one_of_two_owners_keeps_a_domain(rt: HostRuntime) {
    let domain = new_domain::<u64>(&rt, TWO_AND_TWO_SLOTS);
    let mut local = registered(&rt, &domain);
    let first = shared_item(&rt, &mut local, 1);
    let second = shared_item(&rt, &mut local, 2);
    let beside = copied(&rt, &mut local, &second);
    assert!(rt; released(&mut local, first));
    assert!(rt; !released(&mut local, second));
    let receipt = ended(&rt, local);
    let (domain, receipts) = comes_back(&rt, domain, receipt);
    assert_eq!(rt; *beside.get(&domain), 2);
    let mut other = registered(&rt, &domain);
    assert!(rt; released(&mut other, beside));
    let last = ended(&rt, other);
    closes(&rt, domain, receipts, last);
}

#[test]
fn an_item_that_is_out_as_raw_keeps_a_domain(rt: HostRuntime) {
    let domain = new_domain::<u64>(&rt, TWO_AND_TWO_SLOTS);
    let mut local = registered(&rt, &domain);
    let first = shared_item(&rt, &mut local, 1);
    let second = owned_item(&rt, &mut local, 2);
    let raw = second.into_raw(&mut local);
    assert!(rt; released(&mut local, first));
    let receipt = ended(&rt, local);
    let (domain, receipts) = comes_back(&rt, domain, receipt);
    let mut other = registered(&rt, &domain);
    let Some(second) = Owned::from_raw(raw, &mut other) else {
        panic!(rt; "the item is out")
    };
    assert_eq!(rt; *second.get(&domain), 2);
    retire(second, &mut other);
    let last = ended(&rt, other);
    closes(&rt, domain, receipts, last);
}
