//! What the tests of items share: domains, participants, guards, and what becomes of an item.
ghost use Rattle.std.specs.Prelude.{◌≡◌, IfErr, IfOk};
ghost use Rattle.sdd_space.specs.CallerId.{IsSeated};
ghost use Rattle.sdd_space.specs.Guard.{reader_of};
ghost use Rattle.sdd_space.specs.Owned as owned;
ghost use Rattle.sdd_domain.specs.Space.{caller_of, slots_home};
ghost use Rattle.sdd_domain.specs.Receipt.{AddsUp};
ghost use Rattle.sdd_domain.specs.Domain.{cells_in, slots_in};
ghost use Rattle.sdd_domain_tests.specs.Slots.{IsReceiptIn, AreReceiptsIn, AreOfAll};

use sdd_core::{Limits, Refused};
use sdd_domain::{Domain, Local, Receipt};
use sdd_participants::Tally;
use sdd_space::{Guard, Item, Owned};
use std::process::Abort;

/// One participant has one slot.
pub const ONE_SLOT: Limits = Limits {
    participants: 1,
    slots: 1,
    cells: 1,
    jobs: 0,
    nesting: 2,
    tries: 1,
};

/// Two participants share one slot.
pub const TWO_AND_ONE_SLOT: Limits = Limits {
    participants: 2,
    ..ONE_SLOT
};

pub fn new_domain<T: Item<T>>(rt: &(impl Abort + AllocGlobal), limits: Limits) -> Domain<T> {
    Domain::new(rt.alloc(), limits).expect(rt, "the limits are in range")
}

pub fn registered<'d, T: Item<T>>(rt: &impl Abort, domain: &'d Domain<T>) -> Local<'d, T>
    ensures seated { IsSeated (caller_of result) }
    ensures home { slots_home result ≡ slots_in domain.now }
    ensures cells { (caller_of result).home.cells ≡ cells_in domain.now }
{
    Local::register(domain).expect(rt, "a place is free")
}

pub fn ended<T: Item<T>>(rt: &impl Abort, local: Local<'_, T>) -> Receipt<T>
    ensures { IsReceiptIn (slots_home local.entry) result }
{
    match local.end() {
        Ok(receipt) => receipt,
        Err(_local) => panic!(rt; "a guard is open"),
    }
}

/// Each close of these tests is this one.
fn close_of<T: Item<T>>(
    domain: Domain<T>,
    receipts: Vec<Receipt<T>>,
) -> Result<Tally, (Domain<T>, Vec<Receipt<T>>, Refused)>
    requires { AreReceiptsIn (slots_in domain) receipts.items }
    ensures back { IfErr result (λ back. (back.0 ≡ domain) × AreReceiptsIn (slots_in domain) back.1.items) }
    ensures whole { IfOk result (λ tally. AreOfAll domain receipts.items → AddsUp tally) }
{
    domain.close(receipts)
}

/// The tally of the whole domain. It adds up where there is a receipt for each place.
pub fn closed<T: Item<T>>(rt: &impl Abort, domain: Domain<T>, receipts: Vec<Receipt<T>>) -> Tally
    requires { AreReceiptsIn (slots_in domain) receipts.items }
    ensures { AreOfAll domain receipts.items → AddsUp result }
{
    match close_of(domain, receipts) {
        Ok(tally) => tally,
        Err((_domain, _receipts, refused)) => panic!(rt; "refused: {refused:?}"),
    }
}

/// The same with the receipt of one participant.
pub fn closed_with_one<T: Item<T>>(
    rt: &(impl Abort + AllocGlobal),
    domain: Domain<T>,
    receipt: Receipt<T>,
) -> Tally
    requires { IsReceiptIn (slots_in domain) receipt }
{
    let receipts = vec![in rt.alloc(); receipt].expect(rt, "there is memory");
    closed(rt, domain, receipts)
}

/// The same with the receipts of two.
pub fn closed_with_two<T: Item<T>>(
    rt: &(impl Abort + AllocGlobal),
    domain: Domain<T>,
    one: Receipt<T>,
    other: Receipt<T>,
) -> Tally
    requires one { IsReceiptIn (slots_in domain) one }
    requires other { IsReceiptIn (slots_in domain) other }
{
    let receipts = vec![in rt.alloc(); one, other].expect(rt, "there is memory");
    closed(rt, domain, receipts)
}

/// The same domain comes back, and receipts of it, since something is out.
pub fn not_closed<T: Item<T>>(
    rt: &impl Abort,
    domain: Domain<T>,
    receipts: Vec<Receipt<T>>,
) -> (Domain<T>, Vec<Receipt<T>>)
    requires { AreReceiptsIn (slots_in domain) receipts.items }
    ensures { (result.0 ≡ domain) × AreReceiptsIn (slots_in domain) result.1.items }
{
    match close_of(domain, receipts) {
        Ok(_tally) => panic!(rt; "something is out"),
        Err((domain, receipts, refused)) => {
            assert!(rt; refused == Refused::OwnerOut);
            (domain, receipts)
        }
    }
}

/// One receipt more, of the same domain.
pub fn add<T: Item<T>>(
    rt: &impl Abort,
    domain: &Domain<T>,
    receipts: &mut Vec<Receipt<T>>,
    receipt: Receipt<T>,
)
    requires all { AreReceiptsIn (slots_in domain.now) receipts.old.items }
    requires one { IsReceiptIn (slots_in domain.now) receipt }
    ensures { AreReceiptsIn (slots_in domain.now) receipts.new.items }
{
    let _ = domain;
    receipts.push(receipt).expect(rt, "there is memory");
}

/// The receipts of both, of the same domain.
pub fn add_all<T: Item<T>>(
    rt: &impl Abort,
    domain: &Domain<T>,
    receipts: &mut Vec<Receipt<T>>,
    mut others: Vec<Receipt<T>>,
)
    requires all { AreReceiptsIn (slots_in domain.now) receipts.old.items }
    requires others { AreReceiptsIn (slots_in domain.now) others.items }
    ensures { AreReceiptsIn (slots_in domain.now) receipts.new.items }
{
    let _ = domain;
    receipts.append(&mut others).expect(rt, "there is memory");
}

/// So many were made and reclaimed, and none was dropped in place.
pub fn is_tally(rt: &impl Abort, tally: Tally, made: u128, reclaimed: u128) {
    assert_eq!(rt; tally.made, made);
    assert_eq!(rt; tally.reclaimed, reclaimed);
    assert_eq!(rt; tally.in_place, 0);
}

pub fn opened<T: Item<T>>(rt: &impl Abort, local: &mut Local<'_, T>) -> Guard
    requires { IsSeated (caller_of local.old) }
    ensures caller { caller_of local.new ≡ caller_of local.old }
    ensures reader { reader_of result ≡ (caller_of local.old).reader }
{
    Guard::new::<T, Local<'_, T>>(local).expect(rt, "a guard may be opened")
}

pub fn close<T: Item<T>>(guard: Guard, local: &mut Local<'_, T>)
    requires seated { IsSeated (caller_of local.old) }
    requires reader { reader_of guard ≡ (caller_of local.old).reader }
    ensures { caller_of local.new ≡ caller_of local.old }
{
    guard.close::<T, Local<'_, T>>(local);
}

/// Closes a guard that scans then, if it is the last one.
pub fn close_and_scan<T: Item<T>>(guard: Guard, local: &mut Local<'_, T>)
    requires seated { IsSeated (caller_of local.old) }
    requires reader { reader_of guard ≡ (caller_of local.old).reader }
    ensures { caller_of local.new ≡ caller_of local.old }
{
    guard.accelerate::<T, Local<'_, T>>(local);
    guard.close::<T, Local<'_, T>>(local);
}

/// Opens an accelerated guard, and closes it.
pub fn turn<T: Item<T>>(rt: &impl Abort, local: &mut Local<'_, T>)
    requires { IsSeated (caller_of local.old) }
    ensures { caller_of local.new ≡ caller_of local.old }
{
    let guard = opened(rt, local);
    close_and_scan(guard, local);
}

pub fn turns<T: Item<T>>(rt: &impl Abort, local: &mut Local<'_, T>, times: u32)
    requires { IsSeated (caller_of local.old) }
    ensures { caller_of local.new ≡ caller_of local.old }
{
    for _ in 0..times {
        turn(rt, local);
    }
}

/// Under the guard so many items were reclaimed by the participant, and whether something may wait
/// with it.
pub fn has(rt: &impl Abort, local: &Local<'_, u64>, guard: &Guard, reclaimed: u128, waits: bool)
    requires { IsSeated (caller_of local.now) }
{
    assert_eq!(rt; local.tally().reclaimed, reclaimed);
    assert_eq!(rt; guard.has_garbage::<u64, Local<'_, u64>>(local), waits);
}

/// A free slot takes this value.
pub fn made(rt: &impl Abort, local: &mut Local<'_, u64>, value: u64) -> Owned<u64>
    requires { IsSeated (caller_of local.old) }
    ensures caller { caller_of local.new ≡ caller_of local.old }
    ensures home { owned.slots_home result ≡ slots_home local.old }
{
    match Owned::new(value, local) {
        Ok(owner) => owner,
        Err((_value, refused)) => panic!(rt; "refused: {refused:?}"),
    }
}

/// No slot is free, and the value comes back.
pub fn has_no_slot(rt: &impl Abort, local: &mut Local<'_, u64>, value: u64)
    requires { IsSeated (caller_of local.old) }
    ensures { caller_of local.new ≡ caller_of local.old }
{
    match Owned::new(value, local) {
        Ok(_owner) => panic!(rt; "a slot was free"),
        Err((back, refused)) => {
            assert_eq!(rt; back, value);
            assert_eq!(rt; refused, Refused::NoSlot);
        }
    }
}

/// A look at an owner's item under a guard shows this value.
pub fn shows<'g>(
    rt: &impl Abort,
    local: &mut Local<'_, u64>,
    guard: &'g Guard,
    owner: &Owned<u64>,
    value: u64,
) -> &'g u64
    requires seated { IsSeated (caller_of local.old) }
    requires reader { reader_of guard.now ≡ (caller_of local.old).reader }
    requires home { owned.slots_home owner.now ≡ slots_home local.old }
    ensures { caller_of local.new ≡ caller_of local.old }
{
    let seen = owner.get_guarded_ref(guard, local);
    assert_eq!(rt; *seen, value);
    seen
}

pub fn retire(owner: Owned<u64>, local: &mut Local<'_, u64>)
    requires seated { IsSeated (caller_of local.old) }
    requires home { owned.slots_home owner ≡ slots_home local.old }
    ensures { caller_of local.new ≡ caller_of local.old }
{
    owner.retire(local);
}
