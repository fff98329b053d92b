//! Calls with cells of owners of one kind, whichever it is.
ghost use Rattle.std.specs.Prelude.{◌≡◌, IfSome};
ghost use Rattle.sdd_space.specs.CallerId.{IsSeated};
ghost use Rattle.sdd_space.specs.Guard.{reader_of};
ghost use Rattle.sdd_space.specs.Owner.{IsOfSlots, cells_home};
ghost use Rattle.sdd_domain_tests.specs.Hands.{AreOwnersOf};

use crate::answers::{Answer, tag_of};
use crate::drawn::generator::Generator;
use crate::drawn::in_hand::{InHand, keep_made};
use crate::hand::OwnersInHand;
use sdd_core::Tag;
use sdd_space::{AtomicCell, Cells, Guard, Items, Look, Owner, Ownership, Ptr, RawPtr};
use std::process::Abort;

/// A call with cells.
#[derive(Clone, Copy)]
pub enum CellCall {
    Make,
    MakeNull,
    TakeIn,
    Look,
    Swap,
    Exchange,
    Tag,
    Clone,
    Share,
    ComeOut,
    Close,
}

impl CellCall {
    pub fn drawn(drawn: &mut Generator) -> CellCall {
        match drawn.below(11) {
            0 => CellCall::Make,
            1 => CellCall::MakeNull,
            2 => CellCall::TakeIn,
            3 => CellCall::Look,
            4 => CellCall::Swap,
            5 => CellCall::Exchange,
            6 => CellCall::Tag,
            7 => CellCall::Clone,
            8 => CellCall::Share,
            9 => CellCall::ComeOut,
            _ => CellCall::Close,
        }
    }
}

fn makes<K: Ownership, S: Cells<u64>>(
    rt: &impl Abort,
    s: &mut S,
    owners: &mut OwnersInHand<K>,
    value: u64,
) -> Option<Answer>
    requires seated { IsSeated (S.caller s.old) }
    requires owners { AreOwnersOf (S.caller s.old) owners.old }
    ensures caller { S.caller s.new ≡ S.caller s.old }
    ensures owners { AreOwnersOf (S.caller s.old) owners.new }
{
    match AtomicCell::<K, u64>::new(value, s) {
        Ok(cell) => {
            cell.keep(rt, owners);
            Some(Answer::Done)
        }
        Err((back, refused)) => {
            assert_eq!(rt; back, value);
            Some(Answer::Refused(refused))
        }
    }
}

/// An owner goes into a new cell, or comes back.
fn takes_in<K: Ownership, S: Cells<u64>>(
    rt: &impl Abort,
    s: &mut S,
    owners: &mut OwnersInHand<K>,
    pick: usize,
) -> Option<Answer>
    requires seated { IsSeated (S.caller s.old) }
    requires owners { AreOwnersOf (S.caller s.old) owners.old }
    ensures caller { S.caller s.new ≡ S.caller s.old }
    ensures owners { AreOwnersOf (S.caller s.old) owners.new }
{
    let owner = Owner::take(owners, pick)?;
    match AtomicCell::from(owner, s) {
        Ok(cell) => {
            cell.keep(rt, owners);
            Some(Answer::Done)
        }
        Err((owner, refused)) => {
            owner.keep(rt, owners);
            Some(Answer::Refused(refused))
        }
    }
}

/// What a cell shows under a guard at two looks, with its tag.
fn seen<K: Ownership, S: Look<u64> + Cells<u64>>(
    rt: &impl Abort,
    s: &mut S,
    cell: &AtomicCell<K, u64>,
    guard: &Guard,
) -> Answer
    requires seated { IsSeated (S.caller s.old) }
    requires home { cells_home cell.now ≡ (S.caller s.old).home.cells }
    requires reader { reader_of guard.now ≡ (S.caller s.old).reader }
    ensures { S.caller s.new ≡ S.caller s.old }
{
    let ptr = cell.load(guard, s);
    let shown = ptr.as_ref(s).copied();
    assert!(rt; cell.is_null(s) == shown.is_none());
    assert!(rt; cell.tag(s) == ptr.tag());
    assert!(rt; ptr.as_ref(s).copied() == shown);
    Answer::Held(shown, ptr.tag())
}

/// Keeps an owner that came out, if one did, and tells its number.
pub fn kept<K: Ownership, S: Look<u64> + Items<u64>>(
    rt: &impl Abort,
    s: &mut S,
    owners: &mut OwnersInHand<K>,
    owner: Option<Owner<K, u64>>,
) -> Option<u64>
    requires seated { IsSeated (S.caller s.old) }
    requires owners { AreOwnersOf (S.caller s.old) owners.old }
    requires owner { IsOfSlots (S.caller s.old).home.slots owner }
    ensures caller { S.caller s.new ≡ S.caller s.old }
    ensures owners { AreOwnersOf (S.caller s.old) owners.new }
{
    let owner = owner?;
    let number = *owner.get(s);
    owner.keep(rt, owners);
    Some(number)
}

/// The cell holds another owner, or none.
fn swapped<K: Ownership, S: Look<u64> + Items<u64> + Cells<u64>>(
    rt: &impl Abort,
    s: &mut S,
    owners: &mut OwnersInHand<K>,
    cell: &AtomicCell<K, u64>,
    pick: usize,
    tag: Tag,
) -> Answer
    requires seated { IsSeated (S.caller s.old) }
    requires owners { AreOwnersOf (S.caller s.old) owners.old }
    requires home { cells_home cell.now ≡ (S.caller s.old).home.cells }
    ensures caller { S.caller s.new ≡ S.caller s.old }
    ensures owners { AreOwnersOf (S.caller s.old) owners.new }
{
    let next = Owner::take(owners, pick);
    let (old, old_tag) = cell.swap((next, tag), s);
    Answer::Held(kept(rt, s, owners, old), old_tag)
}

/// A pointer to compare with: to what the cell holds, in some calls with another tag; and in some the cell is left with nothing after that.
fn expected<'g, K: Ownership, S: Look<u64> + Items<u64> + Cells<u64>>(
    rt: &impl Abort,
    s: &mut S,
    owners: &mut OwnersInHand<K>,
    cell: &AtomicCell<K, u64>,
    guard: &'g Guard,
    draw: u64,
) -> Ptr<'g, u64>
    requires seated { IsSeated (S.caller s.old) }
    requires owners { AreOwnersOf (S.caller s.old) owners.old }
    requires home { cells_home cell.now ≡ (S.caller s.old).home.cells }
    requires reader { reader_of guard.now ≡ (S.caller s.old).reader }
    ensures caller { S.caller s.new ≡ S.caller s.old }
    ensures owners { AreOwnersOf (S.caller s.old) owners.new }
{
    let loaded = cell.load(guard, s);
    if draw % 4 == 1 {
        let (old, _tag) = cell.swap((None, Tag::None), s);
        let _ = kept(rt, s, owners, old);
    }
    let tag = if draw % 4 == 0 {
        tag_of(draw / 4)
    } else {
        loaded.tag()
    };
    loaded.with_tag(tag)
}

/// The cell holds another owner, or none, if it held what was expected. Whether it did, what came out or back, and a pointer to what it holds.
fn tried<'g, K: Ownership, S: Cells<u64>>(
    s: &mut S,
    cell: &AtomicCell<K, u64>,
    current: Ptr<'g, u64>,
    next: Option<Owner<K, u64>>,
    tag: Tag,
    guard: &'g Guard,
) -> (bool, Option<Owner<K, u64>>, Ptr<'g, u64>)
    requires seated { IsSeated (S.caller s.old) }
    requires home { cells_home cell.now ≡ (S.caller s.old).home.cells }
    requires reader { reader_of guard.now ≡ (S.caller s.old).reader }
    requires next { IsOfSlots (S.caller s.old).home.slots next }
    ensures caller { S.caller s.new ≡ S.caller s.old }
    ensures back { IsOfSlots (S.caller s.old).home.slots result.1 }
{
    match cell.compare_exchange(current, (next, tag), guard, s) {
        Ok((old, now)) => (true, old, now),
        Err((back, now)) => (false, back, now),
    }
}

/// The owner that is taken goes in, or comes back; and what came out is kept.
fn exchanged<K: Ownership, S: Look<u64> + Items<u64> + Cells<u64>>(
    rt: &impl Abort,
    s: &mut S,
    owners: &mut OwnersInHand<K>,
    cell: &AtomicCell<K, u64>,
    guard: &Guard,
    pick: usize,
    draw: u64,
) -> Answer
    requires seated { IsSeated (S.caller s.old) }
    requires owners { AreOwnersOf (S.caller s.old) owners.old }
    requires home { cells_home cell.now ≡ (S.caller s.old).home.cells }
    requires reader { reader_of guard.now ≡ (S.caller s.old).reader }
    ensures caller { S.caller s.new ≡ S.caller s.old }
    ensures owners { AreOwnersOf (S.caller s.old) owners.new }
{
    let current = expected(rt, s, owners, cell, guard, draw);
    let next = Owner::take(owners, pick);
    let (done, back, now) = tried(s, cell, current, next, tag_of(draw), guard);
    let shown = now.as_ref(s).copied();
    Answer::Exchanged(done, kept(rt, s, owners, back), shown, now.tag())
}

/// Sets a tag where the cell has the tag that is asked for. The condition is asked once, of what the cell holds.
fn tagged<K: Ownership, S: Cells<u64>>(
    rt: &impl Abort,
    s: &mut S,
    cell: &AtomicCell<K, u64>,
    wanted: Tag,
    tag: Tag,
) -> Answer
    requires seated { IsSeated (S.caller s.old) }
    requires home { cells_home cell.now ≡ (S.caller s.old).home.cells }
    ensures { S.caller s.new ≡ S.caller s.old }
{
    let mut times = 0u8;
    let mut shown = RawPtr::null();
    let condition = |ptr: RawPtr<u64>| {
        times = times.wrapping_add(1);
        shown = ptr;
        ptr.tag() == wanted
    };
    let is_null = cell.is_null(s);
    let before = cell.tag(s);
    let answer = match cell.update_tag_if(tag, condition, s) {
        Ok(changed) => Answer::Told(changed),
        Err(refused) => Answer::Refused(refused),
    };
    assert!(rt; (times, shown.is_null(), shown.tag()) == (1, is_null, before));
    answer
}

/// A cell is free again, and what it held is given up.
fn closes<K: Ownership, S: Items<u64> + Cells<u64>>(
    s: &mut S,
    owners: &mut OwnersInHand<K>,
    pick: usize,
) -> Option<Answer>
    requires seated { IsSeated (S.caller s.old) }
    requires owners { AreOwnersOf (S.caller s.old) owners.old }
    ensures caller { S.caller s.new ≡ S.caller s.old }
    ensures owners { AreOwnersOf (S.caller s.old) owners.new }
{
    AtomicCell::take(owners, pick)?.close(s);
    Some(Answer::Done)
}

/// A call with the cell that is taken, which needs no guard.
fn calls<K: Ownership, S: Look<u64> + Items<u64> + Cells<u64>>(
    rt: &impl Abort,
    s: &mut S,
    owners: &mut OwnersInHand<K>,
    call: CellCall,
    pick: usize,
    draw: u64,
) -> Option<Answer>
    requires seated { IsSeated (S.caller s.old) }
    requires owners { AreOwnersOf (S.caller s.old) owners.old }
    ensures caller { S.caller s.new ≡ S.caller s.old }
    ensures owners { AreOwnersOf (S.caller s.old) owners.new }
{
    let cell = AtomicCell::take(owners, pick)?;
    let answer = match call {
        CellCall::Swap => swapped(rt, s, owners, &cell, pick, tag_of(draw)),
        _ => tagged(rt, s, &cell, tag_of(draw), tag_of(draw / 4)),
    };
    cell.keep(rt, owners);
    Some(answer)
}

/// A call with the cell that is taken, under a guard.
fn calls_under<K: Ownership, S: Look<u64> + Items<u64> + Cells<u64>>(
    rt: &impl Abort,
    s: &mut S,
    owners: &mut OwnersInHand<K>,
    guard: &Guard,
    call: CellCall,
    pick: usize,
    draw: u64,
) -> Option<Answer>
    requires seated { IsSeated (S.caller s.old) }
    requires owners { AreOwnersOf (S.caller s.old) owners.old }
    requires reader { reader_of guard.now ≡ (S.caller s.old).reader }
    ensures caller { S.caller s.new ≡ S.caller s.old }
    ensures owners { AreOwnersOf (S.caller s.old) owners.new }
{
    let cell = AtomicCell::take(owners, pick)?;
    let answer = match call {
        CellCall::Look => seen(rt, s, &cell, guard),
        _ => exchanged(rt, s, owners, &cell, guard, pick, draw),
    };
    cell.keep(rt, owners);
    Some(answer)
}

/// One of the calls that cells of either kind have.
pub fn call<K: Ownership, S: Look<u64> + Items<u64> + Cells<u64>>(
    rt: &impl Abort,
    s: &mut S,
    owners: &mut OwnersInHand<K>,
    guard: &Option<Guard>,
    call: CellCall,
    value: u64,
    draw: u64,
) -> Option<Answer>
    requires seated { IsSeated (S.caller s.old) }
    requires owners { AreOwnersOf (S.caller s.old) owners.old }
    requires reader { IfSome guard.now (λ g. reader_of g ≡ (S.caller s.old).reader) }
    ensures caller { S.caller s.new ≡ S.caller s.old }
    ensures owners { AreOwnersOf (S.caller s.old) owners.new }
{
    let pick = value as usize;
    match call {
        CellCall::Make => makes(rt, s, owners, value),
        CellCall::MakeNull => keep_made(rt, owners, AtomicCell::null(s)),
        CellCall::TakeIn => takes_in(rt, s, owners, pick),
        CellCall::Swap | CellCall::Tag => calls(rt, s, owners, call, pick, draw),
        CellCall::Close => closes(s, owners, pick),
        _ => calls_under(rt, s, owners, guard.as_ref()?, call, pick, draw),
    }
}
