//! Owners and cells of either kind: alone, or one of several.
ghost use Rattle.std.specs.Prelude.{◌≡◌, None};
ghost use Rattle.sdd_space.specs.Guard.{reader_of};
ghost use Rattle.sdd_world_model.specs.OwnerOrCell.{AreOf};
ghost use Rattle.sdd_space.specs.Owner.{slots_home, cells_home, IsOfSlots};
ghost use Rattle.sdd_space.specs.CallerId.{IsSeated};

use crate::cells::steps::{Read, close, opened, seen};
use sdd_core::Tag;
use sdd_space::{
    AtomicCell, Cells, Guard, Guards, Item, Items, Look, Owned, Owner, Ownership, Ptr, RawPtr,
    Shared, SharedOwnership, UniqueOwnership,
};
use std::process::Abort;

/// How owners of this kind are given up.
pub trait Spend: Ownership + Sized {
    /// Gives up the owner in its place, if there is one, and leaves none there. Where it was the last of its item, that waits from now on.
    fn spend<S: Items<u64>>(place: &mut Option<Owner<Self, u64>>, s: &mut S)
        requires seated { IsSeated (S.caller s.old) }
        requires home { IsOfSlots (S.caller s.old).home.slots place.old }
        ensures caller { S.caller s.new ≡ S.caller s.old }
        ensures none { place.new ≡ None };
}

impl Spend for UniqueOwnership {
    fn spend<S: Items<u64>>(place: &mut Option<Owned<u64>>, s: &mut S) {
        if let Some(owner) = place.take() {
            owner.retire(s);
        }
    }
}

impl Spend for SharedOwnership {
    fn spend<S: Items<u64>>(place: &mut Option<Shared<u64>>, s: &mut S) {
        if let Some(owner) = place.take() {
            let _ = owner.release(s);
        }
    }
}

/// An owner of a new item.
pub fn made<K: Ownership, T: Item<T>, S: Items<T>>(
    rt: &impl Abort,
    s: &mut S,
    value: T,
) -> Owner<K, T>
    requires seated { IsSeated (S.caller s.old) }
    requires home { AreOf (S.caller s.old).home (T.holds value) }
    ensures caller { S.caller s.new ≡ S.caller s.old }
    ensures home { slots_home result ≡ (S.caller s.new).home.slots }
{
    match Owner::new(value, s) {
        Ok(owner) => owner,
        Err((_value, refused)) => panic!(rt; "{refused:?}"),
    }
}

/// The owner of a new item, or of none.
fn made_if<K: Ownership, S: Items<u64>>(
    rt: &impl Abort,
    s: &mut S,
    value: Option<u64>,
) -> Option<Owner<K, u64>>
    requires seated { IsSeated (S.caller s.old) }
    ensures caller { S.caller s.new ≡ S.caller s.old }
    ensures home { IsOfSlots (S.caller s.new).home.slots result }
{
    match value {
        Some(value) => Some(made(rt, s, value)),
        None => None,
    }
}

/// The number of the owner's item. The owner is given up.
pub fn spent<K: Spend, S: Look<u64> + Items<u64>>(
    s: &mut S,
    owner: Option<Owner<K, u64>>,
) -> Option<u64>
    requires seated { IsSeated (S.caller s.old) }
    requires home { IsOfSlots (S.caller s.old).home.slots owner }
    ensures caller { S.caller s.new ≡ S.caller s.old }
{
    let owner = owner?;
    let value = *owner.get(s);
    let mut place = Some(owner);
    K::spend(&mut place, s);
    match place {
        None => Some(value),
        Some(_) => unreachable!(),
    }
}

/// A pointer to what the cell holds.
pub fn load<'g, K: Ownership, S: Cells<u64>>(
    s: &mut S,
    cell: &AtomicCell<K, u64>,
    guard: &'g Guard,
) -> Ptr<'g, u64>
    requires seated { IsSeated (S.caller s.old) }
    requires home { cells_home cell.now ≡ (S.caller s.old).home.cells }
    requires reader { reader_of guard.now ≡ (S.caller s.old).reader }
    ensures caller { S.caller s.new ≡ S.caller s.old }
{
    cell.load(guard, s)
}

/// What the cell holds, and its tag, under a guard of its own.
pub fn read<K: Ownership, S: Look<u64> + Guards<u64> + Cells<u64>>(
    rt: &impl Abort,
    s: &mut S,
    cell: &AtomicCell<K, u64>,
) -> (Option<u64>, Tag)
    requires seated { IsSeated (S.caller s.old) }
    requires home { cells_home cell.now ≡ (S.caller s.old).home.cells }
    ensures caller { S.caller s.new ≡ S.caller s.old }
{
    let guard = opened(rt, s);
    let ptr = load(s, cell, &guard);
    let found = (seen(s, ptr), ptr.tag());
    close(s, guard);
    found
}

/// Sets the tag where the cell has none, and tells whether it did.
pub fn tagged<K: Ownership, S: Cells<u64>>(
    rt: &impl Abort,
    s: &mut S,
    cell: &AtomicCell<K, u64>,
    tag: Tag,
) -> bool
    requires seated { IsSeated (S.caller s.old) }
    requires home { cells_home cell.now ≡ (S.caller s.old).home.cells }
    ensures caller { S.caller s.new ≡ S.caller s.old }
{
    let condition = |ptr: RawPtr<u64>| ptr.tag() == Tag::None;
    cell.update_tag_if(tag, condition, s)
        .expect(rt, "nobody comes between")
}

/// Sets the tag by a condition that holds, or doesn't. How often that was asked, and what it was shown last.
pub fn asked<K: Ownership, S: Cells<u64>>(
    rt: &impl Abort,
    s: &mut S,
    cell: &AtomicCell<K, u64>,
    tag: Tag,
    holds: bool,
) -> (u8, RawPtr<u64>)
    requires seated { IsSeated (S.caller s.old) }
    requires home { cells_home cell.now ≡ (S.caller s.old).home.cells }
    ensures caller { S.caller s.new ≡ S.caller s.old }
{
    let mut times = 0u8;
    let mut last = RawPtr::null();
    let condition = |ptr: RawPtr<u64>| {
        times = times.wrapping_add(1);
        last = ptr;
        holds
    };
    let was_set = cell.update_tag_if(tag, condition, s);
    assert!(rt; was_set == Ok(holds));
    (times, last)
}

/// The cell holds the owner of a new item, or nothing, with this tag, and what it held is given up. The number that it held, and the tag before.
pub fn swapped<K: Spend, S: Look<u64> + Items<u64> + Cells<u64>>(
    rt: &impl Abort,
    s: &mut S,
    cell: &AtomicCell<K, u64>,
    next: Option<u64>,
    tag: Tag,
) -> (Option<u64>, Tag)
    requires seated { IsSeated (S.caller s.old) }
    requires home { cells_home cell.now ≡ (S.caller s.old).home.cells }
    ensures caller { S.caller s.new ≡ S.caller s.old }
{
    let owner = made_if(rt, s, next);
    let (old, old_tag) = cell.swap((owner, tag), s);
    (spent(s, old), old_tag)
}

/// The cell holds the owner of a new item with this tag, if it held what the pointer names.
pub fn exchanged<'g, K: Spend, S: Look<u64> + Items<u64> + Cells<u64>>(
    rt: &impl Abort,
    s: &mut S,
    cell: &AtomicCell<K, u64>,
    current: Ptr<'g, u64>,
    next: u64,
    tag: Tag,
    guard: &'g Guard,
) -> Result<Read, Read>
    requires seated { IsSeated (S.caller s.old) }
    requires home { cells_home cell.now ≡ (S.caller s.old).home.cells }
    requires reader { reader_of guard.now ≡ (S.caller s.old).reader }
    ensures caller { S.caller s.new ≡ S.caller s.old }
{
    let owner = made(rt, s, next);
    match cell.compare_exchange(current, (Some(owner), tag), guard, s) {
        Ok((old, now)) => Ok((spent(s, old), seen(s, now), now.tag())),
        Err((back, now)) => Err((spent(s, back), seen(s, now), now.tag())),
    }
}

/// The cell holds nothing, with this tag. The number that it held, whose owner is given up.
pub fn emptied_weakly<K: Spend, S: Look<u64> + Guards<u64> + Items<u64> + Cells<u64>>(
    rt: &impl Abort,
    s: &mut S,
    cell: &AtomicCell<K, u64>,
    tag: Tag,
) -> Option<u64>
    requires seated { IsSeated (S.caller s.old) }
    requires home { cells_home cell.now ≡ (S.caller s.old).home.cells }
    ensures caller { S.caller s.new ≡ S.caller s.old }
{
    let guard = opened(rt, s);
    let ptr = load(s, cell, &guard);
    let old = match cell.compare_exchange_weak(ptr, (None, tag), &guard, s) {
        Ok((old, _now)) => old,
        Err((_back, _now)) => panic!(rt; "nobody comes between"),
    };
    close(s, guard);
    spent(s, old)
}

/// The cell is free again, and what it held is given up.
pub fn close_cell<K: Ownership, S: Items<u64> + Cells<u64>>(s: &mut S, cell: AtomicCell<K, u64>)
    requires seated { IsSeated (S.caller s.old) }
    requires home { cells_home cell ≡ (S.caller s.old).home.cells }
    ensures caller { S.caller s.new ≡ S.caller s.old }
{
    cell.close(s);
}
