//! Owners that may have others beside them, and cells of them.
ghost use Rattle.std.specs.Prelude.{◌≡◌};
ghost use Rattle.sdd_space.specs.Guard.{reader_of};
ghost use Rattle.sdd_world_model.specs.OwnerOrCell.{AreOf};
ghost use Rattle.sdd_space.specs.Shared.{slot_of, slots_home, cells_home, IsOfSlots};
ghost use Rattle.sdd_space.specs.CallerId.{IsSeated};
ghost use Rattle.sdd_space.specs.Ptr.{KeepsShown, PtrIsShown};

use crate::cells::steps::{close, opened, owners};
use sdd_core::Refused;
use sdd_space::{
    AtomicShared, Cells, Guard, Guards, InPlaceItems, Item, Items, Look, Ptr, Shared, SharedItems,
    SharedOwners, Space,
};
use std::process::Abort;

/// The owner of a new item.
pub fn made<T: Item<T>, S: Items<T>>(rt: &impl Abort, s: &mut S, value: T) -> Shared<T>
    requires seated { IsSeated (S.caller s.old) }
    requires home { AreOf (S.caller s.old).home (T.holds value) }
    ensures caller { S.caller s.new ≡ S.caller s.old }
    ensures home { slots_home result ≡ (S.caller s.new).home.slots }
{
    owners::made(rt, s, value)
}

/// The owner of an item that a closure makes.
pub fn made_by_closure<S: Items<u64>>(rt: &impl Abort, s: &mut S, value: u64) -> Shared<u64>
    requires seated { IsSeated (S.caller s.old) }
    ensures caller { S.caller s.new ≡ S.caller s.old }
    ensures home { slots_home result ≡ (S.caller s.new).home.slots }
{
    match Shared::new_with(|| value, s) {
        Ok(owner) => owner,
        Err((_make, refused)) => panic!(rt; "{refused:?}"),
    }
}

/// Gives the owner up, and tells whether it was the last.
pub fn release<S: Items<u64>>(s: &mut S, owner: Shared<u64>) -> bool
    requires seated { IsSeated (S.caller s.old) }
    requires home { slots_home owner ≡ (S.caller s.old).home.slots }
    ensures caller { S.caller s.new ≡ S.caller s.old }
    ensures shown { KeepsShown (S.shows s.old) (S.shows s.new) }
{
    owner.release(s)
}

/// One owner more.
pub fn copied<S: SharedOwners<u64>>(rt: &impl Abort, s: &mut S, owner: &Shared<u64>) -> Shared<u64>
    requires seated { IsSeated (S.caller s.old) }
    requires home { slots_home owner.now ≡ (S.caller s.old).home.slots }
    ensures caller { S.caller s.new ≡ S.caller s.old }
    ensures shown { KeepsShown (S.shows s.old) (S.shows s.new) }
    ensures home { slots_home result ≡ (S.caller s.new).home.slots }
{
    owner.clone(s).expect(rt, "another owner may be had")
}

/// Whether one owner more can be had of the pointer's item; if so it is given up again, and tells whether it was the last.
#[tactic(auto, using(sdd_space::proofs::PtrShown::shown_still))]
pub fn upgraded<S: Items<u64> + SharedItems<u64>>(
    rt: &impl Abort,
    s: &mut S,
    ptr: Ptr<'_, u64>,
) -> Option<bool>
    requires seated { IsSeated (S.caller s.old) }
    requires shown { PtrIsShown (S.shows s.old) ptr }
    ensures caller { S.caller s.new ≡ S.caller s.old }
    ensures still { PtrIsShown (S.shows s.new) ptr.entry }
{
    let owner = ptr.get_shared(s).expect(rt, "another owner may be had")?;
    Some(owner.release(s))
}

/// What is seen by an owner that is had of what a cell holds; it is given up again.
pub fn had_of<S: Look<u64> + Guards<u64> + Items<u64> + SharedItems<u64> + Cells<u64>>(
    rt: &impl Abort,
    s: &mut S,
    cell: &AtomicShared<u64>,
) -> Option<u64>
    requires seated { IsSeated (S.caller s.old) }
    requires home { cells_home cell.now ≡ (S.caller s.old).home.cells }
    ensures caller { S.caller s.new ≡ S.caller s.old }
{
    let guard = opened(rt, s);
    let had = cell
        .get_shared(&guard, s)
        .expect(rt, "another owner may be had");
    close(s, guard);
    let owner = had?;
    let value = *owner.get(s);
    let _ = owner.release(s);
    Some(value)
}

/// The same by a call that gives the pointer back where there is none.
#[tactic(auto, using(sdd_space::proofs::PtrShown::shown_still))]
pub fn converted<S: Items<u64> + SharedItems<u64>>(
    rt: &impl Abort,
    s: &mut S,
    ptr: Ptr<'_, u64>,
) -> Option<bool>
    requires seated { IsSeated (S.caller s.old) }
    requires shown { PtrIsShown (S.shows s.old) ptr }
    ensures caller { S.caller s.new ≡ S.caller s.old }
    ensures still { PtrIsShown (S.shows s.new) ptr.entry }
{
    match Shared::try_from_ptr(ptr, s) {
        Ok(owner) => Some(owner.release(s)),
        Err((back, refused)) => {
            assert!(rt; back == ptr && refused.is_none());
            None
        }
    }
}

/// What another owner is refused with. If it is had, it is given up again.
pub fn refused_copy<S: Items<u64> + SharedItems<u64>>(
    s: &mut S,
    owner: &Shared<u64>,
) -> Option<Refused>
    requires seated { IsSeated (S.caller s.old) }
    requires home { slots_home owner.now ≡ (S.caller s.old).home.slots }
    ensures caller { S.caller s.new ≡ S.caller s.old }
    ensures shown { KeepsShown (S.shows s.old) (S.shows s.new) }
{
    match owner.clone(s) {
        Ok(other) => {
            let _ = other.release(s);
            None
        }
        Err(refused) => Some(refused),
    }
}

/// The same of an owner of the pointer's item.
pub fn refused_upgrade<S: Look<u64> + Items<u64> + SharedItems<u64>>(
    s: &mut S,
    ptr: Ptr<'_, u64>,
) -> Option<Refused>
    requires seated { IsSeated (S.caller s.old) }
    requires shown { PtrIsShown (S.shows s.old) ptr }
    ensures caller { S.caller s.new ≡ S.caller s.old }
{
    match ptr.get_shared(s) {
        Ok(owner) => {
            let _ = owners::spent(s, owner);
            None
        }
        Err(refused) => Some(refused),
    }
}

/// The same of an owner of what the cell holds.
pub fn refused_owner<S: Space<u64>>(
    s: &mut S,
    cell: &AtomicShared<u64>,
    guard: &Guard,
) -> Option<Refused>
    requires seated { IsSeated (S.caller s.old) }
    requires home { cells_home cell.now ≡ (S.caller s.old).home.cells }
    requires reader { reader_of guard.now ≡ (S.caller s.old).reader }
    ensures caller { S.caller s.new ≡ S.caller s.old }
{
    match cell.get_shared(guard, s) {
        Ok(owner) => {
            let _ = owners::spent(s, owner);
            None
        }
        Err(refused) => Some(refused),
    }
}

/// The same of another cell that holds one.
pub fn refused_cell<S: Items<u64> + Cells<u64>>(
    s: &mut S,
    cell: &AtomicShared<u64>,
    guard: &Guard,
) -> Option<Refused>
    requires seated { IsSeated (S.caller s.old) }
    requires home { cells_home cell.now ≡ (S.caller s.old).home.cells }
    requires reader { reader_of guard.now ≡ (S.caller s.old).reader }
    ensures caller { S.caller s.new ≡ S.caller s.old }
{
    match cell.clone(guard, s) {
        Ok(copy) => {
            copy.close(s);
            None
        }
        Err(refused) => Some(refused),
    }
}

/// A cell that holds the owner of a new item.
pub fn cell<T: Item<T>, S: Cells<T>>(rt: &impl Abort, s: &mut S, value: T) -> AtomicShared<T>
    requires seated { IsSeated (S.caller s.old) }
    requires home { AreOf (S.caller s.old).home (T.holds value) }
    ensures caller { S.caller s.new ≡ S.caller s.old }
    ensures home { cells_home result ≡ (S.caller s.new).home.cells }
{
    match AtomicShared::new(value, s) {
        Ok(cell) => cell,
        Err((_value, refused)) => panic!(rt; "{refused:?}"),
    }
}

/// The cell is free again, and what it held comes back.
pub fn into_shared<S: Cells<u64>>(s: &mut S, cell: AtomicShared<u64>) -> Option<Shared<u64>>
    requires seated { IsSeated (S.caller s.old) }
    requires home { cells_home cell ≡ (S.caller s.old).home.cells }
    ensures caller { S.caller s.new ≡ S.caller s.old }
    ensures home { IsOfSlots (S.caller s.new).home.slots result }
{
    cell.into_shared(s)
}

/// Another cell that holds one owner more of the same item, or nothing.
pub fn copied_cell<S: Guards<u64> + Cells<u64>>(
    rt: &impl Abort,
    s: &mut S,
    cell: &AtomicShared<u64>,
) -> AtomicShared<u64>
    requires seated { IsSeated (S.caller s.old) }
    requires home { cells_home cell.now ≡ (S.caller s.old).home.cells }
    ensures caller { S.caller s.new ≡ S.caller s.old }
    ensures home { cells_home result ≡ (S.caller s.new).home.cells }
{
    let guard = opened(rt, s);
    let copy = cell.clone(&guard, s).expect(rt, "a cell is free");
    close(s, guard);
    copy
}

/// The item has another number from now on. The one before.
pub fn put<S: InPlaceItems<u64>>(
    s: &mut S,
    owner: &mut Shared<u64>,
    value: u64,
) -> Result<u64, Refused>
    requires seated { IsSeated (S.caller s.old) }
    requires home { slots_home owner.old ≡ (S.caller s.old).home.slots }
    ensures caller { S.caller s.new ≡ S.caller s.old }
    ensures home { slots_home owner.new ≡ slots_home owner.old }
    ensures slot { slot_of owner.new ≡ slot_of owner.old }
    ensures same { S.keeps_right → owner.new ≡ owner.old }
{
    match owner.get_mut(|number| std::mem::replace(number, value), s) {
        Ok(was) => Ok(was),
        Err((_put, refused)) => Err(refused),
    }
}

/// The owner goes in place, and tells whether it was the last.
pub fn dropped_in_place<S: InPlaceItems<u64>>(
    rt: &impl Abort,
    s: &mut S,
    owner: Shared<u64>,
) -> bool
    requires seated { IsSeated (S.caller s.old) }
    requires home { slots_home owner ≡ (S.caller s.old).home.slots }
    ensures caller { S.caller s.new ≡ S.caller s.old }
{
    match owner.drop_in_place(s) {
        Ok(last) => last,
        Err((_owner, refused)) => panic!(rt; "{refused:?}"),
    }
}
