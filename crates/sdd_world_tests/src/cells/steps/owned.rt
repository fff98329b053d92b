//! Owners that are alone, and cells of them.
ghost use Rattle.std.specs.Prelude.{◌≡◌, IfErr};
ghost use Rattle.sdd_space.specs.Guard.{reader_of};
ghost use Rattle.sdd_world_model.specs.OwnerOrCell.{AreOf};
ghost use Rattle.sdd_space.specs.Owned.{slot_of, slots_home, cells_home, IsOfSlots};
ghost use Rattle.sdd_space.specs.CallerId.{IsSeated};

use crate::cells::steps::{owners, seen};
use sdd_core::Refused;
use sdd_space::{
    AtomicOwned, Cells, Guard, InPlaceItems, Item, Items, Look, Owned, RawItems, RawPtr,
};
use std::process::Abort;

/// The owner of a new item.
pub fn made<T: Item<T>, S: Items<T>>(rt: &impl Abort, s: &mut S, value: T) -> Owned<T>
    requires seated { IsSeated (S.caller s.old) }
    requires home { AreOf (S.caller s.old).home (T.holds value) }
    ensures caller { S.caller s.new ≡ S.caller s.old }
    ensures home { slots_home result ≡ (S.caller s.new).home.slots }
{
    owners::made(rt, s, value)
}

/// The item waits from now on.
pub fn retire<T: Item<T>, S: Items<T>>(s: &mut S, owner: Owned<T>)
    requires seated { IsSeated (S.caller s.old) }
    requires home { slots_home owner ≡ (S.caller s.old).home.slots }
    ensures caller { S.caller s.new ≡ S.caller s.old }
{
    owner.retire(s);
}

/// A cell that holds the owner of a new item.
pub fn cell<T: Item<T>, S: Cells<T>>(rt: &impl Abort, s: &mut S, value: T) -> AtomicOwned<T>
    requires seated { IsSeated (S.caller s.old) }
    requires home { AreOf (S.caller s.old).home (T.holds value) }
    ensures caller { S.caller s.new ≡ S.caller s.old }
    ensures home { cells_home result ≡ (S.caller s.new).home.cells }
{
    match AtomicOwned::new(value, s) {
        Ok(cell) => cell,
        Err((_value, refused)) => panic!(rt; "{refused:?}"),
    }
}

/// A cell that holds nothing.
pub fn null<S: Cells<u64>>(rt: &impl Abort, s: &mut S) -> AtomicOwned<u64>
    requires seated { IsSeated (S.caller s.old) }
    ensures caller { S.caller s.new ≡ S.caller s.old }
    ensures home { cells_home result ≡ (S.caller s.new).home.cells }
{
    AtomicOwned::null(s).expect(rt, "a cell is free")
}

/// A cell that holds this owner.
pub fn cell_from<S: Cells<u64>>(rt: &impl Abort, s: &mut S, owner: Owned<u64>) -> AtomicOwned<u64>
    requires seated { IsSeated (S.caller s.old) }
    requires home { slots_home owner ≡ (S.caller s.old).home.slots }
    ensures caller { S.caller s.new ≡ S.caller s.old }
    ensures home { cells_home result ≡ (S.caller s.new).home.cells }
{
    match AtomicOwned::from(owner, s) {
        Ok(cell) => cell,
        Err((_owner, refused)) => panic!(rt; "{refused:?}"),
    }
}

/// The cell is free again, and what it held comes back.
pub fn into_owned<S: Cells<u64>>(s: &mut S, cell: AtomicOwned<u64>) -> Option<Owned<u64>>
    requires seated { IsSeated (S.caller s.old) }
    requires home { cells_home cell ≡ (S.caller s.old).home.cells }
    ensures caller { S.caller s.new ≡ S.caller s.old }
    ensures home { IsOfSlots (S.caller s.new).home.slots result }
{
    cell.into_owned(s)
}

/// Nothing is there.
pub fn none(rt: &impl Abort, owner: Option<Owned<u64>>) {
    if let Some(_owner) = owner {
        panic!(rt; "an owner is there")
    }
}

/// The item has another number from now on. The one before.
pub fn put<S: InPlaceItems<u64>>(
    s: &mut S,
    owner: &mut Owned<u64>,
    value: u64,
) -> Result<u64, Refused>
    requires seated { IsSeated (S.caller s.old) }
    requires home { slots_home owner.old ≡ (S.caller s.old).home.slots }
    ensures caller { S.caller s.new ≡ S.caller s.old }
    ensures home { slots_home owner.new ≡ slots_home owner.old }
    ensures slot { slot_of owner.new ≡ slot_of owner.old }
    ensures same { S.keeps_right → owner.new ≡ owner.old }
{
    match owner.get_mut(|number| std::mem::replace(number, value), s) {
        Ok(was) => Ok(was),
        Err((_put, refused)) => Err(refused),
    }
}

/// The item is dropped in its place; or the owner comes back.
pub fn drop_in_place<S: InPlaceItems<u64>>(
    s: &mut S,
    owner: Owned<u64>,
) -> Result<(), (Owned<u64>, Refused)>
    requires seated { IsSeated (S.caller s.old) }
    requires home { slots_home owner ≡ (S.caller s.old).home.slots }
    ensures caller { S.caller s.new ≡ S.caller s.old }
    ensures home { IfErr result (λ e. slots_home e.0 ≡ (S.caller s.new).home.slots) }
{
    owner.drop_in_place(s)
}

/// The item is out as raw.
pub fn raw<S: RawItems<u64>>(s: &mut S, owner: Owned<u64>) -> RawPtr<u64>
    requires seated { IsSeated (S.caller s.old) }
    requires home { slots_home owner ≡ (S.caller s.old).home.slots }
    ensures caller { S.caller s.new ≡ S.caller s.old }
{
    owner.into_raw(s)
}

/// The owner of an item that is out as raw.
pub fn unraw<S: RawItems<u64>>(s: &mut S, ptr: RawPtr<u64>) -> Option<Owned<u64>>
    requires seated { IsSeated (S.caller s.old) }
    ensures caller { S.caller s.new ≡ S.caller s.old }
    ensures home { IsOfSlots (S.caller s.new).home.slots result }
{
    Owned::from_raw(ptr, s)
}

/// The number that a raw pointer names, where that is out as raw.
pub fn see<S: Look<u64> + RawItems<u64>>(s: &mut S, ptr: RawPtr<u64>, guard: &Guard) -> Option<u64>
    requires seated { IsSeated (S.caller s.old) }
    requires reader { reader_of guard.now ≡ (S.caller s.old).reader }
    ensures caller { S.caller s.new ≡ S.caller s.old }
{
    let ptr = ptr.into_ptr(s, guard)?;
    seen(s, ptr)
}
