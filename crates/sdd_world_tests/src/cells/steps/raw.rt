//! Raw cells.
ghost use Rattle.std.specs.Prelude.{◌≡◌};
ghost use Rattle.sdd_space.specs.RawCell.{cells_home};
ghost use Rattle.sdd_space.specs.CallerId.{IsSeated};

use crate::cells::steps::{close, opened};
use sdd_core::Tag;
use sdd_space::{AtomicRaw, Guards, Item, RawCells, RawPtr};
use std::process::Abort;

/// A cell with this pointer.
pub fn cell<T: Item<T>, S: RawCells<T>>(rt: &impl Abort, s: &mut S, ptr: RawPtr<T>) -> AtomicRaw<T>
    requires seated { IsSeated (S.caller s.old) }
    ensures caller { S.caller s.new ≡ S.caller s.old }
    ensures home { cells_home result ≡ (S.caller s.new).home.cells }
{
    AtomicRaw::new(ptr, s).expect(rt, "a cell is free")
}

/// The cell's pointer, under a guard of its own.
pub fn held<S: Guards<u64> + RawCells<u64>>(
    rt: &impl Abort,
    s: &mut S,
    cell: &AtomicRaw<u64>,
) -> RawPtr<u64>
    requires seated { IsSeated (S.caller s.old) }
    requires home { cells_home cell.now ≡ (S.caller s.old).home.cells }
    ensures caller { S.caller s.new ≡ S.caller s.old }
{
    let guard = opened(rt, s);
    let ptr = cell.load(&guard, s);
    close(s, guard);
    assert!(rt; cell.is_null(s) == ptr.is_null());
    assert!(rt; cell.tag(s) == ptr.tag());
    ptr
}

/// The cell has this pointer. The one before.
pub fn swapped<S: Guards<u64> + RawCells<u64>>(
    rt: &impl Abort,
    s: &mut S,
    cell: &AtomicRaw<u64>,
    ptr: RawPtr<u64>,
) -> RawPtr<u64>
    requires seated { IsSeated (S.caller s.old) }
    requires home { cells_home cell.now ≡ (S.caller s.old).home.cells }
    ensures caller { S.caller s.new ≡ S.caller s.old }
{
    let guard = opened(rt, s);
    let old = cell.swap(ptr, &guard, s);
    close(s, guard);
    old
}

/// Sets the tag if it is this one, and tells whether it was.
pub fn tag_if<S: RawCells<u64>>(
    rt: &impl Abort,
    s: &mut S,
    cell: &AtomicRaw<u64>,
    old: Tag,
    new: Tag,
) -> bool
    requires seated { IsSeated (S.caller s.old) }
    requires home { cells_home cell.now ≡ (S.caller s.old).home.cells }
    ensures caller { S.caller s.new ≡ S.caller s.old }
{
    cell.update_tag_if(new, |ptr| ptr.tag() == old, s)
        .expect(rt, "in a world the condition is asked once")
}

/// The cell has another pointer, if it had this one.
pub fn exchanged<S: Guards<u64> + RawCells<u64>>(
    rt: &impl Abort,
    s: &mut S,
    cell: &AtomicRaw<u64>,
    current: RawPtr<u64>,
    new: RawPtr<u64>,
) -> Result<RawPtr<u64>, RawPtr<u64>>
    requires seated { IsSeated (S.caller s.old) }
    requires home { cells_home cell.now ≡ (S.caller s.old).home.cells }
    ensures caller { S.caller s.new ≡ S.caller s.old }
{
    let guard = opened(rt, s);
    let result = cell.compare_exchange(current, new, &guard, s);
    close(s, guard);
    result
}

/// The cell has this pointer, if it was not null. The one before, or the one that it has still.
pub fn updated<S: Guards<u64> + RawCells<u64>>(
    rt: &impl Abort,
    s: &mut S,
    cell: &AtomicRaw<u64>,
    next: RawPtr<u64>,
) -> Result<RawPtr<u64>, RawPtr<u64>>
    requires seated { IsSeated (S.caller s.old) }
    requires home { cells_home cell.now ≡ (S.caller s.old).home.cells }
    ensures caller { S.caller s.new ≡ S.caller s.old }
{
    let guard = opened(rt, s);
    let update = |ptr: RawPtr<u64>| if ptr.is_null() { None } else { Some(next) };
    let result = cell.fetch_update(update, &guard, s);
    close(s, guard);
    result.expect(rt, "in a world it is called once")
}

/// Sets the tag by a condition that holds, or doesn't. How often that was asked.
pub fn asked<S: RawCells<u64>>(
    rt: &impl Abort,
    s: &mut S,
    cell: &AtomicRaw<u64>,
    tag: Tag,
    holds: bool,
) -> u8
    requires seated { IsSeated (S.caller s.old) }
    requires home { cells_home cell.now ≡ (S.caller s.old).home.cells }
    ensures caller { S.caller s.new ≡ S.caller s.old }
{
    let mut times = 0u8;
    let condition = |_ptr: RawPtr<u64>| {
        times = times.wrapping_add(1);
        holds
    };
    let was_set = cell.update_tag_if(tag, condition, s);
    assert!(rt; was_set == Ok(holds));
    times
}

/// The cell has this pointer from now on, or the one that it had where this is none. How often the closure was called that says so.
pub fn called<S: Guards<u64> + RawCells<u64>>(
    rt: &impl Abort,
    s: &mut S,
    cell: &AtomicRaw<u64>,
    next: Option<RawPtr<u64>>,
) -> u8
    requires seated { IsSeated (S.caller s.old) }
    requires home { cells_home cell.now ≡ (S.caller s.old).home.cells }
    ensures caller { S.caller s.new ≡ S.caller s.old }
{
    let guard = opened(rt, s);
    let mut times = 0u8;
    let update = |_ptr: RawPtr<u64>| {
        times = times.wrapping_add(1);
        next
    };
    let result = cell.fetch_update(update, &guard, s);
    close(s, guard);
    let updated = result.expect(rt, "in a world it is called once");
    assert!(rt; updated.is_ok() == next.is_some());
    times
}
