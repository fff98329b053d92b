//! Cells of raw pointers, which own nothing.
ghost use Rattle.std.specs.Prelude.{◌≡◌};
ghost use Rattle.sdd_space.specs.RawCell.{cells_home};
ghost use Rattle.sdd_space.specs.CallerId.{IsSeated};

use crate::cells::example::{AMPLE, Example, in_each_space};
use crate::cells::steps::{owned, owners, raw};
use sdd_core::Tag;
use sdd_participants::Idle;
use sdd_space::{AtomicRaw, Deferrals, Guards, RawCells, RawPtr, Space};
use std::process::Abort;

/// A cell that has this pointer compares tags and pointers. It is left with nothing.
fn compares<S: Guards<u64> + RawCells<u64>>(
    rt: &impl Abort,
    s: &mut S,
    cell: &AtomicRaw<u64>,
    ptr: RawPtr<u64>,
)
    requires seated { IsSeated (S.caller s.old) }
    requires home { cells_home cell.now ≡ (S.caller s.old).home.cells }
    ensures caller { S.caller s.new ≡ S.caller s.old }
{
    assert!(rt; raw::tag_if(rt, s, cell, Tag::None, Tag::Both));
    assert!(rt; !raw::tag_if(rt, s, cell, Tag::None, Tag::First));
    let tagged = ptr.with_tag(Tag::Both);
    assert!(rt; raw::exchanged(rt, s, cell, ptr, RawPtr::null()) == Err(tagged));
    assert!(rt; raw::updated(rt, s, cell, tagged) == Ok(tagged));
    assert!(rt; raw::exchanged(rt, s, cell, tagged, RawPtr::null()) == Ok(tagged));
}

/// A cell that has nothing is given this pointer, and then another one.
fn is_given<S: Guards<u64> + RawCells<u64>>(
    rt: &impl Abort,
    s: &mut S,
    cell: &AtomicRaw<u64>,
    ptr: RawPtr<u64>,
)
    requires seated { IsSeated (S.caller s.old) }
    requires home { cells_home cell.now ≡ (S.caller s.old).home.cells }
    ensures caller { S.caller s.new ≡ S.caller s.old }
{
    assert!(rt; raw::held(rt, s, cell).is_null());
    assert!(rt; raw::updated(rt, s, cell, ptr) == Err(RawPtr::null()));
    assert!(rt; raw::swapped(rt, s, cell, ptr) == RawPtr::null());
    let tagged = ptr.with_tag(Tag::Both);
    cell.store(tagged, s);
    assert!(rt; raw::held(rt, s, cell) == tagged);
}

/// A new cell without a pointer has none.
fn has_none<S: RawCells<u64>>(rt: &impl Abort, s: &mut S)
    requires seated { IsSeated (S.caller s.old) }
    ensures caller { S.caller s.new ≡ S.caller s.old }
{
    let null = AtomicRaw::<u64>::null(s).expect(rt, "a cell is free");
    assert!(rt; null.is_null(s));
    null.close(s);
}

struct HasPointers;

impl Example for HasPointers {
    fn run<R: Abort, S: Space<u64> + Deferrals<u64, Job = Idle>>(rt: &R, s: &mut S) {
        let owner = owned::made(rt, s, 17);
        let ptr = owned::raw(s, owner);
        let cell = raw::cell(rt, s, ptr);
        compares(rt, s, &cell, ptr);
        is_given(rt, s, &cell, ptr);
        cell.close(s);
        has_none(rt, s);
        let owner = owned::unraw(s, ptr);
        assert!(rt; owners::spent(s, owner) == Some(17));
    }
}

#[test]
fn a_raw_cell_has_a_pointer_and_owns_nothing(rt: HostRuntime) {
    in_each_space::<HasPointers, _>(&rt, AMPLE, &[], 0);
}
