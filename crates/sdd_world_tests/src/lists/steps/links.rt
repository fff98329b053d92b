//! Steps with the links of entries.
ghost use Rattle.std.specs.Prelude.{◌≡◌};
ghost use Rattle.sdd_space.specs.CallerId.{IsSeated};
ghost use Rattle.sdd_space.specs.Guard.{reader_of};
ghost use Rattle.sdd_space.specs.Shared.{slots_home};
ghost use Rattle.sdd_lists.specs.Entries.{link_home_of};
ghost use Rattle.sdd_lists.specs.Marks.{entry_of};
ghost use Rattle.sdd_lists.specs.Queue.{AreOfCells};

use crate::lists::example::{Entry, Lists};
use crate::lists::steps::{released, seen};
use sdd_lists::{Link, Queue};
use sdd_space::{Guard, Shared};
use std::process::Abort;

/// The link of the oldest entry of a queue.
pub fn oldest<'g, S: Lists>(
    rt: &impl Abort,
    s: &mut S,
    queue: &Queue<u64>,
    guard: &'g Guard,
) -> Link<'g, Entry>
    requires seated { IsSeated (S.caller s.old) }
    requires home { AreOfCells (S.caller s.old).home.cells queue.now }
    requires reader { reader_of guard.now ≡ (S.caller s.old).reader }
    ensures caller { S.caller s.new ≡ S.caller s.old }
    ensures home { link_home_of (entry_of result) ≡ (S.caller s.new).home.cells }
{
    let oldest = queue.peek(guard, s);
    Link::of(oldest, &*s).expect(rt, "an entry is there")
}

/// Whether an entry is clear, marked and deleted.
pub fn shown<S: Lists>(s: &mut S, link: &Link<'_, Entry>) -> (bool, bool, bool)
    requires seated { IsSeated (S.caller s.old) }
    requires home { link_home_of (entry_of link.now) ≡ (S.caller s.old).home.cells }
    ensures caller { S.caller s.new ≡ S.caller s.old }
{
    (link.is_clear(s), link.is_marked(s), link.is_deleted(s))
}

/// Marks an entry, and tells whether that changed it.
pub fn marked<S: Lists>(rt: &impl Abort, s: &mut S, link: &Link<'_, Entry>) -> bool
    requires seated { IsSeated (S.caller s.old) }
    requires home { link_home_of (entry_of link.now) ≡ (S.caller s.old).home.cells }
    ensures caller { S.caller s.new ≡ S.caller s.old }
{
    link.mark(s).expect(rt, "nobody else changes it")
}

/// Takes the mark of an entry away, and tells whether that changed it.
pub fn unmarked<S: Lists>(rt: &impl Abort, s: &mut S, link: &Link<'_, Entry>) -> bool
    requires seated { IsSeated (S.caller s.old) }
    requires home { link_home_of (entry_of link.now) ≡ (S.caller s.old).home.cells }
    ensures caller { S.caller s.new ≡ S.caller s.old }
{
    link.unmark(s).expect(rt, "nobody else changes it")
}

/// Deletes an entry, and tells whether that changed it.
pub fn deleted<S: Lists>(rt: &impl Abort, s: &mut S, link: &Link<'_, Entry>) -> bool
    requires seated { IsSeated (S.caller s.old) }
    requires home { link_home_of (entry_of link.now) ≡ (S.caller s.old).home.cells }
    ensures caller { S.caller s.new ≡ S.caller s.old }
{
    link.delete_self(s).expect(rt, "nobody else changes it")
}

/// The number of the next entry, by a pointer and by an owner.
pub fn next<S: Lists>(
    rt: &impl Abort,
    s: &mut S,
    link: &Link<'_, Entry>,
    guard: &Guard,
) -> (Option<u64>, Option<u64>)
    requires seated { IsSeated (S.caller s.old) }
    requires home { link_home_of (entry_of link.now) ≡ (S.caller s.old).home.cells }
    requires reader { reader_of guard.now ≡ (S.caller s.old).reader }
    ensures caller { S.caller s.new ≡ S.caller s.old }
{
    let ptr = link.next_ptr(guard, s).expect(rt, "nobody else changes it");
    let by_pointer = seen(&*s, ptr);
    let by_owner = match link.next_shared(guard, s) {
        Ok(Some(owner)) => Some(released(s, owner)),
        Ok(None) => None,
        Err(refused) => panic!(rt; "{refused:?}"),
    };
    (by_pointer, by_owner)
}

/// Links a new entry behind another one, which is marked by that, or has no mark then. The number comes back where that is deleted.
pub fn linked_behind<S: Lists>(
    rt: &impl Abort,
    s: &mut S,
    link: &Link<'_, Entry>,
    value: u64,
    mark: bool,
    guard: &Guard,
) -> Result<Option<u64>, u64>
    requires seated { IsSeated (S.caller s.old) }
    requires home { link_home_of (entry_of link.now) ≡ (S.caller s.old).home.cells }
    requires reader { reader_of guard.now ≡ (S.caller s.old).reader }
    ensures caller { S.caller s.new ≡ S.caller s.old }
{
    let owner = made(rt, s, value);
    match link.push_back(owner, mark, guard, s) {
        Ok(ptr) => Ok(seen(&*s, ptr)),
        Err((owner, None)) => Err(released(s, owner)),
        Err((_, Some(refused))) => panic!(rt; "{refused:?}"),
    }
}

/// An owner of a new entry, which is in no list.
pub fn made<S: Lists>(rt: &impl Abort, s: &mut S, value: u64) -> Shared<Entry>
    requires seated { IsSeated (S.caller s.old) }
    ensures caller { S.caller s.new ≡ S.caller s.old }
    ensures home { slots_home result ≡ (S.caller s.new).home.slots }
{
    let Ok(entry) = Entry::new(value, s) else {
        panic!(rt; "a cell is free")
    };
    match Shared::new(entry, s) {
        Ok(owner) => owner,
        Err((_entry, refused)) => panic!(rt; "{refused:?}"),
    }
}
