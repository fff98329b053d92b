//! The steps that the examples are made of. Of the space they say only that its caller stays.
ghost use Rattle.std.specs.Prelude.{◌≡◌};
ghost use Rattle.sdd_space.specs.Guard.{reader_of};
ghost use Rattle.sdd_space.specs.CallerId.{IsSeated};
ghost use Rattle.sdd_space.specs.Shared.{slots_home};

pub mod links;
pub mod queue;
pub mod stack;

use crate::lists::example::{Entry, Lists};
use sdd_space::{Guard, Guards, Items, Look, Ptr, Shared};
use std::process::Abort;

/// One more guard.
pub fn opened<S: Guards<Entry>>(rt: &impl Abort, s: &mut S) -> Guard
    requires seated { IsSeated (S.caller s.old) }
    ensures caller { S.caller s.new ≡ S.caller s.old }
    ensures reader { reader_of result ≡ (S.caller s.new).reader }
{
    Guard::new(s).expect(rt, "a guard may be opened")
}

/// Closes a guard.
pub fn close<S: Guards<Entry>>(s: &mut S, guard: Guard)
    requires seated { IsSeated (S.caller s.old) }
    requires reader { reader_of guard ≡ (S.caller s.old).reader }
    ensures caller { S.caller s.new ≡ S.caller s.old }
{
    guard.close(s);
}

/// Gives an owner of an entry up, and tells whether it was the last.
pub fn release<S: Items<Entry>>(s: &mut S, owner: Shared<Entry>) -> bool
    requires seated { IsSeated (S.caller s.old) }
    requires home { slots_home owner ≡ (S.caller s.old).home.slots }
    ensures caller { S.caller s.new ≡ S.caller s.old }
{
    owner.release(s)
}

/// Gives an owner of an entry up, and tells the entry's number.
pub fn released<S: Lists>(s: &mut S, owner: Shared<Entry>) -> u64
    requires seated { IsSeated (S.caller s.old) }
    requires home { slots_home owner ≡ (S.caller s.old).home.slots }
    ensures caller { S.caller s.new ≡ S.caller s.old }
{
    let number = *owner.get(&*s).as_ref();
    let _ = release(s, owner);
    number
}

/// The number of an entry, if there is one.
pub fn number_of(entry: Option<&Entry>) -> Option<u64> {
    match entry {
        Some(entry) => Some(*entry.as_ref()),
        None => None,
    }
}

/// The number of the entry that a pointer names.
pub fn seen<L: Look<Entry>>(at: &L, ptr: Ptr<'_, Entry>) -> Option<u64> {
    number_of(ptr.as_ref(at))
}
