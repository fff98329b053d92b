//! The steps that the examples are made of, over any space. Of the space they say only that its caller stays.
ghost use Rattle.std.specs.Prelude.{◌≡◌};
ghost use Rattle.sdd_space.specs.Guard.{reader_of};
ghost use Rattle.sdd_space.specs.CallerId.{IsSeated};

pub mod collectors;
pub mod owned;
pub mod owners;
pub mod raw;
pub mod shared;

use sdd_core::Tag;
use sdd_space::{Guard, Guards, Item, Look, Ptr};
use std::process::Abort;

/// Of an exchange: the number whose owner came back, which waits from now on, the number that the pointer shows, and its tag.
pub type Read = (Option<u64>, Option<u64>, Tag);

/// One more guard.
pub fn opened<T: Item<T>, S: Guards<T>>(rt: &impl Abort, s: &mut S) -> Guard
    requires seated { IsSeated (S.caller s.old) }
    ensures caller { S.caller s.new ≡ S.caller s.old }
    ensures reader { reader_of result ≡ (S.caller s.new).reader }
{
    Guard::new(s).expect(rt, "a guard may be opened")
}

/// Closes a guard.
pub fn close<T: Item<T>, S: Guards<T>>(s: &mut S, guard: Guard)
    requires seated { IsSeated (S.caller s.old) }
    requires reader { reader_of guard ≡ (S.caller s.old).reader }
    ensures caller { S.caller s.new ≡ S.caller s.old }
{
    guard.close(s);
}

/// Opens, accelerates and closes a guard, and tells which epoch it showed, and whether something might wait then.
pub fn accelerated<T: Item<T>, S: Guards<T>>(rt: &impl Abort, s: &mut S) -> (u8, bool)
    requires seated { IsSeated (S.caller s.old) }
    ensures caller { S.caller s.new ≡ S.caller s.old }
{
    let guard = opened(rt, s);
    let epoch = u8::from(guard.epoch(s));
    let garbage = guard.has_garbage(s);
    guard.accelerate(s);
    close(s, guard);
    (epoch, garbage)
}

/// The next accelerated guards show these epochs, and whether something might wait.
pub fn shows<S: Guards<u64>>(rt: &impl Abort, s: &mut S, table: &[(u8, bool)])
    requires seated { IsSeated (S.caller s.old) }
    ensures caller { S.caller s.new ≡ S.caller s.old }
{
    for (epoch, garbage) in table {
        assert!(rt; accelerated(rt, s) == (*epoch, *garbage));
    }
}

/// What a pointer shows.
pub fn seen<L: Look<u64>>(at: &L, ptr: Ptr<'_, u64>) -> Option<u64> {
    ptr.as_ref(at).copied()
}
