//! Owners that may have others beside them, pointers to their items, and cells that hold such owners.
use crate::cells::example::{AMPLE, Example, in_each_space};
use crate::cells::steps::{close, opened, owners, seen, shared};
use sdd_core::Tag;
use sdd_participants::Idle;
use sdd_space::{Deferrals, Space};
use std::process::Abort;

/// The last owner is told, and a guard sees the value still.
struct LetsGo;

impl Example for LetsGo {
    fn run<R: Abort, S: Space<u64> + Deferrals<u64, Job = Idle>>(rt: &R, s: &mut S) {
        let owner = shared::made_by_closure(rt, s, 47);
        let guard = opened(rt, s);
        let ptr = owner.get_guarded_ptr(&guard, s);
        let other = shared::copied(rt, s, &owner);
        assert!(rt; *owner.get_guarded_ref(&guard, s) == 47);
        assert!(rt; !shared::release(s, owner));
        assert!(rt; shared::release(s, other));
        assert!(rt; seen(s, ptr) == Some(47));
        close(s, guard);
    }
}

/// Of a pointer one owner more is had for as long as there is one.
struct Upgrades;

impl Example for Upgrades {
    fn run<R: Abort, S: Space<u64> + Deferrals<u64, Job = Idle>>(rt: &R, s: &mut S) {
        let owner = shared::made(rt, s, 47);
        let guard = opened(rt, s);
        let ptr = owner.get_guarded_ptr(&guard, s);
        let other = shared::copied(rt, s, &owner);
        assert!(rt; shared::upgraded(rt, s, ptr) == Some(false));
        assert!(rt; shared::converted(rt, s, ptr) == Some(false));
        assert!(rt; !shared::release(s, owner));
        assert!(rt; shared::release(s, other));
        assert!(rt; shared::upgraded(rt, s, ptr) == None);
        assert!(rt; shared::converted(rt, s, ptr) == None);
        assert!(rt; seen(s, ptr) == Some(47));
        close(s, guard);
    }
}

/// A copy of a cell has its tag, and holds an owner more of its item, or nothing as it does.
struct Copies;

impl Example for Copies {
    fn run<R: Abort, S: Space<u64> + Deferrals<u64, Job = Idle>>(rt: &R, s: &mut S) {
        let cell = shared::cell(rt, s, 7);
        assert!(rt; owners::swapped(rt, s, &cell, Some(8), Tag::Second) == (Some(7), Tag::None));
        assert!(rt; shared::had_of(rt, s, &cell) == Some(8));
        let copy = shared::copied_cell(rt, s, &cell);
        assert!(rt; owners::read(rt, s, &copy) == (Some(8), Tag::Second));
        assert!(rt; owners::emptied_weakly(rt, s, &cell, Tag::First) == Some(8));
        assert!(rt; owners::read(rt, s, &copy) == (Some(8), Tag::Second));
        assert!(rt; shared::had_of(rt, s, &cell) == None);
        let empty = shared::copied_cell(rt, s, &cell);
        assert!(rt; (empty.is_null(s), empty.tag(s)) == (true, Tag::First));
        owners::close_cell(s, cell);
        owners::close_cell(s, empty);
        let owner = shared::into_shared(s, copy).expect(rt, "the copy holds one");
        assert!(rt; *owner.get(s) == 8);
        assert!(rt; shared::release(s, owner));
    }
}

/// An exchange with owners that may have others.
struct Exchanges;

impl Example for Exchanges {
    fn run<R: Abort, S: Space<u64> + Deferrals<u64, Job = Idle>>(rt: &R, s: &mut S) {
        let cell = shared::cell(rt, s, 17);
        let guard = opened(rt, s);
        let mut ptr = owners::load(s, &cell, &guard);
        assert!(rt; owners::tagged(rt, s, &cell, Tag::Both));
        assert!(rt;
            owners::exchanged(rt, s, &cell, ptr, 18, Tag::First, &guard)
                == Err((Some(18), Some(17), Tag::Both))
        );
        assert!(rt; ptr.set_tag(Tag::Both) == Tag::None);
        assert!(rt;
            owners::exchanged(rt, s, &cell, ptr, 18, Tag::First, &guard)
                == Ok((Some(17), Some(18), Tag::First))
        );
        assert!(rt; seen(s, ptr) == Some(17));
        close(s, guard);
        owners::close_cell(s, cell);
    }
}

#[test]
fn the_last_owner_is_told(rt: HostRuntime) {
    in_each_space::<LetsGo, _>(
        &rt,
        AMPLE,
        &[(0, 0, true), (1, 0, true), (2, 0, true), (3, 1, false)],
        0,
    );
}

#[test]
fn a_copy_of_a_cell_has_its_tag(rt: HostRuntime) {
    in_each_space::<Copies, _>(
        &rt,
        AMPLE,
        &[(0, 0, true), (1, 0, true), (2, 0, true), (3, 2, false)],
        0,
    );
}

#[test]
fn an_exchange_of_shared_owners_compares_the_item_and_the_tag(rt: HostRuntime) {
    in_each_space::<Exchanges, _>(
        &rt,
        AMPLE,
        &[(0, 0, true), (1, 0, true), (2, 0, true), (3, 3, false)],
        0,
    );
}

#[test]
fn a_pointer_gives_an_owner_while_there_is_one(rt: HostRuntime) {
    in_each_space::<Upgrades, _>(
        &rt,
        AMPLE,
        &[(0, 0, true), (1, 0, true), (2, 0, true), (3, 1, false)],
        0,
    );
}
