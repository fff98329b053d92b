//! Cells of owners that are alone, in each space.
use crate::cells::example::{AMPLE, Example, in_each_space};
use crate::cells::steps::{close, opened, owned, owners, seen};
use sdd_core::Tag;
use sdd_participants::Idle;
use sdd_space::{Deferrals, Space};
use std::process::Abort;

/// A swap answers what the cell held and its tag. It is left with nothing, which the weak exchange gives back.
struct Swaps;

impl Example for Swaps {
    fn run<R: Abort, S: Space<u64> + Deferrals<u64, Job = Idle>>(rt: &R, s: &mut S) {
        let cell = owned::cell(rt, s, 14);
        assert!(rt; owners::swapped(rt, s, &cell, Some(15), Tag::Second) == (Some(14), Tag::None));
        assert!(rt; owners::read(rt, s, &cell) == (Some(15), Tag::Second));
        assert!(rt; owners::swapped(rt, s, &cell, None, Tag::First) == (Some(15), Tag::Second));
        assert!(rt; owners::read(rt, s, &cell) == (None, Tag::First));
        assert!(rt; owners::swapped(rt, s, &cell, None, Tag::None) == (None, Tag::First));
        assert!(rt; owners::emptied_weakly(rt, s, &cell, Tag::Both) == None);
        assert!(rt; (cell.is_null(s), cell.tag(s)) == (true, Tag::Both));
        owners::close_cell(s, cell);
    }
}

/// An exchange compares the item and the tag, and gives back what it was given where one of them differs.
struct Exchanges;

impl Example for Exchanges {
    fn run<R: Abort, S: Space<u64> + Deferrals<u64, Job = Idle>>(rt: &R, s: &mut S) {
        let cell = owned::cell(rt, s, 17);
        let guard = opened(rt, s);
        let mut ptr = owners::load(s, &cell, &guard);
        let (times, shown) = owners::asked(rt, s, &cell, Tag::Both, true);
        assert!(rt; (times, shown.is_null(), shown.tag()) == (1, false, Tag::None));
        assert!(rt;
            owners::exchanged(rt, s, &cell, ptr, 18, Tag::First, &guard)
                == Err((Some(18), Some(17), Tag::Both))
        );
        assert!(rt; ptr.set_tag(Tag::Both) == Tag::None);
        assert!(rt;
            owners::exchanged(rt, s, &cell, ptr, 18, Tag::First, &guard)
                == Ok((Some(17), Some(18), Tag::First))
        );
        assert!(rt;
            owners::exchanged(rt, s, &cell, ptr, 19, Tag::None, &guard)
                == Err((Some(19), Some(18), Tag::First))
        );
        assert!(rt; seen(s, ptr) == Some(17));
        close(s, guard);
        owners::close_cell(s, cell);
    }
}

/// A condition that doesn't hold is asked once, and leaves the tag.
struct KeepsTag;

impl Example for KeepsTag {
    fn run<R: Abort, S: Space<u64> + Deferrals<u64, Job = Idle>>(rt: &R, s: &mut S) {
        let cell = owned::cell(rt, s, 7);
        let (times, shown) = owners::asked(rt, s, &cell, Tag::First, true);
        assert!(rt; (times, shown.is_null(), shown.tag()) == (1, false, Tag::None));
        let (times, shown) = owners::asked(rt, s, &cell, Tag::Second, false);
        assert!(rt; (times, shown.is_null(), shown.tag()) == (1, false, Tag::First));
        assert!(rt; owners::read(rt, s, &cell) == (Some(7), Tag::First));
        owners::close_cell(s, cell);
    }
}

/// What lies in a cell comes out of it as an owner, and goes into another one.
struct ComesOut;

impl Example for ComesOut {
    fn run<R: Abort, S: Space<u64> + Deferrals<u64, Job = Idle>>(rt: &R, s: &mut S) {
        let cell = owned::cell(rt, s, 7);
        let out = owned::into_owned(s, cell);
        let owner = out.expect(rt, "the cell held one");
        assert!(rt; *owner.get(s) == 7);
        let cell = owned::cell_from(rt, s, owner);
        assert!(rt; owners::read(rt, s, &cell) == (Some(7), Tag::None));
        assert!(rt; owners::swapped(rt, s, &cell, None, Tag::Both) == (Some(7), Tag::None));
        let out = owned::into_owned(s, cell);
        assert!(rt; out.is_none());
        owned::none(rt, out);
    }
}

/// All items that were made wait with the participant that gave them up, and go at the fourth opening.
#[test]
fn a_cell_answers_what_it_held(rt: HostRuntime) {
    in_each_space::<Swaps, _>(
        &rt,
        AMPLE,
        &[(0, 0, true), (1, 0, true), (2, 0, true), (3, 2, false)],
        0,
    );
}

#[test]
fn an_exchange_compares_the_item_and_the_tag(rt: HostRuntime) {
    in_each_space::<Exchanges, _>(
        &rt,
        AMPLE,
        &[(0, 0, true), (1, 0, true), (2, 0, true), (3, 4, false)],
        0,
    );
}

#[test]
fn a_condition_decides_whether_a_tag_is_set(rt: HostRuntime) {
    in_each_space::<KeepsTag, _>(&rt, AMPLE, &[], 0);
}

#[test]
fn an_owner_goes_from_cell_to_cell(rt: HostRuntime) {
    in_each_space::<ComesOut, _>(&rt, AMPLE, &[], 0);
}
