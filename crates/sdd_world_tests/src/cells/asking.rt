//! A condition and a closure are asked once in a world, whatever they answer.
use crate::cells::example::{AMPLE, Example, in_each_space};
use crate::cells::steps::{owned, owners, raw, shared};
use sdd_core::Tag;
use sdd_participants::Idle;
use sdd_space::{Deferrals, RawPtr, Space};
use std::process::Abort;

/// Those that change the tags of cells of owners of either kind.
struct AskOfOwners;

impl Example for AskOfOwners {
    fn run<R: Abort, S: Space<u64> + Deferrals<u64, Job = Idle>>(rt: &R, s: &mut S) {
        let cell = owned::cell(rt, s, 14);
        assert!(rt; owners::asked(rt, s, &cell, Tag::First, false).0 == 1);
        assert!(rt; cell.tag(s) == Tag::None);
        assert!(rt; owners::asked(rt, s, &cell, Tag::First, true).0 == 1);
        assert!(rt; cell.tag(s) == Tag::First);
        owners::close_cell(s, cell);
        let cell = shared::cell(rt, s, 15);
        assert!(rt; owners::asked(rt, s, &cell, Tag::Both, false).0 == 1);
        assert!(rt; cell.tag(s) == Tag::None);
        assert!(rt; owners::asked(rt, s, &cell, Tag::Both, true).0 == 1);
        assert!(rt; cell.tag(s) == Tag::Both);
        owners::close_cell(s, cell);
    }
}

/// Those that change what raw cells point to.
struct AskOfPointers;

impl Example for AskOfPointers {
    fn run<R: Abort, S: Space<u64> + Deferrals<u64, Job = Idle>>(rt: &R, s: &mut S) {
        let null: RawPtr<u64> = RawPtr::null();
        let cell = raw::cell(rt, s, null);
        assert!(rt; raw::asked(rt, s, &cell, Tag::First, false) == 1);
        assert!(rt; cell.tag(s) == Tag::None);
        assert!(rt; raw::asked(rt, s, &cell, Tag::First, true) == 1);
        assert!(rt; cell.tag(s) == Tag::First);
        assert!(rt; raw::called(rt, s, &cell, None) == 1);
        assert!(rt; cell.tag(s) == Tag::First);
        assert!(rt; raw::called(rt, s, &cell, Some(null.with_tag(Tag::Both))) == 1);
        assert!(rt; cell.tag(s) == Tag::Both);
        cell.close(s);
    }
}

#[test]
fn a_condition_on_owners_is_asked_once(rt: HostRuntime) {
    in_each_space::<AskOfOwners, _>(&rt, AMPLE, &[], 0);
}

#[test]
fn a_condition_on_pointers_is_asked_once_and_a_closure_called_once(rt: HostRuntime) {
    in_each_space::<AskOfPointers, _>(&rt, AMPLE, &[], 0);
}
