//! Items that are out as raw, with nobody's right.
use crate::cells::example::{AMPLE, Example, in_each_space};
use crate::cells::steps::{close, opened, owned};
use sdd_core::{Refused, Tag};
use sdd_participants::Idle;
use sdd_space::{Deferrals, Space};
use std::process::Abort;

struct GoesRaw;

impl Example for GoesRaw {
    fn run<R: Abort, S: Space<u64> + Deferrals<u64, Job = Idle>>(rt: &R, s: &mut S) {
        let owner = owned::made(rt, s, 7);
        let raw = owned::raw(s, owner);
        assert!(rt; !raw.is_null());
        assert!(rt; raw.tag() == Tag::None);
        let Some(owner) = owned::unraw(s, raw) else {
            panic!(rt; "the item is out as raw")
        };
        let guard = opened(rt, s);
        assert!(rt; owned::see(s, raw, &guard) == None);
        let again = owned::raw(s, owner);
        assert!(rt; raw == again);
        assert!(rt; owned::see(s, raw, &guard) == Some(7));
        // the tag is ignored
        let Some(mut owner) = owned::unraw(s, raw.with_tag(Tag::Both)) else {
            panic!(rt; "the item is out as raw")
        };
        assert!(rt; owned::put(s, &mut owner, 8) == Err(Refused::GuardOpen));
        close(s, guard);
        assert!(rt; owned::put(s, &mut owner, 8) == Ok(7));
        match owned::drop_in_place(s, owner) {
            Ok(()) => {}
            Err((_owner, refused)) => panic!(rt; "{refused:?}"),
        }
    }
}

#[test]
fn an_item_goes_raw_and_comes_back(rt: HostRuntime) {
    in_each_space::<GoesRaw, _>(&rt, AMPLE, &[], 1);
}
