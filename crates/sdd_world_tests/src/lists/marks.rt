//! Marks and deletions of entries.
use crate::lists::example::{AMPLE, Example, Lists, in_a_world};
use crate::lists::steps::{close, links, opened, queue};
use std::process::Abort;

struct Deletes;

impl Example for Deletes {
    fn run<R: Abort, S: Lists>(&self, rt: &R, s: &mut S) {
        let guard = opened(rt, s);
        let jobs = queue::made(rt, s);
        assert!(rt; queue::pushed(s, &jobs, 1, &guard) == Ok(()));
        let link = links::oldest(rt, s, &jobs, &guard);
        assert!(rt; links::deleted(rt, s, &link));
        assert!(rt; !links::deleted(rt, s, &link));
        assert!(rt; links::shown(s, &link) == (false, false, true));
        assert!(rt; queue::shown(s, &jobs, &guard) == (0, true, None, None));
        assert!(rt; queue::pushed(s, &jobs, 2, &guard) == Ok(()));
        assert!(rt; queue::popped(rt, s, &jobs, &guard) == Some(2));
        queue::close(s, jobs, &guard);
        close(s, guard);
    }
}

#[test]
fn a_deleted_entry_is_popped_by_nobody(rt: HostRuntime) {
    in_a_world(&rt, AMPLE, &Deletes, 2);
}

struct Marks;

impl Example for Marks {
    fn run<R: Abort, S: Lists>(&self, rt: &R, s: &mut S) {
        let guard = opened(rt, s);
        let jobs = queue::made(rt, s);
        assert!(rt; queue::pushed(s, &jobs, 1, &guard) == Ok(()));
        let link = links::oldest(rt, s, &jobs, &guard);
        assert!(rt; links::shown(s, &link) == (true, false, false));
        assert!(rt; links::marked(rt, s, &link));
        assert!(rt; !links::marked(rt, s, &link));
        assert!(rt; queue::pushed(s, &jobs, 2, &guard) == Ok(()));
        assert!(rt; links::shown(s, &link) == (false, true, false));
        assert!(rt; links::unmarked(rt, s, &link));
        assert!(rt; !links::unmarked(rt, s, &link));
        assert!(rt; queue::shown(s, &jobs, &guard) == (2, false, Some(1), Some(1)));
        queue::close(s, jobs, &guard);
        close(s, guard);
    }
}

#[test]
fn a_mark_stays_where_an_entry_comes_behind(rt: HostRuntime) {
    in_a_world(&rt, AMPLE, &Marks, 2);
}

/// What is linked behind an entry comes next, and deleted entries between are let go of.
struct LinksBehind;

impl Example for LinksBehind {
    fn run<R: Abort, S: Lists>(&self, rt: &R, s: &mut S) {
        let guard = opened(rt, s);
        let jobs = queue::made(rt, s);
        assert!(rt; queue::pushed(s, &jobs, 1, &guard) == Ok(()));
        let link = links::oldest(rt, s, &jobs, &guard);
        assert!(rt; links::next(rt, s, &link, &guard) == (None, None));
        assert!(rt; links::linked_behind(rt, s, &link, 3, true, &guard) == Ok(Some(3)));
        assert!(rt; links::shown(s, &link) == (false, true, false));
        assert!(rt; links::linked_behind(rt, s, &link, 2, false, &guard) == Ok(Some(2)));
        assert!(rt; links::shown(s, &link) == (true, false, false));
        assert!(rt; queue::walked(s, &jobs, &guard) == [Some(1), Some(2), Some(3), None]);
        queue::close(s, jobs, &guard);
        close(s, guard);
    }
}

/// Behind a deleted entry nothing is linked.
struct LinksNothing;

impl Example for LinksNothing {
    fn run<R: Abort, S: Lists>(&self, rt: &R, s: &mut S) {
        let guard = opened(rt, s);
        let jobs = queue::made(rt, s);
        assert!(rt; queue::pushed(s, &jobs, 1, &guard) == Ok(()));
        assert!(rt; queue::pushed(s, &jobs, 2, &guard) == Ok(()));
        let first = links::oldest(rt, s, &jobs, &guard);
        assert!(rt; links::next(rt, s, &first, &guard) == (Some(2), Some(2)));
        assert!(rt; links::deleted(rt, s, &first));
        assert!(rt; links::linked_behind(rt, s, &first, 3, false, &guard) == Err(3));
        let second = links::oldest(rt, s, &jobs, &guard);
        assert!(rt; links::deleted(rt, s, &second));
        assert!(rt; links::next(rt, s, &first, &guard) == (None, None));
        assert!(rt; queue::walked(s, &jobs, &guard) == [None, None, None, None]);
        queue::close(s, jobs, &guard);
        close(s, guard);
    }
}

#[test]
fn an_entry_is_linked_behind_another_one_that_is_not_deleted(rt: HostRuntime) {
    in_a_world(&rt, AMPLE, &LinksBehind, 3);
    in_a_world(&rt, AMPLE, &LinksNothing, 3);
}
