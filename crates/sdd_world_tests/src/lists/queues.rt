//! Queues.
use crate::lists::example::{AMPLE, Entry, Example, Lists, in_a_world};
use crate::lists::steps::{close, links, opened, queue, release};
use sdd_core::{Limits, Refused};
use sdd_lists::Queue;
use sdd_lists::laws::first_in_first_out;
use std::process::Abort;

struct TakesTurns;

impl Example for TakesTurns {
    fn run<R: Abort, S: Lists>(&self, rt: &R, s: &mut S) {
        let guard = opened(rt, s);
        let jobs = queue::made(rt, s);
        assert!(rt; queue::shown(s, &jobs, &guard) == (0, true, None, None));
        assert!(rt; queue::pushed(s, &jobs, 37, &guard) == Ok(()));
        assert!(rt; queue::pushed(s, &jobs, 3, &guard) == Ok(()));
        assert!(rt; queue::shown(s, &jobs, &guard) == (2, false, Some(37), Some(37)));
        assert!(rt; queue::popped(rt, s, &jobs, &guard) == Some(37));
        assert!(rt; queue::pushed(s, &jobs, 1, &guard) == Ok(()));
        assert!(rt; queue::popped(rt, s, &jobs, &guard) == Some(3));
        assert!(rt; queue::popped(rt, s, &jobs, &guard) == Some(1));
        assert!(rt; queue::popped(rt, s, &jobs, &guard) == None);
        assert!(rt; queue::pushed(s, &jobs, 5, &guard) == Ok(()));
        queue::close(s, jobs, &guard);
        close(s, guard);
    }
}

#[test]
fn the_oldest_is_popped_first(rt: HostRuntime) {
    in_a_world(&rt, AMPLE, &TakesTurns, 4);
    first_in_first_out::<Entry>();
}

struct AsksTheNewest;

impl Example for AsksTheNewest {
    fn run<R: Abort, S: Lists>(&self, rt: &R, s: &mut S) {
        let guard = opened(rt, s);
        let jobs = queue::made(rt, s);
        assert!(rt; queue::pushed_behind(s, &jobs, 1, None, &guard) == Ok(()));
        assert!(rt; queue::pushed_behind(s, &jobs, 2, Some(1), &guard) == Ok(()));
        assert!(rt; queue::pushed_behind(s, &jobs, 3, Some(1), &guard) == Err((3, None)));
        assert!(rt; queue::popped(rt, s, &jobs, &guard) == Some(1));
        assert!(rt; queue::popped(rt, s, &jobs, &guard) == Some(2));
        assert!(rt; queue::popped(rt, s, &jobs, &guard) == None);
        queue::close(s, jobs, &guard);
        close(s, guard);
    }
}

struct AsksTheOldest;

impl Example for AsksTheOldest {
    fn run<R: Abort, S: Lists>(&self, rt: &R, s: &mut S) {
        let guard = opened(rt, s);
        let jobs = queue::made(rt, s);
        assert!(rt; queue::pushed(s, &jobs, 3, &guard) == Ok(()));
        assert!(rt; queue::pushed(s, &jobs, 1, &guard) == Ok(()));
        assert!(rt; queue::popped_if(rt, s, &jobs, 1, &guard) == Err(3));
        assert!(rt; queue::popped(rt, s, &jobs, &guard) == Some(3));
        assert!(rt; queue::popped_if(rt, s, &jobs, 1, &guard) == Ok(Some(1)));
        assert!(rt; queue::popped_if(rt, s, &jobs, 1, &guard) == Ok(None));
        queue::close(s, jobs, &guard);
        close(s, guard);
    }
}

#[test]
fn a_condition_is_asked_of_the_newest_and_of_the_oldest(rt: HostRuntime) {
    in_a_world(&rt, AMPLE, &AsksTheNewest, 2);
    in_a_world(&rt, AMPLE, &AsksTheOldest, 2);
}

/// The popped entry has no owner in the queue any more, so that who popped it is the last.
struct PopsTheNewest;

impl Example for PopsTheNewest {
    fn run<R: Abort, S: Lists>(&self, rt: &R, s: &mut S) {
        let guard = opened(rt, s);
        let jobs = queue::made(rt, s);
        assert!(rt; queue::pushed(s, &jobs, 1, &guard) == Ok(()));
        match jobs.pop(&guard, s) {
            Ok(Some(owner)) => assert!(rt; release(s, owner)),
            _ => panic!(rt; "1 was pushed"),
        }
        queue::close(s, jobs, &guard);
        close(s, guard);
    }
}

#[test]
fn who_popped_the_newest_entry_is_its_last_owner(rt: HostRuntime) {
    in_a_world(&rt, AMPLE, &PopsTheNewest, 1);
}

struct FindsOneCell;

impl Example for FindsOneCell {
    fn run<R: Abort, S: Lists>(&self, rt: &R, s: &mut S) {
        let jobs: Result<Queue<u64>, Refused> = Queue::new(s);
        match jobs {
            Ok(_) => panic!(rt; "one cell is free"),
            Err(refused) => assert!(rt; refused == Refused::NoCell),
        }
    }
}

#[test]
fn a_queue_needs_two_cells(rt: HostRuntime) {
    in_a_world(&rt, Limits { cells: 1, ..AMPLE }, &FindsOneCell, 0);
}

/// A push of 1 finds a place, and one of 2 is refused with this.
#[derive(Clone, Copy)]
struct RefusesTheSecond(Refused);

impl Example for RefusesTheSecond {
    fn run<R: Abort, S: Lists>(&self, rt: &R, s: &mut S) {
        let guard = opened(rt, s);
        let jobs = queue::made(rt, s);
        assert!(rt; queue::pushed(s, &jobs, 1, &guard) == Ok(()));
        assert!(rt; queue::pushed(s, &jobs, 2, &guard) == Err((2, self.0)));
        queue::close(s, jobs, &guard);
        close(s, guard);
    }
}

/// The same with as many slots and cells, of which the queue has two cells.
fn refuses_the_second<R: Abort + AllocGlobal>(rt: &R, slots: u64, cells: u64, refused: Refused) {
    let limits = Limits {
        slots,
        cells,
        ..AMPLE
    };
    in_a_world(rt, limits, &RefusesTheSecond(refused), 1);
}

#[test]
fn no_slot_is_answered_before_no_cell(rt: HostRuntime) {
    refuses_the_second(&rt, 1, 3, Refused::NoSlot);
    refuses_the_second(&rt, 2, 3, Refused::NoCell);
}

/// All are there, in order, or as many as find a slot.
struct Fills;

impl Example for Fills {
    fn run<R: Abort, S: Lists>(&self, rt: &R, s: &mut S) {
        let guard = opened(rt, s);
        match queue::filled(rt, s, 4, &guard) {
            Ok(jobs) => {
                assert!(rt; queue::walked(s, &jobs, &guard) == [Some(1), Some(2), Some(3), None]);
                assert!(rt; queue::given(s, &jobs, &guard) == [Some(1), Some(2), Some(3), None]);
                queue::close(s, jobs, &guard);
            }
            Err((jobs, item, refused)) => {
                assert!(rt; (item, refused) == (3, Refused::NoSlot));
                assert!(rt; queue::walked(s, &jobs, &guard) == [Some(1), Some(2), None, None]);
                queue::close(s, jobs, &guard);
            }
        }
        close(s, guard);
    }
}

#[test]
fn what_an_iterator_gives_is_there_in_order(rt: HostRuntime) {
    in_a_world(&rt, AMPLE, &Fills, 3);
    in_a_world(&rt, Limits { slots: 2, ..AMPLE }, &Fills, 2);
}

/// A clone has the same numbers, or as many as find a slot, and its entries have no mark.
struct Copies;

impl Example for Copies {
    fn run<R: Abort, S: Lists>(&self, rt: &R, s: &mut S) {
        let guard = opened(rt, s);
        let jobs = queue::made(rt, s);
        assert!(rt; queue::pushed(s, &jobs, 1, &guard) == Ok(()));
        assert!(rt; queue::pushed(s, &jobs, 2, &guard) == Ok(()));
        let link = links::oldest(rt, s, &jobs, &guard);
        assert!(rt; links::marked(rt, s, &link));
        match queue::copied(rt, s, &jobs, &guard) {
            Ok(copy) => {
                let link = links::oldest(rt, s, &copy, &guard);
                assert!(rt; links::shown(s, &link) == (true, false, false));
                assert!(rt; queue::walked(s, &copy, &guard) == [Some(1), Some(2), None, None]);
                queue::close(s, copy, &guard);
            }
            Err((copy, refused)) => {
                assert!(rt; refused == Refused::NoSlot);
                assert!(rt; queue::walked(s, &copy, &guard) == [Some(1), None, None, None]);
                queue::close(s, copy, &guard);
            }
        }
        assert!(rt; queue::walked(s, &jobs, &guard) == [Some(1), Some(2), None, None]);
        queue::close(s, jobs, &guard);
        close(s, guard);
    }
}

#[test]
fn a_clone_has_the_same_numbers(rt: HostRuntime) {
    in_a_world(&rt, AMPLE, &Copies, 4);
    in_a_world(&rt, Limits { slots: 3, ..AMPLE }, &Copies, 3);
}

/// What is deleted isn't given, and nothing comes behind the end.
struct GivesWhatIsLeft;

impl Example for GivesWhatIsLeft {
    fn run<R: Abort, S: Lists>(&self, rt: &R, s: &mut S) {
        let guard = opened(rt, s);
        let jobs = queue::made(rt, s);
        assert!(rt; queue::given(s, &jobs, &guard) == [None; 4]);
        assert!(rt; queue::pushed(s, &jobs, 1, &guard) == Ok(()));
        assert!(rt; queue::pushed(s, &jobs, 2, &guard) == Ok(()));
        let link = links::oldest(rt, s, &jobs, &guard);
        assert!(rt; links::deleted(rt, s, &link));
        assert!(rt; queue::given(s, &jobs, &guard) == [Some(2), None, None, None]);
        queue::close(s, jobs, &guard);
        close(s, guard);
    }
}

#[test]
fn an_iterator_gives_what_is_not_deleted(rt: HostRuntime) {
    in_a_world(&rt, AMPLE, &GivesWhatIsLeft, 2);
}
