//! Stacks.
use crate::lists::example::{AMPLE, Entry, Example, Lists, in_a_world};
use crate::lists::steps::{close, opened, stack};
use sdd_core::{Limits, Refused};
use sdd_lists::LinkedList;
use sdd_lists::laws::last_in_first_out;
use std::process::Abort;

struct TakesTurns;

impl Example for TakesTurns {
    fn run<R: Abort, S: Lists>(&self, rt: &R, s: &mut S) {
        let guard = opened(rt, s);
        let plates = stack::made(rt, s);
        assert!(rt; stack::shown(s, &plates, &guard) == (0, true, None, None));
        assert!(rt; stack::pushed(s, &plates, 37, &guard) == Ok(()));
        assert!(rt; stack::pushed(s, &plates, 3, &guard) == Ok(()));
        assert!(rt; stack::shown(s, &plates, &guard) == (2, false, Some(3), Some(3)));
        assert!(rt; stack::walked(s, &plates, &guard) == [Some(3), Some(37), None, None]);
        assert!(rt; stack::popped(rt, s, &plates, &guard) == Some(3));
        assert!(rt; stack::popped(rt, s, &plates, &guard) == Some(37));
        assert!(rt; stack::popped(rt, s, &plates, &guard) == None);
        assert!(rt; stack::pushed(s, &plates, 1, &guard) == Ok(()));
        stack::close(s, plates, &guard);
        close(s, guard);
    }
}

#[test]
fn the_newest_is_popped_first(rt: HostRuntime) {
    in_a_world(&rt, AMPLE, &TakesTurns, 3);
    last_in_first_out::<Entry>();
}

struct ClosesAnEntry;

impl Example for ClosesAnEntry {
    fn run<R: Abort, S: Lists>(&self, rt: &R, s: &mut S) {
        let entry = Entry::new(5, s).expect(rt, "a cell is free");
        assert!(rt; *entry == 5);
        let other = entry.clone(s).expect(rt, "a cell is free");
        assert!(rt; other == entry);
        assert!(rt; other.close(s) == 5);
        assert!(rt; entry.link_ref().is_null(s));
        assert!(rt; entry.close(s) == 5);
    }
}

#[test]
fn an_entry_gives_its_value_back(rt: HostRuntime) {
    in_a_world(&rt, AMPLE, &ClosesAnEntry, 0);
}

/// A push of 1 finds a place, and one of 2 is refused with this.
#[derive(Clone, Copy)]
struct RefusesTheSecond(Refused);

impl Example for RefusesTheSecond {
    fn run<R: Abort, S: Lists>(&self, rt: &R, s: &mut S) {
        let guard = opened(rt, s);
        let plates = stack::made(rt, s);
        assert!(rt; stack::pushed(s, &plates, 1, &guard) == Ok(()));
        assert!(rt; stack::pushed(s, &plates, 2, &guard) == Err((2, self.0)));
        stack::close(s, plates, &guard);
        close(s, guard);
    }
}

/// The same with as many slots and cells, of which the stack has one cell.
fn refuses_the_second<R: Abort + AllocGlobal>(rt: &R, slots: u64, cells: u64, refused: Refused) {
    let limits = Limits {
        slots,
        cells,
        ..AMPLE
    };
    in_a_world(rt, limits, &RefusesTheSecond(refused), 1);
}

#[test]
fn no_slot_is_answered_before_no_cell(rt: HostRuntime) {
    refuses_the_second(&rt, 1, 2, Refused::NoSlot);
    refuses_the_second(&rt, 1, 3, Refused::NoSlot);
    refuses_the_second(&rt, 2, 2, Refused::NoCell);
}

struct AsksTheNewest;

impl Example for AsksTheNewest {
    fn run<R: Abort, S: Lists>(&self, rt: &R, s: &mut S) {
        let guard = opened(rt, s);
        let plates = stack::made(rt, s);
        assert!(rt; stack::pushed_onto(s, &plates, 1, None, &guard) == Ok(()));
        assert!(rt; stack::pushed_onto(s, &plates, 2, Some(1), &guard) == Ok(()));
        assert!(rt; stack::pushed_onto(s, &plates, 3, Some(1), &guard) == Err((3, None)));
        assert!(rt; stack::popped_if(rt, s, &plates, 1, &guard) == Err(2));
        assert!(rt; stack::popped(rt, s, &plates, &guard) == Some(2));
        assert!(rt; stack::popped_if(rt, s, &plates, 1, &guard) == Ok(Some(1)));
        assert!(rt; stack::popped_if(rt, s, &plates, 1, &guard) == Ok(None));
        stack::close(s, plates, &guard);
        close(s, guard);
    }
}

#[test]
fn a_condition_is_asked_of_the_newest(rt: HostRuntime) {
    in_a_world(&rt, AMPLE, &AsksTheNewest, 2);
}

struct Pours;

impl Example for Pours {
    fn run<R: Abort, S: Lists>(&self, rt: &R, s: &mut S) {
        let guard = opened(rt, s);
        let plates = stack::made(rt, s);
        assert!(rt; stack::pushed(s, &plates, 37, &guard) == Ok(()));
        assert!(rt; stack::pushed(s, &plates, 3, &guard) == Ok(()));
        let all = stack::all_of(rt, s, &plates, &guard);
        assert!(rt; stack::pushed(s, &plates, 1, &guard) == Ok(()));
        assert!(rt; stack::popped(rt, s, &plates, &guard) == Some(1));
        assert!(rt; stack::popped(rt, s, &plates, &guard) == None);
        assert!(rt; stack::popped(rt, s, &all, &guard) == Some(3));
        assert!(rt; stack::popped(rt, s, &all, &guard) == Some(37));
        assert!(rt; stack::popped(rt, s, &all, &guard) == None);
        stack::close(s, plates, &guard);
        stack::close(s, all, &guard);
        close(s, guard);
    }
}

#[test]
fn all_entries_go_to_another_stack(rt: HostRuntime) {
    in_a_world(&rt, AMPLE, &Pours, 3);
}

/// All are there, in order, or as many as find a slot.
struct Fills;

impl Example for Fills {
    fn run<R: Abort, S: Lists>(&self, rt: &R, s: &mut S) {
        let guard = opened(rt, s);
        match stack::filled(rt, s, 4, &guard) {
            Ok(plates) => {
                assert!(rt; stack::walked(s, &plates, &guard) == [Some(3), Some(2), Some(1), None]);
                assert!(rt; stack::given(s, &plates, &guard) == [Some(3), Some(2), Some(1), None]);
                assert!(rt; stack::first_given(s, &plates) == Some(3));
                stack::close(s, plates, &guard);
            }
            Err((plates, item, refused)) => {
                assert!(rt; (item, refused) == (3, Refused::NoSlot));
                assert!(rt; stack::walked(s, &plates, &guard) == [Some(2), Some(1), None, None]);
                stack::close(s, plates, &guard);
            }
        }
        close(s, guard);
    }
}

#[test]
fn what_an_iterator_gives_is_there_the_last_one_first(rt: HostRuntime) {
    in_a_world(&rt, AMPLE, &Fills, 3);
    in_a_world(&rt, Limits { slots: 2, ..AMPLE }, &Fills, 2);
}

/// A clone has the same numbers in the same order, or as many as find a slot.
struct Copies;

impl Example for Copies {
    fn run<R: Abort, S: Lists>(&self, rt: &R, s: &mut S) {
        let guard = opened(rt, s);
        let plates = stack::made(rt, s);
        assert!(rt; stack::pushed(s, &plates, 1, &guard) == Ok(()));
        assert!(rt; stack::pushed(s, &plates, 2, &guard) == Ok(()));
        match stack::copied(rt, s, &plates, &guard) {
            Ok(copy) => {
                assert!(rt; stack::walked(s, &copy, &guard) == [Some(2), Some(1), None, None]);
                stack::close(s, copy, &guard);
            }
            Err((copy, refused)) => {
                assert!(rt; refused == Refused::NoSlot);
                assert!(rt; stack::walked(s, &copy, &guard) == [Some(2), None, None, None]);
                stack::close(s, copy, &guard);
            }
        }
        assert!(rt; stack::walked(s, &plates, &guard) == [Some(2), Some(1), None, None]);
        stack::close(s, plates, &guard);
        close(s, guard);
    }
}

#[test]
fn a_clone_has_the_same_numbers(rt: HostRuntime) {
    in_a_world(&rt, AMPLE, &Copies, 4);
    in_a_world(&rt, Limits { slots: 3, ..AMPLE }, &Copies, 3);
}
