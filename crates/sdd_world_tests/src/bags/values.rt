//! Bags of numbers.
ghost use Rattle.std.specs.Prelude.{◌≡◌, ◌<◌, ◌≤◌};
ghost use Rattle.sdd_bag.specs.There.{MayCall};

use crate::bags::example::{
    AMPLE, Bags, Entry, Example, StorageBag, in_a_world, in_a_world_left, left,
};
use crate::bags::steps::{
    changed, closed, counted, filled, full_of, made, opened, popped, pushed, shut, shut_beside,
    summed, tenfold,
};
use sdd_bag::Bag;
use sdd_core::{Limits, Refused};
use sdd_lists::Unfinished;
use std::iter::once;
use std::process::Abort;

/// The greatest length of an array, which is the default.
const DEFAULT: usize = 32;

struct KeepsOne;

impl Example<Entry<u64, 1>> for KeepsOne {
    fn run<R: Abort, S: Bags<Entry<u64, 1>>>(&self, rt: &R, s: &mut S) {
        let guard = opened(rt, s);
        let mut bag: StorageBag<u64, 1> = made(rt, s);
        assert!(rt; bag.is_empty());
        assert!(rt; bag.try_push(11) == Ok(()));
        assert!(rt; bag.try_push(17) == Err(17));
        assert!(rt; bag.len() == 1);
        closed(s, bag, &guard);
        shut(s, guard);
    }
}

#[test]
fn a_bag_of_length_one_keeps_one_value_itself(rt: HostRuntime) {
    in_a_world(&rt, AMPLE, &KeepsOne, 0);
}

struct SumsUp;

impl Example<Entry<u64, DEFAULT>> for SumsUp {
    fn run<R: Abort, S: Bags<Entry<u64, DEFAULT>>>(&self, rt: &R, s: &mut S) {
        let guard = opened(rt, s);
        let mut bag: StorageBag<u64, DEFAULT> = made(rt, s);
        assert!(rt; pushed(s, &mut bag, 7, &guard) == Ok(()));
        assert!(rt; pushed(s, &mut bag, 17, &guard) == Ok(()));
        assert!(rt; pushed(s, &mut bag, 37, &guard) == Ok(()));
        assert!(rt; summed(s, &mut bag, &guard) == 61);
        assert!(rt; bag.is_empty());
        assert!(rt; popped(s, &mut bag, &guard) == None);
        closed(s, bag, &guard);
        shut(s, guard);
    }
}

#[test]
fn pop_all_folds_each_value(rt: HostRuntime) {
    in_a_world(&rt, AMPLE, &SumsUp, 0);
}

/// Of 65 values 32 are in the bag itself, and 33 in two storages. One is popped, which was alone in its storage.
struct RetiresAStorage;

impl Example<Entry<u64, DEFAULT>> for RetiresAStorage {
    fn run<R: Abort, S: Bags<Entry<u64, DEFAULT>>>(&self, rt: &R, s: &mut S) {
        let guard = opened(rt, s);
        let mut bag: StorageBag<u64, DEFAULT> = full_of(rt, s, &mut once(7).chain(0..64), &guard);
        bag.storages_are_few();
        assert!(rt; bag.len() == 65);
        assert!(rt; !guard.has_garbage(s));
        assert!(rt; popped(s, &mut bag, &guard).is_some());
        assert!(rt; bag.len() == 64);
        assert!(rt; guard.has_garbage(s));
        closed(s, bag, &guard);
        shut(s, guard);
    }
}

#[test]
fn a_storage_is_retired_with_its_last_value(rt: HostRuntime) {
    in_a_world(&rt, AMPLE, &RetiresAStorage, 2);
}

/// 2 values are in the bag itself, and 5 in three storages. None is lent while a guard is open.
struct LendsNone;

impl Example<Entry<u64, 2>> for LendsNone {
    fn run<R: Abort, S: Bags<Entry<u64, 2>>>(&self, rt: &R, s: &mut S) {
        let guard = opened(rt, s);
        let mut bag: StorageBag<u64, 2> = full_of(rt, s, &mut (0..7), &guard);
        let tenfold = |value: &mut u64| *value = value.wrapping_mul(10);
        assert!(rt; changed(s, &mut bag, tenfold) == Err(Refused::GuardOpen));
        assert!(rt; bag.len() == 7);
        assert!(rt; summed(s, &mut bag, &guard) == 21);
        closed(s, bag, &guard);
        shut(s, guard);
    }
}

#[test]
fn no_value_is_lent_while_a_guard_is_open(rt: HostRuntime) {
    in_a_world(&rt, AMPLE, &LendsNone, 3);
}

/// So many numbers from 0 on are in a bag, and the cursor lends each of them, as soon as no guard is open. What was left of them it lends the next time.
struct LendsEach(u64);

impl Example<Entry<u64, DEFAULT>> for LendsEach {
    fn run<R: Abort, S: Bags<Entry<u64, DEFAULT>>>(&self, rt: &R, s: &mut S) {
        let guard = opened(rt, s);
        let mut bag: StorageBag<u64, DEFAULT> = full_of(rt, s, &mut (0..self.0), &guard);
        assert!(rt; tenfold(s, &mut bag) == Err(Refused::GuardOpen));
        shut_beside(s, &bag, guard);
        let sum = self.0.wrapping_mul(self.0.wrapping_sub(1)) / 2;
        assert!(rt; tenfold(s, &mut bag) == Ok((self.0, sum)));
        assert!(rt; tenfold(s, &mut bag) == Ok((self.0, sum.wrapping_mul(10))));
        assert!(rt; bag.len() == u128::from(self.0));
        left(bag);
    }
}

#[test]
fn the_cursor_lends_each_value(rt: HostRuntime) {
    in_a_world_left(&rt, AMPLE, &LendsEach(0));
    in_a_world_left(&rt, AMPLE, &LendsEach(2));
    in_a_world_left(&rt, AMPLE, &LendsEach(18));
    in_a_world_left(&rt, AMPLE, &LendsEach(32));
    in_a_world_left(&rt, AMPLE, &LendsEach(40));
    in_a_world_left(&rt, AMPLE, &LendsEach(120));
}

/// So many numbers are in a bag.
#[derive(Clone, Copy)]
struct Counts(u64);

impl Counts {
    /// Makes the bag, and takes the numbers out again.
    fn count<const LEN: usize, R: Abort, S: Bags<Entry<u64, LEN>>>(self, rt: &R, s: &mut S)
        requires some { 0 < LEN }
        requires fits { LEN ≤ 32 }
        requires may { MayCall (S.caller s.old) }
        ensures caller { S.caller s.new ≡ S.caller s.old }
    {
        let guard = opened(rt, s);
        let bag: StorageBag<u64, LEN> = full_of(rt, s, &mut (0..self.0), &guard);
        assert!(rt; bag.len() == u128::from(self.0));
        assert!(rt; counted(s, bag, &guard) == self.0);
        shut(s, guard);
    }
}

impl Example<Entry<u64, 1>> for Counts {
    fn run<R: Abort, S: Bags<Entry<u64, 1>>>(&self, rt: &R, s: &mut S) {
        self.count(rt, s);
    }
}

impl Example<Entry<u64, 2>> for Counts {
    fn run<R: Abort, S: Bags<Entry<u64, 2>>>(&self, rt: &R, s: &mut S) {
        self.count(rt, s);
    }
}

impl Example<Entry<u64, 31>> for Counts {
    fn run<R: Abort, S: Bags<Entry<u64, 31>>>(&self, rt: &R, s: &mut S) {
        self.count(rt, s);
    }
}

impl Example<Entry<u64, DEFAULT>> for Counts {
    fn run<R: Abort, S: Bags<Entry<u64, DEFAULT>>>(&self, rt: &R, s: &mut S) {
        self.count(rt, s);
    }
}

#[test]
fn storages_are_made_as_they_are_needed(rt: HostRuntime) {
    in_a_world::<Entry<u64, DEFAULT>, _, _>(&rt, AMPLE, &Counts(2), 0);
    in_a_world::<Entry<u64, DEFAULT>, _, _>(&rt, AMPLE, &Counts(18), 0);
    in_a_world::<Entry<u64, DEFAULT>, _, _>(&rt, AMPLE, &Counts(32), 0);
    in_a_world::<Entry<u64, DEFAULT>, _, _>(&rt, AMPLE, &Counts(40), 1);
    in_a_world::<Entry<u64, DEFAULT>, _, _>(&rt, AMPLE, &Counts(120), 3);
}

#[test]
fn arrays_have_1_to_32_places(rt: HostRuntime) {
    in_a_world::<Entry<u64, 1>, _, _>(&rt, AMPLE, &Counts(0), 0);
    in_a_world::<Entry<u64, 1>, _, _>(&rt, AMPLE, &Counts(4), 3);
    in_a_world::<Entry<u64, 2>, _, _>(&rt, AMPLE, &Counts(2), 0);
    in_a_world::<Entry<u64, 2>, _, _>(&rt, AMPLE, &Counts(7), 3);
    in_a_world::<Entry<u64, 31>, _, _>(&rt, AMPLE, &Counts(63), 2);
    in_a_world::<Entry<u64, 31>, _, _>(&rt, AMPLE, &Counts(93), 2);
}

/// Three numbers are taken out of five, and the bag is closed with the others.
struct TakesThree;

impl Example<Entry<u64, 2>> for TakesThree {
    fn run<R: Abort, S: Bags<Entry<u64, 2>>>(&self, rt: &R, s: &mut S) {
        let guard = opened(rt, s);
        let bag: StorageBag<u64, 2> = full_of(rt, s, &mut (0..5), &guard);
        let mut left = bag.into_iter(&guard, s);
        assert!(rt; left.next(s).is_some());
        assert!(rt; left.next(s).is_some());
        assert!(rt; left.next(s).is_some());
        left.close(s);
        shut(s, guard);
    }
}

/// The same of a bag with one number, after which none is left.
struct TakesAll;

impl Example<Entry<u64, 2>> for TakesAll {
    fn run<R: Abort, S: Bags<Entry<u64, 2>>>(&self, rt: &R, s: &mut S) {
        let guard = opened(rt, s);
        let bag: StorageBag<u64, 2> = full_of(rt, s, &mut (7..8), &guard);
        let mut left = bag.into_iter(&guard, s);
        assert!(rt; left.next(s) == Some(7));
        assert!(rt; left.next(s) == None);
        left.close(s);
        shut(s, guard);
    }
}

#[test]
fn values_are_taken_out_one_by_one(rt: HostRuntime) {
    in_a_world(&rt, AMPLE, &TakesThree, 2);
    in_a_world(&rt, AMPLE, &TakesAll, 0);
}

/// Numbers from 0 on are put into a bag of length 1 until one is refused, which comes back with why. What is in the bag by then comes out.
#[derive(Clone, Copy)]
struct RefusesANumber {
    refused: Refused,
    fits: u64,
}

impl Example<Entry<u64, 1>> for RefusesANumber {
    fn run<R: Abort, S: Bags<Entry<u64, 1>>>(&self, rt: &R, s: &mut S) {
        let guard = opened(rt, s);
        let built: Result<StorageBag<u64, 1>, _> = filled(rt, s, &mut (0..9), &guard);
        match built {
            Ok(_bag) => panic!(rt; "there is a place for 9 numbers"),
            Err((mut bag, number, refused)) => {
                assert!(rt; (number, refused) == (self.fits, self.refused));
                assert!(rt; pushed(s, &mut bag, 9, &guard) == Err((9, self.refused)));
                assert!(rt; counted(s, bag, &guard) == self.fits);
            }
        }
        shut(s, guard);
    }
}

/// The same with as many slots and cells, of which the bag has two cells. So many storages are made.
fn refuses_a_number<R: Abort + AllocGlobal>(
    rt: &R,
    slots: u64,
    cells: u64,
    refused: Refused,
    storages: u64,
) {
    let limits = Limits {
        slots,
        cells,
        ..AMPLE
    };
    let fits = storages.saturating_add(1);
    in_a_world(
        rt,
        limits,
        &RefusesANumber { refused, fits },
        u128::from(storages),
    );
}

#[test]
fn no_slot_is_answered_before_no_cell(rt: HostRuntime) {
    refuses_a_number(&rt, 1, 4, Refused::NoSlot, 1);
    refuses_a_number(&rt, 1, 9, Refused::NoSlot, 1);
    refuses_a_number(&rt, 2, 2, Refused::NoCell, 0);
    refuses_a_number(&rt, 2, 3, Refused::NoCell, 0);
    refuses_a_number(&rt, 3, 7, Refused::NoCell, 2);
}

/// A bag isn't made, as there is one cell alone, and nothing is taken of the iterator.
struct HasNoCells;

impl Example<Entry<u64, 1>> for HasNoCells {
    fn run<R: Abort, S: Bags<Entry<u64, 1>>>(&self, rt: &R, s: &mut S) {
        let guard = opened(rt, s);
        let mut numbers = 0..9;
        let built: Result<StorageBag<u64, 1>, _> = Bag::from_iter(&mut numbers, &guard, s);
        match built {
            Err(Unfinished::NotBegun(refused)) => assert!(rt; refused == Refused::NoCell),
            Err(Unfinished::Part(_bag, _number, _refused)) => panic!(rt; "it has its cells"),
            Ok(_bag) => panic!(rt; "it has its cells"),
        }
        assert!(rt; numbers.next() == Some(0));
        shut(s, guard);
    }
}

#[test]
fn a_bag_has_two_cells(rt: HostRuntime) {
    let limits = Limits { cells: 1, ..AMPLE };
    in_a_world(&rt, limits, &HasNoCells, 0);
}
