//! Rounds through lists, in a world of one participant: what a list lets go of is reclaimed by the openings of later rounds, so that each slot is used again.
ghost use Rattle.std.specs.Prelude.{◌≡◌, IfOk};
ghost use Rattle.sdd_space.specs.CallerId.{IsSeated};
ghost use Rattle.sdd_space.specs.Guard.{reader_of};
ghost use Rattle.sdd_space.specs.Shared.{IsOfSlots, slots_home};
ghost use Rattle.sdd_lists.specs.Queue.{AreOfCells};
ghost use Rattle.sdd_lists.specs.Stack.{home_in};

use crate::lists::example::{Entry, Lists};
use sdd_core::{Limits, Refused};
use sdd_lists::{Queue, Stack};
use sdd_space::{Guard, Shared};
use sdd_world::World;
use std::process::Abort;

/// So many entries are walked along in each round.
const WALKED: u64 = 256;

/// Each entry has a cell of its own, and a queue has two.
const ROOMY: Limits = Limits {
    participants: 1,
    slots: 1024,
    cells: 1026,
    jobs: 0,
    nesting: 2,
    tries: 1,
};

/// What is done in each round.
#[derive(Clone, Copy)]
enum Work {
    /// Under a guard, a number is pushed onto a queue, and one popped; what is due is reclaimed.
    Queue,
    /// The same with a stack.
    Stack,
    /// A walk along the entries of a queue, under a guard that stays open.
    Walk,
}

/// So many rounds, in which the numbers that were popped or seen have this sum.
fn rounds<R: Abort + AllocGlobal>(rt: &R, work: Work, turns: u64, sum: u64) {
    let mut world = World::<Entry>::new(rt.alloc(), ROOMY).expect(rt, "the limits are in range");
    let place = world.register().expect(rt, "a place is free");
    assert_eq!(rt; worked(rt, &mut world.at(&place), work, turns), sum);
    match world.close() {
        Ok(tally) => assert_eq!(rt; tally.made, tally.reclaimed),
        Err((_world, refused)) => panic!(rt; "refused: {refused}"),
    }
}

fn worked<S: Lists>(rt: &impl Abort, s: &mut S, work: Work, turns: u64) -> u64
    requires { IsSeated (S.caller s.old) }
    ensures { S.caller s.new ≡ S.caller s.old }
{
    match work {
        Work::Queue => queues(rt, s, turns),
        Work::Stack => stacks(rt, s, turns),
        Work::Walk => walks(rt, s, turns),
    }
}

fn opened<S: Lists>(rt: &impl Abort, s: &mut S) -> Guard
    requires seated { IsSeated (S.caller s.old) }
    ensures caller { S.caller s.new ≡ S.caller s.old }
    ensures reader { reader_of result ≡ (S.caller s.new).reader }
{
    Guard::new(s).expect(rt, "a guard may be opened")
}

/// Lets go of an entry that was pushed.
fn kept<S: Lists>(rt: &impl Abort, s: &mut S, pushed: Result<Shared<Entry>, (u64, Refused)>)
    requires seated { IsSeated (S.caller s.old) }
    requires home { IfOk pushed (λ owner. slots_home owner ≡ (S.caller s.old).home.slots) }
    ensures { S.caller s.new ≡ S.caller s.old }
{
    match pushed {
        Ok(owner) => {
            let _ = owner.release(s);
        }
        Err((_value, refused)) => panic!(rt; "refused: {refused}"),
    }
}

/// The number of an entry that was popped, which is let go of.
fn number<S: Lists>(
    rt: &impl Abort,
    s: &mut S,
    popped: Result<Option<Shared<Entry>>, Refused>,
) -> u64
    requires seated { IsSeated (S.caller s.old) }
    requires home { IfOk popped (IsOfSlots (S.caller s.old).home.slots) }
    ensures { S.caller s.new ≡ S.caller s.old }
{
    match popped {
        Ok(Some(owner)) => {
            let number = *owner.get(&*s).as_ref();
            let _ = owner.release(s);
            number
        }
        Ok(None) => panic!(rt; "an entry was pushed"),
        Err(refused) => panic!(rt; "refused: {refused}"),
    }
}

/// Pushes a number, and pops one, under a guard.
fn through_queue<S: Lists>(rt: &impl Abort, s: &mut S, queue: &Queue<u64>, value: u64) -> u64
    requires seated { IsSeated (S.caller s.old) }
    requires home { AreOfCells (S.caller s.old).home.cells queue.now }
    ensures { S.caller s.new ≡ S.caller s.old }
{
    let guard = opened(rt, s);
    let pushed = queue.push(value, &guard, s);
    kept(rt, s, pushed);
    let popped = queue.pop(&guard, s);
    let number = number(rt, s, popped);
    guard.close(s);
    number
}

fn queues<S: Lists>(rt: &impl Abort, s: &mut S, turns: u64) -> u64
    requires { IsSeated (S.caller s.old) }
    ensures { S.caller s.new ≡ S.caller s.old }
{
    let queue = Queue::new(s).expect(rt, "two cells are free");
    let mut sum = 0u64;
    for turn in 0..turns {
        sum = sum.wrapping_add(through_queue(rt, s, &queue, turn));
    }
    let guard = opened(rt, s);
    queue.close(&guard, s);
    guard.close(s);
    sum
}

/// The same with a stack.
fn through_stack<S: Lists>(rt: &impl Abort, s: &mut S, stack: &Stack<u64>, value: u64) -> u64
    requires seated { IsSeated (S.caller s.old) }
    requires home { home_in stack.now ≡ (S.caller s.old).home.cells }
    ensures { S.caller s.new ≡ S.caller s.old }
{
    let guard = opened(rt, s);
    let pushed = stack.push(value, &guard, s);
    kept(rt, s, pushed);
    let popped = stack.pop(&guard, s);
    let number = number(rt, s, popped);
    guard.close(s);
    number
}

fn stacks<S: Lists>(rt: &impl Abort, s: &mut S, turns: u64) -> u64
    requires { IsSeated (S.caller s.old) }
    ensures { S.caller s.new ≡ S.caller s.old }
{
    let stack = Stack::new(s).expect(rt, "a cell is free");
    let mut sum = 0u64;
    for turn in 0..turns {
        sum = sum.wrapping_add(through_stack(rt, s, &stack, turn));
    }
    let guard = opened(rt, s);
    stack.close(&guard, s);
    guard.close(s);
    sum
}

/// Pushes the numbers below this one onto a queue.
fn fill<S: Lists>(rt: &impl Abort, s: &mut S, queue: &Queue<u64>, guard: &Guard, numbers: u64)
    requires seated { IsSeated (S.caller s.old) }
    requires home { AreOfCells (S.caller s.old).home.cells queue.now }
    requires reader { reader_of guard.now ≡ (S.caller s.old).reader }
    ensures { S.caller s.new ≡ S.caller s.old }
{
    for number in 0..numbers {
        let pushed = queue.push(number, guard, s);
        kept(rt, s, pushed);
    }
}

/// The sum of what a walk along a queue shows.
fn sum_walked<S: Lists>(s: &mut S, queue: &Queue<u64>, guard: &Guard) -> u64
    requires seated { IsSeated (S.caller s.old) }
    requires home { AreOfCells (S.caller s.old).home.cells queue.now }
    requires reader { reader_of guard.now ≡ (S.caller s.old).reader }
    ensures { S.caller s.new ≡ S.caller s.old }
{
    let mut sum = 0u64;
    let mut walk = queue.walk(guard, s);
    while let Some(value) = walk.next(guard, s) {
        sum = sum.wrapping_add(*value);
    }
    sum
}

/// The sum of what an iterator over a queue gives.
fn sum_given<S: Lists>(s: &S, queue: &Queue<u64>, guard: &Guard) -> u64
    requires { AreOfCells (S.caller s.now).home.cells queue.now }
{
    let mut sum = 0u64;
    for value in queue.iter(guard, s) {
        sum = sum.wrapping_add(*value);
    }
    sum
}

fn walks<S: Lists>(rt: &impl Abort, s: &mut S, turns: u64) -> u64
    requires { IsSeated (S.caller s.old) }
    ensures { S.caller s.new ≡ S.caller s.old }
{
    let queue = Queue::new(s).expect(rt, "two cells are free");
    let guard = opened(rt, s);
    fill(rt, s, &queue, &guard, WALKED);
    let mut sum = 0u64;
    for _turn in 0..turns {
        let walked = sum_walked(s, &queue, &guard);
        assert_eq!(rt; sum_given(s, &queue, &guard), walked);
        sum = sum.wrapping_add(walked);
    }
    queue.close(&guard, s);
    guard.close(s);
    sum
}

#[test]
fn three_thousand_numbers_go_through_a_queue(rt: HostRuntime) {
    rounds(&rt, Work::Queue, 3000, 4_498_500);
}

#[test]
fn three_thousand_numbers_go_through_a_stack(rt: HostRuntime) {
    rounds(&rt, Work::Stack, 3000, 4_498_500);
}

#[test]
fn a_queue_is_walked_along_a_hundred_times(rt: HostRuntime) {
    rounds(&rt, Work::Walk, 100, 3_264_000);
}
