//! The loops with queues and stacks, written once for every space that has their calls.
ghost use Rattle.std.specs.Prelude.{◌≡◌, IfOk};
ghost use Rattle.sdd_space.specs.CallerId.{IsSeated, MayNest};
ghost use Rattle.sdd_space.specs.Guard.{reader_of};
ghost use Rattle.sdd_space.specs.Shared.{IsOfSlots, slots_home};
ghost use Rattle.sdd_lists.specs.Queue.{AreOfCells};
ghost use Rattle.sdd_lists.specs.Stack.{home_in};

use crate::operation::Listing;
use sdd_core::Refused;
use sdd_lists::{LinkedEntry, Queue, Stack};
use sdd_space::{Cells, Guard, Guards, HeldItems, Items, Look, Several, Shared, SharedItems};
use sdd_world::Turn;

/// What is in a slot: an entry of a list of numbers.
pub type Entry = LinkedEntry<u64>;

/// So many entries are walked along in each turn.
pub const WALKED: u64 = 256;

/// By what one goes along the entries of a queue.
#[derive(Clone, Copy, Debug, PartialEq, Eq)]
enum Along {
    Walk,
    Iter,
}

/// The parts of a space that lists of numbers are used in.
pub trait Lists: Look<Entry>
    + Guards<Entry>
    + Items<Entry>
    + Several<Entry>
    + SharedItems<Entry>
    + Cells<Entry>
    + HeldItems<Entry> {}

impl Lists for Turn<'_, Entry> {}

/// Lets go of an entry that was pushed.
#[inline(always)]
fn kept<S: Lists>(
    space: &mut S,
    pushed: Result<Shared<Entry>, (u64, Refused)>,
) -> Result<(), Refused>
    requires seated { IsSeated (S.caller space.old) }
    requires home { IfOk pushed (λ owner. slots_home owner ≡ (S.caller space.old).home.slots) }
    ensures caller { S.caller space.new ≡ S.caller space.old }
    ensures guards { (S.own space.new).guards ≡ (S.own space.old).guards }
{
    match pushed {
        Ok(owner) => {
            let _ = owner.release(space);
            Ok(())
        }
        Err((_value, refused)) => Err(refused),
    }
}

/// The number of an entry that was popped, which is let go of; 0 where there was none.
#[inline(always)]
fn number<S: Lists>(
    space: &mut S,
    popped: Result<Option<Shared<Entry>>, Refused>,
) -> Result<u64, Refused>
    requires seated { IsSeated (S.caller space.old) }
    requires home { IfOk popped (IsOfSlots (S.caller space.old).home.slots) }
    ensures caller { S.caller space.new ≡ S.caller space.old }
    ensures guards { (S.own space.new).guards ≡ (S.own space.old).guards }
{
    match popped {
        Ok(Some(owner)) => {
            let number = *owner.get(&*space).as_ref();
            let _ = owner.release(space);
            Ok(number)
        }
        Ok(None) => Ok(0),
        Err(refused) => Err(refused),
    }
}

/// Pushes a number onto a queue, and pops one.
#[inline(always)]
fn through_queue<S: Lists>(
    space: &mut S,
    queue: &Queue<u64>,
    guard: &Guard,
    value: u64,
) -> Result<u64, Refused>
    requires seated { IsSeated (S.caller space.old) }
    requires home { AreOfCells (S.caller space.old).home.cells queue.now }
    requires reader { reader_of guard.now ≡ (S.caller space.old).reader }
    ensures caller { S.caller space.new ≡ S.caller space.old }
    ensures guards { (S.own space.new).guards ≡ (S.own space.old).guards }
{
    let pushed = queue.push(value, guard, space);
    kept(space, pushed)?;
    let popped = queue.pop(guard, space);
    number(space, popped)
}

/// The same under a guard of its own, that often. What is due is reclaimed.
#[inline(always)]
fn queue_turns<S: Lists>(space: &mut S, queue: &Queue<u64>, turns: u64) -> Result<u64, Refused>
    requires seated { IsSeated (S.caller space.old) }
    requires home { AreOfCells (S.caller space.old).home.cells queue.now }
    ensures caller { S.caller space.new ≡ S.caller space.old }
    ensures guards { (S.own space.new).guards ≡ (S.own space.old).guards }
{
    let mut sum = 0u64;
    for turn in 0..turns {
        let guard = Guard::new(space)?;
        let number = through_queue(space, queue, &guard, turn);
        guard.close(space);
        sum = sum.wrapping_add(number?);
    }
    Ok(sum)
}

fn close_queue<S: Lists>(space: &mut S, queue: Queue<u64>)
    requires seated { IsSeated (S.caller space.old) }
    requires home { AreOfCells (S.caller space.old).home.cells queue }
    requires may { MayNest (S.caller space.old) (S.own space.old) }
    ensures caller { S.caller space.new ≡ S.caller space.old }
    ensures guards { (S.own space.new).guards ≡ (S.own space.old).guards }
{
    match Guard::new(space) {
        Ok(guard) => {
            queue.close(&guard, space);
            guard.close(space);
        }
        Err(_) => unreachable!(),
    }
}

/// Under a guard, a number is pushed onto a queue, and one popped, that often.
fn queues<S: Lists>(space: &mut S, turns: u64) -> Result<u64, Refused>
    requires seated { IsSeated (S.caller space.old) }
    requires may { MayNest (S.caller space.old) (S.own space.old) }
    ensures caller { S.caller space.new ≡ S.caller space.old }
    ensures guards { (S.own space.new).guards ≡ (S.own space.old).guards }
{
    let queue = Queue::new(space)?;
    let sum = queue_turns(space, &queue, turns);
    close_queue(space, queue);
    sum
}

/// Pushes a number onto a stack, and pops one.
#[inline(always)]
fn through_stack<S: Lists>(
    space: &mut S,
    stack: &Stack<u64>,
    guard: &Guard,
    value: u64,
) -> Result<u64, Refused>
    requires seated { IsSeated (S.caller space.old) }
    requires home { home_in stack.now ≡ (S.caller space.old).home.cells }
    requires reader { reader_of guard.now ≡ (S.caller space.old).reader }
    ensures caller { S.caller space.new ≡ S.caller space.old }
    ensures guards { (S.own space.new).guards ≡ (S.own space.old).guards }
{
    let pushed = stack.push(value, guard, space);
    kept(space, pushed)?;
    let popped = stack.pop(guard, space);
    number(space, popped)
}

/// The same under a guard of its own, that often. What is due is reclaimed.
#[inline(always)]
fn stack_turns<S: Lists>(space: &mut S, stack: &Stack<u64>, turns: u64) -> Result<u64, Refused>
    requires seated { IsSeated (S.caller space.old) }
    requires home { home_in stack.now ≡ (S.caller space.old).home.cells }
    ensures caller { S.caller space.new ≡ S.caller space.old }
    ensures guards { (S.own space.new).guards ≡ (S.own space.old).guards }
{
    let mut sum = 0u64;
    for turn in 0..turns {
        let guard = Guard::new(space)?;
        let number = through_stack(space, stack, &guard, turn);
        guard.close(space);
        sum = sum.wrapping_add(number?);
    }
    Ok(sum)
}

fn close_stack<S: Lists>(space: &mut S, stack: Stack<u64>)
    requires seated { IsSeated (S.caller space.old) }
    requires home { home_in stack ≡ (S.caller space.old).home.cells }
    requires may { MayNest (S.caller space.old) (S.own space.old) }
    ensures caller { S.caller space.new ≡ S.caller space.old }
    ensures guards { (S.own space.new).guards ≡ (S.own space.old).guards }
{
    match Guard::new(space) {
        Ok(guard) => {
            stack.close(&guard, space);
            guard.close(space);
        }
        Err(_) => unreachable!(),
    }
}

/// Under a guard, a number is pushed onto a stack, and one popped, that often.
fn stacks<S: Lists>(space: &mut S, turns: u64) -> Result<u64, Refused>
    requires seated { IsSeated (S.caller space.old) }
    requires may { MayNest (S.caller space.old) (S.own space.old) }
    ensures caller { S.caller space.new ≡ S.caller space.old }
    ensures guards { (S.own space.new).guards ≡ (S.own space.old).guards }
{
    let stack = Stack::new(space)?;
    let sum = stack_turns(space, &stack, turns);
    close_stack(space, stack);
    sum
}

/// Pushes the numbers below this one onto a queue.
fn fill<S: Lists>(
    space: &mut S,
    queue: &Queue<u64>,
    guard: &Guard,
    numbers: u64,
) -> Result<(), Refused>
    requires seated { IsSeated (S.caller space.old) }
    requires home { AreOfCells (S.caller space.old).home.cells queue.now }
    requires reader { reader_of guard.now ≡ (S.caller space.old).reader }
    ensures caller { S.caller space.new ≡ S.caller space.old }
    ensures guards { (S.own space.new).guards ≡ (S.own space.old).guards }
{
    for number in 0..numbers {
        let pushed = queue.push(number, guard, space);
        kept(space, pushed)?;
    }
    Ok(())
}

/// The sum of what a walk along a queue shows.
#[inline(always)]
fn sum_walked<S: Lists>(space: &mut S, queue: &Queue<u64>, guard: &Guard) -> u64
    requires seated { IsSeated (S.caller space.old) }
    requires home { AreOfCells (S.caller space.old).home.cells queue.now }
    requires reader { reader_of guard.now ≡ (S.caller space.old).reader }
    ensures caller { S.caller space.new ≡ S.caller space.old }
    ensures guards { (S.own space.new).guards ≡ (S.own space.old).guards }
{
    let mut sum = 0u64;
    let mut walk = queue.walk(guard, space);
    while let Some(value) = walk.next(guard, space) {
        sum = sum.wrapping_add(*value);
    }
    sum
}

/// The sum of what an iterator over a queue gives.
#[inline(always)]
fn sum_given<S: Lists>(space: &S, queue: &Queue<u64>, guard: &Guard) -> u64
    requires { AreOfCells (S.caller space.now).home.cells queue.now }
{
    let mut sum = 0u64;
    for value in queue.iter(guard, space) {
        sum = sum.wrapping_add(*value);
    }
    sum
}

/// Fills a queue, and goes along it that often.
fn walk_turns<S: Lists>(
    space: &mut S,
    queue: &Queue<u64>,
    guard: &Guard,
    turns: u64,
    along: Along,
) -> Result<u64, Refused>
    requires seated { IsSeated (S.caller space.old) }
    requires home { AreOfCells (S.caller space.old).home.cells queue.now }
    requires reader { reader_of guard.now ≡ (S.caller space.old).reader }
    ensures caller { S.caller space.new ≡ S.caller space.old }
    ensures guards { (S.own space.new).guards ≡ (S.own space.old).guards }
{
    fill(space, queue, guard, WALKED)?;
    let mut sum = 0u64;
    for _turn in 0..turns {
        let seen = match along {
            Along::Walk => sum_walked(space, queue, guard),
            Along::Iter => sum_given(space, queue, guard),
        };
        sum = sum.wrapping_add(seen);
    }
    Ok(sum)
}

/// Under a guard that stays open, one goes along the entries of a queue that often.
fn walks<S: Lists>(space: &mut S, turns: u64, along: Along) -> Result<u64, Refused>
    requires seated { IsSeated (S.caller space.old) }
    ensures caller { S.caller space.new ≡ S.caller space.old }
    ensures guards { (S.own space.new).guards ≡ (S.own space.old).guards }
{
    let guard = Guard::new(space)?;
    let sum = walks_under(space, &guard, turns, along);
    guard.close(space);
    sum
}

fn walks_under<S: Lists>(
    space: &mut S,
    guard: &Guard,
    turns: u64,
    along: Along,
) -> Result<u64, Refused>
    requires seated { IsSeated (S.caller space.old) }
    requires reader { reader_of guard.now ≡ (S.caller space.old).reader }
    ensures caller { S.caller space.new ≡ S.caller space.old }
    ensures guards { (S.own space.new).guards ≡ (S.own space.old).guards }
{
    let queue = Queue::new(space)?;
    let sum = walk_turns(space, &queue, guard, turns, along);
    queue.close(guard, space);
    sum
}

/// Does that with a list that often, and answers the sum of the numbers that were popped or seen.
pub fn work_with_list<S: Lists>(space: &mut S, listing: Listing, turns: u64) -> Result<u64, Refused>
    requires seated { IsSeated (S.caller space.old) }
    requires may { MayNest (S.caller space.old) (S.own space.old) }
    ensures caller { S.caller space.new ≡ S.caller space.old }
    ensures guards { (S.own space.new).guards ≡ (S.own space.old).guards }
{
    match listing {
        Listing::Queue => queues(space, turns),
        Listing::Stack => stacks(space, turns),
        Listing::Walk => walks(space, turns, Along::Walk),
        Listing::Iter => walks(space, turns, Along::Iter),
    }
}
