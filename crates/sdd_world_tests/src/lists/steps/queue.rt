//! Steps with a queue.
ghost use Rattle.std.specs.Prelude.{◌≡◌, IfErr, IfOk};
ghost use Rattle.sdd_space.specs.Guard.{reader_of};
ghost use Rattle.sdd_space.specs.CallerId.{IsSeated};
ghost use Rattle.sdd_lists.specs.Queue.{AreOfCells};

use crate::lists::example::Lists;
use crate::lists::steps::{number_of, release, released, seen};
use sdd_core::Refused;
use sdd_lists::{Queue, Unfinished, Unpopped};
use sdd_space::Guard;
use std::process::Abort;

/// An empty queue.
pub fn made<S: Lists>(rt: &impl Abort, s: &mut S) -> Queue<u64>
    requires seated { IsSeated (S.caller s.old) }
    ensures caller { S.caller s.new ≡ S.caller s.old }
    ensures home { AreOfCells (S.caller s.new).home.cells result }
{
    Queue::new(s).expect(rt, "two cells are free")
}

/// Pushes a number, and gives the owner up. What it is refused with comes back with the number.
pub fn pushed<S: Lists>(
    s: &mut S,
    queue: &Queue<u64>,
    value: u64,
    guard: &Guard,
) -> Result<(), (u64, Refused)>
    requires seated { IsSeated (S.caller s.old) }
    requires home { AreOfCells (S.caller s.old).home.cells queue.now }
    requires reader { reader_of guard.now ≡ (S.caller s.old).reader }
    ensures caller { S.caller s.new ≡ S.caller s.old }
{
    match queue.push(value, guard, s) {
        Ok(owner) => {
            let _ = release(s, owner);
            Ok(())
        }
        Err(back) => Err(back),
    }
}

/// Pushes a number, if the newest entry has the other one, and gives the owner up.
pub fn pushed_behind<S: Lists>(
    s: &mut S,
    queue: &Queue<u64>,
    value: u64,
    wanted: Option<u64>,
    guard: &Guard,
) -> Result<(), (u64, Option<Refused>)>
    requires seated { IsSeated (S.caller s.old) }
    requires home { AreOfCells (S.caller s.old).home.cells queue.now }
    requires reader { reader_of guard.now ≡ (S.caller s.old).reader }
    ensures caller { S.caller s.new ≡ S.caller s.old }
{
    match queue.push_if(value, |newest| number_of(newest) == wanted, guard, s) {
        Ok(owner) => {
            let _ = release(s, owner);
            Ok(())
        }
        Err(back) => Err(back),
    }
}

/// Pops a number.
pub fn popped<S: Lists>(
    rt: &impl Abort,
    s: &mut S,
    queue: &Queue<u64>,
    guard: &Guard,
) -> Option<u64>
    requires seated { IsSeated (S.caller s.old) }
    requires home { AreOfCells (S.caller s.old).home.cells queue.now }
    requires reader { reader_of guard.now ≡ (S.caller s.old).reader }
    ensures caller { S.caller s.new ≡ S.caller s.old }
{
    match queue.pop(guard, s) {
        Ok(Some(owner)) => Some(released(s, owner)),
        Ok(None) => None,
        Err(refused) => panic!(rt; "{refused:?}"),
    }
}

/// Pops the oldest number, if it is this one; else that comes back which is the oldest.
pub fn popped_if<S: Lists>(
    rt: &impl Abort,
    s: &mut S,
    queue: &Queue<u64>,
    wanted: u64,
    guard: &Guard,
) -> Result<Option<u64>, u64>
    requires seated { IsSeated (S.caller s.old) }
    requires home { AreOfCells (S.caller s.old).home.cells queue.now }
    requires reader { reader_of guard.now ≡ (S.caller s.old).reader }
    ensures caller { S.caller s.new ≡ S.caller s.old }
{
    match queue.pop_if(|oldest| *oldest.as_ref() == wanted, guard, s) {
        Ok(Some(owner)) => Ok(Some(released(s, owner))),
        Ok(None) => Ok(None),
        Err(Unpopped::Kept(owner)) => Err(released(s, owner)),
        Err(Unpopped::Refused(refused)) => panic!(rt; "{refused:?}"),
    }
}

/// How many entries the queue has, whether it has none, and its oldest number, by a pointer and by a closure.
pub fn shown<S: Lists>(
    s: &mut S,
    queue: &Queue<u64>,
    guard: &Guard,
) -> (u64, bool, Option<u64>, Option<u64>)
    requires seated { IsSeated (S.caller s.old) }
    requires home { AreOfCells (S.caller s.old).home.cells queue.now }
    requires reader { reader_of guard.now ≡ (S.caller s.old).reader }
    ensures caller { S.caller s.new ≡ S.caller s.old }
{
    let len = queue.len(guard, s);
    let is_empty = queue.is_empty(guard, s);
    let oldest = queue.peek(guard, s);
    let by_pointer = seen(&*s, oldest);
    let by_closure = queue.peek_with(|oldest| number_of(oldest), guard, s);
    (len, is_empty, by_pointer, by_closure)
}

/// A queue of the numbers from 1 on before this one. Where one is refused, what was built by then, the number and why.
pub fn filled<S: Lists>(
    rt: &impl Abort,
    s: &mut S,
    end: u64,
    guard: &Guard,
) -> Result<Queue<u64>, (Queue<u64>, u64, Refused)>
    requires seated { IsSeated (S.caller s.old) }
    requires reader { reader_of guard.now ≡ (S.caller s.old).reader }
    ensures caller { S.caller s.new ≡ S.caller s.old }
    ensures home { IfOk result (AreOfCells (S.caller s.new).home.cells) }
    ensures home_of_part { IfErr result (λ e. AreOfCells (S.caller s.new).home.cells e.0) }
{
    match Queue::from_iter(&mut (1..end), guard, s) {
        Ok(queue) => Ok(queue),
        Err(Unfinished::Part(queue, item, refused)) => match item {
            Some(item) => Err((queue, item, refused)),
            None => panic!(rt; "each number was made"),
        },
        Err(Unfinished::NotBegun(refused)) => panic!(rt; "{refused:?}"),
    }
}

/// A clone of a queue. Where it isn't whole, what there is of it, and why.
pub fn copied<S: Lists>(
    rt: &impl Abort,
    s: &mut S,
    queue: &Queue<u64>,
    guard: &Guard,
) -> Result<Queue<u64>, (Queue<u64>, Refused)>
    requires seated { IsSeated (S.caller s.old) }
    requires home { AreOfCells (S.caller s.old).home.cells queue.now }
    requires reader { reader_of guard.now ≡ (S.caller s.old).reader }
    ensures caller { S.caller s.new ≡ S.caller s.old }
    ensures home { IfOk result (AreOfCells (S.caller s.new).home.cells) }
    ensures home_of_part { IfErr result (λ e. AreOfCells (S.caller s.new).home.cells e.0) }
{
    match queue.clone(guard, s) {
        Ok(copy) => Ok(copy),
        Err(Unfinished::Part(copy, item, refused)) => match item {
            None => Err((copy, refused)),
            Some(_) => panic!(rt; "nothing was cloned"),
        },
        Err(Unfinished::NotBegun(refused)) => panic!(rt; "{refused:?}"),
    }
}

/// The numbers of the entries, in order, of which there are at most four.
pub fn walked<S: Lists>(s: &mut S, queue: &Queue<u64>, guard: &Guard) -> [Option<u64>; 4]
    requires seated { IsSeated (S.caller s.old) }
    requires home { AreOfCells (S.caller s.old).home.cells queue.now }
    requires reader { reader_of guard.now ≡ (S.caller s.old).reader }
    ensures caller { S.caller s.new ≡ S.caller s.old }
{
    let mut walk = queue.walk(guard, s);
    let first = walk.next(guard, s).copied();
    let second = walk.next(guard, s).copied();
    let third = walk.next(guard, s).copied();
    [first, second, third, walk.next(guard, s).copied()]
}

/// The numbers that an iterator gives, the first four where there are more.
pub fn given<S: Lists>(s: &S, queue: &Queue<u64>, guard: &Guard) -> [Option<u64>; 4]
    requires { AreOfCells (S.caller s.now).home.cells queue.now }
{
    let mut numbers = [None; 4];
    let mut place = 0;
    for number in queue.iter(guard, s) {
        if place < 4 {
            numbers[place] = Some(*number);
            place += 1;
        }
    }
    numbers
}

/// Ends a queue.
pub fn close<S: Lists>(s: &mut S, queue: Queue<u64>, guard: &Guard)
    requires seated { IsSeated (S.caller s.old) }
    requires home { AreOfCells (S.caller s.old).home.cells queue }
    requires reader { reader_of guard.now ≡ (S.caller s.old).reader }
    ensures caller { S.caller s.new ≡ S.caller s.old }
{
    queue.close(guard, s);
}
