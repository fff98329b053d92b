//! Steps with a stack.
ghost use Rattle.std.specs.Prelude.{◌≡◌, IfErr, IfOk};
ghost use Rattle.sdd_space.specs.Guard.{reader_of};
ghost use Rattle.sdd_space.specs.CallerId.{IsSeated};
ghost use Rattle.sdd_lists.specs.Stack.{home_in};

use crate::lists::example::Lists;
use crate::lists::steps::{number_of, release, released, seen};
use sdd_core::Refused;
use sdd_lists::{Stack, Unfinished, Unpopped};
use sdd_space::Guard;
use std::process::Abort;

/// An empty stack.
pub fn made<S: Lists>(rt: &impl Abort, s: &mut S) -> Stack<u64>
    requires seated { IsSeated (S.caller s.old) }
    ensures caller { S.caller s.new ≡ S.caller s.old }
    ensures home { home_in result ≡ (S.caller s.new).home.cells }
{
    Stack::new(s).expect(rt, "a cell is free")
}

/// Pushes a number, and gives the owner up. What it is refused with comes back with the number.
pub fn pushed<S: Lists>(
    s: &mut S,
    stack: &Stack<u64>,
    value: u64,
    guard: &Guard,
) -> Result<(), (u64, Refused)>
    requires seated { IsSeated (S.caller s.old) }
    requires home { home_in stack.now ≡ (S.caller s.old).home.cells }
    requires reader { reader_of guard.now ≡ (S.caller s.old).reader }
    ensures caller { S.caller s.new ≡ S.caller s.old }
{
    match stack.push(value, guard, s) {
        Ok(owner) => {
            let _ = release(s, owner);
            Ok(())
        }
        Err(back) => Err(back),
    }
}

/// Pushes a number, if the newest entry has the other one, and gives the owner up.
pub fn pushed_onto<S: Lists>(
    s: &mut S,
    stack: &Stack<u64>,
    value: u64,
    wanted: Option<u64>,
    guard: &Guard,
) -> Result<(), (u64, Option<Refused>)>
    requires seated { IsSeated (S.caller s.old) }
    requires home { home_in stack.now ≡ (S.caller s.old).home.cells }
    requires reader { reader_of guard.now ≡ (S.caller s.old).reader }
    ensures caller { S.caller s.new ≡ S.caller s.old }
{
    match stack.push_if(value, |newest| number_of(newest) == wanted, guard, s) {
        Ok(owner) => {
            let _ = release(s, owner);
            Ok(())
        }
        Err(back) => Err(back),
    }
}

/// Pops a number.
pub fn popped<S: Lists>(
    rt: &impl Abort,
    s: &mut S,
    stack: &Stack<u64>,
    guard: &Guard,
) -> Option<u64>
    requires seated { IsSeated (S.caller s.old) }
    requires home { home_in stack.now ≡ (S.caller s.old).home.cells }
    requires reader { reader_of guard.now ≡ (S.caller s.old).reader }
    ensures caller { S.caller s.new ≡ S.caller s.old }
{
    match stack.pop(guard, s) {
        Ok(Some(owner)) => Some(released(s, owner)),
        Ok(None) => None,
        Err(refused) => panic!(rt; "{refused:?}"),
    }
}

/// Pops the newest number, if it is this one; else that comes back which is the newest.
pub fn popped_if<S: Lists>(
    rt: &impl Abort,
    s: &mut S,
    stack: &Stack<u64>,
    wanted: u64,
    guard: &Guard,
) -> Result<Option<u64>, u64>
    requires seated { IsSeated (S.caller s.old) }
    requires home { home_in stack.now ≡ (S.caller s.old).home.cells }
    requires reader { reader_of guard.now ≡ (S.caller s.old).reader }
    ensures caller { S.caller s.new ≡ S.caller s.old }
{
    match stack.pop_if(|newest| *newest.as_ref() == wanted, guard, s) {
        Ok(Some(owner)) => Ok(Some(released(s, owner))),
        Ok(None) => Ok(None),
        Err(Unpopped::Kept(owner)) => Err(released(s, owner)),
        Err(Unpopped::Refused(refused)) => panic!(rt; "{refused:?}"),
    }
}

/// How many entries the stack has, whether it has none, and its newest number, by a pointer and by a closure.
pub fn shown<S: Lists>(
    s: &mut S,
    stack: &Stack<u64>,
    guard: &Guard,
) -> (u64, bool, Option<u64>, Option<u64>)
    requires seated { IsSeated (S.caller s.old) }
    requires home { home_in stack.now ≡ (S.caller s.old).home.cells }
    requires reader { reader_of guard.now ≡ (S.caller s.old).reader }
    ensures caller { S.caller s.new ≡ S.caller s.old }
{
    let len = stack.len(guard, s);
    let is_empty = stack.is_empty(guard, s);
    let newest = stack.peek(guard, s);
    let by_pointer = seen(&*s, newest);
    let by_closure = stack.peek_with(|newest| number_of(newest), guard, s);
    (len, is_empty, by_pointer, by_closure)
}

/// A stack of the numbers from 1 on before this one. Where one is refused, what was built by then, the number and why.
pub fn filled<S: Lists>(
    rt: &impl Abort,
    s: &mut S,
    end: u64,
    guard: &Guard,
) -> Result<Stack<u64>, (Stack<u64>, u64, Refused)>
    requires seated { IsSeated (S.caller s.old) }
    requires reader { reader_of guard.now ≡ (S.caller s.old).reader }
    ensures caller { S.caller s.new ≡ S.caller s.old }
    ensures home { IfOk result (λ stack. home_in stack ≡ (S.caller s.new).home.cells) }
    ensures home_of_part { IfErr result (λ e. home_in e.0 ≡ (S.caller s.new).home.cells) }
{
    match Stack::from_iter(&mut (1..end), guard, s) {
        Ok(stack) => Ok(stack),
        Err(Unfinished::Part(stack, item, refused)) => match item {
            Some(item) => Err((stack, item, refused)),
            None => panic!(rt; "each number was made"),
        },
        Err(Unfinished::NotBegun(refused)) => panic!(rt; "{refused:?}"),
    }
}

/// A clone of a stack. Where it isn't whole, what there is of it, and why.
pub fn copied<S: Lists>(
    rt: &impl Abort,
    s: &mut S,
    stack: &Stack<u64>,
    guard: &Guard,
) -> Result<Stack<u64>, (Stack<u64>, Refused)>
    requires seated { IsSeated (S.caller s.old) }
    requires home { home_in stack.now ≡ (S.caller s.old).home.cells }
    requires reader { reader_of guard.now ≡ (S.caller s.old).reader }
    ensures caller { S.caller s.new ≡ S.caller s.old }
    ensures home { IfOk result (λ stack. home_in stack ≡ (S.caller s.new).home.cells) }
    ensures home_of_part { IfErr result (λ e. home_in e.0 ≡ (S.caller s.new).home.cells) }
{
    match stack.clone(guard, s) {
        Ok(copy) => Ok(copy),
        Err(Unfinished::Part(copy, item, refused)) => match item {
            None => Err((copy, refused)),
            Some(_) => panic!(rt; "nothing was cloned"),
        },
        Err(Unfinished::NotBegun(refused)) => panic!(rt; "{refused:?}"),
    }
}

/// The numbers of the entries, in order, of which there are at most four.
pub fn walked<S: Lists>(s: &mut S, stack: &Stack<u64>, guard: &Guard) -> [Option<u64>; 4]
    requires seated { IsSeated (S.caller s.old) }
    requires home { home_in stack.now ≡ (S.caller s.old).home.cells }
    requires reader { reader_of guard.now ≡ (S.caller s.old).reader }
    ensures caller { S.caller s.new ≡ S.caller s.old }
{
    let mut walk = stack.walk(guard, s);
    let first = walk.next(guard, s).copied();
    let second = walk.next(guard, s).copied();
    let third = walk.next(guard, s).copied();
    [first, second, third, walk.next(guard, s).copied()]
}

/// Another stack with all the entries.
pub fn all_of<S: Lists>(rt: &impl Abort, s: &mut S, stack: &Stack<u64>, guard: &Guard) -> Stack<u64>
    requires seated { IsSeated (S.caller s.old) }
    requires home { home_in stack.now ≡ (S.caller s.old).home.cells }
    ensures caller { S.caller s.new ≡ S.caller s.old }
    ensures home { home_in result ≡ (S.caller s.new).home.cells }
{
    stack.pop_all(guard, s).expect(rt, "a cell is free")
}

/// The numbers that an iterator gives, the first four where there are more.
pub fn given<S: Lists>(s: &S, stack: &Stack<u64>, guard: &Guard) -> [Option<u64>; 4]
    requires { home_in stack.now ≡ (S.caller s.now).home.cells }
{
    let mut numbers = [None; 4];
    let mut place = 0;
    for number in stack.iter(guard, s) {
        if place < 4 {
            numbers[place] = Some(*number);
            place += 1;
        }
    }
    numbers
}

/// The first number that an iterator gives, without a guard.
pub fn first_given<S: Lists>(s: &S, stack: &Stack<u64>) -> Option<u64>
    requires { home_in stack.now ≡ (S.caller s.now).home.cells }
{
    let mut numbers = stack.iter_unguarded(s);
    numbers.next().copied()
}

/// Ends a stack.
pub fn close<S: Lists>(s: &mut S, stack: Stack<u64>, guard: &Guard)
    requires seated { IsSeated (S.caller s.old) }
    requires home { home_in stack ≡ (S.caller s.old).home.cells }
    requires reader { reader_of guard.now ≡ (S.caller s.old).reader }
    ensures caller { S.caller s.new ≡ S.caller s.old }
{
    stack.close(guard, s);
}
