//! The loops with bags, in a space that nobody else changes meanwhile.
ghost use Rattle.std.specs.Prelude.{◌≡◌, Some};
ghost use Rattle.sdd_space.specs.CallerId.{IsSeated};
ghost use Rattle.sdd_space.specs.Guard.{reader_of};
ghost use Rattle.sdd_bag.specs.There.{IsThere, MayCall};

use crate::operation::Bagging;
use sdd_bag::{Bag, Storage};
use sdd_core::Refused;
use sdd_lists::LinkedEntry;
use sdd_space::{Cells, Guard, Guards, Items, LookThrough, RawCells, Several, SharedItems};
use sdd_world::Turn;

/// What is in a slot: an entry with a storage of 32 numbers.
pub type Entry = LinkedEntry<Storage<u64, 32>>;

/// A bag of numbers, of which 32 lie in it itself.
type Numbers = Bag<u64, 32, Storage<u64, 32>>;

/// So many numbers are folded in each turn.
pub const FOLDED: u64 = 256;

/// So many numbers fill the bag itself, and one place of a storage.
const SPILLED: u64 = 33;

/// The parts of a space that bags of numbers are used in.
pub trait Bags: LookThrough<Entry>
    + Guards<Entry>
    + Items<Entry>
    + Several<Entry>
    + SharedItems<Entry>
    + Cells<Entry>
    + RawCells<Entry> {}

impl Bags for Turn<'_, Entry> {}

/// Pushes a number into a bag.
#[inline(always)]
fn push_into<S: Bags>(
    space: &mut S,
    bag: &mut Numbers,
    guard: &Guard,
    value: u64,
) -> Result<(), Refused>
    requires may { MayCall (S.caller space.old) }
    requires there { IsThere (λ b. Some b) 32 (S.caller space.old) (S.world space.old) bag.old }
    requires reader { reader_of guard.now ≡ (S.caller space.old).reader }
    ensures caller { S.caller space.new ≡ S.caller space.old }
    ensures there { IsThere (λ b. Some b) 32 (S.caller space.new) (S.world space.new) bag.new }
{
    match bag.push(value, guard, space) {
        Ok(()) => Ok(()),
        Err((_value, refused)) => Err(refused),
    }
}

/// Pushes a number into a bag, and pops one.
#[inline(always)]
fn through_bag<S: Bags>(
    space: &mut S,
    bag: &mut Numbers,
    guard: &Guard,
    value: u64,
) -> Result<u64, Refused>
    requires may { MayCall (S.caller space.old) }
    requires there { IsThere (λ b. Some b) 32 (S.caller space.old) (S.world space.old) bag.old }
    requires reader { reader_of guard.now ≡ (S.caller space.old).reader }
    ensures caller { S.caller space.new ≡ S.caller space.old }
    ensures there { IsThere (λ b. Some b) 32 (S.caller space.new) (S.world space.new) bag.new }
{
    match bag.push(value, guard, space) {
        Ok(()) => {}
        Err((_value, refused)) => return Err(refused),
    }
    match bag.pop(guard, space) {
        Some(value) => Ok(value),
        None => Ok(0),
    }
}

/// The same that often.
#[inline(never)]
fn bag_turns<S: Bags>(
    space: &mut S,
    bag: &mut Numbers,
    guard: &Guard,
    turns: u64,
) -> Result<u64, Refused>
    requires may { MayCall (S.caller space.old) }
    requires there { IsThere (λ b. Some b) 32 (S.caller space.old) (S.world space.old) bag.old }
    requires reader { reader_of guard.now ≡ (S.caller space.old).reader }
    ensures caller { S.caller space.new ≡ S.caller space.old }
    ensures there { IsThere (λ b. Some b) 32 (S.caller space.new) (S.world space.new) bag.new }
{
    let mut sum = 0u64;
    for turn in 0..turns {
        match through_bag(space, bag, guard, turn) {
            Ok(number) => sum = sum.wrapping_add(number),
            Err(refused) => return Err(refused),
        }
    }
    Ok(sum)
}

/// Pushes the numbers below this one into a bag.
#[inline(never)]
fn fill<S: Bags>(
    space: &mut S,
    bag: &mut Numbers,
    guard: &Guard,
    numbers: u64,
) -> Result<(), Refused>
    requires may { MayCall (S.caller space.old) }
    requires there { IsThere (λ b. Some b) 32 (S.caller space.old) (S.world space.old) bag.old }
    requires reader { reader_of guard.now ≡ (S.caller space.old).reader }
    ensures caller { S.caller space.new ≡ S.caller space.old }
    ensures there { IsThere (λ b. Some b) 32 (S.caller space.new) (S.world space.new) bag.new }
{
    for number in 0..numbers {
        match push_into(space, bag, guard, number) {
            Ok(()) => {}
            Err(refused) => return Err(refused),
        }
    }
    Ok(())
}

/// The sum of the numbers of a bag, which is empty then.
#[inline(never)]
fn summed<S: Bags>(space: &mut S, bag: &mut Numbers, guard: &Guard) -> u64
    requires may { MayCall (S.caller space.old) }
    requires there { IsThere (λ b. Some b) 32 (S.caller space.old) (S.world space.old) bag.old }
    requires reader { reader_of guard.now ≡ (S.caller space.old).reader }
    ensures caller { S.caller space.new ≡ S.caller space.old }
    ensures there { IsThere (λ b. Some b) 32 (S.caller space.new) (S.world space.new) bag.new }
{
    bag.pop_all(0, |sum: u64, number| sum.wrapping_add(number), guard, space)
}

/// A bag is filled, and then what the work says is done with it, that often.
fn with_bag<S: Bags>(
    space: &mut S,
    bag: &mut Numbers,
    guard: &Guard,
    work: Bagging,
    turns: u64,
) -> Result<u64, Refused>
    requires may { MayCall (S.caller space.old) }
    requires there { IsThere (λ b. Some b) 32 (S.caller space.old) (S.world space.old) bag.old }
    requires reader { reader_of guard.now ≡ (S.caller space.old).reader }
    ensures caller { S.caller space.new ≡ S.caller space.old }
    ensures there { IsThere (λ b. Some b) 32 (S.caller space.new) (S.world space.new) bag.new }
{
    match work {
        Bagging::Inside => bag_turns(space, bag, guard, turns),
        Bagging::Behind => match fill(space, bag, guard, SPILLED) {
            Ok(()) => bag_turns(space, bag, guard, turns),
            Err(refused) => Err(refused),
        },
        Bagging::All => match fill(space, bag, guard, FOLDED) {
            Ok(()) => Ok(summed(space, bag, guard)),
            Err(refused) => Err(refused),
        },
    }
}

/// A bag is made under a guard, worked with, and closed.
fn under_a_guard<S: Bags>(
    space: &mut S,
    guard: &Guard,
    work: Bagging,
    turns: u64,
) -> Result<u64, Refused>
    requires may { MayCall (S.caller space.old) }
    requires reader { reader_of guard.now ≡ (S.caller space.old).reader }
    ensures caller { S.caller space.new ≡ S.caller space.old }
{
    let mut bag: Numbers = Bag::new(space)?;
    let done = with_bag(space, &mut bag, guard, work, turns);
    bag.close(guard, space);
    done
}

/// The same under a guard of its own.
fn guarded<S: Bags>(space: &mut S, work: Bagging, turns: u64) -> Result<u64, Refused>
    requires may { MayCall (S.caller space.old) }
    ensures caller { S.caller space.new ≡ S.caller space.old }
{
    let guard = Guard::new(space)?;
    let done = under_a_guard(space, &guard, work, turns);
    guard.close(space);
    done
}

/// A bag of 256 numbers is made under a guard, its numbers are folded, and it is closed, that often. What is due is reclaimed.
fn folds<S: Bags>(space: &mut S, turns: u64) -> Result<u64, Refused>
    requires may { MayCall (S.caller space.old) }
    ensures caller { S.caller space.new ≡ S.caller space.old }
{
    let mut sum = 0u64;
    for _turn in 0..turns {
        sum = sum.wrapping_add(guarded(space, Bagging::All, 1)?);
    }
    Ok(sum)
}

/// Does that with a bag that often.
pub fn work_with_bag<S: Bags>(space: &mut S, work: Bagging, turns: u64) -> Result<u64, Refused>
    requires may { MayCall (S.caller space.old) }
    ensures caller { S.caller space.new ≡ S.caller space.old }
{
    match work {
        Bagging::Inside | Bagging::Behind => guarded(space, work, turns),
        Bagging::All => folds(space, turns),
    }
}
