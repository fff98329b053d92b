//! The steps that the examples are made of. Of the space they say only that its caller stays, and that the bag is in it.
ghost use Rattle.std.specs.Prelude.{◌≡◌, ◌<◌, ◌≤◌, IfErr, IfOk};
ghost use Rattle.std.specs.Iterator.{IsFinite};
ghost use Rattle.sdd_space.specs.CallerId.{IsSeated};
ghost use Rattle.sdd_space.specs.Guard.{reader_of};
ghost use Rattle.sdd_world_model.specs.Out.{HoldsNothing};
ghost use Rattle.sdd_bag.specs.There.{IsThere, MayCall};

use crate::bags::example::Bags;
use sdd_bag::{Bag, Shelf};
use sdd_core::Refused;
use sdd_lists::{LinkedEntry, Unfinished};
use sdd_space::{Guard, Guards, Item};
use std::process::Abort;

/// One more guard.
pub fn opened<I: Item<I>, S: Guards<I>>(rt: &impl Abort, s: &mut S) -> Guard
    requires seated { IsSeated (S.caller s.old) }
    ensures caller { S.caller s.new ≡ S.caller s.old }
    ensures reader { reader_of result ≡ (S.caller s.new).reader }
{
    Guard::new(s).expect(rt, "a guard may be opened")
}

/// Closes a guard.
pub fn shut<I: Item<I>, S: Guards<I>>(s: &mut S, guard: Guard)
    requires seated { IsSeated (S.caller s.old) }
    requires reader { reader_of guard ≡ (S.caller s.old).reader }
    ensures caller { S.caller s.new ≡ S.caller s.old }
{
    guard.close(s);
}

/// Closes a guard. The bag is there as before.
pub fn shut_beside<T, const LEN: usize, B: Shelf<T, LEN>, S: Bags<LinkedEntry<B>>>(
    s: &mut S,
    bag: &Bag<T, LEN, B>,
    guard: Guard,
)
    requires may { MayCall (S.caller s.old) }
    requires there { IsThere B.shown LEN (S.caller s.old) (S.world s.old) bag.now }
    requires reader { reader_of guard ≡ (S.caller s.old).reader }
    ensures caller { S.caller s.new ≡ S.caller s.old }
    ensures there { IsThere B.shown LEN (S.caller s.new) (S.world s.new) bag.now }
{
    bag.stays_at_close();
    bag.stays_at_opening();
    guard.close(s);
}

/// An empty bag.
pub fn made<T, const LEN: usize, B: Shelf<T, LEN>, S: Bags<LinkedEntry<B>>>(
    rt: &impl Abort,
    s: &mut S,
) -> Bag<T, LEN, B>
    requires some { 0 < LEN }
    requires fits { LEN ≤ 32 }
    requires may { MayCall (S.caller s.old) }
    ensures caller { S.caller s.new ≡ S.caller s.old }
    ensures there { IsThere B.shown LEN (S.caller s.new) (S.world s.new) result }
{
    Bag::new(s).expect(rt, "two cells are free")
}

/// Puts a value into the bag. What it is refused with comes back with the value.
pub fn pushed<T, const LEN: usize, B: Shelf<T, LEN>, S: Bags<LinkedEntry<B>>>(
    s: &mut S,
    bag: &mut Bag<T, LEN, B>,
    value: T,
    guard: &Guard,
) -> Result<(), (T, Refused)>
    requires may { MayCall (S.caller s.old) }
    requires there { IsThere B.shown LEN (S.caller s.old) (S.world s.old) bag.old }
    requires reader { reader_of guard.now ≡ (S.caller s.old).reader }
    ensures caller { S.caller s.new ≡ S.caller s.old }
    ensures there { IsThere B.shown LEN (S.caller s.new) (S.world s.new) bag.new }
{
    bag.push(value, guard, s)
}

/// Takes a value out of the bag.
pub fn popped<T, const LEN: usize, B: Shelf<T, LEN>, S: Bags<LinkedEntry<B>>>(
    s: &mut S,
    bag: &mut Bag<T, LEN, B>,
    guard: &Guard,
) -> Option<T>
    requires may { MayCall (S.caller s.old) }
    requires there { IsThere B.shown LEN (S.caller s.old) (S.world s.old) bag.old }
    requires reader { reader_of guard.now ≡ (S.caller s.old).reader }
    ensures caller { S.caller s.new ≡ S.caller s.old }
    ensures there { IsThere B.shown LEN (S.caller s.new) (S.world s.new) bag.new }
{
    bag.pop(guard, s)
}

/// A bag of what an iterator gives. Where a value is refused, what was built by then, the value and why.
pub fn filled<
    T,
    const LEN: usize,
    B: Shelf<T, LEN>,
    I: Iterator<Item = T>,
    S: Bags<LinkedEntry<B>>,
>(
    rt: &impl Abort,
    s: &mut S,
    items: &mut I,
    guard: &Guard,
) -> Result<Bag<T, LEN, B>, (Bag<T, LEN, B>, T, Refused)>
    requires some { 0 < LEN }
    requires fits { LEN ≤ 32 }
    requires may { MayCall (S.caller s.old) }
    requires reader { reader_of guard.now ≡ (S.caller s.old).reader }
    requires can { I.can_next items.old }
    requires ends { IsFinite (I.remaining items.old) }
    ensures caller { S.caller s.new ≡ S.caller s.old }
    ensures there { IfOk result (IsThere B.shown LEN (S.caller s.new) (S.world s.new)) }
    ensures part { IfErr result (λ e. IsThere B.shown LEN (S.caller s.new) (S.world s.new) e.0) }
{
    match Bag::from_iter(items, guard, s) {
        Ok(bag) => Ok(bag),
        Err(Unfinished::Part(bag, item, refused)) => match item {
            Some(item) => Err((bag, item, refused)),
            None => panic!(rt; "each value was made"),
        },
        Err(Unfinished::NotBegun(refused)) => panic!(rt; "{refused:?}"),
    }
}

/// The same, where none is refused.
pub fn full_of<
    T,
    const LEN: usize,
    B: Shelf<T, LEN>,
    I: Iterator<Item = T>,
    S: Bags<LinkedEntry<B>>,
>(rt: &impl Abort, s: &mut S, items: &mut I, guard: &Guard) -> Bag<T, LEN, B>
    requires some { 0 < LEN }
    requires fits { LEN ≤ 32 }
    requires may { MayCall (S.caller s.old) }
    requires reader { reader_of guard.now ≡ (S.caller s.old).reader }
    requires can { I.can_next items.old }
    requires ends { IsFinite (I.remaining items.old) }
    ensures caller { S.caller s.new ≡ S.caller s.old }
    ensures there { IsThere B.shown LEN (S.caller s.new) (S.world s.new) result }
{
    match filled(rt, s, items, guard) {
        Ok(bag) => bag,
        Err((_bag, _value, refused)) => panic!(rt; "{refused:?}"),
    }
}

/// The sum of the numbers of the bag, which is empty then.
pub fn summed<const LEN: usize, B: Shelf<u64, LEN>, S: Bags<LinkedEntry<B>>>(
    s: &mut S,
    bag: &mut Bag<u64, LEN, B>,
    guard: &Guard,
) -> u64
    requires may { MayCall (S.caller s.old) }
    requires there { IsThere B.shown LEN (S.caller s.old) (S.world s.old) bag.old }
    requires reader { reader_of guard.now ≡ (S.caller s.old).reader }
    ensures caller { S.caller s.new ≡ S.caller s.old }
    ensures there { IsThere B.shown LEN (S.caller s.new) (S.world s.new) bag.new }
{
    bag.pop_all(0, |sum: u64, number| sum.wrapping_add(number), guard, s)
}

/// Lends each value of the bag to be changed in its place.
pub fn changed<T, const LEN: usize, B: Shelf<T, LEN>, F: FnMut(&mut T), S: Bags<LinkedEntry<B>>>(
    s: &S,
    bag: &mut Bag<T, LEN, B>,
    change: F,
) -> Result<(), Refused>
    requires may { MayCall (S.caller s.now) }
    requires there { IsThere B.shown LEN (S.caller s.now) (S.world s.now) bag.old }
    requires callable { F.IsAlwaysCallable change }
    ensures there { IsThere B.shown LEN (S.caller s.now) (S.world s.now) bag.new }
{
    bag.for_each_mut(change, s)
}

/// Multiplies each number of the bag by ten, as the cursor lends it. How many there are, and the sum of what they were.
pub fn tenfold<const LEN: usize, B: Shelf<u64, LEN>, S: Bags<LinkedEntry<B>>>(
    s: &S,
    bag: &mut Bag<u64, LEN, B>,
) -> Result<(u64, u64), Refused>
    requires may { MayCall (S.caller s.now) }
    requires there { IsThere B.shown LEN (S.caller s.now) (S.world s.now) bag.old }
    ensures there { IsThere B.shown LEN (S.caller s.now) (S.world s.now) bag.new }
{
    let mut cursor = match bag.iter_mut(s) {
        Ok(cursor) => cursor,
        Err(refused) => return Err(refused),
    };
    let mut count = 0u64;
    let mut sum = 0u64;
    while let Some(number) = cursor.next() {
        count = count.wrapping_add(1);
        sum = sum.wrapping_add(*number);
        *number = number.wrapping_mul(10);
    }
    cursor.close();
    Ok((count, sum))
}

/// Ends a bag of what holds nothing.
pub fn closed<T, const LEN: usize, B: Shelf<T, LEN>, S: Bags<LinkedEntry<B>>>(
    s: &mut S,
    bag: Bag<T, LEN, B>,
    guard: &Guard,
)
where
    T: Item<LinkedEntry<B>>,
    requires nothing { HoldsNothing T.holds }
    requires may { MayCall (S.caller s.old) }
    requires there { IsThere B.shown LEN (S.caller s.old) (S.world s.old) bag }
    requires reader { reader_of guard.now ≡ (S.caller s.old).reader }
    ensures caller { S.caller s.new ≡ S.caller s.old }
{
    bag.close(guard, s);
}

/// How many values the bag has, each of which is taken out. The bag is ended then.
pub fn counted<T, const LEN: usize, B: Shelf<T, LEN>, S: Bags<LinkedEntry<B>>>(
    s: &mut S,
    bag: Bag<T, LEN, B>,
    guard: &Guard,
) -> u64
where
    T: Drop + Item<LinkedEntry<B>>,
    requires nothing { HoldsNothing T.holds }
    requires may { MayCall (S.caller s.old) }
    requires there { IsThere B.shown LEN (S.caller s.old) (S.world s.old) bag }
    requires reader { reader_of guard.now ≡ (S.caller s.old).reader }
    ensures caller { S.caller s.new ≡ S.caller s.old }
{
    let mut bag = bag;
    let count = |count: u64, value: T| {
        drop(value);
        count.wrapping_add(1)
    };
    let count = bag.pop_all(0, count, guard, s);
    closed(s, bag, guard);
    count
}
