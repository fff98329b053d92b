//! Calls with the only owners of items, and with what is out as raw.
ghost use Rattle.std.specs.Prelude.{◌≡◌, IfSome};
ghost use Rattle.sdd_space.specs.CallerId.{IsSeated};
ghost use Rattle.sdd_space.specs.Guard.{reader_of};
ghost use Rattle.sdd_space.specs.Owned.{IsOfSlots, slots_home};
ghost use Rattle.sdd_domain_tests.specs.Hands.{IsHandOf, AreOwnersOf};

use crate::answers::Answer;
use crate::drawn::generator::Generator;
use crate::drawn::in_hand::{InHand, keep_out, take_out};
use crate::drawn::owner_calls;
use crate::hand::{Hand, OwnersInHand};
use sdd_space::{Guard, InPlaceItems, Items, Look, Owned, RawItems, RawPtr, UniqueOwnership};
use std::process::Abort;

/// Puts another number in place of the one that is there, which it tells. The owner is as it was.
fn changes<S: InPlaceItems<u64>>(
    rt: &impl Abort,
    s: &mut S,
    owners: &mut OwnersInHand<UniqueOwnership>,
    value: u64,
) -> Option<Answer>
    requires seated { IsSeated (S.caller s.old) }
    requires owners { AreOwnersOf (S.caller s.old) owners.old }
    ensures caller { S.caller s.new ≡ S.caller s.old }
    ensures owners { AreOwnersOf (S.caller s.old) owners.new }
{
    let mut owner = Owned::take(owners, value as usize)?;
    let changed = owner.get_mut(|number| std::mem::replace(number, value), s);
    owner.keep(rt, owners);
    match changed {
        Ok(was) => Some(Answer::Number(was)),
        Err((_change, refused)) => Some(Answer::Refused(refused)),
    }
}

fn retires<S: Items<u64>>(
    s: &mut S,
    owners: &mut OwnersInHand<UniqueOwnership>,
    pick: usize,
) -> Option<Answer>
    requires seated { IsSeated (S.caller s.old) }
    requires owners { AreOwnersOf (S.caller s.old) owners.old }
    ensures caller { S.caller s.new ≡ S.caller s.old }
    ensures owners { AreOwnersOf (S.caller s.old) owners.new }
{
    Owned::take(owners, pick)?.retire(s);
    Some(Answer::Done)
}

/// The owner goes in place, or comes back.
fn drops<S: InPlaceItems<u64>>(
    rt: &impl Abort,
    s: &mut S,
    owners: &mut OwnersInHand<UniqueOwnership>,
    pick: usize,
) -> Option<Answer>
    requires seated { IsSeated (S.caller s.old) }
    requires owners { AreOwnersOf (S.caller s.old) owners.old }
    ensures caller { S.caller s.new ≡ S.caller s.old }
    ensures owners { AreOwnersOf (S.caller s.old) owners.new }
{
    let owner = Owned::take(owners, pick)?;
    match owner.drop_in_place(s) {
        Ok(()) => Some(Answer::Done),
        Err((owner, refused)) => {
            owner.keep(rt, owners);
            Some(Answer::Refused(refused))
        }
    }
}

#[tactic(auto, unfolding(crate::specs::Hands::IsHandOf))]
fn puts_out<S: RawItems<u64>>(
    rt: &impl Abort,
    s: &mut S,
    hand: &mut Hand,
    pick: usize,
) -> Option<Answer>
    requires seated { IsSeated (S.caller s.old) }
    requires hand { IsHandOf (S.caller s.old) hand.old }
    ensures caller { S.caller s.new ≡ S.caller s.old }
    ensures hand { IsHandOf (S.caller s.old) hand.new }
{
    let owner = Owned::take(&mut hand.owned, pick)?;
    keep_out(rt, hand, owner.into_raw(s));
    Some(Answer::Done)
}

/// What is out comes back once. Whether it comes back a second time.
#[tactic(auto, unfolding(crate::specs::Hands::IsHandOf))]
fn takes_back<S: RawItems<u64>>(
    rt: &impl Abort,
    s: &mut S,
    hand: &mut Hand,
    pick: usize,
) -> Option<Answer>
    requires seated { IsSeated (S.caller s.old) }
    requires hand { IsHandOf (S.caller s.old) hand.old }
    ensures caller { S.caller s.new ≡ S.caller s.old }
    ensures hand { IsHandOf (S.caller s.old) hand.new }
{
    let ptr = take_out(hand, pick)?;
    let Some(owner) = Owned::from_raw(ptr, s) else {
        return Some(Answer::Told(false));
    };
    owner.keep(rt, &mut hand.owned);
    match Owned::from_raw(ptr, s) {
        Some(owner) => {
            owner.keep(rt, &mut hand.owned);
            Some(Answer::Told(true))
        }
        None => Some(Answer::Done),
    }
}

/// The number that a guard shows of what is out.
fn sees_out<S: Look<u64> + RawItems<u64>>(
    rt: &impl Abort,
    s: &mut S,
    hand: &mut Hand,
    guard: &Guard,
    pick: usize,
) -> Option<Answer>
    requires seated { IsSeated (S.caller s.old) }
    requires hand { IsHandOf (S.caller s.old) hand.old }
    requires reader { reader_of guard.now ≡ (S.caller s.old).reader }
    ensures caller { S.caller s.new ≡ S.caller s.old }
    ensures hand { IsHandOf (S.caller s.old) hand.new }
{
    let ptr = take_out(hand, pick)?;
    keep_out(rt, hand, ptr);
    let shown = ptr.into_ptr(s, guard)?;
    Some(Answer::Number(*shown.as_ref(s)?))
}

/// Puts an item out and takes it back, with the pointer that it was out by.
fn out_and_back<S: RawItems<u64>>(s: &mut S, owner: Owned<u64>) -> (Option<Owned<u64>>, RawPtr<u64>)
    requires seated { IsSeated (S.caller s.old) }
    requires home { slots_home owner ≡ (S.caller s.old).home.slots }
    ensures caller { S.caller s.new ≡ S.caller s.old }
    ensures home { IsOfSlots (S.caller s.old).home.slots result.0 }
{
    let ptr = owner.into_raw(s);
    (Owned::from_raw(ptr, s), ptr)
}

/// Whether the guard shows an item as out that went out and came back.
fn sees_what_came_back<S: RawItems<u64>>(
    rt: &impl Abort,
    s: &mut S,
    owners: &mut OwnersInHand<UniqueOwnership>,
    guard: &Guard,
    pick: usize,
) -> Option<Answer>
    requires seated { IsSeated (S.caller s.old) }
    requires owners { AreOwnersOf (S.caller s.old) owners.old }
    requires reader { reader_of guard.now ≡ (S.caller s.old).reader }
    ensures caller { S.caller s.new ≡ S.caller s.old }
    ensures owners { AreOwnersOf (S.caller s.old) owners.new }
{
    let owner = Owned::take(owners, pick)?;
    let (back, ptr) = out_and_back(s, owner);
    back?.keep(rt, owners);
    Some(Answer::Told(ptr.into_ptr(s, guard).is_some()))
}

/// The next of the calls with an owner.
pub fn call<S: Look<u64> + Items<u64> + InPlaceItems<u64> + RawItems<u64>>(
    rt: &impl Abort,
    s: &mut S,
    owners: &mut OwnersInHand<UniqueOwnership>,
    guard: &Option<Guard>,
    drawn: &mut Generator,
) -> Option<Answer>
    requires seated { IsSeated (S.caller s.old) }
    requires owners { AreOwnersOf (S.caller s.old) owners.old }
    requires reader { IfSome guard.now (λ g. reader_of g ≡ (S.caller s.old).reader) }
    ensures caller { S.caller s.new ≡ S.caller s.old }
    ensures owners { AreOwnersOf (S.caller s.old) owners.new }
{
    let call = drawn.below(8);
    let value = drawn.below(1000);
    let pick = value as usize;
    match call {
        0 => owner_calls::makes(rt, s, owners, value),
        1 => owner_calls::makes_by_closure(rt, s, owners, value),
        2 => owner_calls::looks(rt, s, owners, pick),
        3 => owner_calls::looks_under(rt, s, owners, guard.as_ref()?, pick),
        4 => changes(rt, s, owners, value),
        5 => retires(s, owners, pick),
        6 => drops(rt, s, owners, pick),
        _ => sees_what_came_back(rt, s, owners, guard.as_ref()?, pick),
    }
}

/// The next of the calls with what is out.
pub fn raw_call<S: Look<u64> + RawItems<u64>>(
    rt: &impl Abort,
    s: &mut S,
    hand: &mut Hand,
    guard: &Option<Guard>,
    drawn: &mut Generator,
) -> Option<Answer>
    requires seated { IsSeated (S.caller s.old) }
    requires hand { IsHandOf (S.caller s.old) hand.old }
    requires reader { IfSome guard.now (λ g. reader_of g ≡ (S.caller s.old).reader) }
    ensures caller { S.caller s.new ≡ S.caller s.old }
    ensures hand { IsHandOf (S.caller s.old) hand.new }
{
    let call = drawn.below(3);
    let pick = drawn.below(1000) as usize;
    match call {
        0 => puts_out(rt, s, hand, pick),
        1 => takes_back(rt, s, hand, pick),
        _ => sees_out(rt, s, hand, guard.as_ref()?, pick),
    }
}
