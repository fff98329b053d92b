//! Calls with owners of items that may have others beside them.
ghost use Rattle.std.specs.Prelude.{◌≡◌, IfSome};
ghost use Rattle.sdd_space.specs.CallerId.{IsSeated};
ghost use Rattle.sdd_space.specs.Guard.{reader_of};
ghost use Rattle.sdd_domain_tests.specs.Hands.{AreOwnersOf};

use crate::answers::Answer;
use crate::drawn::generator::Generator;
use crate::drawn::in_hand::{InHand, keep_made};
use crate::drawn::{owner_calls, upgraded_calls};
use crate::hand::OwnersInHand;
use sdd_space::{
    Guard, InPlaceItems, Items, Look, Shared, SharedItems, SharedOwners, SharedOwnership,
};
use std::process::Abort;

/// Puts another number in place of the one that is there, which it tells. The owner is as it was.
fn changes<S: InPlaceItems<u64>>(
    rt: &impl Abort,
    s: &mut S,
    owners: &mut OwnersInHand<SharedOwnership>,
    value: u64,
) -> Option<Answer>
    requires seated { IsSeated (S.caller s.old) }
    requires owners { AreOwnersOf (S.caller s.old) owners.old }
    ensures caller { S.caller s.new ≡ S.caller s.old }
    ensures owners { AreOwnersOf (S.caller s.old) owners.new }
{
    let mut owner = Shared::take(owners, value as usize)?;
    let changed = owner.get_mut(|number| std::mem::replace(number, value), s);
    owner.keep(rt, owners);
    match changed {
        Ok(was) => Some(Answer::Number(was)),
        Err((_change, refused)) => Some(Answer::Refused(refused)),
    }
}

/// One owner more, beside the one that is taken.
fn clones<S: SharedOwners<u64>>(
    rt: &impl Abort,
    s: &mut S,
    owners: &mut OwnersInHand<SharedOwnership>,
    pick: usize,
) -> Option<Answer>
    requires seated { IsSeated (S.caller s.old) }
    requires owners { AreOwnersOf (S.caller s.old) owners.old }
    ensures caller { S.caller s.new ≡ S.caller s.old }
    ensures owners { AreOwnersOf (S.caller s.old) owners.new }
{
    let owner = Shared::take(owners, pick)?;
    let answer = keep_made(rt, owners, owner.clone(s));
    owner.keep(rt, owners);
    answer
}

/// Whether it was the last.
fn releases<S: Items<u64>>(
    s: &mut S,
    owners: &mut OwnersInHand<SharedOwnership>,
    pick: usize,
) -> Option<Answer>
    requires seated { IsSeated (S.caller s.old) }
    requires owners { AreOwnersOf (S.caller s.old) owners.old }
    ensures caller { S.caller s.new ≡ S.caller s.old }
    ensures owners { AreOwnersOf (S.caller s.old) owners.new }
{
    let owner = Shared::take(owners, pick)?;
    Some(Answer::Told(owner.release(s)))
}

/// The owner goes in place, or comes back.
fn drops<S: InPlaceItems<u64>>(
    rt: &impl Abort,
    s: &mut S,
    owners: &mut OwnersInHand<SharedOwnership>,
    pick: usize,
) -> Option<Answer>
    requires seated { IsSeated (S.caller s.old) }
    requires owners { AreOwnersOf (S.caller s.old) owners.old }
    ensures caller { S.caller s.new ≡ S.caller s.old }
    ensures owners { AreOwnersOf (S.caller s.old) owners.new }
{
    let owner = Shared::take(owners, pick)?;
    match owner.drop_in_place(s) {
        Ok(last) => Some(Answer::Told(last)),
        Err((owner, refused)) => {
            owner.keep(rt, owners);
            Some(Answer::Refused(refused))
        }
    }
}

/// The next of these calls.
pub fn call<S: Look<u64> + Items<u64> + SharedItems<u64> + InPlaceItems<u64>>(
    rt: &impl Abort,
    s: &mut S,
    owners: &mut OwnersInHand<SharedOwnership>,
    guard: &Option<Guard>,
    drawn: &mut Generator,
) -> Option<Answer>
    requires seated { IsSeated (S.caller s.old) }
    requires owners { AreOwnersOf (S.caller s.old) owners.old }
    requires reader { IfSome guard.now (λ g. reader_of g ≡ (S.caller s.old).reader) }
    ensures caller { S.caller s.new ≡ S.caller s.old }
    ensures owners { AreOwnersOf (S.caller s.old) owners.new }
{
    let call = drawn.below(9);
    let value = drawn.below(1000);
    let pick = value as usize;
    match call {
        0 => owner_calls::makes(rt, s, owners, value),
        1 => owner_calls::makes_by_closure(rt, s, owners, value),
        2 => owner_calls::looks(rt, s, owners, pick),
        3 => owner_calls::looks_under(rt, s, owners, guard.as_ref()?, pick),
        4 => clones(rt, s, owners, pick),
        5 => upgraded_calls::call(rt, s, owners, guard.as_ref()?, pick, value % 2 == 0),
        6 => releases(s, owners, pick),
        7 => changes(rt, s, owners, value),
        _ => drops(rt, s, owners, pick),
    }
}
