//! Calls with owners of one kind, whichever it is.
ghost use Rattle.std.specs.Prelude.{◌≡◌};
ghost use Rattle.sdd_space.specs.CallerId.{IsSeated};
ghost use Rattle.sdd_space.specs.Guard.{reader_of};
ghost use Rattle.sdd_domain_tests.specs.Hands.{AreOwnersOf};

use crate::answers::Answer;
use crate::drawn::in_hand::InHand;
use crate::hand::OwnersInHand;
use sdd_space::{Guard, Items, Look, Owner, Ownership};
use std::process::Abort;

pub fn makes<K: Ownership, S: Items<u64>>(
    rt: &impl Abort,
    s: &mut S,
    owners: &mut OwnersInHand<K>,
    value: u64,
) -> Option<Answer>
    requires seated { IsSeated (S.caller s.old) }
    requires owners { AreOwnersOf (S.caller s.old) owners.old }
    ensures caller { S.caller s.new ≡ S.caller s.old }
    ensures owners { AreOwnersOf (S.caller s.old) owners.new }
{
    match Owner::new(value, s) {
        Ok(owner) => {
            owner.keep(rt, owners);
            Some(Answer::Done)
        }
        Err((back, refused)) => {
            assert_eq!(rt; back, value);
            Some(Answer::Refused(refused))
        }
    }
}

/// The same by a closure, which comes back where it is refused.
pub fn makes_by_closure<K: Ownership, S: Items<u64>>(
    rt: &impl Abort,
    s: &mut S,
    owners: &mut OwnersInHand<K>,
    value: u64,
) -> Option<Answer>
    requires seated { IsSeated (S.caller s.old) }
    requires owners { AreOwnersOf (S.caller s.old) owners.old }
    ensures caller { S.caller s.new ≡ S.caller s.old }
    ensures owners { AreOwnersOf (S.caller s.old) owners.new }
{
    match Owner::new_with(|| value, s) {
        Ok(owner) => {
            owner.keep(rt, owners);
            Some(Answer::Done)
        }
        Err((make, refused)) => {
            assert_eq!(rt; make(), value);
            Some(Answer::Refused(refused))
        }
    }
}

pub fn looks<K: Ownership, S: Look<u64> + Items<u64>>(
    rt: &impl Abort,
    s: &mut S,
    owners: &mut OwnersInHand<K>,
    pick: usize,
) -> Option<Answer>
    requires seated { IsSeated (S.caller s.old) }
    requires owners { AreOwnersOf (S.caller s.old) owners.old }
    ensures caller { S.caller s.new ≡ S.caller s.old }
    ensures owners { AreOwnersOf (S.caller s.old) owners.new }
{
    let owner = Owner::take(owners, pick)?;
    let number = *owner.get(s);
    owner.keep(rt, owners);
    Some(Answer::Number(number))
}

/// By a reference and by a pointer, which show the same.
pub fn looks_under<K: Ownership, S: Look<u64> + Items<u64>>(
    rt: &impl Abort,
    s: &mut S,
    owners: &mut OwnersInHand<K>,
    guard: &Guard,
    pick: usize,
) -> Option<Answer>
    requires seated { IsSeated (S.caller s.old) }
    requires owners { AreOwnersOf (S.caller s.old) owners.old }
    requires reader { reader_of guard.now ≡ (S.caller s.old).reader }
    ensures caller { S.caller s.new ≡ S.caller s.old }
    ensures owners { AreOwnersOf (S.caller s.old) owners.new }
{
    let owner = Owner::take(owners, pick)?;
    let number = *owner.get_guarded_ref(guard, s);
    let ptr = owner.get_guarded_ptr(guard, s);
    assert!(rt; ptr.as_ref(s).copied() == Some(number));
    owner.keep(rt, owners);
    Some(Answer::Number(number))
}
