//! Calls that make owners of pointers: one that is alive is needed for another one.
ghost use Rattle.std.specs.Prelude.{◌≡◌};
ghost use Rattle.sdd_space.specs.CallerId.{IsSeated};
ghost use Rattle.sdd_space.specs.Guard.{reader_of};
ghost use Rattle.sdd_space.specs.Ptr.{PtrIsShown};
ghost use Rattle.sdd_domain_tests.specs.Hands.{AreOwnersOf};

use crate::answers::Answer;
use crate::drawn::cell_calls::kept;
use crate::drawn::in_hand::InHand;
use crate::hand::OwnersInHand;
use sdd_space::{Guard, Items, Look, Ptr, Shared, SharedItems, SharedOwnership};
use std::process::Abort;

/// One owner more of the pointer's item is kept, if it is had. It has the number that the pointer shows.
fn had<S: Look<u64> + Items<u64> + SharedItems<u64>>(
    rt: &impl Abort,
    s: &mut S,
    owners: &mut OwnersInHand<SharedOwnership>,
    ptr: Ptr<'_, u64>,
) -> Option<Answer>
    requires seated { IsSeated (S.caller s.old) }
    requires owners { AreOwnersOf (S.caller s.old) owners.old }
    requires shown { S.asks_shown s.old → PtrIsShown (S.shows s.old) ptr }
    ensures caller { S.caller s.new ≡ S.caller s.old }
    ensures owners { AreOwnersOf (S.caller s.old) owners.new }
{
    match ptr.get_shared(s) {
        Ok(owner) => {
            let number = kept(rt, s, owners, owner)?;
            assert!(rt; ptr.as_ref(s).copied() == Some(number));
            Some(Answer::Number(number))
        }
        Err(refused) => Some(Answer::Refused(refused)),
    }
}

/// The same by a call that gives the pointer back where there is none.
fn converted<S: Look<u64> + Items<u64> + SharedItems<u64>>(
    rt: &impl Abort,
    s: &mut S,
    owners: &mut OwnersInHand<SharedOwnership>,
    ptr: Ptr<'_, u64>,
) -> Option<Answer>
    requires seated { IsSeated (S.caller s.old) }
    requires owners { AreOwnersOf (S.caller s.old) owners.old }
    requires shown { S.asks_shown s.old → PtrIsShown (S.shows s.old) ptr }
    ensures caller { S.caller s.new ≡ S.caller s.old }
    ensures owners { AreOwnersOf (S.caller s.old) owners.new }
{
    match Shared::try_from_ptr(ptr, s) {
        Ok(owner) => {
            let number = *owner.get(s);
            owner.keep(rt, owners);
            Some(Answer::Number(number))
        }
        Err((back, refused)) => {
            assert!(rt; back == ptr);
            Some(Answer::Refused(refused?))
        }
    }
}

/// One owner more by a guard's pointer, beside an owner that is taken.
fn upgraded<S: Look<u64> + Items<u64> + SharedItems<u64>>(
    rt: &impl Abort,
    s: &mut S,
    owners: &mut OwnersInHand<SharedOwnership>,
    guard: &Guard,
    pick: usize,
) -> Option<Answer>
    requires seated { IsSeated (S.caller s.old) }
    requires owners { AreOwnersOf (S.caller s.old) owners.old }
    requires reader { reader_of guard.now ≡ (S.caller s.old).reader }
    ensures caller { S.caller s.new ≡ S.caller s.old }
    ensures owners { AreOwnersOf (S.caller s.old) owners.new }
{
    let owner = Shared::take(owners, pick)?;
    let ptr = owner.get_guarded_ptr(guard, s);
    owner.keep(rt, owners);
    had(rt, s, owners, ptr)
}

/// The same once that owner went: there is one where others own the item.
#[tactic(auto, using(sdd_space::proofs::PtrShown::shown_still))]
fn converted_late<S: Look<u64> + Items<u64> + SharedItems<u64>>(
    rt: &impl Abort,
    s: &mut S,
    owners: &mut OwnersInHand<SharedOwnership>,
    guard: &Guard,
    pick: usize,
) -> Option<Answer>
    requires seated { IsSeated (S.caller s.old) }
    requires owners { AreOwnersOf (S.caller s.old) owners.old }
    requires reader { reader_of guard.now ≡ (S.caller s.old).reader }
    ensures caller { S.caller s.new ≡ S.caller s.old }
    ensures owners { AreOwnersOf (S.caller s.old) owners.new }
{
    let owner = Shared::take(owners, pick)?;
    let ptr = owner.get_guarded_ptr(guard, s);
    let _ = owner.release(s);
    converted(rt, s, owners, ptr)
}

/// One owner more by a guard's pointer, beside another one, or once that went.
pub fn call<S: Look<u64> + Items<u64> + SharedItems<u64>>(
    rt: &impl Abort,
    s: &mut S,
    owners: &mut OwnersInHand<SharedOwnership>,
    guard: &Guard,
    pick: usize,
    late: bool,
) -> Option<Answer>
    requires seated { IsSeated (S.caller s.old) }
    requires owners { AreOwnersOf (S.caller s.old) owners.old }
    requires reader { reader_of guard.now ≡ (S.caller s.old).reader }
    ensures caller { S.caller s.new ≡ S.caller s.old }
    ensures owners { AreOwnersOf (S.caller s.old) owners.new }
{
    if late {
        converted_late(rt, s, owners, guard, pick)
    } else {
        upgraded(rt, s, owners, guard, pick)
    }
}
