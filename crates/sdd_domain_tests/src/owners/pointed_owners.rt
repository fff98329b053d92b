//! One owner more of an item that a guard of the participant shows.
ghost use Rattle.std.specs.Prelude.{◌≡◌};
ghost use Rattle.sdd_space.specs.CallerId.{IsSeated};
ghost use Rattle.sdd_space.specs.Ptr.{PtrIsShown};

use crate::owners::steps::{owned_item, released, shared_item};
use crate::steps::{
    ONE_SLOT, TWO_AND_ONE_SLOT, close, closed_with_one, closed_with_two, ended, is_tally,
    new_domain, opened, registered, retire,
};
use sdd_space::{Items, LookThrough, Ptr, Shared, SharedItems};
use std::process::Abort;

/// Whether one owner more can be had of the pointer's item; if so it is given up again, and tells whether it was the last.
#[tactic(auto, using(sdd_space::proofs::PtrShown::shown_still))]
fn upgraded<S: Items<u64> + SharedItems<u64>>(
    rt: &impl Abort,
    s: &mut S,
    ptr: Ptr<'_, u64>,
) -> Option<bool>
    requires seated { IsSeated (S.caller s.old) }
    requires shown { PtrIsShown (S.shows s.old) ptr }
    ensures caller { S.caller s.new ≡ S.caller s.old }
    ensures still { PtrIsShown (S.shows s.new) ptr.entry }
{
    let owner = ptr.get_shared(s).expect(rt, "another owner may be had")?;
    Some(owner.release(s))
}

/// The same by a call that gives the pointer back where there is none.
#[tactic(auto, using(sdd_space::proofs::PtrShown::shown_still))]
fn converted<S: Items<u64> + SharedItems<u64> + LookThrough<u64>>(
    rt: &impl Abort,
    s: &mut S,
    ptr: Ptr<'_, u64>,
) -> Option<bool>
    requires seated { IsSeated (S.caller s.old) }
    requires shown { PtrIsShown (S.shows s.old) ptr }
    ensures caller { S.caller s.new ≡ S.caller s.old }
    ensures still { PtrIsShown (S.shows s.new) ptr.entry }
{
    match Shared::try_from_ptr(ptr, s) {
        Ok(owner) => Some(owner.release(s)),
        Err((back, refused)) => {
            assert!(rt; back == ptr && refused.is_none());
            None
        }
    }
}

/// Another participant made the item, and owns it no more after its release; the guard of this one shows it still.
#[test]
fn who_sees_an_item_owns_it_too_as_long_as_someone_does(rt: HostRuntime) {
    let domain = new_domain::<u64>(&rt, TWO_AND_ONE_SLOT);
    let mut one = registered(&rt, &domain);
    let mut other = registered(&rt, &domain);
    let owner = shared_item(&rt, &mut one, 7);
    let guard = opened(&rt, &mut other);
    let ptr = owner.get_guarded_ptr(&guard, &mut other);
    assert!(rt; upgraded(&rt, &mut other, ptr) == Some(false));
    assert!(rt; converted(&rt, &mut other, ptr) == Some(false));
    assert!(rt; released(&mut one, owner));
    assert!(rt; upgraded(&rt, &mut other, ptr) == None);
    assert!(rt; converted(&rt, &mut other, ptr) == None);
    assert!(rt; ptr.as_ref(&other).copied() == Some(7));
    close(guard, &mut other);
    let (one, other) = (ended(&rt, one), ended(&rt, other));
    is_tally(&rt, closed_with_two(&rt, domain, one, other), 1, 1);
}

/// The same of one that is lone.
#[test]
fn a_lone_participant_owns_what_it_points_at(rt: HostRuntime) {
    let domain = new_domain::<u64>(&rt, ONE_SLOT);
    let mut local = registered(&rt, &domain);
    let owner = shared_item(&rt, &mut local, 7);
    let guard = opened(&rt, &mut local);
    let ptr = owner.get_guarded_ptr(&guard, &mut local);
    assert!(rt; upgraded(&rt, &mut local, ptr) == Some(false));
    assert!(rt; converted(&rt, &mut local, Ptr::null()) == None);
    close(guard, &mut local);
    assert!(rt; released(&mut local, owner));
    let receipt = ended(&rt, local);
    is_tally(&rt, closed_with_one(&rt, domain, receipt), 1, 1);
}

/// An item whose only owner can have no other beside it.
#[test]
fn an_only_owner_stays_the_only_one(rt: HostRuntime) {
    let domain = new_domain::<u64>(&rt, TWO_AND_ONE_SLOT);
    let mut one = registered(&rt, &domain);
    let mut other = registered(&rt, &domain);
    let owner = owned_item(&rt, &mut one, 7);
    let guard = opened(&rt, &mut other);
    let ptr = owner.get_guarded_ptr(&guard, &mut other);
    assert!(rt; upgraded(&rt, &mut other, ptr) == None);
    assert!(rt; converted(&rt, &mut other, ptr) == None);
    close(guard, &mut other);
    retire(owner, &mut one);
    let (one, other) = (ended(&rt, one), ended(&rt, other));
    is_tally(&rt, closed_with_two(&rt, domain, one, other), 1, 1);
}
