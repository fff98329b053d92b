//! Items of several owners, which two participants clone, look at and let go, change and drop in their place.
ghost use Rattle.std.specs.Prelude.{◌≡◌};
ghost use Rattle.sdd_space.specs.CallerId.{IsSeated};
ghost use Rattle.sdd_space.specs.Shared as shared;
ghost use Rattle.sdd_domain.specs.Space.{caller_of, slots_home};

use crate::owners::steps::{
    copied, dropped_in_place, owned_item, put, released, seen, shared_item, stays_in_place,
};
use crate::steps::{
    ONE_SLOT, TWO_AND_ONE_SLOT, close, closed_with_one, closed_with_two, ended, has_no_slot,
    is_tally, new_domain, opened, registered, retire, turn, turns,
};
use crate::worked::in_place::counts;
use sdd_core::{Limits, Refused};
use sdd_domain::Local;
use sdd_space::{InPlaceItems, Shared};
use std::process::Abort;

/// The item has no owner any more, and waits with this participant.
fn waits_with(rt: &impl Abort, local: &mut Local<'_, u64>)
    requires { IsSeated (caller_of local.old) }
    ensures { caller_of local.new ≡ caller_of local.old }
{
    turns(rt, local, 3);
    has_no_slot(rt, local, 8);
    is_tally(rt, local.tally(), 0, 0);
    turn(rt, local);
    is_tally(rt, local.tally(), 0, 1);
}

/// Who made it, who cloned which, and who lets go of which makes no difference: the last one is told.
#[test]
fn the_last_of_several_owners_is_told_and_its_item_waits(rt: HostRuntime) {
    let domain = new_domain::<u64>(&rt, TWO_AND_ONE_SLOT);
    let mut one = registered(&rt, &domain);
    let mut other = registered(&rt, &domain);
    let first = shared_item(&rt, &mut one, 7);
    let second = copied(&rt, &mut other, &first);
    let third = copied(&rt, &mut one, &second);
    let fourth = copied(&rt, &mut other, &first);
    has_no_slot(&rt, &mut one, 8);
    assert!(rt; !released(&mut one, first));
    assert!(rt; !released(&mut one, fourth));
    assert_eq!(rt; (*second.get(&domain), *third.get(&one)), (7, 7));
    assert!(rt; !released(&mut one, second));
    assert_eq!(rt; *third.get(&other), 7);
    assert!(rt; released(&mut other, third));
    is_tally(&rt, one.tally(), 1, 0);
    waits_with(&rt, &mut other);
    let owner = owned_item(&rt, &mut one, 9);
    retire(owner, &mut one);
    let (one, other) = (ended(&rt, one), ended(&rt, other));
    is_tally(&rt, closed_with_two(&rt, domain, one, other), 2, 2);
}

/// Beside another owner nothing is changed, also where a guard is open.
fn is_not_alone<S: InPlaceItems<u64>>(rt: &impl Abort, s: &mut S, owner: &mut Shared<u64>)
    requires seated { IsSeated (S.caller s.old) }
    requires home { shared.slots_home owner.old ≡ (S.caller s.old).home.slots }
    ensures caller { S.caller s.new ≡ S.caller s.old }
    ensures home { shared.slots_home owner.new ≡ shared.slots_home owner.old }
{
    assert!(rt; put(s, owner, 99) == Err(Refused::NotAlone));
}

/// While a guard is open nothing is changed.
fn is_guarded<S: InPlaceItems<u64>>(rt: &impl Abort, s: &mut S, owner: &mut Shared<u64>)
    requires seated { IsSeated (S.caller s.old) }
    requires home { shared.slots_home owner.old ≡ (S.caller s.old).home.slots }
    ensures caller { S.caller s.new ≡ S.caller s.old }
    ensures home { shared.slots_home owner.new ≡ shared.slots_home owner.old }
{
    assert!(rt; put(s, owner, 99) == Err(Refused::GuardOpen));
}

/// Changed where it is alone and no guard is open, and dropped there.
fn changes_and_drops(rt: &(impl Abort + AllocGlobal), limits: Limits) {
    let domain = new_domain::<u64>(rt, limits);
    let mut local = registered(rt, &domain);
    let mut owner = shared_item(rt, &mut local, 38);
    assert!(rt; put(&mut local, &mut owner, 39) == Ok(38));
    let other = copied(rt, &mut local, &owner);
    is_not_alone(rt, &mut local, &mut owner);
    let guard = opened(rt, &mut local);
    is_not_alone(rt, &mut local, &mut owner);
    assert_eq!(rt; *other.get(&local), 39);
    assert!(rt; !dropped_in_place(rt, &mut local, other));
    is_guarded(rt, &mut local, &mut owner);
    let mut owner = stays_in_place(rt, &mut local, owner);
    assert_eq!(rt; seen(&mut local, &guard, &owner), 39);
    is_guarded(rt, &mut local, &mut owner);
    close(guard, &mut local);
    counts(rt, local.tally(), 1, 0, 0);
    assert!(rt; put(&mut local, &mut owner, 40) == Ok(39));
    assert_eq!(rt; *owner.get(&domain), 40);
    has_no_slot(rt, &mut local, 41);
    assert!(rt; dropped_in_place(rt, &mut local, owner));
    counts(rt, local.tally(), 1, 0, 1);
    let again = shared_item(rt, &mut local, 42);
    assert!(rt; dropped_in_place(rt, &mut local, again));
    let receipt = ended(rt, local);
    counts(rt, closed_with_one(rt, domain, receipt), 2, 0, 2);
}

#[test]
fn an_owner_that_is_alone_changes_and_drops_its_item(rt: HostRuntime) {
    changes_and_drops(&rt, ONE_SLOT);
    changes_and_drops(&rt, TWO_AND_ONE_SLOT);
}

/// The guard of the other participant counts as the own one, whether it saw the item or not.
#[test]
fn the_guard_of_another_participant_keeps_what_is_shared(rt: HostRuntime) {
    let domain = new_domain::<u64>(&rt, TWO_AND_ONE_SLOT);
    let mut one = registered(&rt, &domain);
    let mut other = registered(&rt, &domain);
    let mut owner = shared_item(&rt, &mut one, 7);
    let second = copied(&rt, &mut other, &owner);
    let guard = opened(&rt, &mut other);
    is_not_alone(&rt, &mut one, &mut owner);
    is_not_alone(&rt, &mut other, &mut owner);
    assert_eq!(rt; seen(&mut other, &guard, &second), 7);
    assert!(rt; !dropped_in_place(&rt, &mut one, second));
    is_guarded(&rt, &mut one, &mut owner);
    is_guarded(&rt, &mut other, &mut owner);
    let owner = stays_in_place(&rt, &mut one, owner);
    let mut owner = stays_in_place(&rt, &mut other, owner);
    assert_eq!(rt; seen(&mut other, &guard, &owner), 7);
    close(guard, &mut other);
    assert!(rt; put(&mut one, &mut owner, 8) == Ok(7));
    assert!(rt; put(&mut other, &mut owner, 9) == Ok(8));
    assert_eq!(rt; *owner.get(&one), 9);
    assert!(rt; dropped_in_place(&rt, &mut other, owner));
    counts(&rt, one.tally(), 1, 0, 0);
    counts(&rt, other.tally(), 0, 0, 1);
    let (one, other) = (ended(&rt, one), ended(&rt, other));
    counts(&rt, closed_with_two(&rt, domain, one, other), 1, 0, 1);
}
