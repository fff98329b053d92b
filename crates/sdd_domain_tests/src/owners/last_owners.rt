//! Values that count their drops, and have several owners.
use crate::owners::counted::Counted;
use crate::owners::steps::{copied, dropped_in_place, released, shared_item, stays_in_place};
use crate::steps::{
    TWO_AND_ONE_SLOT, close, closed_with_two, ended, new_domain, opened, registered, turns,
};
use crate::with_jobs::{is_total, number};
use crate::worked::in_place::counts;

/// Neither an owner beside another one drops it nor the last one while a guard is open, and then it is dropped at once.
#[test]
fn a_value_is_dropped_in_its_place_with_its_last_owner(rt: HostRuntime) {
    let drops = number(&rt);
    let domain = new_domain::<Counted>(&rt, TWO_AND_ONE_SLOT);
    let mut one = registered(&rt, &domain);
    let mut other = registered(&rt, &domain);
    let first = shared_item(&rt, &mut one, Counted::new(&rt, 7, &drops));
    let second = copied(&rt, &mut other, &first);
    let guard = opened(&rt, &mut other);
    assert!(rt; !dropped_in_place(&rt, &mut one, first));
    let second = stays_in_place(&rt, &mut one, second);
    let second = stays_in_place(&rt, &mut other, second);
    close(guard, &mut other);
    is_total(&rt, &drops, 0);
    assert!(rt; dropped_in_place(&rt, &mut one, second));
    is_total(&rt, &drops, 1);
    let (one, other) = (ended(&rt, one), ended(&rt, other));
    counts(&rt, closed_with_two(&rt, domain, one, other), 1, 0, 1);
    is_total(&rt, &drops, 1);
}

/// One is reclaimed by the participant of its last owner, and one by the close.
#[test]
fn a_value_waits_once_its_last_owner_went(rt: HostRuntime) {
    let drops = number(&rt);
    let domain = new_domain::<Counted>(&rt, TWO_AND_ONE_SLOT);
    let mut one = registered(&rt, &domain);
    let mut other = registered(&rt, &domain);
    let first = shared_item(&rt, &mut one, Counted::new(&rt, 7, &drops));
    let second = copied(&rt, &mut other, &first);
    assert!(rt; !released(&mut other, first));
    assert!(rt; released(&mut one, second));
    turns(&rt, &mut one, 3);
    is_total(&rt, &drops, 0);
    turns(&rt, &mut one, 1);
    is_total(&rt, &drops, 1);
    let again = shared_item(&rt, &mut other, Counted::new(&rt, 8, &drops));
    assert!(rt; released(&mut other, again));
    let (one, other) = (ended(&rt, one), ended(&rt, other));
    is_total(&rt, &drops, 1);
    counts(&rt, closed_with_two(&rt, domain, one, other), 2, 2, 0);
    is_total(&rt, &drops, 2);
}
