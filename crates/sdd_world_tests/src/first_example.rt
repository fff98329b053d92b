//! The thread of the first example in the original crate's README: a number that is owned, a guard, a pointer that is
//! good under it, and an owner that goes first.
use crate::steps::{AMPLE, closed, joined, new_world};
use sdd_core::Tag;
use sdd_space::{Guard, Owned};
use sdd_world::World;

#[test]
fn a_guard_keeps_what_its_owner_gave_up(rt: HostRuntime) {
    let mut world: World<u64> = new_world(&rt, AMPLE, 0);
    let place = joined(&rt, &mut world);
    let mut turn = world.at(&place);
    let guard = Guard::new(&mut turn).expect(&rt, "a guard may be opened");
    let owned = match Owned::new(19u64, &mut turn) {
        Ok(owned) => owned,
        Err((_value, refused)) => panic!(rt; "{refused:?}"),
    };
    let mut ptr = owned.get_guarded_ptr(&guard, &mut turn);
    assert!(rt; ptr.as_ref(&turn).copied() == Some(19));
    assert!(rt; ptr.set_tag(Tag::First) == Tag::None);
    owned.retire(&mut turn);
    assert!(rt; ptr.as_ref(&turn).copied() == Some(19));
    assert!(rt; ptr.tag() == Tag::First);
    guard.close(&mut turn);
    drop(turn);
    assert!(rt; closed(&rt, world).reclaimed == 1);
}
