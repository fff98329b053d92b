//! What `Debug` prints of a guard and a pointer, and which pointers are equal.
use crate::steps::{AMPLE, close, closed, joined, made, new_world, opened, pointer, retire};
use sdd_core::Tag;
use sdd_space::Ptr;
use sdd_world::World;
use std::test::Fail;

#[test]
fn guards_and_pointers_have_texts(rt: HostRuntime) -> Result<(), Fail> {
    let alloc = rt.alloc();
    let mut world: World<u64> = new_world(&rt, AMPLE, 0);
    joined(&rt, &mut world);
    let place = joined(&rt, &mut world);
    let guard = opened(&rt, &mut world, &place);
    let shown = format!(in alloc; "{guard:?}");
    close(&mut world, &place, guard);
    closed(&rt, world);
    assert!(rt; shown?.as_str() == "Guard { .. }");
    let null: Ptr<'_, u64> = Ptr::null().with_tag(Tag::Both);
    let shown = format!(in alloc; "{null:?}")?;
    assert!(rt; shown.as_str() == "Ptr { slot: None, tag: Both, .. }");
    Ok(())
}

/// Whether pointers of one item are equal, and no others are. One item is pointed to twice, and another once.
fn are_told_apart(one: Ptr<'_, u64>, again: Ptr<'_, u64>, other: Ptr<'_, u64>) -> bool {
    let tagged = one.with_tag(Tag::First);
    one == again
        && one != other
        && one != tagged
        && tagged == one.with_tag(Tag::First)
        && one != Ptr::null()
}

#[test]
fn pointers_are_equal_by_slot_and_tag(rt: HostRuntime) {
    let mut world: World<u64> = new_world(&rt, AMPLE, 0);
    let place = joined(&rt, &mut world);
    let first = made(&rt, &mut world, &place, 7);
    let second = made(&rt, &mut world, &place, 7);
    let guard = opened(&rt, &mut world, &place);
    let one = pointer(&mut world, &place, &first, &guard);
    let again = pointer(&mut world, &place, &first, &guard);
    let other = pointer(&mut world, &place, &second, &guard);
    assert!(rt; are_told_apart(one, again, other));
    close(&mut world, &place, guard);
    retire(&mut world, &place, first);
    retire(&mut world, &place, second);
    closed(&rt, world);
}
