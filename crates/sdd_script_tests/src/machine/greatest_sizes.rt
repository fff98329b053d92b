//! Machines of the greatest size and lists of many steps, with ample memory: a body that refuses memory beyond some size meets every contract.
use sdd_machine::machine::{Did, MAX_ITEMS, MAX_PLACES, Machine, Step, safety};
use std::alloc::{AllocError, Global};
use std::test::Fail;

/// The greatest place, and the greatest item.
const PLACE: u32 = 1023;

const ITEM: u32 = 16_777_215;

/// A guard of the place that looks at all others and raises the count.
fn push_raise(steps: &mut Vec<Step>) -> Result<(), AllocError> {
    steps.push(Step::Read(PLACE))?;
    steps.push(Step::Publish(PLACE))?;
    steps.push(Step::Lock(PLACE))?;
    for _ in 0..PLACE {
        steps.push(Step::Look(PLACE))?;
    }
    steps.push(Step::Advance(PLACE))?;
    steps.push(Step::Unlock(PLACE))?;
    steps.push(Step::Close(PLACE))?;
    Ok(())
}

/// The item is retired and the count raised three times, the last time behind the second change.
fn up_to_the_third_change(alloc: Global) -> Result<Vec<Step>, AllocError> {
    let mut steps = Vec::new(alloc);
    steps.push(Step::Register(PLACE))?;
    steps.push(Step::Retire(PLACE, ITEM))?;
    for _ in 0..3 {
        push_raise(&mut steps)?;
    }
    steps.push(Step::Read(PLACE))?;
    Ok(steps)
}

#[test]
fn a_machine_of_the_greatest_size_is_made(rt: HostRuntime) -> Result<(), Fail> {
    assert_eq!(rt; (MAX_PLACES, MAX_ITEMS), (1024, 16_777_216));
    let mut machine = Machine::new(rt.alloc(), 1024, 16_777_216)?;
    assert!(rt; machine.step(Step::Register(PLACE + 1)) == Did::NotPossible);
    assert!(rt; machine.step(Step::Register(PLACE)) == Did::Done);
    assert_eq!(rt;
        machine.step(Step::Retire(PLACE, ITEM + 1)),
        Did::NotPossible
    );
    assert!(rt; machine.step(Step::Retire(PLACE, ITEM)) == Did::Done);
    Ok(())
}

#[test]
fn thousands_of_steps_are_taken(rt: HostRuntime) -> Result<(), Fail> {
    let steps = up_to_the_third_change(rt.alloc())?;
    assert!(rt; steps.len() == 3_090);
    let mut machine = safety(rt.alloc(), &steps)?;
    let third = Did::Opened {
        count: 3,
        changed: true,
        reclaimed: 1,
    };
    assert!(rt; machine.step(Step::Publish(PLACE)) == third);
    Ok(())
}
