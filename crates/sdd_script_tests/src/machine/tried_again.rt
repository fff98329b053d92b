//! Machines that are refused memory, and made at the second try.

use sdd_core::Refused;
use sdd_machine::machine::{Did, Machine, Step, safety};
use std::alloc::Global;
use std::process::Abort;

/// An item is retired, and goes at the third change of its holder.
const ON_ITS_WAY: [Step; 10] = [
    Step::Register(1),
    Step::Retire(1, 1),
    Step::Read(1),
    Step::Publish(1),
    Step::Lock(1),
    Step::Look(1),
    Step::Advance(1),
    Step::Unlock(1),
    Step::Close(1),
    Step::Read(1),
];

/// A machine of two places and two items. Where memory is refused once it is made at the second try.
fn made_at_last(rt: &impl Abort, alloc: Global) -> Machine {
    match Machine::new(alloc, 2, 2) {
        Ok(machine) => machine,
        Err(refused) => {
            assert_eq!(rt; refused, Refused::NoMemory);
            Machine::new(alloc, 2, 2).expect(rt, "memory is refused once")
        }
    }
}

/// The machine after these steps, at the second try where memory is refused once.
fn safe_at_last(rt: &impl Abort, alloc: Global, steps: &[Step]) -> Machine {
    match safety(alloc, steps) {
        Ok(machine) => machine,
        Err(refused) => {
            assert_eq!(rt; refused, Refused::NoMemory);
            safety(alloc, steps).expect(rt, "memory is refused once")
        }
    }
}

/// What the next publish of place 1 does, after the first change that it makes due nothing.
fn publishes(rt: &impl Abort, machine: &mut Machine) {
    let did = machine.step(Step::Publish(1));
    assert_eq!(rt;
        did,
        Did::Opened {
            count: 1,
            changed: true,
            reclaimed: 0
        }
    );
}

/// With ample memory each is made at once. Under `rt try --test --fail-alloc N` one is refused, and the second try is
/// answered as the first one is else.
#[test]
fn a_machine_is_made_at_the_second_try(rt: HostRuntime) {
    let mut machine = made_at_last(&rt, rt.alloc());
    for step in ON_ITS_WAY {
        assert!(rt; machine.step(step) != Did::NotPossible, "{step:?}");
    }
    publishes(&rt, &mut machine);
    let mut machine = safe_at_last(&rt, rt.alloc(), &ON_ITS_WAY);
    publishes(&rt, &mut machine);
}
