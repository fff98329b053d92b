//! The machine's single steps, and what each does.
use sdd_core::Refused;
use sdd_machine::machine::{Did, Machine, Step, safety};
use std::process::Abort;
use std::test::Fail;

/// Takes the steps one after another, and compares what each did.
fn take_all(rt: &impl Abort, machine: &mut Machine, rows: &[(Step, Did)]) {
    for (number, (step, wanted)) in rows.iter().enumerate() {
        assert_eq!(rt; machine.step(*step), *wanted, "step {number}, {step:?}");
    }
}

const PASSED: Did = Did::Looked { passed: true };

const NOT_PASSED: Did = Did::Looked { passed: false };

const RAISED: Did = Did::Advanced { raised: true };

const fn opened(count: u64, changed: bool, reclaimed: u32) -> Did {
    Did::Opened {
        count,
        changed,
        reclaimed,
    }
}

/// One opening of a place beside one other place, which raises the count.
fn raising(place: u32, found: Did) -> [(Step, Did); 7] {
    [
        (Step::Read(place), Did::Done),
        (Step::Publish(place), found),
        (Step::Lock(place), Did::Done),
        (Step::Look(place), PASSED),
        (Step::Advance(place), RAISED),
        (Step::Unlock(place), Did::Done),
        (Step::Close(place), Did::Done),
    ]
}

#[test]
fn a_guard_published_behind_a_look_holds_the_count(rt: HostRuntime) -> Result<(), Fail> {
    let mut machine = Machine::new(rt.alloc(), 2, 1)?;
    take_all(
        &rt,
        &mut machine,
        &[
            (Step::Register(0), Did::Done),
            (Step::Register(1), Did::Done),
            (Step::Read(1), Did::Done),
            (Step::Read(0), Did::Done),
            (Step::Publish(0), opened(0, false, 0)),
            (Step::Lock(0), Did::Done),
            (Step::Look(0), PASSED),
            (Step::Publish(1), opened(0, false, 0)),
            (Step::Advance(0), RAISED),
            (Step::Unlock(0), Did::Done),
            (Step::Close(0), Did::Done),
            (Step::Read(0), Did::Done),
            (Step::Publish(0), opened(1, true, 0)),
            (Step::Lock(0), Did::Done),
            (Step::Look(0), NOT_PASSED),
            (Step::Advance(0), Did::NotPossible),
            (Step::Unlock(0), Did::Done),
            (Step::Close(0), Did::Done),
            (Step::Read(0), Did::Done),
            (Step::Publish(0), opened(1, false, 0)),
        ],
    );
    Ok(())
}

#[test]
fn a_count_read_long_ago_is_published_as_it_was_read(rt: HostRuntime) -> Result<(), Fail> {
    let mut machine = Machine::new(rt.alloc(), 2, 1)?;
    take_all(
        &rt,
        &mut machine,
        &[
            (Step::Register(0), Did::Done),
            (Step::Register(1), Did::Done),
            (Step::Read(1), Did::Done),
        ],
    );
    for count in 0..3 {
        take_all(&rt, &mut machine, &raising(0, opened(count, count > 0, 0)));
    }
    take_all(
        &rt,
        &mut machine,
        &[(Step::Publish(1), opened(0, false, 0))],
    );
    for round in 0..2 {
        take_all(
            &rt,
            &mut machine,
            &[
                (Step::Read(0), Did::Done),
                (Step::Publish(0), opened(3, round == 0, 0)),
                (Step::Lock(0), Did::Done),
                (Step::Look(0), NOT_PASSED),
                (Step::Advance(0), Did::NotPossible),
                (Step::Unlock(0), Did::Done),
                (Step::Close(0), Did::Done),
            ],
        );
    }
    take_all(&rt, &mut machine, &[(Step::Close(1), Did::Done)]);
    take_all(&rt, &mut machine, &raising(0, opened(3, false, 0)));
    take_all(&rt, &mut machine, &raising(0, opened(4, true, 0)));
    Ok(())
}

#[test]
fn an_item_is_retired_once(rt: HostRuntime) -> Result<(), Fail> {
    let mut machine = Machine::new(rt.alloc(), 1, 1)?;
    take_all(
        &rt,
        &mut machine,
        &[
            (Step::Register(0), Did::Done),
            (Step::Retire(0, 0), Did::Done),
            (Step::Retire(0, 0), Did::NotPossible),
        ],
    );
    Ok(())
}

#[test]
fn an_ended_place_is_free_once_adopted_and_what_it_left_starts_again(
    rt: HostRuntime,
) -> Result<(), Fail> {
    let mut machine = Machine::new(rt.alloc(), 2, 1)?;
    take_all(
        &rt,
        &mut machine,
        &[
            (Step::Register(0), Did::Done),
            (Step::Retire(0, 0), Did::Done),
            (Step::End(0), Did::Done),
            (Step::Register(0), Did::NotPossible),
            (Step::Register(1), Did::Done),
            (Step::Read(1), Did::Done),
            (Step::Publish(1), opened(0, false, 0)),
            (Step::Lock(1), Did::Done),
            (Step::Adopt(1), Did::Done),
            (Step::Unlock(1), Did::Done),
            (Step::Close(1), Did::Done),
            (Step::Register(0), Did::Done),
        ],
    );
    take_all(&rt, &mut machine, &raising(1, opened(0, false, 0)));
    take_all(&rt, &mut machine, &raising(1, opened(1, true, 0)));
    take_all(&rt, &mut machine, &raising(1, opened(2, true, 0)));
    take_all(&rt, &mut machine, &raising(1, opened(3, true, 1)));
    Ok(())
}

#[test]
fn no_steps_need_one_place_and_one_item(rt: HostRuntime) -> Result<(), Fail> {
    let mut machine = safety(rt.alloc(), &[])?;
    take_all(
        &rt,
        &mut machine,
        &[
            (Step::Register(1), Did::NotPossible),
            (Step::Register(0), Did::Done),
            (Step::Retire(0, 1), Did::NotPossible),
            (Step::Retire(0, 0), Did::Done),
        ],
    );
    Ok(())
}

#[test]
fn nothing_is_retired_between_a_read_and_its_publish(rt: HostRuntime) -> Result<(), Fail> {
    let mut machine = Machine::new(rt.alloc(), 2, 1)?;
    take_all(
        &rt,
        &mut machine,
        &[
            (Step::Register(0), Did::Done),
            (Step::Register(1), Did::Done),
        ],
    );
    take_all(&rt, &mut machine, &raising(1, opened(0, false, 0)));
    take_all(&rt, &mut machine, &[(Step::Read(0), Did::Done)]);
    take_all(&rt, &mut machine, &raising(1, opened(1, true, 0)));
    take_all(
        &rt,
        &mut machine,
        &[
            (Step::Read(1), Did::Done),
            (Step::Publish(1), opened(2, true, 0)),
            (Step::Retire(0, 0), Did::NotPossible),
            (Step::Publish(0), opened(1, true, 0)),
            (Step::Retire(0, 0), Did::Done),
            (Step::Lock(1), Did::Done),
            (Step::Look(1), NOT_PASSED),
            (Step::Advance(1), Did::NotPossible),
        ],
    );
    Ok(())
}

#[test]
fn a_place_that_opens_behind_the_looks_is_seen_by_the_next_scan(
    rt: HostRuntime,
) -> Result<(), Fail> {
    let mut machine = Machine::new(rt.alloc(), 3, 1)?;
    take_all(
        &rt,
        &mut machine,
        &[
            (Step::Register(0), Did::Done),
            (Step::Register(1), Did::Done),
            (Step::Read(0), Did::Done),
            (Step::Publish(0), opened(0, false, 0)),
            (Step::Lock(0), Did::Done),
            (Step::Look(0), PASSED),
            (Step::Look(0), PASSED),
            (Step::Register(2), Did::Done),
            (Step::Read(2), Did::Done),
            (Step::Publish(2), opened(0, false, 0)),
            (Step::Advance(0), RAISED),
            (Step::Unlock(0), Did::Done),
            (Step::Close(0), Did::Done),
            (Step::Read(0), Did::Done),
            (Step::Publish(0), opened(1, true, 0)),
            (Step::Lock(0), Did::Done),
            (Step::Look(0), PASSED),
            (Step::Look(0), NOT_PASSED),
            (Step::Advance(0), Did::NotPossible),
        ],
    );
    Ok(())
}

#[test]
fn what_is_left_behind_an_adopt_waits_for_the_next_one(rt: HostRuntime) -> Result<(), Fail> {
    let mut machine = Machine::new(rt.alloc(), 2, 1)?;
    take_all(
        &rt,
        &mut machine,
        &[
            (Step::Register(0), Did::Done),
            (Step::Register(1), Did::Done),
            (Step::Retire(1, 0), Did::Done),
            (Step::Read(0), Did::Done),
            (Step::Publish(0), opened(0, false, 0)),
            (Step::Lock(0), Did::Done),
            (Step::Adopt(0), Did::Done),
            (Step::End(1), Did::Done),
            (Step::Look(0), PASSED),
            (Step::Advance(0), RAISED),
            (Step::Unlock(0), Did::Done),
            (Step::Close(0), Did::Done),
            (Step::Register(1), Did::NotPossible),
        ],
    );
    for count in 1..5 {
        let reclaimed = if count == 4 { 1 } else { 0 };
        take_all(
            &rt,
            &mut machine,
            &[
                (Step::Read(0), Did::Done),
                (Step::Publish(0), opened(count, true, reclaimed)),
                (Step::Lock(0), Did::Done),
                (Step::Adopt(0), Did::Done),
                (Step::Look(0), PASSED),
                (Step::Advance(0), RAISED),
                (Step::Unlock(0), Did::Done),
                (Step::Close(0), Did::Done),
            ],
        );
    }
    Ok(())
}

#[test]
fn a_machine_is_as_large_as_the_steps_need_and_goes_on_after_them(
    rt: HostRuntime,
) -> Result<(), Fail> {
    let mut machine = safety(
        rt.alloc(),
        &[
            Step::Register(2),
            Step::Retire(2, 5),
            Step::Read(2),
            Step::Publish(2),
            Step::Register(1024),
        ],
    )?;
    take_all(
        &rt,
        &mut machine,
        &[
            (Step::Close(2), Did::Done),
            (Step::Retire(2, 5), Did::NotPossible),
            (Step::Retire(2, 6), Did::NotPossible),
            (Step::Retire(2, 4), Did::Done),
            (Step::Register(1023), Did::Done),
            (Step::Register(1024), Did::NotPossible),
        ],
    );
    Ok(())
}

#[test]
fn limits_are_1024_places_and_2_to_the_24_items(rt: HostRuntime) {
    for (places, items) in [(0, 1), (1, 0), (1025, 1), (1, 16_777_217)] {
        let refused = match Machine::new(rt.alloc(), places, items) {
            Ok(_) => None,
            Err(refused) => Some(refused),
        };
        assert_eq!(rt;
            refused,
            Some(Refused::BadLimits),
            "{places} places, {items} items"
        );
    }
    assert!(rt; Machine::new(rt.alloc(), 1, 1).is_ok());
    assert!(rt; Machine::new(rt.alloc(), 1024, 65536).is_ok());
}

/// With ample memory both are there. Under `rt try --test --fail-alloc N` one of them is refused.
#[test]
fn only_want_of_memory_refuses(rt: HostRuntime) {
    if let Err(refused) = Machine::new(rt.alloc(), 2, 2) {
        assert!(rt; refused == Refused::NoMemory);
    }
    if let Err(refused) = safety(rt.alloc(), &[Step::Register(1), Step::Retire(1, 1)]) {
        assert!(rt; refused == Refused::NoMemory);
    }
}
