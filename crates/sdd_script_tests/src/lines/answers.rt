//! The texts of answers.

use sdd_core::Refused;
use sdd_core::inner::epoch_of_count;
use sdd_participants::Tally;
use sdd_script_text::{
    Answer, GuardName, ItemName, JobName, Names, PlaceName, Reply, print_all, print_fault,
};
use std::alloc::{AllocError, Global};
use std::test::Fail;

fn answer(
    alloc: Global,
    reply: Reply,
    reclaimed: &[u64],
    ran: &[u64],
) -> Result<Answer, AllocError> {
    let mut items = Names::new(alloc);
    for number in reclaimed {
        items.push(ItemName(*number))?;
    }
    let mut jobs = Names::new(alloc);
    for number in ran {
        jobs.push(JobName(*number))?;
    }
    Ok(Answer {
        reply,
        reclaimed: items,
        ran: jobs,
    })
}

/// The texts of all other replies stand beside their lines in the examples of `data/`.
#[test]
fn replies_that_no_script_gets_have_texts(rt: HostRuntime) -> Result<(), Fail> {
    let alloc = rt.alloc();
    let great = Tally {
        made: 340282366920938463463374607431768211455,
        reclaimed: 18446744073709551616,
        in_place: 10,
    };
    for (reply, text) in [
        (
            Reply::Tally(great),
            "made 340282366920938463463374607431768211455 reclaimed 18446744073709551616 in place 10\n",
        ),
        (Reply::Refused(Refused::NoMemory), "refused 5 NoMemory\n"),
        (Reply::Refused(Refused::OwnerOut), "refused 9 OwnerOut\n"),
        (Reply::Refused(Refused::Contended), "refused 10 Contended\n"),
        (
            Reply::Refused(Refused::TooManyOwners),
            "refused 11 TooManyOwners\n",
        ),
        (Reply::Refused(Refused::BadLimits), "refused 12 BadLimits\n"),
    ] {
        let printed = print_all(alloc, &[answer(alloc, reply, &[], &[])?])?;
        assert_eq!(rt; printed.as_slice(), text.as_bytes(), "{text:?}");
    }
    Ok(())
}

#[test]
fn endings_follow_replies(rt: HostRuntime) -> Result<(), Fail> {
    let alloc = rt.alloc();
    let guard = Reply::Guard(GuardName(0), epoch_of_count(3));
    let answers = [
        answer(alloc, Reply::Place(PlaceName(0)), &[], &[])?,
        answer(alloc, guard, &[2, 10], &[])?,
        answer(alloc, Reply::Done, &[], &[0])?,
        answer(alloc, Reply::Done, &[0], &[1, 2])?,
    ];
    let text = "p0\ng0 epoch 3 reclaimed i2 i10\nok ran j0\nok reclaimed i0 ran j1 j2\n";
    assert!(rt; print_all(alloc, &answers)?.as_slice() == text.as_bytes());
    assert!(rt; print_all(alloc, &[])?.is_empty());
    assert_eq!(rt;
        print_fault(alloc, 3)?.as_slice(),
        b"line 3: not a call\n".as_slice()
    );
    Ok(())
}
