//! What a refusal prints.
use sdd_core::Refused;
use sdd_core::inner::number_of_refusal;
use std::test::Fail;

#[test]
fn refusals_have_their_numbers_and_texts(rt: HostRuntime) -> Result<(), Fail> {
    let rows = [
        (
            1,
            Refused::NoSlot,
            "NoSlot",
            "a slot is needed and none is free",
        ),
        (
            2,
            Refused::NoCell,
            "NoCell",
            "a cell is needed and none is free, or too few are",
        ),
        (3, Refused::NoJob, "NoJob", "the job table is full"),
        (
            4,
            Refused::NoPlace,
            "NoPlace",
            "all participant places are taken",
        ),
        (5, Refused::NoMemory, "NoMemory", "want of memory"),
        (
            6,
            Refused::TooManyGuards,
            "TooManyGuards",
            "the greatest nesting count is reached",
        ),
        (7, Refused::GuardOpen, "GuardOpen", "a guard is open"),
        (8, Refused::NotAlone, "NotAlone", "another owner is there"),
        (
            9,
            Refused::OwnerOut,
            "OwnerOut",
            "an owner, an item out as raw, a cell or a collector is still out",
        ),
        (
            10,
            Refused::Contended,
            "Contended",
            "every allowed exchange was lost",
        ),
        (
            11,
            Refused::TooManyOwners,
            "TooManyOwners",
            "the item has 2^62 owners",
        ),
        (
            12,
            Refused::BadLimits,
            "BadLimits",
            "a limit is out of range",
        ),
    ];
    for (number, refused, name, text) in rows {
        assert!(rt; number_of_refusal(refused) == number);
        let shown = format!(in rt.alloc(); "{refused:?}")?;
        assert!(rt; shown.as_str() == name);
        let told = format!(in rt.alloc(); "{refused}")?;
        assert!(rt; told.as_str() == text);
    }
    Ok(())
}
