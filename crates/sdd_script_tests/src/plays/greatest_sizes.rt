//! Ample memory at the greatest sizes. A body that refuses with `NoMemory` beyond some size meets every contract.

use sdd_core::Limits;
use sdd_script::{
    Action, Answer, BagAction, BagName, Call, Ended, GuardName, ItemAction, ItemName, OwnerName,
    PlaceName, Reader, Reply, Value, Writer, play, run,
};
use sdd_script_text::USUAL_LIMITS;
use std::alloc::{AllocError, Global};
use std::test::Fail;

/// Each limit at the end of its range, but for slots and cells: an eighth of the most, as more take a minute.
const GREATEST: Limits = Limits {
    participants: 1024,
    slots: 2_097_152,
    cells: 2_097_152,
    jobs: 65_536,
    nesting: 4_294_967_295,
    tries: 65_535,
};

/// As many storages as a sixteenth of the most numbers of a script lie in, as more take minutes.
const FOR_ONE_BAG: Limits = Limits {
    slots: 128,
    cells: 258,
    ..USUAL_LIMITS
};

/// A text of as many lines as a script may have: a first one, and then the same again and again.
fn most_lines(alloc: Global, first: &str, line: &str) -> Result<String, AllocError> {
    let mut text = String::new(alloc);
    text.push_str(first)?;
    for _ in 1..65_536 {
        text.push_str(line)?;
    }
    Ok(text)
}

/// One that registers, makes a bag and opens a guard; then 4,128 that put a number into the bag each, and one that takes all out.
fn many_numbers(alloc: Global) -> Result<Vec<Call>, AllocError> {
    let mut calls = Vec::new(alloc);
    calls.push(Call::Register)?;
    calls.push(Call::At(PlaceName(0), Action::Bag(BagAction::Make)))?;
    calls.push(Call::At(PlaceName(0), Action::Open))?;
    for number in 0..4_128 {
        let add = Action::Bag(BagAction::Add(BagName(0), number, GuardName(0)));
        calls.push(Call::At(PlaceName(0), add))?;
    }
    let drain = Action::Bag(BagAction::Drain(BagName(0), GuardName(0)));
    calls.push(Call::At(PlaceName(0), drain))?;
    Ok(calls)
}

/// One that registers, and then 65,535 that make an item each.
fn most_calls(alloc: Global) -> Result<Vec<Call>, AllocError> {
    let mut calls = Vec::new(alloc);
    calls.push(Call::Register)?;
    for number in 1..65_536 {
        calls.push(Call::At(
            PlaceName(0),
            Action::Item(ItemAction::Owned(Value::Number(number))),
        ))?;
    }
    Ok(calls)
}

/// The call of this number answers this in a run of `most_calls`.
fn is_reply_to(number: u64, reply: &Reply) -> bool {
    match (number.checked_sub(1), reply) {
        (None, Reply::Place(place)) => *place == PlaceName(0),
        (Some(made), Reply::Item(owner, item)) => {
            *owner == OwnerName(made) && *item == ItemName(made)
        }
        _ => false,
    }
}

#[test]
fn a_run_has_the_greatest_limits_and_the_most_calls(rt: HostRuntime) -> Result<(), Fail> {
    let calls = most_calls(rt.alloc())?;
    let (answers, scene) = run(rt.alloc(), GREATEST, calls.as_slice())?;
    let shown = scene.world().tally();
    assert_eq!(rt; (shown.made, shown.reclaimed), (65_535, 0));
    let tally = scene.close();
    assert!(rt; tally.reclaimed == 65_535);
    assert!(rt; answers.len() == 65_536);
    let mut number = 0u64;
    for answer in &answers {
        assert!(rt; is_reply_to(number, &answer.reply));
        number = number.wrapping_add(1);
    }
    Ok(())
}

/// 4,128 numbers lie in the bag itself and in 128 storages. They have 15,402 digits, and a space between each two.
#[test]
fn a_drain_tells_many_numbers(rt: HostRuntime) -> Result<(), Fail> {
    let calls = many_numbers(rt.alloc())?;
    let (answers, scene) = run(rt.alloc(), FOR_ONE_BAG, calls.as_slice())?;
    let tally = scene.close();
    assert!(rt; (tally.made, tally.reclaimed) == (128, 128));
    match answers.as_slice().last() {
        Some(
            Answer {
                reply: Reply::Numbers(numbers),
                ..
            },
        ) => {
            let told = format!(in rt.alloc(); "{numbers}")?;
            assert!(rt; told.as_bytes().starts_with(b"0 1 2 3 "));
            assert!(rt; told.as_bytes().ends_with(b" 4126 4127"));
            assert!(rt; told.len() == 19_529);
        }
        _ => assert!(rt; false),
    }
    Ok(())
}

#[test]
fn a_play_has_the_most_lines(rt: HostRuntime) -> Result<(), Fail> {
    let alloc = rt.alloc();
    let text = most_lines(alloc, "register\n", "tally\n")?;
    let answers = most_lines(alloc, "p0\n", "made 0 reclaimed 0 in place 0\n")?;
    let mut written = Vec::new(alloc);
    let mut reader = Reader::new(text.as_bytes());
    let mut writer = Writer::new(&mut written);
    let ended = play(alloc, USUAL_LIMITS, &mut reader, &mut writer);
    assert!(rt; ended == Ended::Played);
    assert!(rt; written.len() == 1_966_053);
    assert!(rt; written.as_slice() == answers.as_bytes());
    Ok(())
}
