//! What the arguments choose, and the status of each end.

use sdd_core::Limits;
use sdd_script::Ended;
use sdd_script_text::{Choice, Outcome, USUAL_LIMITS, chosen, line, status};
use std::alloc::{AllocError, Global};
use std::test::Fail;

fn words(alloc: Global, line: &str) -> Result<Vec<String>, AllocError> {
    let mut words = Vec::new(alloc);
    for word in line.split_whitespace() {
        words.push(String::from_str(alloc, word)?)?;
    }
    Ok(words)
}

#[test]
fn no_word_chooses_the_usual_limits(rt: HostRuntime) -> Result<(), Fail> {
    let choice = chosen(words(rt.alloc(), "")?.as_slice());
    assert_eq!(rt; choice, Choice::Script(USUAL_LIMITS));
    Ok(())
}

#[test]
fn six_numbers_choose_limits_in_their_order(rt: HostRuntime) -> Result<(), Fail> {
    let choice = chosen(words(rt.alloc(), "2 10 0 65537 1 18446744073709551615")?.as_slice());
    let limits = Limits {
        participants: 2,
        slots: 10,
        cells: 0,
        jobs: 65537,
        nesting: 1,
        tries: u64::MAX,
    };
    assert_eq!(rt; choice, Choice::Script(limits));
    Ok(())
}

#[test]
fn the_word_steps_chooses_a_schedule(rt: HostRuntime) -> Result<(), Fail> {
    let choice = chosen(words(rt.alloc(), "steps")?.as_slice());
    assert_eq!(rt; choice, Choice::Steps);
    Ok(())
}

#[test]
fn other_words_choose_the_usage(rt: HostRuntime) -> Result<(), Fail> {
    for line in [
        "8",
        "step",
        "Steps",
        "steps steps",
        "steps 8 64 128 8 8 1",
        "8 64 128 8 8 steps",
        "8 64 128 8 8",
        "8 64 128 8 8 1 1",
        "8 64 128 8 8 one",
        "8 64 128 8 8 01",
        "8 64 128 8 8 +1",
        "8 64 128 8 8 -1",
        "0x8 64 128 8 8 1",
        "8 64 18446744073709551616 8 8 1",
    ] {
        let choice = chosen(words(rt.alloc(), line)?.as_slice());
        assert_eq!(rt; choice, Choice::Usage, "{line:?}");
    }
    Ok(())
}

#[test]
fn each_end_has_its_status(rt: HostRuntime) {
    for (ended, code) in [
        (Ended::Played, 0),
        (Ended::NotACall(3), 2),
        (Ended::NotAStep(3), 2),
        (Ended::LimitsOutOfRange, 2),
        (Ended::CannotRead, 1),
        (Ended::CannotWrite, 1),
        (Ended::NoMemory, 1),
    ] {
        assert_eq!(rt; status(Outcome::Play(ended)), code, "{ended:?}");
    }
}

#[test]
fn the_usage_has_a_line(rt: HostRuntime) {
    assert_eq!(rt;
        line(Outcome::Usage),
        Some("usage: sdd-run [steps | participants slots cells jobs nesting tries]")
    );
    assert_eq!(rt; status(Outcome::Usage), 2);
}
