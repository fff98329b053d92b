//! Ample memory at the greatest sizes. A body that refuses with `NoMemory` beyond some size meets every contract.

use sdd_script::schedules::play_steps;
use sdd_script_text::{Ended, Reader, Writer};
use std::alloc::{AllocError, Global};
use std::test::Fail;

/// A text of so many lines: a first one, and then the same again and again.
fn lines(alloc: Global, count: u64, first: &str, line: &str) -> Result<String, AllocError> {
    let mut text = String::new(alloc);
    text.push_str(first)?;
    for _ in 1..count {
        text.push_str(line)?;
    }
    Ok(text)
}

/// How a play of a text ends, and what it writes.
fn played(alloc: Global, text: &str) -> (Ended, Vec<u8>) {
    let mut written = Vec::new(alloc);
    let mut reader = Reader::new(text.as_bytes());
    let mut writer = Writer::new(&mut written);
    let ended = play_steps(alloc, &mut reader, &mut writer);
    (ended, written)
}

#[test]
fn a_schedule_has_a_most_of_steps(rt: HostRuntime) -> Result<(), Fail> {
    let alloc = rt.alloc();
    let most = lines(alloc, 65_536, "register 0\n", "advance 0\n")?;
    let answers = lines(alloc, 65_536, "done\n", "not possible\n")?;
    let (ended, written) = played(alloc, most.as_str());
    assert!(rt; ended == Ended::Played);
    assert!(rt; written.as_slice() == answers.as_bytes());
    let one_more = lines(alloc, 65_537, "register 0\n", "advance 0\n")?;
    let (ended, written) = played(alloc, one_more.as_str());
    assert!(rt; ended == Ended::NotAStep(65_537));
    assert!(rt; written.as_slice() == b"line 65537: not a step\n".as_slice());
    Ok(())
}

#[test]
fn a_schedule_names_the_greatest_place_and_the_greatest_item(rt: HostRuntime) {
    let (ended, written) = played(
        rt.alloc(),
        "register 1023\nretire 1023 16777215\nretire 1023 16777215\nend 1023\n",
    );
    assert!(rt; ended == Ended::Played);
    assert!(rt; written.as_slice() == b"done\ndone\nnot possible\ndone\n".as_slice());
}
