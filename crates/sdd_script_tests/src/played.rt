//! Plays of scripts and of schedules.

use crate::verdict::Verdict;
use sdd_core::Limits;
use sdd_script::{Ended, Reader, Writer, play, play_steps};
use sdd_script_text::USUAL_LIMITS;
use std::alloc::{AllocError, Global};

/// How a play of a script within these limits ends, and what it writes.
pub fn played(alloc: Global, limits: Limits, script: &[u8]) -> (Ended, Vec<u8>) {
    let mut written = Vec::new(alloc);
    let mut reader = Reader::new(script);
    let mut writer = Writer::new(&mut written);
    let ended = play(alloc, limits, &mut reader, &mut writer);
    (ended, written)
}

/// A play of a script within the usual limits writes what is expected, however it ends.
pub fn compared(alloc: Global, script: &str, expected: &str) -> Verdict {
    let (ended, written) = played(alloc, USUAL_LIMITS, script.as_bytes());
    judged(ended, written, expected)
}

/// A play of a schedule writes what is expected, however it ends.
pub fn compared_steps(alloc: Global, schedule: &str, expected: &str) -> Verdict {
    let mut written = Vec::new(alloc);
    let mut reader = Reader::new(schedule.as_bytes());
    let mut writer = Writer::new(&mut written);
    let ended = play_steps(alloc, &mut reader, &mut writer);
    judged(ended, written, expected)
}

/// What was written, beside what is expected.
fn judged(ended: Ended, written: Vec<u8>, expected: &str) -> Verdict {
    if ended == Ended::NoMemory {
        return Verdict::Ended(ended);
    }
    if written.as_slice() != expected.as_bytes() {
        return Verdict::Answered(written);
    }
    let mut lines = 0u64;
    for _line in expected.lines() {
        lines = lines.saturating_add(1);
    }
    Verdict::AsExpected(lines)
}
