//! Reading a script or a schedule, running it, and writing its picture.

use crate::picture::draw;
use crate::{schedule, script};
use sdd_core::{Limits, Refused};
use sdd_machine::{Did, Step};
use sdd_script::run;
use sdd_script::schedules::{Schedule, take_all};
use sdd_script_text::{
    Answer, Call, Ended, ReadEnd, Script, Sink, Source, parse_all, print_all, print_fault,
    read_to_end, write_all,
};
use std::alloc::{AllocError, Global};
use std::str;

/// Reads a script, runs its calls on a new world, and writes the picture of the run.
///
/// Where a line is no call, nothing is run, and that is written instead. It ends as a play does.
pub fn draw_script<R: Source, W: Sink>(
    alloc: Global,
    limits: Limits,
    reader: &mut R,
    writer: &mut W,
) -> Ended {
    if !limits.are_in_range() {
        return Ended::LimitsOutOfRange;
    }
    match read_to_end(alloc, reader) {
        Ok(text) => written(drawn_script(alloc, limits, text.as_slice()), writer),
        Err(end) => unread(end),
    }
}

/// Reads a schedule, takes its steps in the machine, and writes the picture of the run, as [`draw_script`] does.
pub fn draw_schedule<R: Source, W: Sink>(alloc: Global, reader: &mut R, writer: &mut W) -> Ended {
    match read_to_end(alloc, reader) {
        Ok(text) => written(drawn_schedule(alloc, text.as_slice()), writer),
        Err(end) => unread(end),
    }
}

fn unread(end: ReadEnd) -> Ended {
    match end {
        ReadEnd::NoMemory => Ended::NoMemory,
        ReadEnd::Fault => Ended::CannotRead,
    }
}

/// Writes what was drawn, and says how all ends.
fn written<W: Sink>(drawn: Result<(Vec<u8>, Ended), Refused>, writer: &mut W) -> Ended {
    let Ok((text, ended)) = drawn else {
        return Ended::NoMemory;
    };
    match write_all(writer, text.as_slice()) {
        Ok(()) => ended,
        Err(_) => Ended::CannotWrite,
    }
}

/// What is to be written for the text of a script, and how that ends.
fn drawn_script(alloc: Global, limits: Limits, text: &[u8]) -> Result<(Vec<u8>, Ended), Refused> {
    match parse_all(alloc, text)? {
        Script::Calls(calls) => {
            let (answers, scene) = run(alloc, limits, calls.as_slice())?;
            scene.close();
            let drawn = drawn_calls(alloc, text, calls.as_slice(), answers.as_slice())?;
            Ok((drawn, Ended::Played))
        }
        Script::Fault(line) => Ok((print_fault(alloc, line)?, Ended::NotACall(line))),
    }
}

/// What is to be written for the text of a schedule, and how that ends.
fn drawn_schedule(alloc: Global, text: &[u8]) -> Result<(Vec<u8>, Ended), Refused> {
    match sdd_script::schedules::parse_all(alloc, text)? {
        Schedule::Steps(steps) => {
            let answers = take_all(alloc, steps.as_slice())?;
            let drawn = drawn_steps(alloc, text, steps.as_slice(), answers.as_slice())?;
            Ok((drawn, Ended::Played))
        }
        Schedule::Fault(line) => {
            let fault = sdd_script::schedules::print_fault(alloc, line)?;
            Ok((fault, Ended::NotAStep(line)))
        }
    }
}

fn drawn_calls(
    alloc: Global,
    text: &[u8],
    calls: &[Call],
    answers: &[Answer],
) -> Result<Vec<u8>, Refused> {
    let picture = script::picture_of(alloc, calls, answers)?;
    let printed = print_all(alloc, answers)?;
    let titles = titles(alloc, as_text(text), as_text(printed.as_slice()))?;
    Ok(draw(alloc, &picture, titles.as_slice())?)
}

fn drawn_steps(
    alloc: Global,
    text: &[u8],
    steps: &[Step],
    answers: &[Did],
) -> Result<Vec<u8>, Refused> {
    let picture = schedule::picture_of(alloc, steps, answers)?;
    let printed = sdd_script::schedules::print_all(alloc, answers)?;
    let titles = titles(alloc, as_text(text), as_text(printed.as_slice()))?;
    Ok(draw(alloc, &picture, titles.as_slice())?)
}

/// What is told of each line: its number, its text and what it was answered.
fn titles(alloc: Global, text: &str, answers: &str) -> Result<Vec<String>, AllocError> {
    let mut titles = Vec::new(alloc);
    let mut number = 0u64;
    for (line, answer) in text.lines().zip(answers.lines()) {
        number = number.saturating_add(1);
        titles.push(format!(in alloc; "line {number}: {line}, answered {answer}")?)?;
    }
    Ok(titles)
}

/// Calls, steps and answers are text.
fn as_text(bytes: &[u8]) -> &str {
    str::from_utf8(bytes).unwrap_or("")
}
