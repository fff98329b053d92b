//! Worked examples of scripts: each example of `data/` is played, and it is told whether each of its lines is answered
//! by what stands beside it; and so is each script and each schedule of `examples/`, with the file of what it writes.
//!
//! The module `dialogue` says what an example looks like.
//!
//! And tests of scripts and schedules: their lines and answers, how plays end and what they write then, devices that fail,
//! the words of the command line, worked examples of the machine, and the greatest sizes. The module `machine` has
//! tests of epochs, tags, refusals, and the machine's steps as values.
#![tactic(auto)]

#[cfg(test)]
mod devices;
mod dialogue;
#[cfg(test)]
mod lines;
#[cfg(test)]
mod machine;
mod played;
#[cfg(test)]
mod plays;
#[cfg(test)]
mod schedules;
mod verdict;

use dialogue::Dialogue;
use played::{compared, compared_steps};
use std::alloc::{AllocError, Global};
use std::rt::Files;
use std::{fs, io};
use verdict::Verdict;

/// The folders of examples.
const GROUPS: [&str; 16] = [
    // items that several own
    "shared_owners",
    // cells, of either kind
    "cells",
    // an exchange that fails gives the owner back, and one that succeeds spends it
    "exchanges",
    // items that are changed or dropped in their place
    "items_in_place",
    // items that are out as raw
    "raw_items",
    // jobs that are deferred: when they run, and where no place is free
    "deferred_jobs",
    // collectors: what waits for one, and its close
    "private_collectors",
    // the tags of entries' links
    "links",
    // queues: their order, what they let go of and when, and their close
    "queues",
    // stacks: their order, what they let go of and when, and their close
    "stacks",
    // bags of numbers: what lies behind comes out first, when storages are made and let go of, and their close
    "bags",
    // what a value held goes three changes after it, and is named then
    "nested_values",
    // participants end
    "ended_in_scripts",
    // a participant takes over what an ended one left, where values hold owners
    "adopted_values",
    // slots, cells and places of jobs are refused: which refusal comes first, and what is as before
    "refused_lines",
    // what a line names is not there, or is of the wrong kind: it is answered `invalid`, and nothing changes
    "invalid_lines",
];

/// The folder of scripts and schedules.
const SCRIPTS: &str = "examples";

fn main(rt: HostRuntime) -> io::Result<()> {
    for group in GROUPS {
        for name in names(&rt, group, ".play")? {
            let example = fs::read_to_string(&rt, format!(in rt.alloc(); "{group}/{name}.play")?)?;
            let verdict = judged(rt.alloc(), example.as_str())?;
            println!(rt; "{group}/{name}: {verdict}")?;
        }
    }
    for name in names(&rt, SCRIPTS, ".sdd")? {
        let script = fs::read_to_string(&rt, format!(in rt.alloc(); "{SCRIPTS}/{name}.sdd")?)?;
        let expected = fs::read_to_string(&rt, format!(in rt.alloc(); "{SCRIPTS}/{name}.out")?)?;
        let verdict = compared(rt.alloc(), script.as_str(), expected.as_str());
        println!(rt; "{SCRIPTS}/{name}: {verdict}")?;
    }
    for name in names(&rt, SCRIPTS, ".steps")? {
        let schedule = fs::read_to_string(&rt, format!(in rt.alloc(); "{SCRIPTS}/{name}.steps")?)?;
        let expected = fs::read_to_string(&rt, format!(in rt.alloc(); "{SCRIPTS}/{name}.out")?)?;
        let verdict = compared_steps(rt.alloc(), schedule.as_str(), expected.as_str());
        println!(rt; "{SCRIPTS}/{name}: {verdict}")?;
    }
    Ok(())
}

/// The names of the files of a folder that end so, without that ending, in their order.
fn names<R>(rt: &R, folder: &str, ending: &str) -> io::Result<Vec<String>>
where
    R: Files + AllocGlobal + Clone + Drop,
{
    let mut names = Vec::new(rt.alloc());
    for entry in fs::read_dir(rt, folder)? {
        let entry = entry?;
        if let Some(name) = entry.file_name().strip_suffix(ending) {
            names.push(String::from_str(rt.alloc(), name)?)?;
        }
    }
    names.sort()?;
    Ok(names)
}

/// What comes of an example.
fn judged(alloc: Global, example: &str) -> Result<Verdict, AllocError> {
    let mut dialogue = Dialogue::new(alloc);
    let mut number = 0u64;
    for line in example.lines() {
        number = number.saturating_add(1);
        if !dialogue.takes(line)? {
            return Ok(Verdict::NoLine(number));
        }
    }
    dialogue.verdict(alloc)
}
