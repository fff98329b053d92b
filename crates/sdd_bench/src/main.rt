//! The program `sdd-bench`: does an operation so often, for whoever counts its instructions; and times what participants in several threads do at once.
#![tactic(auto)]

mod bags;
mod cells;
mod configuration;
mod containers;
mod lists;
mod local;
mod operation;
mod places;
mod rounds;
mod spans;
mod threads;
mod turns;
mod world;

use operation::{Operation, named};
use sdd_core::{Limits, Refused};
use sdd_participants::Tally;
use std::alloc::Global;
use std::process::ExitCode;
use std::rt::Env;
use std::sync::Wait;
use std::thread::Threads;
use std::time::Clock;
use std::{env, io};
use world::Work;

const USAGE: &str = "usage: sdd-bench OPERATION TURNS, or sdd-bench threads [TURNS]";

/// What the program is to do.
enum Wanted {
    /// To do an operation that often.
    Operation(Operation, u64),
    /// To time what participants do at once, that often in each round, or as often as takes about a millisecond.
    Threads(Option<u64>),
}

/// A thousand items or jobs wait at most: three times 128, and a few more.
const LIMITS: Limits = Limits {
    participants: 1,
    slots: 1024,
    cells: 2,
    jobs: 1024,
    nesting: 2,
    tries: 1,
};

/// A thousand entries are there or wait at most: each has a cell, and a queue has two.
const FOR_LISTS: Limits = Limits {
    participants: 1,
    slots: 1024,
    cells: 1026,
    jobs: 0,
    nesting: 2,
    tries: 1,
};

/// Of the storages of a bag in 512 turns, seven are there or wait: each has a slot and two cells.
const FOR_BAGS: Limits = Limits {
    participants: 1,
    slots: 4096,
    cells: 8194,
    jobs: 0,
    nesting: 2,
    tries: 1,
};

const FOR_TWO: Limits = Limits {
    participants: 2,
    slots: 1024,
    cells: 2,
    jobs: 1024,
    nesting: 2,
    tries: 1,
};

/// As many participants as a domain may have.
const CROWD: Limits = Limits {
    participants: 1024,
    slots: 1,
    cells: 1,
    jobs: 0,
    nesting: 1,
    tries: 1,
};

fn main(rt: HostRuntime) -> io::Result<ExitCode> {
    let words = env::args(&rt)?.skip(1).collect::<Vec<String>>(rt.alloc())?;
    match asked(words.as_slice()) {
        Some(Wanted::Operation(operation, turns)) => do_operation(&rt, operation, turns),
        Some(Wanted::Threads(turns)) => time_threads(&rt, turns),
        None => {
            println!(rt; "{USAGE}")?;
            Ok(ExitCode::from(2))
        }
    }
}

/// What the words ask for.
fn asked(words: &[String]) -> Option<Wanted> {
    match words {
        [word] if word.as_str() == "threads" => Some(Wanted::Threads(None)),
        [word, turns] => {
            let turns = turns.as_str().parse::<u64>().ok()?;
            if word.as_str() == "threads" {
                return Some(Wanted::Threads(Some(turns)));
            }
            Some(Wanted::Operation(named(word.as_str())?, turns))
        }
        _ => None,
    }
}

/// Does an operation that often, and prints what it left.
fn do_operation<R: Print + AllocGlobal>(
    rt: &R,
    operation: Operation,
    turns: u64,
) -> io::Result<ExitCode> {
    match done(rt.alloc(), operation, turns) {
        Ok((tally, sum)) => {
            println!(rt;
                "{turns} turns, {} made, {} reclaimed, sum {sum}",
                tally.made, tally.reclaimed
            )?;
            Ok(ExitCode::from(0))
        }
        Err(refused) => {
            println!(rt; "refused: {refused}")?;
            Ok(ExitCode::from(1))
        }
    }
}

/// Prints a row for each thing that participants do at once.
fn time_threads<R: Threads + Wait + Clock + Print + AllocGlobal + Sync>(
    rt: &R,
    turns: Option<u64>,
) -> io::Result<ExitCode> {
    match threads::print_rows(rt, turns)? {
        Ok(()) => Ok(ExitCode::from(0)),
        Err(trouble) => {
            println!(rt; "{trouble}")?;
            Ok(ExitCode::from(1))
        }
    }
}

fn done(alloc: Global, operation: Operation, turns: u64) -> Result<(Tally, u64), Refused> {
    match operation {
        Operation::World(guarding) => world::run(alloc, LIMITS, Work::Guards(guarding), turns),
        Operation::Item => world::run(alloc, LIMITS, Work::Items, turns),
        Operation::Job => world::run(alloc, LIMITS, Work::Jobs, turns),
        Operation::Read => world::run(alloc, LIMITS, Work::Reads, turns),
        Operation::Look => world::run(alloc, LIMITS, Work::Looks, turns),
        Operation::Load => world::run(alloc, LIMITS, Work::Loads, turns),
        Operation::Share => world::run(alloc, LIMITS, Work::Shares, turns),
        Operation::Raw => world::run(alloc, LIMITS, Work::Raws, turns),
        Operation::Swap => world::run(alloc, LIMITS, Work::Swaps, turns),
        Operation::Listed(listing) => containers::lists(alloc, FOR_LISTS, listing, turns),
        Operation::Bagged(bagging) => containers::bags(alloc, FOR_BAGS, bagging, turns),
        Operation::Local(task) => local::run(alloc, LIMITS, false, task, turns),
        Operation::Beside(task) => local::run(alloc, FOR_TWO, true, task, turns),
        Operation::Places => places::run(alloc, CROWD, turns),
    }
}
