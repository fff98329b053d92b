//! An example of a script: its lines, and beside each the answer that is expected of it.
//!
//! Each line of an example's file is one of these:
//!
//! | Line | What it says |
//! |---|---|
//! | `p0 read o0 \| 17` | a line of the script, and its answer |
//! | `at the close \| made 2 reclaimed 2 in place 0` | the tally with which the scene closes that the script leaves |
//! | `with slots 2` | one of the limits, by its name in `Limits`; the others are the usual ones |
//! | `# A cell is one of the owners.` | a remark |

use crate::played::played;
use crate::verdict::Verdict;
use sdd_core::Limits;
use sdd_participants::Tally;
use sdd_script::{Ended, Reply, run};
use sdd_script_text::{Script, USUAL_LIMITS, parse_all};
use std::alloc::{AllocError, Global};

/// The lines of a script, and the answers that are expected of them.
#[derive(Drop)]
pub struct Dialogue<'a> {
    limits: Limits,
    script: String,
    answers: String,
    /// How many lines the script has.
    lines: u64,
    /// The tally at the close, where one is expected.
    tally: Option<&'a str>,
}

impl<'a> Dialogue<'a> {
    pub fn new(alloc: Global) -> Dialogue<'a> {
        Dialogue {
            limits: USUAL_LIMITS,
            script: String::new(alloc),
            answers: String::new(alloc),
            lines: 0,
            tally: None,
        }
    }

    /// One line more of the file. Whether it is one that an example has.
    pub fn takes(&mut self, line: &'a str) -> Result<bool, AllocError> {
        if line.starts_with('#') {
            return Ok(true);
        }
        if let Some((line, answer)) = line.split_once(" | ") {
            self.takes_answer(line.trim_end(), answer)?;
            return Ok(true);
        }
        match line.strip_prefix("with ") {
            Some(limit) => Ok(self.takes_limit(limit)),
            None => Ok(false),
        }
    }

    /// A line of the script, or the close of its scene, and what is expected of it.
    fn takes_answer(&mut self, line: &str, answer: &'a str) -> Result<(), AllocError> {
        if line == "at the close" {
            self.tally = Some(answer);
            return Ok(());
        }
        self.lines = self.lines.saturating_add(1);
        push_line(&mut self.script, line)?;
        push_line(&mut self.answers, answer)
    }

    /// A limit and its number. Whether there is such a one.
    fn takes_limit(&mut self, limit: &str) -> bool {
        let Some((name, number)) = limit.split_once(' ') else {
            return false;
        };
        let Ok(number) = number.parse::<u64>() else {
            return false;
        };
        match name {
            "participants" => self.limits.participants = number,
            "slots" => self.limits.slots = number,
            "cells" => self.limits.cells = number,
            "jobs" => self.limits.jobs = number,
            "nesting" => self.limits.nesting = number,
            "tries" => self.limits.tries = number,
            _ => return false,
        }
        true
    }

    /// The script is played, and each line is answered as expected; and its scene closes with the tally that is expected.
    pub fn verdict(&self, alloc: Global) -> Result<Verdict, AllocError> {
        let (ended, written) = played(alloc, self.limits, self.script.as_bytes());
        if ended != Ended::Played {
            return Ok(Verdict::Ended(ended));
        }
        if written.as_slice() != self.answers.as_bytes() {
            return Ok(Verdict::Answered(written));
        }
        let Some(tally) = self.tally else {
            return Ok(Verdict::AsExpected(self.lines));
        };
        let closed = match self.tally_at_the_close(alloc) {
            Some(tally) => format!(in alloc; "{}", Reply::Tally(tally))?,
            None => String::new(alloc),
        };
        if closed.as_str() == tally {
            Ok(Verdict::AsExpected(self.lines))
        } else {
            Ok(Verdict::Closed(closed))
        }
    }

    /// The tally with which the scene of the script closes, unless it can't be run.
    fn tally_at_the_close(&self, alloc: Global) -> Option<Tally> {
        match parse_all(alloc, self.script.as_bytes()) {
            Ok(Script::Calls(calls)) => {
                let (_answers, scene) = run(alloc, self.limits, calls.as_slice()).ok()?;
                Some(scene.close())
            }
            Ok(Script::Fault(_)) | Err(_) => None,
        }
    }
}

/// One line more.
fn push_line(text: &mut String, line: &str) -> Result<(), AllocError> {
    text.push_str(line)?;
    text.push_str("\n")
}
