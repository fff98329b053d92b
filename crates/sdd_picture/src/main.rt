//! The program `sdd-picture`: runs the script or the schedule of standard input, and writes a picture of the run, an SVG.
//!
//! Its arguments, its faults and its statuses are those of `sdd-run`, as `sdd_script_text` says. No clause says what it
//! draws: it is safe, it ends, and pictures are looked at.
#![tactic(auto)]

mod belongings;
mod epochs;
mod picture;
mod play;
mod schedule;
mod script;

use play::{draw_schedule, draw_script};
use sdd_script_text::{
    Choice, Outcome, Reader, Writer, after_printing, asked, failure, line, status,
    without_arguments,
};
use std::process::ExitCode;
use std::rt::Env;
use std::{env, io};

fn main(rt: HostRuntime) -> ExitCode {
    let outcome = match choice(&rt) {
        Ok(Choice::Script(limits)) => {
            let mut reader = Reader::new(rt.reader());
            let mut writer = Writer::new(io::writer(&rt));
            Outcome::Play(draw_script(rt.alloc(), limits, &mut reader, &mut writer))
        }
        Ok(Choice::Steps) => {
            let mut reader = Reader::new(rt.reader());
            let mut writer = Writer::new(io::writer(&rt));
            Outcome::Play(draw_schedule(rt.alloc(), &mut reader, &mut writer))
        }
        Ok(Choice::Usage) => Outcome::Usage,
        Err(kind) => without_arguments(kind),
    };
    let outcome = match own_line(outcome) {
        Some(line) => after_printing(outcome, rt.println(line).is_ok()),
        None => outcome,
    };
    if let Some(failure) = failure(outcome) {
        // Nothing is left to be done where that fails too.
        let _ = rt.eprintln(failure);
    }
    ExitCode::from(status(outcome))
}

/// The line that is to be printed on standard output, if there is one.
fn own_line(outcome: Outcome) -> Option<&'static str> {
    match outcome {
        Outcome::Usage => {
            Some("usage: sdd-picture [steps | participants slots cells jobs nesting tries]")
        }
        Outcome::Play(_) => line(outcome),
    }
}

/// What the host's arguments ask for.
fn choice(rt: &(impl Env + AllocGlobal)) -> Result<Choice, io::ErrorKind> {
    let arguments = match env::args(rt) {
        Ok(arguments) => arguments.collect::<Vec<String>>(rt.alloc()),
        Err(error) => return Err(error.kind()),
    };
    match arguments {
        Ok(arguments) => Ok(asked(arguments.as_slice())),
        Err(_) => Err(io::ErrorKind::OutOfMemory),
    }
}
