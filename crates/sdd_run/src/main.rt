//! The program `sdd-run`: plays the script or the schedule of standard input, and prints a line for each call or step.
//!
//! Here the host's arguments, input and printing meet the program's decisions, which stand under clauses: `sdd_script_text`
//! says what the arguments ask for, what is printed besides a play, on which stream, and the status, and `sdd_script::play` and
//! `sdd_script::play_steps` what a play reads and writes. No clause says what the host gives or prints.
#![tactic(auto)]

use sdd_script::{Reader, Writer, play, play_steps};
use sdd_script_text::{
    Choice, Outcome, after_printing, asked, failure, line, status, without_arguments,
};
use std::process::ExitCode;
use std::rt::Env;
use std::{env, io};

fn main(rt: HostRuntime) -> ExitCode {
    let outcome = match choice(&rt) {
        Ok(Choice::Script(limits)) => {
            let mut reader = Reader::new(rt.reader());
            let mut writer = Writer::new(io::writer(&rt));
            Outcome::Play(play(rt.alloc(), limits, &mut reader, &mut writer))
        }
        Ok(Choice::Steps) => {
            let mut reader = Reader::new(rt.reader());
            let mut writer = Writer::new(io::writer(&rt));
            Outcome::Play(play_steps(rt.alloc(), &mut reader, &mut writer))
        }
        Ok(Choice::Usage) => Outcome::Usage,
        Err(kind) => without_arguments(kind),
    };
    let outcome = match line(outcome) {
        Some(line) => after_printing(outcome, rt.println(line).is_ok()),
        None => outcome,
    };
    if let Some(failure) = failure(outcome) {
        // Nothing is left to be done where that fails too.
        let _ = rt.eprintln(failure);
    }
    ExitCode::from(status(outcome))
}

/// What the host's arguments ask for.
fn choice(rt: &(impl Env + AllocGlobal)) -> Result<Choice, io::ErrorKind> {
    let arguments = match env::args(rt) {
        Ok(arguments) => arguments.collect::<Vec<String>>(rt.alloc()),
        Err(error) => return Err(error.kind()),
    };
    match arguments {
        Ok(arguments) => Ok(asked(arguments.as_slice())),
        Err(_) => Err(io::ErrorKind::OutOfMemory),
    }
}
