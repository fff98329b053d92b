//! What the program comes to: the line that it prints itself, on standard output or on standard error, and its status.
ghost use Rattle.std.specs.Prelude.{◌≡◌};
ghost use Rattle.std.specs.Option.{option_map};
ghost use Rattle.sdd_script_text.specs.Outcome.{line_of, failure_of, status_of, after_printing_of, without_arguments_of};

use crate::Ended;
use std::io::ErrorKind;

/// What the program came to.
#[derive(Clone, Copy, Debug, PartialEq, Eq)]
pub enum Outcome {
    /// Its arguments ask for nothing that it does.
    Usage,
    /// A play ended so. What it wrote is printed by then.
    Play(Ended),
}

/// Where the arguments can't be had: one that is no text is no number, so they ask for nothing that the program does.
pub fn without_arguments(kind: ErrorKind) -> Outcome
    ensures { result ≡ without_arguments_of kind }
{
    if kind == ErrorKind::InvalidData {
        Outcome::Usage
    } else {
        Outcome::Play(Ended::NoMemory)
    }
}

/// The line that is to be printed on standard output, if there is one.
pub fn line(outcome: Outcome) -> Option<&'static str>
    ensures { option_map (λ line. line.now) result ≡ line_of outcome }
{
    let Outcome::Play(ended) = outcome else {
        return Some("usage: sdd-run [steps | participants slots cells jobs nesting tries]");
    };
    match ended {
        Ended::LimitsOutOfRange => Some("limits out of range"),
        Ended::Played
        | Ended::NotACall(_)
        | Ended::NotAStep(_)
        | Ended::CannotRead
        | Ended::CannotWrite
        | Ended::NoMemory => None,
    }
}

/// What the program comes to once its line was printed on standard output, or could not be.
pub fn after_printing(outcome: Outcome, is_printed: bool) -> Outcome
    ensures { result ≡ after_printing_of outcome is_printed }
{
    if is_printed {
        outcome
    } else {
        Outcome::Play(Ended::CannotWrite)
    }
}

/// The line that is to be printed on standard error, if anything failed.
pub fn failure(outcome: Outcome) -> Option<&'static str>
    ensures { option_map (λ line. line.now) result ≡ failure_of outcome }
{
    let Outcome::Play(ended) = outcome else {
        return None;
    };
    match ended {
        Ended::CannotRead => Some("cannot read"),
        Ended::CannotWrite => Some("cannot write"),
        Ended::NoMemory => Some("no memory"),
        Ended::Played | Ended::NotACall(_) | Ended::NotAStep(_) | Ended::LimitsOutOfRange => None,
    }
}

/// The program's status: 0 where all was played, 2 where what it was given is wrong, 1 where reading, writing or
/// memory failed.
pub fn status(outcome: Outcome) -> u8
    ensures { result ≡ status_of outcome }
{
    let Outcome::Play(ended) = outcome else {
        return 2;
    };
    match ended {
        Ended::Played => 0,
        Ended::NotACall(_) | Ended::NotAStep(_) | Ended::LimitsOutOfRange => 2,
        Ended::CannotRead | Ended::CannotWrite | Ended::NoMemory => 1,
    }
}
