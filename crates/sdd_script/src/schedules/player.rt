//! Plays of schedules: from the bytes of steps to the bytes of their answers.

ghost use Rattle.std.specs.Prelude.{◌≡◌, ◌≢◌, IfOk, IfErr};
ghost use Rattle.sdd_script_text.specs.Play.{Plays, IsSilent, read_failures, write_failures};
ghost use Rattle.sdd_script.specs.SchedulePlay.{Prints};

use crate::schedules::answer::{print_all, print_fault};
use crate::schedules::schedule::{Schedule, parse_all};
use crate::schedules::taking::take_all;
use sdd_core::Refused;
use sdd_script_text::{Ended, ReadEnd, Sink, Source, read_to_end, write_all};
use std::alloc::Global;

/// Reads a schedule, takes its steps in the machine that `safety` makes for them, and writes what each did, a line for
/// each.
///
/// The reader is read to its end first. Where a line is no step, none is taken: the first such line is named, and
/// nothing else is written. Nothing at all is written where reading fails or memory is wanting, and a beginning of what
/// was to be written where writing fails.
pub fn play_steps<R: Source, W: Sink>(alloc: Global, reader: &mut R, writer: &mut W) -> Ended
    ensures no_limits { result ≢ Ended.LimitsOutOfRange }
    ensures plays { Plays Prints (R.remaining reader.old) (R.remaining reader.new)
        (W.contents writer.old) (W.contents writer.new) result }

    // Nothing is written where the play ends before it writes.
    ensures unwritten { IsSilent result → writer.new ≡ writer.old }

    // A fault is answered exactly where the device failed, once.
    ensures reads { R.failures reader.new ≡ read_failures result (R.failures reader.old) }
    ensures writes { W.failures writer.new ≡ write_failures result (W.failures writer.old) }
{
    let text = match read_to_end(alloc, reader) {
        Ok(text) => text,
        Err(ReadEnd::NoMemory) => return Ended::NoMemory,
        Err(ReadEnd::Fault) => return Ended::CannotRead,
    };
    let Ok((printed, ended)) = print_of(alloc, text.as_slice()) else {
        return Ended::NoMemory;
    };
    match write_all(writer, printed.as_slice()) {
        Ok(()) => ended,
        Err(_) => Ended::CannotWrite,
    }
}

/// What is to be written for a text, and how its play ends once that is done.
fn print_of(alloc: Global, text: &[u8]) -> Result<(Vec<u8>, Ended), Refused>
    ensures prints { IfOk result (λ print. Prints text.now print.0.items print.1) }
    ensures err { IfErr result (λ refused. refused ≡ Refused.NoMemory) }
{
    match parse_all(alloc, text)? {
        Schedule::Steps(steps) => {
            let answers = take_all(alloc, steps.as_slice())?;
            Ok((print_all(alloc, answers.as_slice())?, Ended::Played))
        }
        Schedule::Fault(line) => Ok((print_fault(alloc, line)?, Ended::NotAStep(line))),
    }
}
