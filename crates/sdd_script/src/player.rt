//! Plays of scripts: from the bytes of calls to the bytes of their answers.
ghost use Rattle.std.specs.Prelude.{◌≡◌, ◌↔◌, List, IfOk, IfErr};
ghost use Rattle.sdd_core.specs.Limits.{AreInRange};
ghost use Rattle.sdd_script_text.specs.Answer.{text_of_all};
ghost use Rattle.sdd_script_text.specs.declared.answer.Answer.{Answer};
ghost use Rattle.sdd_script_text.specs.declared.call.Call.{Call};
ghost use Rattle.sdd_script_text.specs.Play.{Plays, IsSilent, read_failures, write_failures};
ghost use Rattle.sdd_script.specs.Play.{AreAnswers, Prints};

use crate::runner::run;
use sdd_core::{Limits, Refused};
use sdd_script_text::{
    Ended, ReadEnd, Script, Sink, Source, parse_all, print_all, print_fault, read_to_end, write_all,
};
use std::alloc::Global;

/// Reads a script, runs its calls on a new world, and writes what they answer, a line for each.
///
/// Limits are looked at first, and nothing is read where one is out of its range. Then the reader is read to its end.
/// Where a line is no call, nothing is run: the first such line is named, and nothing else is written. Nothing at all
/// is written where reading fails or memory is wanting, and a beginning of what was to be written where writing fails.
pub fn play<R: Source, W: Sink>(
    alloc: Global,
    limits: Limits,
    reader: &mut R,
    writer: &mut W,
) -> Ended
    ensures limits { (result ≡ Ended.LimitsOutOfRange) ↔ ¬ (AreInRange limits) }
    ensures plays { Plays (Prints limits) (R.remaining reader.old) (R.remaining reader.new)
        (W.contents writer.old) (W.contents writer.new) result }

    // Nothing is read where a limit is out of range, and nothing written where the play ends before it writes.
    ensures unread { result ≡ Ended.LimitsOutOfRange → reader.new ≡ reader.old }
    ensures unwritten { IsSilent result → writer.new ≡ writer.old }

    // A fault is answered exactly where the device failed, once.
    ensures reads { R.failures reader.new ≡ read_failures result (R.failures reader.old) }
    ensures writes { W.failures writer.new ≡ write_failures result (W.failures writer.old) }
{
    if !limits.are_in_range() {
        return Ended::LimitsOutOfRange;
    }
    let text = match read_to_end(alloc, reader) {
        Ok(text) => text,
        Err(ReadEnd::NoMemory) => return Ended::NoMemory,
        Err(ReadEnd::Fault) => return Ended::CannotRead,
    };
    let Ok((printed, ended)) = print_of(alloc, limits, text.as_slice()) else {
        return Ended::NoMemory;
    };
    match write_all(writer, printed.as_slice()) {
        Ok(()) => ended,
        Err(_) => Ended::CannotWrite,
    }
}

/// What is to be written for a text, and how its play ends once that is done.
fn print_of(alloc: Global, limits: Limits, text: &[u8]) -> Result<(Vec<u8>, Ended), Refused>
    requires { AreInRange limits }
    ensures prints { IfOk result (λ print. Prints limits text.now print.0.items print.1) }
    ensures err { IfErr result (λ refused. refused ≡ Refused.NoMemory) }
{
    match parse_all(alloc, text)? {
        Script::Calls(calls) => {
            let (answers, scene) = run(alloc, limits, calls.as_slice())?;
            scene.close();
            Ok((print_all(alloc, answers.as_slice())?, Ended::Played))
        }
        Script::Fault(line) => Ok((print_fault(alloc, line)?, Ended::NotACall(line))),
    }
}
