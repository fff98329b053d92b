//! A whole schedule: its lines as steps, or the first that is no step.

ghost use Rattle.std.specs.Prelude.{◌≡◌, List, ◌<◌, MatchOption, IfOk, IfErr};
ghost use Rattle.sdd_script_text.specs.Script.{most_calls};
ghost use Rattle.sdd_machine.specs.declared.machine.steps.Step.{Step};
ghost use Rattle.sdd_script.specs.ScheduleLine.{IsTextOf, IsStepText};
ghost use Rattle.sdd_script.specs.Schedule.{AreSteps, IsSteps, IsSchedule};

use crate::schedules::line::parse;
use sdd_core::Refused;
use sdd_machine::Step;
use sdd_script_text::MOST_CALLS;
use sdd_script_text::inner::first_line;
use std::alloc::Global;

/// What a text is as a schedule.
#[derive(Debug, Drop)]
pub enum Schedule {
    /// Every line is a step.
    Steps(Vec<Step>),
    /// The line with this number, counted from 1, is the first that is no step.
    Fault(u64),
}

/// Reads a text, line by line, as a schedule. The last line may lack its line feed; a text without a byte has no line.
/// At most as many lines are steps as lines of a script are calls.
///
/// Refused with `NoMemory` alone.
#[tactic(auto, using(crate::proofs::ScheduleTexts::one_schedule))]
pub fn parse_all(alloc: Global, text: &[u8]) -> Result<Schedule, Refused>
    ensures schedule { IfOk result (λ schedule. IsSchedule text.now schedule) }

    // No other steps have this text.
    ensures only { IfOk result
        (λ schedule. (steps : List Step) → AreSteps text.now steps → IsSteps steps schedule) }
    ensures err { IfErr result (λ refused. refused ≡ Refused.NoMemory) }
{
    let mut steps = Vec::new(alloc);
    let mut rest = text;
    while !rest.is_empty() {
        let (line, after) = first_line(rest);
        match step_after(steps.len(), line) {
            Some(step) => steps.push(step)?,
            None => return Ok(Schedule::Fault(steps.len() as u64 + 1)),
        }
        rest = after;
    }
    Ok(Schedule::Steps(steps))
}

/// The step that a line is, with so many steps before it.
fn step_after(before: usize, line: &[u8]) -> Option<Step>
    ensures { MatchOption result (¬ ((before < most_calls) × IsStepText line.now))
        (λ step. (before < most_calls) × IsTextOf step line.now) }
{
    if before < MOST_CALLS {
        parse(line)
    } else {
        None
    }
}
