//! Runs of scripts.
ghost use Rattle.std.specs.Prelude.{◌≡◌, ◌⊎◌, IfOk, MatchResult};
ghost use Rattle.sdd_core.specs.Limits.{AreInRange};
ghost use Rattle.sdd_script_model.specs.Script.{IsRun};

use crate::acts::leaving::close;
use crate::line::answer_to;
use crate::scene::Scene;
use sdd_core::{Limits, Refused};
use sdd_interpreter::Interpreter;
use sdd_script_text::{Answer, Call};
use std::alloc::Global;

/// Runs calls on a new world, one after another, and answers each. What an opening names as reclaimed, or as run, is
/// exactly what is due by the calls before it and their order.
///
/// `BadLimits` where a limit is out of its range. `NoMemory` where memory was refused, for the world, for the answers
/// or for a call: then nothing is left of the run.
pub fn run(alloc: Global, limits: Limits, calls: &[Call]) -> Result<(Vec<Answer>, Scene), Refused>
    ensures run { IfOk result (λ done. IsRun limits calls.now done.0.items done.1) }
    ensures limits { MatchResult result (λ _. AreInRange limits)
        (λ refused. ((refused ≡ Refused.BadLimits) × ¬ (AreInRange limits)) ⊎ ((refused ≡ Refused.NoMemory) × AreInRange limits)) }
{
    let mut interpreter = Interpreter::new(alloc, limits)?;
    let mut answers = match Vec::with_capacity(alloc, calls.len()) {
        Ok(answers) => answers,
        Err(_) => {
            close(interpreter);
            return Err(Refused::NoMemory);
        }
    };
    for call in calls {
        interpreter.environment.log.moment += 1;
        match answer_to(&mut interpreter, call) {
            Ok(answer) => {
                interpreter.environment.world.reclaims_in_time();
                answers.push_reserved(answer);
            }
            Err(refused) => {
                close(interpreter);
                return Err(refused);
            }
        }
    }
    Ok((answers, Scene::of(interpreter)))
}
