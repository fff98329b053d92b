//! Steps taken one after another, and what each did.

ghost use Rattle.std.specs.Prelude.{IfOk, IsOkUnless};
ghost use Rattle.sdd_machine.specs.History.{Safe, Exact};
ghost use Rattle.sdd_machine.specs.Laws.{AtEachMoment};
ghost use Rattle.sdd_script.specs.Schedule.{AreAnswers};

use sdd_core::Refused;
use sdd_machine::inner::machine_for;
use sdd_machine::{Did, Step};
use std::alloc::Global;

/// Takes the steps in order, in the machine that `safety` makes for them, and says what each did.
///
/// The history is safe and exact after each of them, and a publish tells how many items are due at it.
///
/// Refused with `NoMemory` where memory was refused.
pub fn take_all(alloc: Global, steps: &[Step]) -> Result<Vec<Did>, Refused>
    ensures answers { IfOk result (λ answers. AreAnswers steps.now answers.items) }
    ensures no_memory { IsOkUnless result Refused.NoMemory }

    // No retired item is reclaimed while a guard published at its retirement is open; none is reclaimed twice, and each at its holder's third change.
    ensures safe { AtEachMoment steps.now Safe }
    ensures exact { AtEachMoment steps.now Exact }
{
    let mut machine = machine_for(alloc, steps)?;
    let mut answers = Vec::with_capacity(alloc, steps.len())?;
    for step in steps {
        answers.push_reserved(machine.step(*step));
    }
    Ok(answers)
}
