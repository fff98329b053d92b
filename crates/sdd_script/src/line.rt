//! One line of a script.
ghost use Rattle.std.specs.Prelude.{◌≡◌, MatchResult};
ghost use Rattle.sdd_script_model.specs.ScriptState.{BeginsLine};
ghost use Rattle.sdd_script_model.specs.Script.{Answers};

use crate::acts::{actions, guards, participants};
use sdd_core::Refused;
use sdd_interpreter::Interpreter;
use sdd_script_text::{Action, Answer, Call, Reply};

/// What a call answers, in a line of its own. An opening and a collector's close may name what goes, and no other. `NoMemory` alone refuses it.
pub fn answer_to(interpreter: &mut Interpreter, call: &Call) -> Result<Answer, Refused>
    requires line { BeginsLine interpreter.old }
    ensures answers { MatchResult result (λ answer. Answers interpreter.old call.now answer interpreter.new)
        (λ refused. (refused ≡ Refused.NoMemory) × (interpreter.new ≡ interpreter.old)) }
{
    let reply = match *call {
        Call::Register => {
            let reply = participants::register(interpreter)?;
            return Ok(interpreter.answer(reply));
        }
        Call::Tally => {
            let tally = interpreter.world().tally();
            return Ok(interpreter.answer(Reply::Tally(tally)));
        }
        Call::At(name, Action::Open) => return Ok(guards::open(interpreter, name)?),
        Call::At(name, Action::Collector(action)) => {
            return actions::act_on_collector(interpreter, name, action);
        }
        Call::At(name, Action::Guard(action)) => actions::act_on_guard(interpreter, name, action),
        Call::At(name, Action::Item(action)) => actions::act_on_item(interpreter, name, action)?,
        Call::At(name, Action::Raw(action)) => actions::act_on_raw(interpreter, name, action)?,
        Call::At(name, Action::Cell(action)) => actions::act_on_cell(interpreter, name, action)?,
        Call::At(name, Action::Held(action)) => actions::act_on_held(interpreter, name, action)?,
        Call::At(name, Action::Link(action)) => actions::act_on_link(interpreter, name, action)?,
        Call::At(name, Action::Container(action)) => {
            actions::act_on_container(interpreter, name, action)?
        }
        Call::At(name, Action::Entry(action)) => actions::act_on_entry(interpreter, name, action)?,
        Call::At(name, Action::Bag(action)) => actions::act_on_bag(interpreter, name, action)?,
        Call::At(name, Action::End) => participants::end(interpreter, name),
    };
    Ok(interpreter.answer(reply))
}
