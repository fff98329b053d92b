//! How participants come and go.
#![tactic(auto, using(sdd_interpreter::proofs::EnvironmentAnswers::in_hand))]

ghost use Rattle.std.specs.Prelude.{◌≡◌, MatchResult};
ghost use Rattle.sdd_script_model.specs.Script.{Acts};
ghost use Rattle.sdd_script_text.specs.Actions as action;

use sdd_core::Refused;
use sdd_interpreter::Interpreter;
use sdd_interpreter::participants::NamedParticipant;
use sdd_script_text::{Call, PlaceName, Reply};
use sdd_world::inner::is_open;

/// `register`: a participant at a place that was vacant. `NoPlace` is a reply; `NoMemory` where memory is refused, and then nobody is registered.
pub fn register(interpreter: &mut Interpreter) -> Result<Reply, Refused>
    ensures acts { MatchResult result (λ reply. Acts interpreter.old Call.Register reply interpreter.new)
        (λ refused. (refused ≡ Refused.NoMemory) × (interpreter.new ≡ interpreter.old)) }
{
    interpreter.environment.places.make_room()?;
    interpreter.environment.world.is_whole();
    match interpreter.environment.world.register() {
        Ok(place) => {
            let name = interpreter
                .environment
                .places
                .give(NamedParticipant { place, since: 0 });
            Ok(Reply::Place(PlaceName(name)))
        }
        Err(Refused::NoPlace) => Ok(Reply::Refused(Refused::NoPlace)),
        Err(_) => Err(Refused::NoMemory),
    }
}

/// `P end`: the participant takes part no more, and its name is spent. `GuardOpen` is a reply, and then it takes part still.
pub fn end(interpreter: &mut Interpreter, name: PlaceName) -> Reply
    ensures acts { Acts interpreter.old (Call.At name action.End) result interpreter.new }
{
    let Some(participant) = interpreter.environment.places.get(name.0) else {
        return Reply::Invalid;
    };
    interpreter.environment.world.is_whole();
    if is_open(&interpreter.environment.world, &participant.place) {
        return Reply::Refused(Refused::GuardOpen);
    }
    let Some(NamedParticipant { place, since: _ }) = interpreter.environment.places.take(name.0)
    else {
        return Reply::Invalid;
    };
    match interpreter.environment.world.end(place) {
        Ok(()) => Reply::Done,
        Err(_) => unreachable!(),
    }
}
