//! What participants are told of the entries of containers.
#![tactic(auto, using(sdd_interpreter::proofs::EnvironmentAnswers::in_hand))]

ghost use Rattle.std.specs.Prelude.{◌≡◌, MatchResult};
ghost use Rattle.sdd_script_model.specs.Script.{Acts};
ghost use Rattle.sdd_script_text.specs.Actions as action;

use sdd_interpreter::Interpreter;
use sdd_interpreter::commands::ListCommand;
use sdd_interpreter::commands::containers::{CountEntries, ListNumbers, PeekFirst};
use sdd_interpreter::participants::under;
use sdd_script_text::{Call, GuardName, ListName, PlaceName, Reply};
use std::alloc::AllocError;

/// `P peek L G`: a container's first number that isn't deleted.
pub fn peek(
    interpreter: &mut Interpreter,
    name: PlaceName,
    list: ListName,
    guard: GuardName,
) -> Reply
    ensures acts { Acts interpreter.old (Call.At name (action.Peek list guard)) result interpreter.new }
{
    let Some((participant, held)) = under(
        &interpreter.environment.places,
        &interpreter.environment.guards,
        name,
        guard,
    ) else {
        return Reply::Invalid;
    };
    let Some(list) = interpreter.environment.lists.list_named(list) else {
        return Reply::Invalid;
    };
    interpreter.environment.world.is_whole();
    let place = &participant.place;
    let guard = &held.guard;
    PeekFirst { list, guard }.at(&mut interpreter.environment.world, place)
}

/// `P len L G`: how many of a container's numbers aren't deleted.
pub fn len(
    interpreter: &mut Interpreter,
    name: PlaceName,
    list: ListName,
    guard: GuardName,
) -> Reply
    ensures acts { Acts interpreter.old (Call.At name (action.Len list guard)) result interpreter.new }
{
    let Some((participant, held)) = under(
        &interpreter.environment.places,
        &interpreter.environment.guards,
        name,
        guard,
    ) else {
        return Reply::Invalid;
    };
    let Some(list) = interpreter.environment.lists.list_named(list) else {
        return Reply::Invalid;
    };
    interpreter.environment.world.is_whole();
    let place = &participant.place;
    let guard = &held.guard;
    Reply::Value(CountEntries { list, guard }.at(&mut interpreter.environment.world, place))
}

/// `P list L G`: a container's numbers that aren't deleted, in order. Refused where memory for them is, and then nothing has changed.
pub fn list(
    interpreter: &mut Interpreter,
    name: PlaceName,
    list: ListName,
    guard: GuardName,
) -> Result<Reply, AllocError>
    ensures acts { MatchResult result (λ reply. Acts interpreter.old (Call.At name (action.List list guard)) reply interpreter.new)
        (λ _. interpreter.new ≡ interpreter.old) }
{
    let Some((participant, held)) = under(
        &interpreter.environment.places,
        &interpreter.environment.guards,
        name,
        guard,
    ) else {
        return Ok(Reply::Invalid);
    };
    let Some(list) = interpreter.environment.lists.list_named(list) else {
        return Ok(Reply::Invalid);
    };
    interpreter.environment.world.is_whole();
    let place = &participant.place;
    let guard = &held.guard;
    let alloc = interpreter.environment.log.alloc;
    let step = ListNumbers { list, guard, alloc };
    let numbers = step.at(&mut interpreter.environment.world, place)?;
    Ok(Reply::Numbers(numbers))
}
