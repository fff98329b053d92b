//! What participants do with stacks.
#![tactic(auto, using(sdd_interpreter::proofs::EnvironmentAnswers::in_hand))]

ghost use Rattle.std.specs.Prelude.{◌≡◌, MatchResult};
ghost use Rattle.sdd_script_model.specs.Script.{Acts};
ghost use Rattle.sdd_script_text.specs.Actions as action;

use sdd_interpreter::Interpreter;
use sdd_interpreter::commands::stacks::{CloseStack, MakeStack, PourStack};
use sdd_interpreter::commands::{CellCommand, ListCommand};
use sdd_interpreter::items::date_new;
use sdd_interpreter::participants::{under, under_any};
use sdd_script_text::{Call, GuardName, PlaceName, Reply, StackName};
use std::alloc::AllocError;

/// `P stack`: an empty stack, named. `NoCell` is a reply. Refused where memory for the name is, and then nothing has changed.
pub fn make_stack(interpreter: &mut Interpreter, name: PlaceName) -> Result<Reply, AllocError>
    ensures acts { MatchResult result (λ reply. Acts interpreter.old (Call.At name action.Stack) reply interpreter.new)
        (λ _. interpreter.new ≡ interpreter.old) }
{
    let Some(participant) = interpreter.environment.places.get(name.0) else {
        return Ok(Reply::Invalid);
    };
    interpreter.environment.lists.stacks.make_room()?;
    interpreter.environment.world.is_whole();
    match MakeStack.at(&mut interpreter.environment.world, &participant.place) {
        Ok(stack) => {
            let name = interpreter.environment.lists.stacks.give(stack);
            Ok(Reply::Stack(StackName(name)))
        }
        Err(refused) => Ok(Reply::Refused(refused)),
    }
}

/// `P all S G`: all entries of a stack on a new one, named. `NoCell` is a reply. Refused where memory for the name is, and then nothing has changed.
pub fn pour(
    interpreter: &mut Interpreter,
    name: PlaceName,
    stack: StackName,
    guard: GuardName,
) -> Result<Reply, AllocError>
    ensures acts { MatchResult result (λ reply. Acts interpreter.old (Call.At name (action.All stack guard)) reply interpreter.new)
        (λ _. interpreter.new ≡ interpreter.old) }
{
    let Some((participant, held)) = under(
        &interpreter.environment.places,
        &interpreter.environment.guards,
        name,
        guard,
    ) else {
        return Ok(Reply::Invalid);
    };
    interpreter.environment.lists.stacks.make_room()?;
    let Some(stack) = interpreter.environment.lists.stacks.get(stack.0) else {
        return Ok(Reply::Invalid);
    };
    interpreter.environment.world.is_whole();
    match (PourStack {
        stack,
        guard: &held.guard,
    })
    .at(&mut interpreter.environment.world, &participant.place)
    {
        Ok(all) => {
            let name = interpreter.environment.lists.stacks.give(all);
            Ok(Reply::Stack(StackName(name)))
        }
        Err(refused) => Ok(Reply::Refused(refused)),
    }
}

/// `P close S`: a stack is closed under a guard of the participant, and its entries are let go of. Refused where memory is to tell what begins to wait, and
/// then nothing has changed.
pub fn close_stack(
    interpreter: &mut Interpreter,
    name: PlaceName,
    stack: StackName,
) -> Result<Reply, AllocError>
    ensures acts { MatchResult result (λ reply. Acts interpreter.old (Call.At name (action.CloseStack stack)) reply interpreter.new)
        (λ _. interpreter.new ≡ interpreter.old) }
{
    let Some((participant, held)) = under_any(
        &interpreter.environment.places,
        &interpreter.environment.guards,
        name,
    ) else {
        return Ok(Reply::Invalid);
    };
    let Some(_) = interpreter.environment.lists.stacks.get(stack.0) else {
        return Ok(Reply::Invalid);
    };
    interpreter.environment.world.is_whole();
    let waited = interpreter
        .environment
        .log
        .waiting_by_slot(&interpreter.environment.world)?;
    let Some(taken) = interpreter.environment.lists.stacks.take(stack.0) else {
        unreachable!()
    };
    CloseStack {
        stack: taken,
        guard: &held.guard,
    }
    .at(&mut interpreter.environment.world, &participant.place);
    let line = interpreter.environment.log.moment;
    date_new(
        &mut interpreter.environment.log.dates,
        &interpreter.environment.world,
        waited.as_slice(),
        line,
    );
    Ok(Reply::Done)
}
