//! What participants do with queues.
#![tactic(auto, using(sdd_interpreter::proofs::EnvironmentAnswers::in_hand))]

ghost use Rattle.std.specs.Prelude.{◌≡◌, MatchResult};
ghost use Rattle.sdd_script_model.specs.Script.{Acts};
ghost use Rattle.sdd_script_text.specs.Actions as action;

use sdd_interpreter::Interpreter;
use sdd_interpreter::commands::ListCommand;
use sdd_interpreter::commands::queues::{CloseQueue, MakeQueue};
use sdd_interpreter::items::date_new;
use sdd_interpreter::participants::under_any;
use sdd_script_text::{Call, PlaceName, QueueName, Reply};
use std::alloc::AllocError;

/// `P queue`: an empty queue, named. `NoCell` is a reply. Refused where memory for the name is, and then nothing has changed.
pub fn make_queue(interpreter: &mut Interpreter, name: PlaceName) -> Result<Reply, AllocError>
    ensures acts { MatchResult result (λ reply. Acts interpreter.old (Call.At name action.Queue) reply interpreter.new)
        (λ _. interpreter.new ≡ interpreter.old) }
{
    let Some(participant) = interpreter.environment.places.get(name.0) else {
        return Ok(Reply::Invalid);
    };
    interpreter.environment.lists.queues.make_room()?;
    interpreter.environment.world.is_whole();
    match MakeQueue.at(&mut interpreter.environment.world, &participant.place) {
        Ok(queue) => {
            let name = interpreter.environment.lists.queues.give(queue);
            Ok(Reply::Queue(QueueName(name)))
        }
        Err(refused) => Ok(Reply::Refused(refused)),
    }
}

/// `P close Q`: a queue is closed under a guard of the participant, and its entries are let go of. Refused where memory is to tell what begins to wait, and
/// then nothing has changed.
pub fn close_queue(
    interpreter: &mut Interpreter,
    name: PlaceName,
    queue: QueueName,
) -> Result<Reply, AllocError>
    ensures acts { MatchResult result (λ reply. Acts interpreter.old (Call.At name (action.CloseQueue queue)) reply interpreter.new)
        (λ _. interpreter.new ≡ interpreter.old) }
{
    let Some((participant, held)) = under_any(
        &interpreter.environment.places,
        &interpreter.environment.guards,
        name,
    ) else {
        return Ok(Reply::Invalid);
    };
    let Some(_) = interpreter.environment.lists.queues.get(queue.0) else {
        return Ok(Reply::Invalid);
    };
    interpreter.environment.world.is_whole();
    let waited = interpreter
        .environment
        .log
        .waiting_by_slot(&interpreter.environment.world)?;
    let Some(taken) = interpreter.environment.lists.queues.take(queue.0) else {
        unreachable!()
    };
    CloseQueue {
        queue: taken,
        guard: &held.guard,
    }
    .at(&mut interpreter.environment.world, &participant.place);
    let line = interpreter.environment.log.moment;
    date_new(
        &mut interpreter.environment.log.dates,
        &interpreter.environment.world,
        waited.as_slice(),
        line,
    );
    Ok(Reply::Done)
}
