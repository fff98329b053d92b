//! What participants do with collectors.
#![tactic(auto, using(sdd_interpreter::proofs::EnvironmentAnswers::in_hand))]

ghost use Rattle.std.specs.Prelude.{◌≡◌, ◌<◌, ◌≤◌, ◌^◌, All, IfOk, MatchResult, length};
ghost use Rattle.std.specs.List.Sorted.{IsPermutation, IsNonDecreasingBy};
ghost use Rattle.sdd_script_text.specs.declared.name.ItemName.{ItemName as Named};
ghost use Rattle.sdd_script_model.specs.Held.{slots_waiting_for};
ghost use Rattle.sdd_script_model.specs.Shown.{names_in};
ghost use Rattle.sdd_script_model.specs.Script.{Acts, Answers};
ghost use Rattle.sdd_script_text.specs.Actions as action;

use sdd_core::Refused;
use sdd_interpreter::Interpreter;
use sdd_interpreter::commands::CollectorCommand;
use sdd_interpreter::commands::collectors::{CloseCollector, GiveToCollector, MakeCollector};
use sdd_interpreter::items::{date_if_waiting, date_new};
use sdd_interpreter::participants::under;
use sdd_script_model::Val;
use sdd_script_text::{
    Answer, Call, CollectorName, GuardName, ItemName, Names, OwnerName, PlaceName, Reply,
};
use sdd_space::inner::number_of_collector;
use sdd_world::World;
use std::alloc::{AllocError, Global};

/// `P collector`: a collector, named. `NoCell` is a reply. Refused where memory for the name is, and then nothing has changed.
pub fn make_collector(interpreter: &mut Interpreter, name: PlaceName) -> Result<Reply, AllocError>
    ensures acts { MatchResult result (λ reply. Acts interpreter.old (Call.At name action.Collector) reply interpreter.new)
        (λ _. interpreter.new ≡ interpreter.old) }
{
    let Some(participant) = interpreter.environment.places.get(name.0) else {
        return Ok(Reply::Invalid);
    };
    interpreter.environment.collectors.make_room()?;
    interpreter.environment.world.is_whole();
    match MakeCollector.at(&mut interpreter.environment.world, &participant.place) {
        Ok(collector) => {
            let name = interpreter.environment.collectors.give(collector);
            Ok(Reply::Collector(CollectorName(name)))
        }
        Err(refused) => Ok(Reply::Refused(refused)),
    }
}

/// `P collect O G K`: an owner is given to a collector, and its name spent; the item of the last one waits for the collector.
pub fn collect(
    interpreter: &mut Interpreter,
    name: PlaceName,
    owner: OwnerName,
    guard: GuardName,
    collector: CollectorName,
) -> Reply
    ensures acts { Acts interpreter.old (Call.At name (action.Collect owner guard collector)) result interpreter.new }
{
    let Some((participant, held)) = under(
        &interpreter.environment.places,
        &interpreter.environment.guards,
        name,
        guard,
    ) else {
        return Reply::Invalid;
    };
    let Some(collector) = interpreter.environment.collectors.get(collector.0) else {
        return Reply::Invalid;
    };
    let Some(owner) = interpreter.environment.owners.take(owner.0) else {
        return Reply::Invalid;
    };
    interpreter.environment.world.is_whole();
    let slot = owner.slot();
    let reply = GiveToCollector {
        collector,
        owner,
        guard: &held.guard,
    }
    .at(&mut interpreter.environment.world, &participant.place);
    let line = interpreter.environment.log.moment;
    date_if_waiting(
        &mut interpreter.environment.log.dates,
        &interpreter.environment.world,
        Some(slot),
        line,
    );
    reply
}

/// What waits for the collector is named.
pub fn close_collector(
    interpreter: &mut Interpreter,
    name: PlaceName,
    collector: CollectorName,
) -> Result<Answer, AllocError>
    ensures answers { MatchResult result (λ answer. Answers interpreter.old (Call.At name (action.CloseCollector collector)) answer interpreter.new)
        (λ _. interpreter.new ≡ interpreter.old) }
{
    let Some(participant) = interpreter.environment.places.get(name.0) else {
        return Ok(interpreter.answer(Reply::Invalid));
    };
    let Some(held) = interpreter.environment.collectors.get(collector.0) else {
        return Ok(interpreter.answer(Reply::Invalid));
    };
    interpreter.environment.world.is_whole();
    let collected = number_of_collector(held);
    let gone = interpreter
        .environment
        .log
        .items_for(&interpreter.environment.world, collected)?;
    let waited = interpreter
        .environment
        .log
        .waiting_by_slot(&interpreter.environment.world)?;
    let Some(held) = interpreter.environment.collectors.take(collector.0) else {
        unreachable!()
    };
    if let Err((held, refused)) = (CloseCollector { collector: held }).at(
        &mut interpreter.environment.world,
        &participant.place,
    ) {
        interpreter
            .environment
            .collectors
            .put_back(collector.0, held);
        return Ok(interpreter.answer(Reply::Refused(refused)));
    }
    let line = interpreter.environment.log.moment;
    date_new(
        &mut interpreter.environment.log.dates,
        &interpreter.environment.world,
        waited.as_slice(),
        line,
    );
    Ok(Answer {
        reply: Reply::Done,
        reclaimed: Names::of(gone),
        ran: Names::new(interpreter.environment.log.alloc),
    })
}
