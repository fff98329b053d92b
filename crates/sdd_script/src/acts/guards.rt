//! What participants do with guards.
#![tactic(auto, using(sdd_interpreter::proofs::EnvironmentAnswers::in_hand))]

ghost use Rattle.std.specs.Prelude.{◌≡◌, ◌<◌, All, IfOk, MatchResult, length};
ghost use Rattle.std.specs.List.Sorted.{IsPermutation, IsNonDecreasingBy};
ghost use Rattle.sdd_script_text.specs.declared.name.ItemName.{ItemName as Named};
ghost use Rattle.sdd_script_model.specs.Held.{slots_among};
ghost use Rattle.sdd_script_model.specs.Shown.{names_in};
ghost use Rattle.sdd_script_model.specs.ScriptState.{BeginsLine};
ghost use Rattle.sdd_script_model.specs.Script.{Acts, Answers};
ghost use Rattle.sdd_script_text.specs.Actions as action;
ghost use Rattle.sdd_script.specs.ItemLines.{using_guard};

use sdd_interpreter::Interpreter;
use sdd_interpreter::commands::GuardCommand;
use sdd_interpreter::commands::guards::{CloseGuard, GuardUse, OpenGuard, UseGuard, defer_at};
use sdd_interpreter::items::date_new;
use sdd_interpreter::log::Due;
use sdd_interpreter::participants::{NamedGuard, note_opening, under};
use sdd_script_text::{Answer, Call, GuardName, ItemName, JobName, Names, PlaceName, Reply};
use sdd_world::inner::{is_open, reclaims_next};
use std::alloc::{AllocError, Global};

/// `P open`: a guard of the participant, named with its epoch, and what went or ran by its opening, each in ascending order. `TooManyGuards` is a reply.
/// Refused where memory for names is, and then nothing has changed.
pub fn open(interpreter: &mut Interpreter, name: PlaceName) -> Result<Answer, AllocError>
    requires line { BeginsLine interpreter.old }
    ensures answers { MatchResult result (λ answer. Answers interpreter.old (Call.At name action.Open) answer interpreter.new)
        (λ _. interpreter.new ≡ interpreter.old) }
{
    let Some(participant) = interpreter.environment.places.get(name.0) else {
        return Ok(interpreter.answer(Reply::Invalid));
    };
    interpreter.environment.world.is_whole();
    let waiting = reclaims_next(&interpreter.environment.world, &participant.place);
    let due = interpreter
        .environment
        .log
        .due(&interpreter.environment.world, waiting)?;
    interpreter.environment.guards.make_room()?;
    let is_nested = is_open(&interpreter.environment.world, &participant.place);
    let (guard, epoch) = match OpenGuard.at(
        &mut interpreter.environment.world,
        &participant.place,
    ) {
        Ok(opened) => opened,
        Err(refused) => return Ok(interpreter.answer(Reply::Refused(refused))),
    };
    let place = participant.place.index();
    let since = interpreter.environment.log.moment;
    date_new(
        &mut interpreter.environment.log.dates,
        &interpreter.environment.world,
        due.waited.as_slice(),
        since,
    );
    note_opening(
        &mut interpreter.environment.places,
        name.0,
        since,
        is_nested,
    );
    let number = name.0;
    let name = interpreter.environment.guards.give(NamedGuard {
        guard,
        place,
        participant: number,
        since,
    });
    let Due {
        items,
        jobs,
        waited: _,
    } = due;
    Ok(Answer {
        reply: Reply::Guard(GuardName(name), epoch),
        reclaimed: Names::of(items),
        ran: Names::of(jobs),
    })
}

/// `P epoch G`, `P garbage G`, `P set G`, `P accelerate G`: what a guard of the participant shows, or tells it to do, while it stays open.
pub fn use_guard(
    interpreter: &mut Interpreter,
    name: PlaceName,
    guard: GuardName,
    usage: GuardUse,
) -> Reply
    ensures acts { Acts interpreter.old (Call.At name (using_guard usage guard)) result interpreter.new }
{
    let Some((participant, held)) = under(
        &interpreter.environment.places,
        &interpreter.environment.guards,
        name,
        guard,
    ) else {
        return Reply::Invalid;
    };
    interpreter.environment.world.is_whole();
    let step = UseGuard {
        guard: &held.guard,
        usage,
    };
    step.at(&mut interpreter.environment.world, &participant.place)
}

/// `P defer G`: a job that does nothing waits, and is named. `NoJob` is a reply.
pub fn defer(interpreter: &mut Interpreter, name: PlaceName, guard: GuardName) -> Reply
    requires line { BeginsLine interpreter.old }
    ensures acts { Acts interpreter.old (Call.At name (action.Defer guard)) result interpreter.new }
{
    let Some((participant, _)) = under(
        &interpreter.environment.places,
        &interpreter.environment.guards,
        name,
        guard,
    ) else {
        return Reply::Invalid;
    };
    interpreter.environment.world.is_whole();
    let place = match defer_at(&mut interpreter.environment.world, &participant.place) {
        Ok(place) => place,
        Err(refused) => return Reply::Refused(refused),
    };
    let job = interpreter.environment.log.jobs;
    prove!(job < interpreter.environment.log.moment);
    interpreter.environment.log.deferred[place as usize] = job;
    interpreter.environment.log.job_dates[place as usize] = interpreter.environment.log.moment;
    interpreter.environment.log.jobs += 1;
    Reply::Job(JobName(job))
}

/// `P close G`: the guard is closed, and its name spent.
pub fn close_guard(interpreter: &mut Interpreter, name: PlaceName, guard: GuardName) -> Reply
    ensures acts { Acts interpreter.old (Call.At name (action.Close guard)) result interpreter.new }
{
    let Some((participant, _)) = under(
        &interpreter.environment.places,
        &interpreter.environment.guards,
        name,
        guard,
    ) else {
        return Reply::Invalid;
    };
    let Some(
        NamedGuard {
            guard,
            place: _,
            participant: _,
            since: _,
        },
    ) = interpreter.environment.guards.take(guard.0)
    else {
        return Reply::Invalid;
    };
    interpreter.environment.world.is_whole();
    CloseGuard { guard }.at(&mut interpreter.environment.world, &participant.place);
    Reply::Done
}
