//! What participants do with items in their place, and with those that are out as raw.
#![tactic(auto, using(sdd_interpreter::proofs::EnvironmentAnswers::in_hand))]

ghost use Rattle.std.specs.Prelude.{◌≡◌, Some, MatchResult};
ghost use Rattle.sdd_script_model.specs.Script.{Acts};
ghost use Rattle.sdd_script_text.specs.Actions as action;

use sdd_core::Refused;
use sdd_interpreter::Interpreter;
use sdd_interpreter::commands::raw::{ComeBack, DropOwner, GoRaw, PutNumber, SeeRaw};
use sdd_interpreter::commands::{InPlaceCommand, RawCommand};
use sdd_interpreter::holding::{AnyOwner, slot_of_sole};
use sdd_interpreter::items::{date_new, is_number};
use sdd_interpreter::owners::{take_sole, value_of};
use sdd_interpreter::participants::under;
use sdd_script_text::{Call, GuardName, ItemName, OwnerName, PlaceName, Reply};
use std::alloc::AllocError;

/// `P put O n`: the number that an owner's item holds becomes this one, in its place. `NotAlone` and `GuardOpen` are replies.
pub fn put(interpreter: &mut Interpreter, name: PlaceName, owner: OwnerName, number: u64) -> Reply
    ensures acts { Acts interpreter.old (Call.At name (action.Put owner number)) result interpreter.new }
{
    let Some(participant) = interpreter.environment.places.get(name.0) else {
        return Reply::Invalid;
    };
    let Some(held) = interpreter.environment.owners.get(owner.0) else {
        return Reply::Invalid;
    };
    interpreter.environment.world.is_whole();
    if !is_number(value_of(held, &interpreter.environment.world)) {
        return Reply::Invalid;
    }
    let Some(held) = interpreter.environment.owners.take(owner.0) else {
        unreachable!()
    };
    let (held, put) = PutNumber {
        owner: held,
        number,
    }
    .at(&mut interpreter.environment.world, &participant.place);
    interpreter.environment.owners.put_back(owner.0, held);
    if let Err(refused) = put {
        return Reply::Refused(refused);
    }
    Reply::Done
}

/// `P drop O`: an owner is given up, and the item of one that is alone dropped in its place. `GuardOpen` is a reply, and then the owner keeps its name.
/// Refused where memory to tell what begins to wait is, and then nothing has changed.
pub fn drop_owner(
    interpreter: &mut Interpreter,
    name: PlaceName,
    owner: OwnerName,
) -> Result<Reply, AllocError>
    ensures acts { MatchResult result (λ reply. Acts interpreter.old (Call.At name (action.Drop owner)) reply interpreter.new)
        (λ _. interpreter.new ≡ interpreter.old) }
{
    let Some(participant) = interpreter.environment.places.get(name.0) else {
        return Ok(Reply::Invalid);
    };
    let names = interpreter.environment.log.names.len();
    interpreter.environment.world.is_whole();
    let waited = interpreter
        .environment
        .log
        .waiting_by_slot(&interpreter.environment.world)?;
    let Some(held) = interpreter.environment.owners.take(owner.0) else {
        return Ok(Reply::Invalid);
    };
    let place = &participant.place;
    let reply = match (DropOwner { owner: held }).at(&mut interpreter.environment.world, place) {
        Ok(reply) => reply,
        Err((held, refused)) => {
            interpreter.environment.owners.put_back(owner.0, held);
            return Ok(Reply::Refused(refused));
        }
    };
    let line = interpreter.environment.log.moment;
    date_new(
        &mut interpreter.environment.log.dates,
        &interpreter.environment.world,
        waited.as_slice(),
        line,
    );
    Ok(reply)
}

/// `P raw O`: the item of its one owner is out as raw, and the owner's name spent.
pub fn put_out_raw(interpreter: &mut Interpreter, name: PlaceName, owner: OwnerName) -> Reply
    ensures acts { Acts interpreter.old (Call.At name (action.Raw owner)) result interpreter.new }
{
    let Some(participant) = interpreter.environment.places.get(name.0) else {
        return Reply::Invalid;
    };
    let Some(owner) = take_sole(&mut interpreter.environment.owners, owner.0) else {
        return Reply::Invalid;
    };
    interpreter.environment.world.is_whole();
    let slot = slot_of_sole(&owner);
    GoRaw { owner }.at(&mut interpreter.environment.world, &participant.place);
    Reply::Raw(interpreter.environment.log.item_at(slot))
}

/// `P unraw I`: the owner of an item that is out as raw, or none. Refused where memory for its name is, and then nothing has changed.
pub fn take_back_raw(
    interpreter: &mut Interpreter,
    name: PlaceName,
    item: ItemName,
) -> Result<Reply, AllocError>
    ensures acts { MatchResult result (λ reply. Acts interpreter.old (Call.At name (action.Unraw item)) reply interpreter.new)
        (λ _. interpreter.new ≡ interpreter.old) }
{
    let Some(participant) = interpreter.environment.places.get(name.0) else {
        return Ok(Reply::Invalid);
    };
    interpreter.environment.world.is_whole();
    let Some(slot) = interpreter
        .environment
        .log
        .slot_since(&interpreter.environment.world, item, 0)
    else {
        return Ok(Reply::Invalid);
    };
    interpreter.environment.owners.make_room()?;
    match (ComeBack { slot }).at(&mut interpreter.environment.world, &participant.place) {
        Some(owner) => {
            let name = interpreter.environment.owners.give(AnyOwner::Sole(owner));
            Ok(Reply::Owner(OwnerName(name)))
        }
        None => Ok(Reply::Nothing),
    }
}

/// `P see I G`: the value of an item that is out as raw, or none.
pub fn see(
    interpreter: &mut Interpreter,
    name: PlaceName,
    item: ItemName,
    guard: GuardName,
) -> Reply
    ensures acts { Acts interpreter.old (Call.At name (action.See item guard)) result interpreter.new }
{
    let Some((participant, held)) = under(
        &interpreter.environment.places,
        &interpreter.environment.guards,
        name,
        guard,
    ) else {
        return Reply::Invalid;
    };
    interpreter.environment.world.is_whole();
    let Some(slot) = interpreter
        .environment
        .log
        .slot_since(&interpreter.environment.world, item, 0)
    else {
        return Reply::Invalid;
    };
    let guard = &held.guard;
    let place = &participant.place;
    let Some(value) = SeeRaw { slot, guard }.at(&mut interpreter.environment.world, place) else {
        return Reply::Nothing;
    };
    interpreter.environment.log.told(value)
}
