//! What participants do with the owners of items.
#![tactic(auto, using(sdd_interpreter::proofs::EnvironmentAnswers::in_hand))]

ghost use Rattle.std.specs.Prelude.{◌≡◌, ◌<◌, None, Some, MatchResult};
ghost use Rattle.sdd_script_model.specs.Script.{Acts};
ghost use Rattle.sdd_script_text.specs.Actions as action;

use sdd_core::Refused;
use sdd_interpreter::Interpreter;
use sdd_interpreter::commands::ItemCommand;
use sdd_interpreter::commands::owners::{CloneOwner, ReleaseOwner, RetireItem, share_item};
use sdd_interpreter::holding::{AnyOwner, slot_of_share, slot_of_sole};
use sdd_interpreter::owners::{shared_of, take_shared, take_sole};
use sdd_interpreter::participants::under;
use sdd_script_text::{Call, GuardName, ItemName, OwnerName, PlaceName, Reply};
use std::alloc::AllocError;

/// `P retire O`: the item of its one owner waits, and the owner's name is spent.
pub fn retire(interpreter: &mut Interpreter, name: PlaceName, owner: OwnerName) -> Reply
    ensures acts { Acts interpreter.old (Call.At name (action.Retire owner)) result interpreter.new }
{
    let Some(participant) = interpreter.environment.places.get(name.0) else {
        return Reply::Invalid;
    };
    let Some(owner) = take_sole(&mut interpreter.environment.owners, owner.0) else {
        return Reply::Invalid;
    };
    interpreter.environment.world.is_whole();
    let slot = slot_of_sole(&owner);
    RetireItem { owner }.at(&mut interpreter.environment.world, &participant.place);
    interpreter.environment.log.dates[slot as usize] = interpreter.environment.log.moment;
    Reply::Done
}

/// `P release O`: one of the counted owners goes, and tells whether it was the last, whose item waits.
pub fn release(interpreter: &mut Interpreter, name: PlaceName, owner: OwnerName) -> Reply
    ensures acts { Acts interpreter.old (Call.At name (action.Release owner)) result interpreter.new }
{
    let Some(participant) = interpreter.environment.places.get(name.0) else {
        return Reply::Invalid;
    };
    let Some(owner) = take_shared(&mut interpreter.environment.owners, owner.0) else {
        return Reply::Invalid;
    };
    interpreter.environment.world.is_whole();
    let slot = slot_of_share(&owner);
    let was_last = ReleaseOwner { owner }.at(
        &mut interpreter.environment.world,
        &participant.place,
    );
    if was_last {
        interpreter.environment.log.dates[slot as usize] = interpreter.environment.log.moment;
    }
    Reply::Truth(was_last)
}

/// `P clone O`: an owner more beside a counted one. `TooManyOwners` is a reply. Refused where memory for the name is, and then nothing has changed.
pub fn clone_owner(
    interpreter: &mut Interpreter,
    name: PlaceName,
    owner: OwnerName,
) -> Result<Reply, AllocError>
    ensures acts { MatchResult result (λ reply. Acts interpreter.old (Call.At name (action.Clone owner)) reply interpreter.new)
        (λ _. interpreter.new ≡ interpreter.old) }
{
    let Some(participant) = interpreter.environment.places.get(name.0) else {
        return Ok(Reply::Invalid);
    };
    interpreter.environment.owners.make_room()?;
    let Some(held) = shared_of(&interpreter.environment.owners, owner.0) else {
        return Ok(Reply::Invalid);
    };
    interpreter.environment.world.is_whole();
    match (CloneOwner { owner: held }).at(&mut interpreter.environment.world, &participant.place) {
        Ok(owner) => {
            let name = interpreter.environment.owners.give(AnyOwner::Share(owner));
            Ok(Reply::Owner(OwnerName(name)))
        }
        Err(refused) => Ok(Reply::Refused(refused)),
    }
}

/// `P upgrade I G`: an owner more of an item that a pointer names, or none where its last owner went. `TooManyOwners` is a reply. Refused where memory
/// for the name is, and then nothing has changed.
pub fn upgrade(
    interpreter: &mut Interpreter,
    name: PlaceName,
    item: ItemName,
    guard: GuardName,
) -> Result<Reply, AllocError>
    ensures acts { MatchResult result (λ reply. Acts interpreter.old (Call.At name (action.Upgrade item guard)) reply interpreter.new)
        (λ _. interpreter.new ≡ interpreter.old) }
{
    let Some((participant, held)) = under(
        &interpreter.environment.places,
        &interpreter.environment.guards,
        name,
        guard,
    ) else {
        return Ok(Reply::Invalid);
    };
    interpreter.environment.world.is_whole();
    let Some(slot) = interpreter
        .environment
        .log
        .slot_since(&interpreter.environment.world, item, participant.since)
    else {
        return Ok(Reply::Invalid);
    };
    interpreter.environment.owners.make_room()?;
    match share_item(
        &mut interpreter.environment.world,
        &participant.place,
        &held.guard,
        slot,
    ) {
        Ok(Some(owner)) => {
            let name = interpreter.environment.owners.give(AnyOwner::Share(owner));
            Ok(Reply::Owner(OwnerName(name)))
        }
        Ok(None) => Ok(Reply::Nothing),
        Err(refused) => Ok(Reply::Refused(refused)),
    }
}
