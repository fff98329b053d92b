//! What participants put among the entries of containers, and take out of them.
#![tactic(auto, using(sdd_interpreter::proofs::EnvironmentAnswers::in_hand))]

ghost use Rattle.std.specs.Prelude.{◌≡◌, MatchResult};
ghost use Rattle.sdd_script_model.specs.Script.{Acts};
ghost use Rattle.sdd_script.specs.ItemLines.{popping, pushing};

use sdd_interpreter::Interpreter;
use sdd_interpreter::commands::containers::{pop_at, push_at};
use sdd_interpreter::containers::number_owned;
use sdd_interpreter::holding::{AnyOwner, slot_of_share};
use sdd_interpreter::items::date_new;
use sdd_interpreter::participants::under;
use sdd_lists::Unpopped;
use sdd_script_text::{Call, GuardName, ItemName, ListName, OwnerName, PlaceName, Reply};
use std::alloc::AllocError;

/// `P push L n G`: a number behind a queue's entries, or in front of a stack's; its item, and an owner of that, are named. What is deleted there is let go of.
/// `P pushif L n m G`: the same, if the newest number that isn't deleted is m. `NoSlot` and `NoCell` are replies. Refused where memory is, for the names or to
/// tell what begins to wait, and then nothing has changed.
pub fn push(
    interpreter: &mut Interpreter,
    name: PlaceName,
    list: ListName,
    number: u64,
    newest: Option<u64>,
    guard: GuardName,
) -> Result<Reply, AllocError>
    ensures acts { MatchResult result
        (λ reply. Acts interpreter.old (Call.At name (pushing list number newest guard)) reply interpreter.new)
        (λ _. interpreter.new ≡ interpreter.old) }
{
    let Some((participant, held)) = under(
        &interpreter.environment.places,
        &interpreter.environment.guards,
        name,
        guard,
    ) else {
        return Ok(Reply::Invalid);
    };
    let Some(list) = interpreter.environment.lists.list_named(list) else {
        return Ok(Reply::Invalid);
    };
    interpreter.environment.owners.make_room()?;
    interpreter.environment.log.slots.reserve(1)?;
    interpreter.environment.world.is_whole();
    let waited = interpreter
        .environment
        .log
        .waiting_by_slot(&interpreter.environment.world)?;
    let place = &participant.place;
    let owner = match push_at(
        &mut interpreter.environment.world,
        place,
        list,
        number,
        newest,
        &held.guard,
    ) {
        Ok(owner) => owner,
        Err(Some(refused)) => return Ok(Reply::Refused(refused)),
        Err(None) => return Ok(Reply::Kept(number)),
    };
    let slot = slot_of_share(&owner);
    let item = interpreter.environment.log.slots.len() as u64;
    interpreter.environment.log.names[slot as usize] = Some(item);
    interpreter.environment.log.slots.push_reserved(slot);
    let line = interpreter.environment.log.moment;
    date_new(
        &mut interpreter.environment.log.dates,
        &interpreter.environment.world,
        waited.as_slice(),
        line,
    );
    let name = interpreter.environment.owners.give(AnyOwner::Share(owner));
    Ok(Reply::Item(OwnerName(name), ItemName(item)))
}

/// `P pop L G`: the first number that isn't deleted is taken out, the oldest of a queue or the newest of a stack, and an owner of its item is named.
/// `P popif L m G`: the same, if it is m; else it stays, and an owner more of it is named. `TooManyOwners` is a reply. Refused where memory is, for the name or
/// to tell what begins to wait, and then nothing has changed.
pub fn pop(
    interpreter: &mut Interpreter,
    name: PlaceName,
    list: ListName,
    first: Option<u64>,
    guard: GuardName,
) -> Result<Reply, AllocError>
    ensures acts { MatchResult result
        (λ reply. Acts interpreter.old (Call.At name (popping list first guard)) reply interpreter.new)
        (λ _. interpreter.new ≡ interpreter.old) }
{
    let Some((participant, held)) = under(
        &interpreter.environment.places,
        &interpreter.environment.guards,
        name,
        guard,
    ) else {
        return Ok(Reply::Invalid);
    };
    let Some(list) = interpreter.environment.lists.list_named(list) else {
        return Ok(Reply::Invalid);
    };
    interpreter.environment.owners.make_room()?;
    interpreter.environment.world.is_whole();
    let waited = interpreter
        .environment
        .log
        .waiting_by_slot(&interpreter.environment.world)?;
    let place = &participant.place;
    let popped = match pop_at(
        &mut interpreter.environment.world,
        place,
        list,
        first,
        &held.guard,
    ) {
        Ok(popped) => popped,
        Err(Unpopped::Kept(owner)) => {
            let number = number_owned(&owner, &interpreter.environment.world);
            let name = interpreter.environment.owners.give(AnyOwner::Share(owner));
            return Ok(Reply::KeptEntry(OwnerName(name), number));
        }
        Err(Unpopped::Refused(refused)) => return Ok(Reply::Refused(refused)),
    };
    let line = interpreter.environment.log.moment;
    date_new(
        &mut interpreter.environment.log.dates,
        &interpreter.environment.world,
        waited.as_slice(),
        line,
    );
    let Some(owner) = popped else {
        return Ok(Reply::Nothing);
    };
    let number = number_owned(&owner, &interpreter.environment.world);
    let name = interpreter.environment.owners.give(AnyOwner::Share(owner));
    Ok(Reply::Popped(OwnerName(name), number))
}
