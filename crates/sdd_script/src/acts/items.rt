//! How items of a script are made, and how they are seen.
#![tactic(auto, using(sdd_interpreter::proofs::EnvironmentAnswers::in_hand))]

ghost use Rattle.std.specs.Prelude.{◌≡◌, MatchOption, MatchResult};
ghost use Rattle.sdd_participants.specs.Slab.{IsFull};
ghost use Rattle.sdd_script_model.specs.Made.{RefusesItem};
ghost use Rattle.sdd_script.specs.ItemLines.{making};
ghost use Rattle.sdd_script_model.specs.Script.{Acts};
ghost use Rattle.sdd_script_text.specs.Actions as action;

use sdd_core::Refused;
use sdd_interpreter::Interpreter;
use sdd_interpreter::commands::ItemCommand;
use sdd_interpreter::commands::items::{MakeItem, value_shown};
use sdd_interpreter::owners::{body_from, is_missing, value_of};
use sdd_interpreter::participants::under;
use sdd_script_model::{OwnerKind, Val};
use sdd_script_text::{Call, GuardName, ItemName, OwnerName, PlaceName, Reply, Value};
use sdd_world::World;
use sdd_world::inner::{has_no_cell, has_no_slot};
use std::alloc::AllocError;

/// `P owned V`, `P shared V`: an item with an owner of that kind, both named. `NoSlot` is a reply. Refused where memory for the names is, and then
/// nothing has changed.
pub fn make(
    interpreter: &mut Interpreter,
    name: PlaceName,
    value: Value,
    ownership: OwnerKind,
) -> Result<Reply, AllocError>
    ensures acts { MatchResult result (λ reply. Acts interpreter.old (Call.At name (making ownership value)) reply interpreter.new)
        (λ _. interpreter.new ≡ interpreter.old) }
{
    let Some(participant) = interpreter.environment.places.get(name.0) else {
        return Ok(Reply::Invalid);
    };
    if is_missing(&interpreter.environment.owners, value) {
        return Ok(Reply::Invalid);
    }
    interpreter.environment.world.is_whole();
    if let Some(refused) = refuses_item(&interpreter.environment.world) {
        return Ok(Reply::Refused(refused));
    }
    interpreter.environment.owners.make_room()?;
    interpreter.environment.log.slots.reserve(1)?;
    let Some(body) = body_from(&mut interpreter.environment.owners, value) else {
        unreachable!()
    };
    let owner = MakeItem { body, ownership }.at(
        &mut interpreter.environment.world,
        &participant.place,
    );
    let slot = owner.slot();
    let item = interpreter.environment.log.slots.len() as u64;
    interpreter.environment.log.names[slot as usize] = Some(item);
    interpreter.environment.log.slots.push_reserved(slot);
    let name = interpreter.environment.owners.give(owner);
    Ok(Reply::Item(OwnerName(name), ItemName(item)))
}

/// `P read O`: the value of an owner's item.
pub fn read(interpreter: &mut Interpreter, name: PlaceName, owner: OwnerName) -> Reply
    ensures acts { Acts interpreter.old (Call.At name (action.Read owner)) result interpreter.new }
{
    let Some(_) = interpreter.environment.places.get(name.0) else {
        return Reply::Invalid;
    };
    let Some(held) = interpreter.environment.owners.get(owner.0) else {
        return Reply::Invalid;
    };
    interpreter.environment.world.is_whole();
    interpreter
        .environment
        .log
        .told(value_of(held, &interpreter.environment.world))
}

/// `P look I G`: the value of an item that the participant can point to.
pub fn look(
    interpreter: &mut Interpreter,
    name: PlaceName,
    item: ItemName,
    guard: GuardName,
) -> Reply
    ensures acts { Acts interpreter.old (Call.At name (action.Look item guard)) result interpreter.new }
{
    let Some((participant, held)) = under(
        &interpreter.environment.places,
        &interpreter.environment.guards,
        name,
        guard,
    ) else {
        return Reply::Invalid;
    };
    interpreter.environment.world.is_whole();
    let Some(slot) = interpreter
        .environment
        .log
        .slot_since(&interpreter.environment.world, item, participant.since)
    else {
        return Reply::Invalid;
    };
    let place = &participant.place;
    let value = value_shown(&mut interpreter.environment.world, place, &held.guard, slot);
    interpreter.environment.log.told(value)
}

/// Why the world has no room for an item, if it has none.
fn refuses_item(world: &World<Val>) -> Option<Refused>
    ensures { MatchOption result (¬ (IsFull world.now.cells) × ¬ (IsFull world.now.standings)) (RefusesItem world.now) }
{
    if has_no_cell(world) {
        return Some(Refused::NoCell);
    }
    if has_no_slot(world) {
        return Some(Refused::NoSlot);
    }
    None
}
