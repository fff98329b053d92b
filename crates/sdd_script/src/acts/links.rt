//! What participants do with the links of entries.
#![tactic(auto, using(sdd_interpreter::proofs::EnvironmentAnswers::in_hand))]

ghost use Rattle.std.specs.Prelude.{◌≡◌, MatchResult};
ghost use Rattle.sdd_script.specs.ItemLines.{changing};
ghost use Rattle.sdd_script_model.specs.Script.{Acts};
ghost use Rattle.sdd_script_text.specs.Actions as action;

use sdd_core::Tag;
use sdd_interpreter::Interpreter;
use sdd_interpreter::commands::items::value_shown;
use sdd_interpreter::commands::links::{
    AppendEntry, ChangeLink, NextEntry, ReadLinkTag, is_loose_beside,
};
use sdd_interpreter::commands::{CellCommand, ListCommand};
use sdd_interpreter::holding::{AnyOwner, slot_of_share};
use sdd_interpreter::items::date_new;
use sdd_interpreter::owners::{shared_of, take_shared};
use sdd_interpreter::participants::{under, under_any};
use sdd_script_model::LinkChange;
use sdd_script_text::{Call, GuardName, ItemName, OwnerName, PlaceName, Reply};
use std::alloc::AllocError;

/// `P mark I`, `P unmark I`, `P delete I`: an entry's link changes its tag, if it may, and whether it did is told.
pub fn change_link(
    interpreter: &mut Interpreter,
    name: PlaceName,
    item: ItemName,
    change: LinkChange,
) -> Reply
    ensures acts { Acts interpreter.old (Call.At name (changing change item)) result interpreter.new }
{
    let Some((participant, held)) = under_any(
        &interpreter.environment.places,
        &interpreter.environment.guards,
        name,
    ) else {
        return Reply::Invalid;
    };
    interpreter.environment.world.is_whole();
    let Some(slot) = interpreter
        .environment
        .log
        .slot_since(&interpreter.environment.world, item, participant.since)
    else {
        return Reply::Invalid;
    };
    let place = &participant.place;
    let entry = value_shown(&mut interpreter.environment.world, place, &held.guard, slot);
    Reply::Truth(ChangeLink { entry, change }.at(&mut interpreter.environment.world, place))
}

/// `P linktag I`: the tag of an entry's link.
pub fn link_tag(interpreter: &mut Interpreter, name: PlaceName, item: ItemName) -> Reply
    ensures acts { Acts interpreter.old (Call.At name (action.LinkTag item)) result interpreter.new }
{
    let Some((participant, held)) = under_any(
        &interpreter.environment.places,
        &interpreter.environment.guards,
        name,
    ) else {
        return Reply::Invalid;
    };
    interpreter.environment.world.is_whole();
    let Some(slot) = interpreter
        .environment
        .log
        .slot_since(&interpreter.environment.world, item, participant.since)
    else {
        return Reply::Invalid;
    };
    let place = &participant.place;
    let entry = value_shown(&mut interpreter.environment.world, place, &held.guard, slot);
    Reply::Tag(ReadLinkTag { entry }.at(&mut interpreter.environment.world, place))
}

/// `P append I O mark G`, `P append I O plain G`: an owner's entry comes directly behind an item, which is marked by that, or has no mark then, and the owner's
/// name is spent. `deleted` where the item is, and then the owner keeps its name.
pub fn append(
    interpreter: &mut Interpreter,
    name: PlaceName,
    item: ItemName,
    owner: OwnerName,
    mark: bool,
    guard: GuardName,
) -> Reply
    ensures acts { Acts interpreter.old (Call.At name (action.Append item owner mark guard)) result interpreter.new }
{
    let Some((participant, held)) = under(
        &interpreter.environment.places,
        &interpreter.environment.guards,
        name,
        guard,
    ) else {
        return Reply::Invalid;
    };
    interpreter.environment.world.is_whole();
    let Some(slot) = interpreter
        .environment
        .log
        .slot_since(&interpreter.environment.world, item, participant.since)
    else {
        return Reply::Invalid;
    };
    let Some(owned) = shared_of(&interpreter.environment.owners, owner.0) else {
        return Reply::Invalid;
    };
    let place = &participant.place;
    let guard = &held.guard;
    if !is_loose_beside(
        &mut interpreter.environment.world,
        place,
        guard,
        slot_of_share(owned),
        slot,
    ) {
        return Reply::Invalid;
    }
    let entry = value_shown(&mut interpreter.environment.world, place, guard, slot);
    let Some(last) = take_shared(&mut interpreter.environment.owners, owner.0) else {
        unreachable!()
    };
    let step = AppendEntry {
        entry,
        owner: last,
        mark,
        guard,
    };
    match step.at(&mut interpreter.environment.world, place) {
        None => Reply::Done,
        Some(last) => {
            interpreter
                .environment
                .owners
                .put_back(owner.0, AnyOwner::Share(last));
            Reply::Deleted
        }
    }
}

/// `P next I G`: the next item behind one in its list that isn't deleted, or null. The deleted ones between are let go of. Refused where memory is to tell what
/// begins to wait, and then nothing has changed.
pub fn next(
    interpreter: &mut Interpreter,
    name: PlaceName,
    item: ItemName,
    guard: GuardName,
) -> Result<Reply, AllocError>
    ensures acts { MatchResult result (λ reply. Acts interpreter.old (Call.At name (action.Next item guard)) reply interpreter.new)
        (λ _. interpreter.new ≡ interpreter.old) }
{
    let Some((participant, held)) = under(
        &interpreter.environment.places,
        &interpreter.environment.guards,
        name,
        guard,
    ) else {
        return Ok(Reply::Invalid);
    };
    interpreter.environment.world.is_whole();
    let Some(slot) = interpreter
        .environment
        .log
        .slot_since(&interpreter.environment.world, item, participant.since)
    else {
        return Ok(Reply::Invalid);
    };
    let waited = interpreter
        .environment
        .log
        .waiting_by_slot(&interpreter.environment.world)?;
    let guard = &held.guard;
    let entry = value_shown(
        &mut interpreter.environment.world,
        &participant.place,
        guard,
        slot,
    );
    let step = NextEntry { entry, guard };
    let next = step.at(&mut interpreter.environment.world, &participant.place);
    let line = interpreter.environment.log.moment;
    date_new(
        &mut interpreter.environment.log.dates,
        &interpreter.environment.world,
        waited.as_slice(),
        line,
    );
    let item = interpreter.environment.log.item_seen(next);
    Ok(Reply::Pointer(item, Tag::None))
}
