//! What participants do with cells.
#![tactic(auto, using(sdd_interpreter::proofs::EnvironmentAnswers::in_hand))]

ghost use Rattle.std.specs.Prelude.{◌≡◌, ◌<◌, MatchResult, Some};
ghost use Rattle.sdd_participants.specs.declared.standing.CellContents.{CellContents};
ghost use Rattle.sdd_script.specs.ItemLines.{making_cell};
ghost use Rattle.sdd_script_model.specs.Script.{Acts};
ghost use Rattle.sdd_script_text.specs.Actions as action;

use sdd_core::{Refused, Tag};
use sdd_interpreter::Interpreter;
use sdd_interpreter::commands::cells::{CloseCell, LoadCell, MakeCell, PeekCell, ReadTag, TagIf};
use sdd_interpreter::commands::{CellCommand, ItemCommand};
use sdd_interpreter::items::date_if_waiting;
use sdd_interpreter::owners::{fits, take_filling};
use sdd_interpreter::participants::under;
use sdd_participants::CellContents;
use sdd_script_model::OwnerKind;
use sdd_script_text::{Call, CellName, GuardName, ItemName, OwnerName, PlaceName, Reply};
use sdd_world::inner::has_no_cell;
use std::alloc::AllocError;

/// `P cell owned X`, `P cell shared X`: a cell for owners of that kind, with this one or none in it. `NoCell` is a reply, and then the owner keeps its
/// name. Refused where memory for the cell's name is, and then nothing has changed.
pub fn make_cell(
    interpreter: &mut Interpreter,
    name: PlaceName,
    owner: Option<OwnerName>,
    ownership: OwnerKind,
) -> Result<Reply, AllocError>
    ensures acts { MatchResult result (λ reply. Acts interpreter.old (Call.At name (making_cell ownership owner)) reply interpreter.new)
        (λ _. interpreter.new ≡ interpreter.old) }
{
    let Some(participant) = interpreter.environment.places.get(name.0) else {
        return Ok(Reply::Invalid);
    };
    if !fits(&interpreter.environment.owners, ownership, owner) {
        return Ok(Reply::Invalid);
    }
    interpreter.environment.world.is_whole();
    if has_no_cell(&interpreter.environment.world) {
        return Ok(Reply::Refused(Refused::NoCell));
    }
    interpreter.environment.cells.make_room()?;
    let filling = take_filling(&mut interpreter.environment.owners, ownership, owner);
    let cell = MakeCell { filling }.at(&mut interpreter.environment.world, &participant.place);
    let name = interpreter.environment.cells.give(cell);
    Ok(Reply::Cell(CellName(name)))
}

/// `P load C G`: the item that a cell points to, or null, and its tag.
pub fn load(
    interpreter: &mut Interpreter,
    name: PlaceName,
    cell: CellName,
    guard: GuardName,
) -> Reply
    ensures acts { Acts interpreter.old (Call.At name (action.Load cell guard)) result interpreter.new }
{
    let Some((participant, held)) = under(
        &interpreter.environment.places,
        &interpreter.environment.guards,
        name,
        guard,
    ) else {
        return Reply::Invalid;
    };
    let Some(cell) = interpreter.environment.cells.get(cell.0) else {
        return Reply::Invalid;
    };
    interpreter.environment.world.is_whole();
    let loaded = LoadCell {
        cell,
        guard: &held.guard,
    }
    .at(&mut interpreter.environment.world, &participant.place);
    let item = interpreter.environment.log.item_seen(loaded.held);
    Reply::Pointer(item, loaded.tag)
}

/// `P tag C`: the tag of a cell.
pub fn tag(interpreter: &mut Interpreter, name: PlaceName, cell: CellName) -> Reply
    ensures acts { Acts interpreter.old (Call.At name (action.Tag cell)) result interpreter.new }
{
    let Some(participant) = interpreter.environment.places.get(name.0) else {
        return Reply::Invalid;
    };
    let Some(cell) = interpreter.environment.cells.get(cell.0) else {
        return Reply::Invalid;
    };
    interpreter.environment.world.is_whole();
    Reply::Tag(ReadTag { cell }.at(&mut interpreter.environment.world, &participant.place))
}

/// `P tagif C T if T`: a cell has the first tag where it had the second, and whether it had is told.
pub fn set_tag_if(
    interpreter: &mut Interpreter,
    name: PlaceName,
    cell: CellName,
    tag: Tag,
    was: Tag,
) -> Reply
    ensures acts { Acts interpreter.old (Call.At name (action.TagIf cell tag was)) result interpreter.new }
{
    let Some(participant) = interpreter.environment.places.get(name.0) else {
        return Reply::Invalid;
    };
    let Some(cell) = interpreter.environment.cells.get(cell.0) else {
        return Reply::Invalid;
    };
    interpreter.environment.world.is_whole();
    Reply::Truth(TagIf { cell, tag, was }.at(
        &mut interpreter.environment.world,
        &participant.place,
    ))
}

/// `P close C`: the cell is closed, and the participant given what it held.
pub fn close_cell(interpreter: &mut Interpreter, name: PlaceName, cell: CellName) -> Reply
    ensures acts { Acts interpreter.old (Call.At name (action.CloseCell cell)) result interpreter.new }
{
    let Some(participant) = interpreter.environment.places.get(name.0) else {
        return Reply::Invalid;
    };
    let Some(cell) = interpreter.environment.cells.take(cell.0) else {
        return Reply::Invalid;
    };
    interpreter.environment.world.is_whole();
    let held = PeekCell { cell: &cell }.at(&mut interpreter.environment.world, &participant.place);
    CloseCell { cell }.at(&mut interpreter.environment.world, &participant.place);
    let line = interpreter.environment.log.moment;
    date_if_waiting(
        &mut interpreter.environment.log.dates,
        &interpreter.environment.world,
        held,
        line,
    );
    Reply::Done
}
