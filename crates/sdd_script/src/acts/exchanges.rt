//! What participants do with the owners that cells hold.
#![tactic(auto, using(sdd_interpreter::proofs::EnvironmentAnswers::in_hand))]

ghost use Rattle.std.specs.Prelude.{◌≡◌, ◌<◌, None, Some, MatchResult};
ghost use Rattle.sdd_participants.specs.declared.standing.CellContents.{CellContents};
ghost use Rattle.sdd_script_model.specs.Script.{Acts};
ghost use Rattle.sdd_script_text.specs.Actions as action;

use sdd_core::{Refused, Tag};
use sdd_interpreter::Interpreter;
use sdd_interpreter::commands::CellCommand;
use sdd_interpreter::commands::exchanges::{CopyCell, ShareHeld, SwapIn, TakeOut, exchange_at};
use sdd_interpreter::holding::{AnyCell, AnyOwner};
use sdd_interpreter::owners::{
    fits, give_filling, put_back, shared_cell_of, take_filling, told_back,
};
use sdd_interpreter::participants::under;
use sdd_participants::CellContents;
use sdd_script_text::{Call, CellName, GuardName, ItemName, OwnerName, PlaceName, Reply};
use std::alloc::AllocError;

/// `P swap C X T`: an owner, or none, goes into a cell with a tag, and what was there comes out. Refused where memory for a name is, and then nothing has
/// changed.
pub fn swap(
    interpreter: &mut Interpreter,
    name: PlaceName,
    cell: CellName,
    owner: Option<OwnerName>,
    tag: Tag,
) -> Result<Reply, AllocError>
    ensures acts { MatchResult result (λ reply. Acts interpreter.old (Call.At name (action.Swap cell owner tag)) reply interpreter.new)
        (λ _. interpreter.new ≡ interpreter.old) }
{
    let Some(participant) = interpreter.environment.places.get(name.0) else {
        return Ok(Reply::Invalid);
    };
    let Some(holder) = interpreter.environment.cells.get(cell.0) else {
        return Ok(Reply::Invalid);
    };
    if !fits(&interpreter.environment.owners, holder.ownership(), owner) {
        return Ok(Reply::Invalid);
    }
    interpreter.environment.owners.make_room()?;
    interpreter.environment.world.is_whole();
    let next = take_filling(
        &mut interpreter.environment.owners,
        holder.ownership(),
        owner,
    );
    let (old, was) = SwapIn {
        cell: holder,
        next,
        tag,
    }
    .at(&mut interpreter.environment.world, &participant.place);
    let name = give_filling(&mut interpreter.environment.owners, old);
    Ok(Reply::Swapped(name, was))
}

/// `P cas C G was Y T now X T`: a swap, where the cell points to that, its tag counted; else what it points to is told. Refused where memory for a name
/// is, and then nothing has changed.
pub fn exchange(
    interpreter: &mut Interpreter,
    name: PlaceName,
    cell: CellName,
    guard: GuardName,
    item: Option<ItemName>,
    was: Tag,
    owner: Option<OwnerName>,
    tag: Tag,
) -> Result<Reply, AllocError>
    ensures acts { MatchResult result (λ reply. Acts interpreter.old (Call.At name (action.Exchange cell guard item was owner tag)) reply interpreter.new)
        (λ _. interpreter.new ≡ interpreter.old) }
{
    let Some((participant, held)) = under(
        &interpreter.environment.places,
        &interpreter.environment.guards,
        name,
        guard,
    ) else {
        return Ok(Reply::Invalid);
    };
    let Some(holder) = interpreter.environment.cells.get(cell.0) else {
        return Ok(Reply::Invalid);
    };
    if !fits(&interpreter.environment.owners, holder.ownership(), owner) {
        return Ok(Reply::Invalid);
    }
    let Some(slot) = interpreter
        .environment
        .log
        .slot_compared(&interpreter.environment.world, item, participant.since)
    else {
        return Ok(Reply::Invalid);
    };
    interpreter.environment.owners.make_room()?;
    interpreter.environment.world.is_whole();
    let next = take_filling(
        &mut interpreter.environment.owners,
        holder.ownership(),
        owner,
    );
    let place = &participant.place;
    let compared = CellContents {
        held: slot,
        tag: was,
    };
    match exchange_at(
        &mut interpreter.environment.world,
        place,
        &held.guard,
        holder,
        compared,
        next,
        tag,
    ) {
        Ok(old) => {
            let name = give_filling(&mut interpreter.environment.owners, old);
            Ok(Reply::Exchanged(name))
        }
        Err((back, seen)) => {
            put_back(&mut interpreter.environment.owners, owner, back);
            Ok(Reply::Differs(interpreter.environment.log.item_seen(seen.held), seen.tag))
        }
    }
}

/// `P into C`: the cell is spent, and the owner in it, if there is one, comes out. Refused where memory for its name is, and then nothing has changed.
pub fn into_owner(
    interpreter: &mut Interpreter,
    name: PlaceName,
    cell: CellName,
) -> Result<Reply, AllocError>
    ensures acts { MatchResult result (λ reply. Acts interpreter.old (Call.At name (action.Into cell)) reply interpreter.new)
        (λ _. interpreter.new ≡ interpreter.old) }
{
    let Some(participant) = interpreter.environment.places.get(name.0) else {
        return Ok(Reply::Invalid);
    };
    if interpreter.environment.cells.get(cell.0).is_none() {
        return Ok(Reply::Invalid);
    }
    interpreter.environment.owners.make_room()?;
    interpreter.environment.world.is_whole();
    let Some(holder) = interpreter.environment.cells.take(cell.0) else {
        unreachable!()
    };
    let held = TakeOut { cell: holder }.at(&mut interpreter.environment.world, &participant.place);
    let name = give_filling(&mut interpreter.environment.owners, held);
    Ok(told_back(name))
}

/// `P copy C G`: a cell with one owner more of what a cell of counted owners holds. `NoCell` and `TooManyOwners` are replies. Refused where memory for
/// the name is, and then nothing has changed.
pub fn copy(
    interpreter: &mut Interpreter,
    name: PlaceName,
    cell: CellName,
    guard: GuardName,
) -> Result<Reply, AllocError>
    ensures acts { MatchResult result (λ reply. Acts interpreter.old (Call.At name (action.Copy cell guard)) reply interpreter.new)
        (λ _. interpreter.new ≡ interpreter.old) }
{
    let Some((participant, held)) = under(
        &interpreter.environment.places,
        &interpreter.environment.guards,
        name,
        guard,
    ) else {
        return Ok(Reply::Invalid);
    };
    if shared_cell_of(&interpreter.environment.cells, cell.0).is_none() {
        return Ok(Reply::Invalid);
    }
    interpreter.environment.cells.make_room()?;
    interpreter.environment.world.is_whole();
    let Some(holder) = shared_cell_of(&interpreter.environment.cells, cell.0) else {
        unreachable!()
    };
    match (CopyCell {
        guard: &held.guard,
        cell: holder,
    })
    .at(&mut interpreter.environment.world, &participant.place)
    {
        Ok(other) => {
            let name = interpreter.environment.cells.give(AnyCell::Share(other));
            Ok(Reply::Cell(CellName(name)))
        }
        Err(refused) => Ok(Reply::Refused(refused)),
    }
}

/// `P share C G`: one owner more of what a cell of counted owners holds, or none. `TooManyOwners` is a reply. Refused where memory for the name is, and
/// then nothing has changed.
pub fn share(
    interpreter: &mut Interpreter,
    name: PlaceName,
    cell: CellName,
    guard: GuardName,
) -> Result<Reply, AllocError>
    ensures acts { MatchResult result (λ reply. Acts interpreter.old (Call.At name (action.Share cell guard)) reply interpreter.new)
        (λ _. interpreter.new ≡ interpreter.old) }
{
    let Some((participant, held)) = under(
        &interpreter.environment.places,
        &interpreter.environment.guards,
        name,
        guard,
    ) else {
        return Ok(Reply::Invalid);
    };
    let Some(holder) = shared_cell_of(&interpreter.environment.cells, cell.0) else {
        return Ok(Reply::Invalid);
    };
    interpreter.environment.owners.make_room()?;
    interpreter.environment.world.is_whole();
    match (ShareHeld {
        guard: &held.guard,
        cell: holder,
    })
    .at(&mut interpreter.environment.world, &participant.place)
    {
        Ok(Some(owner)) => {
            let name = interpreter.environment.owners.give(AnyOwner::Share(owner));
            Ok(Reply::Owner(OwnerName(name)))
        }
        Ok(None) => Ok(Reply::Nothing),
        Err(refused) => Ok(Reply::Refused(refused)),
    }
}
