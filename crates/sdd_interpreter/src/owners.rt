//! Names of owners and cells: what they stand for, and how they are spent and given.
ghost use Rattle.std.specs.Prelude.{◌≡◌, ◌≢◌, ℕ, IsTrue, ◌↔◌, None, Some, MatchOption, map, slice_index_or, slice_set, vec_capacity, ◌<◌, length};
ghost use Rattle.sdd_world_model.specs.World.{World, value_at};
ghost use Rattle.sdd_world_model.specs.OwnerOrCell.{IsOf};
ghost use Rattle.std.specs.Option.{option_map};
ghost use Rattle.sdd_interpreter.specs.Owners.{owner_holding, filling_holding};
ghost use Rattle.sdd_interpreter.specs.Environment.{FitsIn, Fills, IsMissing, BecomesBody, IsGiven, given_back, CanPutBack, owners_back};
ghost use Rattle.sdd_script_model.specs.ScriptState.{slot_of};
ghost use Rattle.sdd_script_model.specs.Val.{Val};
ghost use Rattle.sdd_space.specs.Owned.{Owned};
ghost use Rattle.sdd_space.specs.Shared.{AtomicShared, Shared};

use crate::holding::{AnyCell, AnyOwner, CellOwner};
use crate::name_table::NameTable;
use sdd_script_model::{Body, OwnerKind, Val};
use sdd_script_text::{OwnerName, Reply, Value};
use sdd_space::{AtomicShared, Owned, Shared};
use sdd_world::World;

/// The value of an owner's item.
pub fn value_of<'a>(owner: &'a AnyOwner, world: &'a World<Val>) -> &'a Val
    requires home { IsOf world.now.home (owner_holding owner.now) }
    ensures { (k : ℕ) × (slot_of (Some (owner_holding owner.now)) ≡ Some k) × (value_at world.now k ≡ Some result.now) }
{
    match owner {
        AnyOwner::Sole(owner) => owner.get(world),
        AnyOwner::Share(owner) => owner.get(world),
    }
}

/// The shared owner of this name, if it is one.
pub fn shared_of(owners: &NameTable<AnyOwner>, name: u64) -> Option<&Shared<Val>>
    ensures { MatchOption result
        ((owner : Shared Val) → slice_index_or owners.now.entries.items name None ≢ Some (AnyOwner.Share owner))
        (λ owner. slice_index_or owners.now.entries.items name None ≡ Some (AnyOwner.Share owner.now)) }
{
    match owners.get(name)? {
        AnyOwner::Share(owner) => Some(owner),
        AnyOwner::Sole(_) => None,
    }
}

/// Spends the name of an only owner, if it is one.
pub fn take_sole(owners: &mut NameTable<AnyOwner>, name: u64) -> Option<Owned<Val>>
    ensures { MatchOption result
        (((owner : Owned Val) → slice_index_or owners.old.entries.items name None ≢ Some (AnyOwner.Sole owner)) × (owners.new ≡ owners.old))
        (λ owner. (slice_index_or owners.old.entries.items name None ≡ Some (AnyOwner.Sole owner))
        × (owners.new.entries.items ≡ slice_set owners.old.entries.items name None)) }
{
    match owners.get(name) {
        Some(AnyOwner::Sole(_)) => {}
        _ => return None,
    }
    match owners.take(name) {
        Some(AnyOwner::Sole(owner)) => Some(owner),
        _ => unreachable!(),
    }
}

/// Spends the name of a shared owner, if it is one.
pub fn take_shared(owners: &mut NameTable<AnyOwner>, name: u64) -> Option<Shared<Val>>
    ensures { MatchOption result
        (((owner : Shared Val) → slice_index_or owners.old.entries.items name None ≢ Some (AnyOwner.Share owner)) × (owners.new ≡ owners.old))
        (λ owner. (slice_index_or owners.old.entries.items name None ≡ Some (AnyOwner.Share owner))
        × (owners.new.entries.items ≡ slice_set owners.old.entries.items name None)) }
{
    match owners.get(name) {
        Some(AnyOwner::Share(_)) => {}
        _ => return None,
    }
    match owners.take(name) {
        Some(AnyOwner::Share(owner)) => Some(owner),
        _ => unreachable!(),
    }
}

/// What goes into a cell for such owners is none, or the name of one of them.
pub fn fits(owners: &NameTable<AnyOwner>, ownership: OwnerKind, name: Option<OwnerName>) -> bool
    ensures { IsTrue result ↔ FitsIn (map (option_map owner_holding) owners.now.entries.items) ownership name }
{
    let Some(name) = name else {
        return true;
    };
    match owners.get(name.0) {
        Some(AnyOwner::Sole(_)) => ownership == OwnerKind::Sole,
        Some(AnyOwner::Share(_)) => ownership == OwnerKind::Shared,
        None => false,
    }
}

/// Takes what goes into a cell for such owners. An owner's name is spent by it.
pub fn take_filling(
    owners: &mut NameTable<AnyOwner>,
    ownership: OwnerKind,
    name: Option<OwnerName>,
) -> CellOwner
    requires { FitsIn (map (option_map owner_holding) owners.old.entries.items) ownership name }
    ensures filled { Fills (map (option_map owner_holding) owners.old.entries.items) ownership name
        (map (option_map owner_holding) owners.new.entries.items) result }
    ensures room { vec_capacity owners.new.entries ≡ vec_capacity owners.old.entries }
{
    let Some(name) = name else {
        return match ownership {
            OwnerKind::Sole => CellOwner::Sole(None),
            OwnerKind::Shared => CellOwner::Share(None),
        };
    };
    match owners.take(name.0) {
        Some(AnyOwner::Sole(owner)) => CellOwner::Sole(Some(owner)),
        Some(AnyOwner::Share(owner)) => CellOwner::Share(Some(owner)),
        None => unreachable!(),
    }
}

/// What a line would put into an item is not there.
pub fn is_missing(owners: &NameTable<AnyOwner>, value: Value) -> bool
    ensures { IsTrue result ↔ IsMissing owners.now.entries.items value }
{
    match value {
        Value::Number(_) => false,
        Value::Of(owner) => owners.get(owner.0).is_none(),
    }
}

/// What a line puts into an item. An owner's name is spent by it.
pub fn body_from(owners: &mut NameTable<AnyOwner>, value: Value) -> Option<Body>
    ensures room { vec_capacity owners.new.entries ≡ vec_capacity owners.old.entries }
    ensures becomes { MatchOption result (IsMissing owners.old.entries.items value × (owners.new.entries.items ≡ owners.old.entries.items))
        (λ body. BecomesBody owners.old.entries.items value owners.new.entries.items body) }
{
    match value {
        Value::Number(number) => Some(Body::Number(number)),
        Value::Of(owner) => match owners.take(owner.0)? {
            AnyOwner::Sole(owner) => Some(Body::of_sole(owner)),
            AnyOwner::Share(owner) => Some(Body::of_shared(owner)),
        },
    }
}

/// What came out of a cell gets the next name, if it is an owner.
pub fn give_filling(owners: &mut NameTable<AnyOwner>, filling: CellOwner) -> Option<OwnerName>
    requires room { length owners.old.entries.items < vec_capacity owners.old.entries }
    ensures { IsGiven (map (option_map owner_holding) owners.old.entries.items) (filling_holding filling)
        (map (option_map owner_holding) owners.new.entries.items) result }
{
    match filling {
        CellOwner::Sole(Some(owner)) => Some(OwnerName(owners.give(AnyOwner::Sole(owner)))),
        CellOwner::Share(Some(owner)) => Some(OwnerName(owners.give(AnyOwner::Share(owner)))),
        CellOwner::Sole(None) | CellOwner::Share(None) => None,
    }
}

/// The name of the owner that came out of a cell, as a reply.
pub fn told_back(name: Option<OwnerName>) -> Reply
    ensures { result ≡ given_back name }
{
    match name {
        Some(name) => Reply::Owner(name),
        None => Reply::Nothing,
    }
}

/// What did not go into a cell stands under its name again, if it is an owner.
pub fn put_back(owners: &mut NameTable<AnyOwner>, name: Option<OwnerName>, filling: CellOwner)
    requires spent { CanPutBack (map (option_map owner_holding) owners.old.entries.items) name (filling_holding filling) }
    ensures { map (option_map owner_holding) owners.new.entries.items ≡ owners_back (map (option_map owner_holding) owners.old.entries.items) name
        (filling_holding filling) }
{
    let Some(name) = name else {
        return match filling {
            CellOwner::Sole(None) | CellOwner::Share(None) => {}
            _ => unreachable!(),
        };
    };
    match filling {
        CellOwner::Sole(Some(owner)) => owners.put_back(name.0, AnyOwner::Sole(owner)),
        CellOwner::Share(Some(owner)) => owners.put_back(name.0, AnyOwner::Share(owner)),
        CellOwner::Sole(None) | CellOwner::Share(None) => unreachable!(),
    }
}

/// The cell of this name, if it is one for shared owners.
pub fn shared_cell_of(cells: &NameTable<AnyCell>, name: u64) -> Option<&AtomicShared<Val>>
    ensures { MatchOption result
        ((cell : AtomicShared Val) → slice_index_or cells.now.entries.items name None ≢ Some (AnyCell.Share cell))
        (λ cell. slice_index_or cells.now.entries.items name None ≡ Some (AnyCell.Share cell.now)) }
{
    match cells.get(name)? {
        AnyCell::Share(cell) => Some(cell),
        AnyCell::Sole(_) => None,
    }
}
