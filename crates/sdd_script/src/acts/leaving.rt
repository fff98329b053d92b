//! The end of a script's world.
ghost use Rattle.std.specs.Prelude.{◌≡◌, ◌≢◌, ◌↔◌, ◌+◌, ◌<◌, ℕ, IsTrue, None, Some, slice_index_or};
ghost use Rattle.sdd_participants.specs.declared.standing.Standing.TheVariants.{Raw};
ghost use Rattle.sdd_space.specs.CallerId.{reader_at};
ghost use Rattle.sdd_space.specs.Guard.{reader_of};
ghost use Rattle.sdd_world_model.specs.OwnerOrCell.{IsOf};
ghost use Rattle.sdd_world_model.specs.World.{IsPlaceOf, standing_at};
ghost use Rattle.sdd_world.specs.Place.{index_of};
ghost use Rattle.sdd_script_model.specs.Sound.{IsSound};
ghost use Rattle.sdd_interpreter.specs.Interpreter.{state_of};
ghost use Rattle.sdd_interpreter.specs.Owners.{owner_holding};
ghost use Rattle.sdd_script.specs.Leaving.{AreSpent, GivesUp, GoesOn, HasMade, IsEnding, IsSpent, KeepsTold, SpendsGuard};

use crate::acts::guards::close_guard;
use sdd_interpreter::commands::bags::bag_closed_at;
use sdd_interpreter::commands::cells::CloseCell;
use sdd_interpreter::commands::guards::{CloseGuard, OpenGuard};
use sdd_interpreter::commands::owners::{ReleaseOwner, RetireItem};
use sdd_interpreter::commands::queues::CloseQueue;
use sdd_interpreter::commands::raw::ComeBack;
use sdd_interpreter::commands::stacks::CloseStack;
use sdd_interpreter::commands::{GuardCommand, ItemCommand, ListCommand, RawCommand};
use sdd_interpreter::holding::AnyOwner;
use sdd_interpreter::{Environment, Interpreter, Lists};
use sdd_participants::Tally;
use sdd_script_model::Val;
use sdd_script_text::{GuardName, PlaceName};
use sdd_space::Guard;
use sdd_world::inner::{leave_collector, some_place};
use sdd_world::{Place, World};

/// Every guard is closed, and all that has a name is given up at the place of one participant, with every item that is out as raw; and then the world ends: all
/// that waits is reclaimed.
pub fn close(mut interpreter: Interpreter) -> Tally
    ensures made { result.made ≡ interpreter.world.tally.made }
    ensures in_place { result.in_place ≡ interpreter.world.tally.in_place }
    ensures balance { result.reclaimed + result.in_place ≡ result.made }
{
    spend_guards(&mut interpreter);
    let Interpreter { mut environment } = interpreter;
    spend_collectors(&mut environment);
    spend_names(&mut environment);
    let Environment {
        world,
        places: _,
        guards,
        owners,
        cells,
        collectors,
        lists,
        log: _,
    } = environment;
    let Lists {
        queues,
        stacks,
        bags,
    } = lists;
    guards.destroy_spent();
    owners.destroy_spent();
    cells.destroy_spent();
    collectors.destroy_spent();
    queues.destroy_spent();
    stacks.destroy_spent();
    bags.destroy_spent();
    match world.close() {
        Ok(tally) => tally,
        Err(_) => unreachable!(),
    }
}

/// Each guard that is open is closed.
fn spend_guards(interpreter: &mut Interpreter)
    ensures spent { (g : ℕ) → slice_index_or interpreter.new.guards g None ≡ None }
    ensures tally { interpreter.new.world.tally ≡ interpreter.old.world.tally }
{
    for guard in 0..interpreter.environment.guards.entries.len() {
        spend_guard(interpreter, guard as u64);
    }
}

fn spend_guard(interpreter: &mut Interpreter, guard: u64)
    ensures { SpendsGuard guard interpreter.old interpreter.new }
{
    if let Some(held) = interpreter.environment.guards.get(guard) {
        let name = held.participant;
        close_guard(interpreter, PlaceName(name), GuardName(guard));
    }
}

/// Each collector that isn't spent is, where no guard is open: its cell is free, and what waits for it goes with the world.
fn spend_collectors(environment: &mut Environment)
    requires sound { IsSound (state_of environment.old) }
    requires shut { AreSpent environment.old.guards.entries.items }
    ensures sound { IsSound (state_of environment.new) }
    ensures told { KeepsTold environment.old.world environment.new.world }
    ensures spent { AreSpent environment.new.collectors.entries.items }
    ensures rest { environment.new ≡ record environment.old { world = environment.new.world; collectors = environment.new.collectors } }
{
    for collector in 0..environment.collectors.entries.len() {
        environment.world.is_whole();
        let Some(collector) = environment.collectors.take(collector as u64) else {
            continue;
        };
        leave_collector(&mut environment.world, collector);
    }
}

/// All else that has a name is given up, under a guard at the place of some participant, or at that of one that has ended, which is live again with what it
/// left. Where nothing was made there may be no such place.
fn spend_names(environment: &mut Environment)
    requires sound { IsSound (state_of environment.old) }
    requires shut { AreSpent environment.old.guards.entries.items }
    requires collectors { AreSpent environment.old.collectors.entries.items }
    ensures spent { IsSpent environment.new }
    ensures shut { AreSpent environment.new.guards.entries.items }
    ensures told { KeepsTold environment.old.world environment.new.world }
{
    environment.world.is_whole();
    if !has_made(environment) {
        return;
    }
    let place = some_place(&mut environment.world);
    environment.world.is_whole();
    let Ok((guard, _)) = OpenGuard.at(&mut environment.world, &place) else {
        unreachable!()
    };
    spend_queues(environment, &place, &guard);
    spend_stacks(environment, &place, &guard);
    spend_bags(environment, &place, &guard);
    spend_owners(environment, &place);
    spend_cells(environment, &place);
    give_up_raw_items(environment, &place);
    environment.world.is_whole();
    CloseGuard { guard }.at(&mut environment.world, &place);
    environment.world.is_whole();
}

/// An item, a cell, a queue, a stack or a bag was made.
fn has_made(environment: &Environment) -> bool
    ensures { IsTrue result ↔ HasMade environment.now }
{
    !(environment.log.slots.is_empty()
        && environment.cells.entries.is_empty()
        && environment.lists.queues.entries.is_empty()
        && environment.lists.stacks.entries.is_empty()
        && environment.lists.bags.entries.is_empty())
}

/// Each queue that isn't spent is: it is closed under the guard.
fn spend_queues(environment: &mut Environment, place: &Place, guard: &Guard)
    requires ending { IsEnding environment.old (index_of place.now) }
    requires reader { reader_of guard.now ≡ reader_at environment.old.world (index_of place.now) }
    ensures goes { GoesOn environment.old environment.new (index_of place.now) }
    ensures spent { AreSpent environment.new.lists.queues.entries.items }
    ensures rest { environment.new ≡ record environment.old { world = environment.new.world; lists = record environment.old.lists { queues = environment.new.lists.queues } } }
{
    for queue in 0..environment.lists.queues.entries.len() {
        environment.world.is_whole();
        let Some(queue) = environment.lists.queues.take(queue as u64) else {
            continue;
        };
        CloseQueue { queue, guard }.at(&mut environment.world, place);
    }
}

/// Each stack that isn't spent is: it is closed under the guard.
fn spend_stacks(environment: &mut Environment, place: &Place, guard: &Guard)
    requires ending { IsEnding environment.old (index_of place.now) }
    requires reader { reader_of guard.now ≡ reader_at environment.old.world (index_of place.now) }
    ensures goes { GoesOn environment.old environment.new (index_of place.now) }
    ensures spent { AreSpent environment.new.lists.stacks.entries.items }
    ensures rest { environment.new ≡ record environment.old { world = environment.new.world; lists = record environment.old.lists { stacks = environment.new.lists.stacks } } }
{
    for stack in 0..environment.lists.stacks.entries.len() {
        environment.world.is_whole();
        let Some(stack) = environment.lists.stacks.take(stack as u64) else {
            continue;
        };
        CloseStack { stack, guard }.at(&mut environment.world, place);
    }
}

/// Each bag that isn't spent is: it is closed under the guard.
fn spend_bags(environment: &mut Environment, place: &Place, guard: &Guard)
    requires ending { IsEnding environment.old (index_of place.now) }
    requires reader { reader_of guard.now ≡ reader_at environment.old.world (index_of place.now) }
    ensures goes { GoesOn environment.old environment.new (index_of place.now) }
    ensures spent { AreSpent environment.new.lists.bags.entries.items }
    ensures rest { environment.new ≡ record environment.old { world = environment.new.world; lists = record environment.old.lists { bags = environment.new.lists.bags } } }
{
    for bag in 0..environment.lists.bags.entries.len() {
        environment.world.is_whole();
        let Some(bag) = environment.lists.bags.take(bag as u64) else {
            continue;
        };
        bag_closed_at(&mut environment.world, place, bag, guard);
    }
}

/// Each owner that isn't spent is: it is given up.
fn spend_owners(environment: &mut Environment, place: &Place)
    requires { IsEnding environment.old (index_of place.now) }
    ensures goes { GoesOn environment.old environment.new (index_of place.now) }
    ensures spent { AreSpent environment.new.owners.entries.items }
    ensures rest { environment.new ≡ record environment.old { world = environment.new.world; owners = environment.new.owners } }
{
    for owner in 0..environment.owners.entries.len() {
        environment.world.is_whole();
        let Some(owner) = environment.owners.take(owner as u64) else {
            continue;
        };
        give_up(&mut environment.world, place, owner);
    }
}

/// An owner is given up at the participant's place.
fn give_up(world: &mut World<Val>, place: &Place, owner: AnyOwner)
    requires place { IsPlaceOf world.old (index_of place.now) }
    requires home { IsOf world.old.home (owner_holding owner) }
    ensures { GivesUp world.old (index_of place.now) owner world.new }
{
    match owner {
        AnyOwner::Sole(owner) => RetireItem { owner }.at(world, place),
        AnyOwner::Share(owner) => {
            ReleaseOwner { owner }.at(world, place);
        }
    }
}

/// Each cell that isn't spent is: it is closed, and what it held is given up.
fn spend_cells(environment: &mut Environment, place: &Place)
    requires { IsEnding environment.old (index_of place.now) }
    ensures goes { GoesOn environment.old environment.new (index_of place.now) }
    ensures spent { AreSpent environment.new.cells.entries.items }
    ensures rest { environment.new ≡ record environment.old { world = environment.new.world; cells = environment.new.cells } }
{
    for cell in 0..environment.cells.entries.len() {
        environment.world.is_whole();
        let Some(cell) = environment.cells.take(cell as u64) else {
            continue;
        };
        CloseCell { cell }.at(&mut environment.world, place);
    }
}

/// Each item that is out as raw is given up.
fn give_up_raw_items(environment: &mut Environment, place: &Place)
    requires { IsEnding environment.old (index_of place.now) }
    ensures goes { GoesOn environment.old environment.new (index_of place.now) }
    ensures gone { (k : ℕ) → standing_at environment.new.world k ≢ Some Raw }
    ensures rest { environment.new ≡ record environment.old { world = environment.new.world } }
{
    for slot in 0..environment.log.names.len() {
        give_up_raw_item(environment, place, slot as u32);
    }
}

/// The item in a slot is given up if it is out as raw; no other goes raw.
fn give_up_raw_item(environment: &mut Environment, place: &Place, slot: u32)
    requires { IsEnding environment.old (index_of place.now) }
    ensures goes { GoesOn environment.old environment.new (index_of place.now) }
    ensures gone { standing_at environment.new.world slot ≢ Some Raw }
    ensures others { (k : ℕ) → standing_at environment.old.world k ≢ Some Raw → standing_at environment.new.world k ≢ Some Raw }
    ensures rest { environment.new ≡ record environment.old { world = environment.new.world } }
{
    environment.world.is_whole();
    if let Some(owner) = (ComeBack { slot }).at(&mut environment.world, place) {
        RetireItem { owner }.at(&mut environment.world, place);
    }
}
