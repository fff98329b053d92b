//! Whole programs: from a new world to its end.
ghost use Rattle.std.specs.Prelude.{◌≡◌, ℕ, ◌+◌, ◌^◌, ◌<◌, ◌≤◌, MatchResult, length};
ghost use Rattle.sdd_participants.specs.Slab.{IsEmptyAt};
ghost use Rattle.sdd_participants.specs.Tally.{no_items};
ghost use Rattle.sdd_core.specs.Limits.{AreInRange};
ghost use Rattle.sdd_world_model.specs.World.{World, AnyGuardOpen, IsPlaceOf};
ghost use Rattle.sdd_world_model.specs.WorldInvariant.{taken};
ghost use Rattle.sdd_world_model.specs.Out.{out, HoldsNothing};
ghost use Rattle.sdd_world_model.specs.WorldChanges.{made, retired};
ghost use Rattle.sdd_world.specs.Closing.{Accounts};
ghost use Rattle.sdd_world.specs.Place.{index_of};
ghost use Rattle.sdd_world_model.specs.AcceleratedGuards.{HavePassed};

use crate::guards::four_guards;
use crate::items::made_and_read;
use sdd_core::{Limits, Refused};
use sdd_participants::Tally;
use sdd_space::{Item, Owned};
use sdd_world::{Place, World};
use std::alloc::Global;

/// One participant, a few items, no cells to speak of.
pub const SMALL: Limits = Limits {
    participants: 1,
    slots: 4,
    cells: 1,
    jobs: 0,
    nesting: 1,
    tries: 1,
};

/// Ends a world that has everything back.
pub fn ended<T: Item<T>>(world: World<T>) -> Tally
    requires quiet { ¬ (AnyGuardOpen world) }
    requires spent { out world ≡ 0 }
    ensures { Accounts world.tally result }
{
    match world.close() {
        Ok(tally) => tally,
        Err(_) => unreachable!(),
    }
}

/// A world that is closed at once.
pub fn closed_at_once(alloc: Global) -> Result<Tally, Refused>
    ensures { MatchResult result (λ tally. tally ≡ no_items) (λ e. e ≡ Refused.NoMemory) }
{
    let world: World<u64> = World::new(alloc, SMALL)?;
    Ok(ended(world))
}

/// One item on its whole way: made, read, retired, and reclaimed by four accelerated guards, in a world that is closed.
pub fn one_item(alloc: Global) -> Result<Tally, Refused>
    ensures { MatchResult result
        (λ tally. tally ≡ record { made = 1; reclaimed = 1; in_place = 0 })
        (λ e. e ≡ Refused.NoMemory) }
{
    let mut world: World<u64> = World::new(alloc, SMALL)?;
    match world.register() {
        Ok(place) => {
            pass_a_number(&mut world, &place);
            four_guards(&mut world, &place);
            Ok(ended(world))
        }
        Err(refused) => {
            ended(world);
            Err(refused)
        }
    }
}

/// Makes a number, reads it and retires it.
fn pass_a_number(world: &mut World<u64>, place: &Place)
    requires place { IsPlaceOf world.old (index_of place.now) }
    requires room { taken world.old < length world.old.standings }
    requires few { world.old.tally.made + 1 < 2 ^ 128 }
    ensures { HavePassed 1 world.old world.new }
{
    world.items_pass();
    make_read_and_retire(world, place);
}

fn make_read_and_retire(world: &mut World<u64>, place: &Place)
    requires place { IsPlaceOf world.old (index_of place.now) }
    requires room { taken world.old < length world.old.standings }
    ensures { (k : ℕ) × IsEmptyAt world.old.standings k × (world.new ≡ retired (made world.old k 7) (index_of place.now) k) }
{
    world.counts_what_is_out();
    let mut turn = world.at(place);
    match made_and_read(7, &mut turn) {
        Ok(read) => prove!(read == 7),
        Err(_) => unreachable!(),
    }
}

/// The same for any number of values, up to the slots, that hold nothing.
///
/// `NoMemory` where the memory for the world was refused; the values come back.
pub fn many_items<T: Item<T>>(
    alloc: Global,
    limits: Limits,
    values: Vec<T>,
) -> Result<Tally, (Vec<T>, Refused)>
    requires limits { AreInRange limits }
    requires few { length values.items ≤ limits.slots }
    requires plain { HoldsNothing T.holds }
    ensures { MatchResult result
        (λ tally. tally ≡ record { made = length values.items; reclaimed = length values.items; in_place = 0 })
        (λ e. (e.0 ≡ values) × (e.1 ≡ Refused.NoMemory)) }
{
    let mut world = match World::new(alloc, limits) {
        Ok(world) => world,
        Err(refused) => return Err((values, refused)),
    };
    match world.register() {
        Ok(place) => {
            pass_values(&mut world, &place, values);
            four_guards(&mut world, &place);
            Ok(ended(world))
        }
        Err(refused) => {
            ended(world);
            Err((values, refused))
        }
    }
}

/// Makes and retires an item of each value.
fn pass_values<T: Item<T>>(world: &mut World<T>, place: &Place, mut values: Vec<T>)
    requires place { IsPlaceOf world.old (index_of place.now) }
    requires room { taken world.old + length values.items ≤ length world.old.standings }
    requires few { world.old.tally.made + length values.items + 1 < 2 ^ 128 }
    requires plain { HoldsNothing T.holds }
    ensures { HavePassed (length values.items) world.old world.new }
{
    world.items_pass();
    while let Some(value) = values.pop() {
        pass_a_value(world, place, value);
    }
    values.destroy_empty();
}

/// Makes an item of a value and retires it.
fn pass_a_value<T: Item<T>>(world: &mut World<T>, place: &Place, value: T)
    requires place { IsPlaceOf world.old (index_of place.now) }
    requires room { taken world.old < length world.old.standings }
    requires few { world.old.tally.made + 1 < 2 ^ 128 }
    requires plain { HoldsNothing T.holds }
    ensures { HavePassed 1 world.old world.new }
{
    world.items_pass();
    make_and_retire(world, place, value);
}

fn make_and_retire<T: Item<T>>(world: &mut World<T>, place: &Place, value: T)
    requires place { IsPlaceOf world.old (index_of place.now) }
    requires room { taken world.old < length world.old.standings }
    requires plain { HoldsNothing T.holds }
    ensures { (k : ℕ) × IsEmptyAt world.old.standings k × (world.new ≡ retired (made world.old k value) (index_of place.now) k) }
{
    world.counts_what_is_out();
    let mut turn = world.at(place);
    match Owned::new(value, &mut turn) {
        Ok(owner) => owner.retire(&mut turn),
        Err(_) => unreachable!(),
    }
}
