//! The operations on containers, in a world of one participant.
ghost use Rattle.std.specs.Prelude.{◌≡◌, ◌<◌, [], Err};
ghost use Rattle.sdd_core.specs.Limits.{AreInRange};

use crate::bags;
use crate::lists::{Entry, work_with_list};
use crate::operation::{Bagging, Listing};
use sdd_core::{Limits, Refused};
use sdd_participants::Tally;
use sdd_world::World;
use std::alloc::Global;

/// Does that with a list that often, and answers the tally with which the world is closed, and the sum of the numbers that were popped or seen.
///
/// No clause says how many entries those are, or when one is refused. Where the world can't be closed, it is let go of, and that is answered.
pub fn lists(
    alloc: Global,
    limits: Limits,
    listing: Listing,
    turns: u64,
) -> Result<(Tally, u64), Refused>
    ensures limits { ¬ (AreInRange limits) → result ≡ Err Refused.BadLimits }
{
    let mut world: World<Entry> = World::new(alloc, limits)?;
    let done = with_lists(&mut world, listing, turns);
    match world.close() {
        Ok(tally) => Ok((tally, done?)),
        Err((world, refused)) => {
            world.leak();
            Err(refused)
        }
    }
}

fn with_lists(world: &mut World<Entry>, listing: Listing, turns: u64) -> Result<u64, Refused>
    requires new { world.old.time.places ≡ [] }
    requires nests { 0 < world.old.time.nesting }
{
    let place = world.register()?;
    let mut turn = world.at(&place);
    work_with_list(&mut turn, listing, turns)
}

/// Does that with a bag that often, and answers the tally with which the world is closed, and the sum of the numbers that came out.
///
/// No clause says how many storages those are, or when one is refused. Where the world can't be closed, it is let go of, and that is answered.
pub fn bags(
    alloc: Global,
    limits: Limits,
    bagging: Bagging,
    turns: u64,
) -> Result<(Tally, u64), Refused>
    ensures limits { ¬ (AreInRange limits) → result ≡ Err Refused.BadLimits }
{
    let mut world: World<bags::Entry> = World::new(alloc, limits)?;
    let done = with_bags(&mut world, bagging, turns);
    match world.close() {
        Ok(tally) => Ok((tally, done?)),
        Err((world, refused)) => {
            world.leak();
            Err(refused)
        }
    }
}

fn with_bags(world: &mut World<bags::Entry>, bagging: Bagging, turns: u64) -> Result<u64, Refused>
    requires new { world.old.time.places ≡ [] }
    requires nests { 0 < world.old.time.nesting }
{
    let place = world.register()?;
    let mut turn = world.at(&place);
    bags::work_with_bag(&mut turn, bagging, turns)
}
