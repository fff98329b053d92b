//! The operations in a world of one participant.
ghost use Rattle.std.specs.Prelude.{◌≡◌, [], Err, IfOk};
ghost use Rattle.sdd_core.specs.Limits.{AreInRange};
ghost use Rattle.sdd_world_model.specs.Out.{out};
ghost use Rattle.sdd_space.specs.CallerId.{IsExact, IsSeated};
ghost use Rattle.sdd_world_model.specs.WorldInvariant.{IsCounted};
ghost use Rattle.sdd_world_model.specs.World.{AnyGuardOpen};
ghost use Rattle.sdd_bench.specs.Leaves.{Leaves};

use crate::operation::Guarding;
use crate::{cells, turns};
use sdd_core::{Limits, Refused};
use sdd_participants::{Idle, Tally};
use sdd_space::Space;
use sdd_world::World;
use std::alloc::Global;

/// What is done in the world.
#[derive(Clone, Copy)]
pub enum Work {
    Guards(Guarding),
    Items,
    Jobs,
    Reads,
    Looks,
    Loads,
    Shares,
    Raws,
    Swaps,
}

/// Does the work that often, and answers the tally with which the world is closed, and the sum of what owners found.
///
/// No clause says how many items those are, or when a guard is refused: the loops, written for every space, tell of guards and of what is out alone.
pub fn run(alloc: Global, limits: Limits, work: Work, turns: u64) -> Result<(Tally, u64), Refused>
    ensures limits { ¬ (AreInRange limits) → result ≡ Err Refused.BadLimits }
    ensures tally { IfOk result (λ done. IsCounted done.0 0) }
{
    let mut world = World::new(alloc, limits)?;
    let done = in_world(&mut world, work, turns);
    match world.close() {
        Ok(tally) => Ok((tally, done?)),
        Err(_) => unreachable!(),
    }
}

fn in_world(world: &mut World<u64>, work: Work, turns: u64) -> Result<u64, Refused>
    requires { world.old.time.places ≡ [] }
    ensures quiet { ¬ (AnyGuardOpen world.new) }
    ensures out { out world.new ≡ out world.old }
{
    let place = world.register()?;
    let mut turn = world.at(&place);
    worked(&mut turn, work, turns)
}

#[inline(always)]
fn worked<S: Space<u64, Job = Idle>>(space: &mut S, work: Work, turns: u64) -> Result<u64, Refused>
    requires seated { IsSeated (S.caller space.old) }
    requires exact { IsExact (S.caller space.old) }
    ensures { Leaves (S.caller space.old) (S.own space.old) (S.world space.old) (S.caller space.new) (S.own space.new) (S.world space.new) }
{
    match work {
        Work::Guards(guarding) => turns::guards(space, guarding, turns)?,
        Work::Items => turns::items(space, turns)?,
        Work::Jobs => turns::jobs(space, turns)?,
        Work::Reads => return turns::looks(space, turns),
        Work::Looks => return turns::sights(space, false, turns),
        Work::Loads => return cells::loads(space, turns),
        Work::Shares => turns::shares(space, turns)?,
        Work::Raws => turns::raws(space, turns)?,
        Work::Swaps => cells::swaps(space, turns)?,
    }
    Ok(0)
}
