//! What participants do with guards.
ghost use Rattle.std.specs.Prelude.{◌≡◌, ◌<◌, IfOk, MatchResult};
ghost use Rattle.sdd_core.specs.Epoch.{epoch_of};
ghost use Rattle.sdd_core.specs.declared.refused.Refused.TheVariants as refused;
ghost use Rattle.sdd_participants.specs.EpochState.{CanNest};
ghost use Rattle.sdd_space.specs.Guard.{reader_of};
ghost use Rattle.sdd_world_model.specs.WorldChanges.{closed, opened, deferred};
ghost use Rattle.sdd_script_model.specs.Val.{Val, holdings_of};
ghost use Rattle.sdd_interpreter.specs.Guards.{Uses};
ghost use Rattle.sdd_participants.specs.Slab.{IsEmptyAt, IsFull};
ghost use Rattle.sdd_world_model.specs.World.{World, IsPlaceOf};
ghost use Rattle.sdd_world.specs.Place.{index_of};

use crate::commands::step::GuardCommand;
use sdd_core::{Epoch, Refused};
use sdd_participants::Idle;
use sdd_script_model::Val;
use sdd_script_text::Reply;
use sdd_space::{Deferrals, Guard, Guards};
use sdd_world::{Place, World};

/// A new guard, and the epoch then.
pub struct OpenGuard;

impl GuardCommand for OpenGuard {
    type Out = Result<(Guard, Epoch), Refused>;

    ghost asks = { λ _ _. Unit {0} };

    ghost does = { λ _ reader place before result after. (IfOk result (λ given. reader_of given.0 ≡ reader))
        × MatchResult result
        (λ given. CanNest before.time place × (after ≡ opened holdings_of before place) × (given.1 ≡ epoch_of after.time.count))
        (λ e. (e ≡ refused.TooManyGuards) × ¬ (CanNest before.time place) × (after ≡ before)) };

    fn done<S: Guards<Val>>(self, s: &mut S) -> Result<(Guard, Epoch), Refused> {
        let OpenGuard = self;
        let guard = Guard::new(s)?;
        let epoch = guard.epoch(s);
        Ok((guard, epoch))
    }
}

/// What a guard that stays open is used for.
#[derive(Clone, Copy)]
pub enum GuardUse {
    /// Shows its epoch.
    Epoch,
    /// Shows whether something may wait with the participant.
    Garbage,
    /// The participant has garbage from now on.
    Set,
    /// The participant's next outermost close scans.
    Accelerate,
}

/// A guard is used, and stays open.
pub struct UseGuard<'a> {
    pub guard: &'a Guard,
    pub usage: GuardUse,
}

impl GuardCommand for UseGuard<'_> {
    type Out = Reply;

    ghost asks = { λ _ _. Unit {0} };

    ghost does = { λ step _ place before reply after. Uses step.usage place before reply after };

    fn done<S: Guards<Val>>(self, s: &mut S) -> Reply {
        let UseGuard { guard, usage } = self;
        match usage {
            GuardUse::Epoch => Reply::Epoch(guard.epoch(s)),
            GuardUse::Garbage => Reply::Truth(guard.has_garbage(s)),
            GuardUse::Set => {
                guard.set_has_garbage(s);
                Reply::Done
            }
            GuardUse::Accelerate => {
                guard.accelerate(s);
                Reply::Done
            }
        }
    }
}

/// The guard, which is the participant's, is closed.
pub struct CloseGuard {
    pub guard: Guard,
}

impl GuardCommand for CloseGuard {
    type Out = ();

    ghost asks = { λ step reader. reader_of step.guard ≡ reader };

    ghost does = { λ _ _ place before _ after. after ≡ closed before place };

    fn done<S: Guards<Val>>(self, s: &mut S) {
        let CloseGuard { guard } = self;
        guard.close(s);
    }
}

/// A job that does nothing waits with the participant, in the place of the table of jobs that is told.
pub fn defer_at(world: &mut World<Val>, place: &Place) -> Result<u32, Refused>
    requires { IsPlaceOf world.old (index_of place.now) }
    ensures deferred { MatchResult result
        (λ number. IsEmptyAt world.old.jobs number × (world.new ≡ deferred world.old (index_of place.now) number))
        (λ e. IsFull world.old.jobs × (e ≡ Refused.NoJob) × (world.new ≡ world.old)) }
{
    let mut turn = world.at(place);
    match turn.defer_execute(Idle) {
        Ok(number) => Ok(number),
        Err((_job, refused)) => Err(refused),
    }
}
