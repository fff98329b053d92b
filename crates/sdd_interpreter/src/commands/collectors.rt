//! What participants do with collectors.
ghost use Rattle.std.specs.Prelude.{◌≡◌, IfErr, IfOk, MatchResult};
ghost use Rattle.sdd_core.specs.declared.refused.Refused.TheVariants as refused;
ghost use Rattle.sdd_participants.specs.Slab.{IsEmptyAt, IsFull};
ghost use Rattle.sdd_world_model.specs.Cells.{null_pointer};
ghost use Rattle.sdd_world_model.specs.Collecting.{collector_closed};
ghost use Rattle.sdd_space.specs.Collector.{collector_of, cells_home};
ghost use Rattle.sdd_space.specs.Guard.{reader_of};
ghost use Rattle.sdd_world_model.specs.OwnerOrCell.{IsOf};
ghost use Rattle.sdd_world_model.specs.Out.{IsNullCell};
ghost use Rattle.sdd_world_model.specs.WorldChanges.{pointing};
ghost use Rattle.sdd_world_model.specs.World.{AnyGuardOpen};
ghost use Rattle.sdd_script_model.specs.Collecting.{Collects};
ghost use Rattle.sdd_script_model.specs.Val.{Val, holdings_of};
ghost use Rattle.sdd_interpreter.specs.Owners.{owner_holding};

use crate::commands::step::CollectorCommand;
use crate::holding::AnyOwner;
use sdd_core::Refused;
use sdd_script_model::Val;
use sdd_script_text::Reply;
use sdd_space::{Collectors, Guard, PrivateCollector, RawCells};

/// A new collector, for which nothing waits.
pub struct MakeCollector;

impl CollectorCommand for MakeCollector {
    type Out = Result<PrivateCollector<Val>, Refused>;

    ghost asks = { λ _ _ _ _. Unit {0} };

    ghost does = { λ _ home _ before result after. (IfOk result (λ collector. cells_home collector ≡ home.cells))
        × MatchResult result
        (λ collector. IsEmptyAt before.cells (collector_of collector) × (after ≡ pointing before (collector_of collector) null_pointer))
        (λ e. IsFull before.cells × (e ≡ refused.NoCell) × (after ≡ before)) };

    fn done<S: RawCells<Val> + Collectors<Val>>(
        self,
        s: &mut S,
    ) -> Result<PrivateCollector<Val>, Refused> {
        let MakeCollector = self;
        PrivateCollector::new(s)
    }
}

/// An owner is given to a collector, and its item waits for that if it was the last; the reply tells of a shared one which.
pub struct GiveToCollector<'a> {
    pub collector: &'a PrivateCollector<Val>,
    pub owner: AnyOwner,
    /// One of the participant's.
    pub guard: &'a Guard,
}

impl CollectorCommand for GiveToCollector<'_> {
    type Out = Reply;

    ghost asks = { λ step home reader _. (cells_home step.collector.now ≡ home.cells) × IsOf home (owner_holding step.owner)
        × (reader_of step.guard.now ≡ reader) };

    ghost does = { λ step _ place before reply after. Collects before place (collector_of step.collector.now) (owner_holding step.owner) reply after };

    fn done<S: RawCells<Val> + Collectors<Val>>(self, s: &mut S) -> Reply {
        let GiveToCollector {
            collector,
            owner,
            guard,
        } = self;
        match owner {
            AnyOwner::Sole(owner) => {
                collector.collect_owned(owner, guard, s);
                Reply::Done
            }
            AnyOwner::Share(owner) => Reply::Truth(collector.collect_shared(owner, guard, s)),
        }
    }
}

/// A collector is closed: what waits for it is reclaimed at once, and what its values give up waits with the participant. It comes back where a guard of
/// any participant is open.
pub struct CloseCollector {
    pub collector: PrivateCollector<Val>,
}

impl CollectorCommand for CloseCollector {
    type Out = Result<(), (PrivateCollector<Val>, Refused)>;

    ghost asks = { λ step home _ _. cells_home step.collector ≡ home.cells };

    ghost does = { λ step _ place before result after. (IfErr result (λ e. e.0 ≡ step.collector))
        × MatchResult result
        (λ _. ¬ (AnyGuardOpen before) × IsNullCell before (collector_of step.collector)
        × (after ≡ collector_closed holdings_of before place (collector_of step.collector)))
        (λ e. AnyGuardOpen before × (e.1 ≡ refused.GuardOpen) × (after ≡ before)) };

    fn done<S: RawCells<Val> + Collectors<Val>>(
        self,
        s: &mut S,
    ) -> Result<(), (PrivateCollector<Val>, Refused)> {
        let CloseCollector { collector } = self;
        collector.close(s)
    }
}
