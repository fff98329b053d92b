//! What participants do with queues.
ghost use Rattle.std.specs.Prelude.{◌≡◌, ◌≢◌, ℕ, IfOk, List, MatchResult, Option};
ghost use Rattle.sdd_core.specs.declared.refused.Refused.TheVariants as refused;
ghost use Rattle.sdd_participants.specs.Slab.{IsEmptyAt};
ghost use Rattle.sdd_space.specs.Guard.{reader_of};
ghost use Rattle.sdd_world_model.specs.WorldChanges.{nulled};
ghost use Rattle.sdd_lists.specs.Lists.{Entry};
ghost use Rattle.sdd_lists.specs.Queue.{AreOfCells, HasOneAtMost, IsQueue, cells_in, queue_closed};
ghost use Rattle.sdd_script_model.specs.Val.{Val, link_of};

use crate::commands::step::ListCommand;
use sdd_core::Refused;
use sdd_lists::Queue;
use sdd_script_model::{Body, Val};
use sdd_space::{Cells, Guard, Items, LookThrough, Several, SharedItems};

/// A new queue, without entries.
pub struct MakeQueue;

impl ListCommand for MakeQueue {
    type Out = Result<Queue<Body>, Refused>;

    ghost asks = { λ _ _ _ _. Unit {0} };

    ghost does = { λ _ home _ before result after. (IfOk result (AreOfCells home.cells))
        × MatchResult result
        (λ queue. IsEmptyAt before.cells (cells_in queue).oldest × IsEmptyAt before.cells (cells_in queue).newest
        × ((cells_in queue).oldest ≢ (cells_in queue).newest)
        × (after ≡ nulled (nulled before (cells_in queue).oldest) (cells_in queue).newest))
        (λ e. HasOneAtMost before.cells × (e ≡ refused.NoCell) × (after ≡ before)) };

    fn done<S: Items<Val> + Several<Val> + SharedItems<Val> + Cells<Val> + LookThrough<Val>>(
        self,
        s: &mut S,
    ) -> Result<Queue<Body>, Refused> {
        let MakeQueue = self;
        Queue::new(s)
    }
}

/// A queue is closed, and its entries are let go of.
pub struct CloseQueue<'a> {
    pub queue: Queue<Body>,
    /// One of the participant's.
    pub guard: &'a Guard,
}

impl ListCommand for CloseQueue<'_> {
    type Out = ();

    ghost asks = { λ step home reader _. AreOfCells home.cells step.queue × (reader_of step.guard.now ≡ reader) };

    ghost does = { λ step _ place before _ after. (es : List (Entry Val)) (second : Option ℕ) →
        IsQueue link_of before (cells_in step.queue) es second → after ≡ queue_closed link_of before place (cells_in step.queue) es second };

    fn done<S: Items<Val> + Several<Val> + SharedItems<Val> + Cells<Val> + LookThrough<Val>>(
        self,
        s: &mut S,
    ) {
        let CloseQueue { queue, guard } = self;
        queue.close(guard, s);
    }
}
