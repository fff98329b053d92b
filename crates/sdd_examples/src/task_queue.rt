//! A queue of tasks of two kinds: what is put in comes out, first in first out.
ghost use Rattle.std.specs.Prelude.{◌≡◌, ◌++◌, ◌∷◌, [], IfOk, List, MatchResult, Some, drop, slice_get};
ghost use Rattle.sdd_space.specs.CallerId.{IsExact, IsSeated};
ghost use Rattle.sdd_space.specs.Guard.{reader_of};
ghost use Rattle.sdd_world_model.specs.World.{World, IsPlaceOf};
ghost use Rattle.sdd_lists.specs.Filling.{RefusesPush};
ghost use Rattle.sdd_lists.specs.Queue.{AreOfCells};
ghost use Rattle.sdd_lists.specs.Values.{QueueHas};
ghost use Rattle.sdd_world.specs.Place.{index_of};

use sdd_core::Refused;
use sdd_lists::laws::releases_keep_values;
use sdd_lists::{LinkedEntry, Queue};
use sdd_space::{Cells, Giver, Guard, Item, Items, LookThrough, Several, SharedItems};
use sdd_world::{Place, World};

/// A task of one of two kinds.
#[derive(Clone, Copy)]
pub enum Task {
    Sweep,
    Print(u32),
}

impl<I> Item<I> for Task {
    ghost holds = { λ _. [] };

    fn give_up<G: Giver<I>>(self, _giver: &mut G) {}
}

/// Puts a task in. `NoSlot` where no slot is free, else `NoCell` where no cell is.
pub fn put<
    S: Items<LinkedEntry<Task>>
        + Several<LinkedEntry<Task>>
        + Cells<LinkedEntry<Task>>
        + LookThrough<LinkedEntry<Task>>,
>(queue: &Queue<Task>, task: Task, guard: &Guard, s: &mut S) -> Result<(), Refused>
    requires seated { IsSeated (S.caller s.old) }
    requires home { AreOfCells (S.caller s.old).home.cells queue.now }
    requires reader { reader_of guard.now ≡ (S.caller s.old).reader }
    ensures caller { S.caller s.new ≡ S.caller s.old }
    ensures tasks { IsExact (S.caller s.old) → (tasks : List Task) → QueueHas (S.world s.old) queue.now tasks → MatchResult result
        (λ _. QueueHas (S.world s.new) queue.now (tasks ++ task ∷ []))
        (λ e. (S.world s.new ≡ S.world s.old) × RefusesPush (S.world s.old) e) }
{
    match queue.push(task, guard, s) {
        Ok(owner) => {
            releases_keep_values::<Task>();
            let _ = owner.release(s);
            Ok(())
        }
        Err((_, refused)) => Err(refused),
    }
}

/// Takes the oldest task out. `TooManyOwners` where 2^62 own its entry.
pub fn take<
    S: Items<LinkedEntry<Task>>
        + SharedItems<LinkedEntry<Task>>
        + Cells<LinkedEntry<Task>>
        + LookThrough<LinkedEntry<Task>>,
>(queue: &Queue<Task>, guard: &Guard, s: &mut S) -> Result<Option<Task>, Refused>
    requires seated { IsSeated (S.caller s.old) }
    requires home { AreOfCells (S.caller s.old).home.cells queue.now }
    requires reader { reader_of guard.now ≡ (S.caller s.old).reader }
    ensures caller { S.caller s.new ≡ S.caller s.old }
    ensures tasks { IsExact (S.caller s.old) → (tasks : List Task) → QueueHas (S.world s.old) queue.now tasks → MatchResult result
        (λ task. (task ≡ slice_get tasks 0) × QueueHas (S.world s.new) queue.now (drop 1 tasks))
        (λ e. (S.world s.new ≡ S.world s.old) × (e ≡ Refused.TooManyOwners)) }
{
    match queue.pop(guard, s) {
        Ok(Some(owner)) => {
            let task = *owner.get_guarded_ref(guard, s).as_ref();
            releases_keep_values::<Task>();
            let _ = owner.release(s);
            Ok(Some(task))
        }
        Ok(None) => Ok(None),
        Err(refused) => Err(refused),
    }
}

/// Two tasks go through a queue: they come out as they were put in. Refused as `put` is; `NoCell` too where no two cells are free for the queue.
pub fn two_tasks<
    S: Items<LinkedEntry<Task>>
        + SharedItems<LinkedEntry<Task>>
        + Several<LinkedEntry<Task>>
        + Cells<LinkedEntry<Task>>
        + LookThrough<LinkedEntry<Task>>,
>(
    first: Task,
    second: Task,
    guard: &Guard,
    s: &mut S,
) -> Result<(Option<Task>, Option<Task>), Refused>
    requires seated { IsSeated (S.caller s.old) }
    requires reader { reader_of guard.now ≡ (S.caller s.old).reader }
    ensures caller { S.caller s.new ≡ S.caller s.old }
    ensures in_order { IsExact (S.caller s.old) → IfOk result (λ tasks. tasks ≡ (Some first, Some second)) }
{
    let queue = Queue::new(s)?;
    let tasks = put_and_taken(&queue, first, second, guard, s);
    queue.close(guard, s);
    tasks
}

/// Puts two tasks into an empty queue, and takes two out.
fn put_and_taken<
    S: Items<LinkedEntry<Task>>
        + SharedItems<LinkedEntry<Task>>
        + Several<LinkedEntry<Task>>
        + Cells<LinkedEntry<Task>>
        + LookThrough<LinkedEntry<Task>>,
>(
    queue: &Queue<Task>,
    first: Task,
    second: Task,
    guard: &Guard,
    s: &mut S,
) -> Result<(Option<Task>, Option<Task>), Refused>
    requires seated { IsSeated (S.caller s.old) }
    requires home { AreOfCells (S.caller s.old).home.cells queue.now }
    requires reader { reader_of guard.now ≡ (S.caller s.old).reader }
    ensures caller { S.caller s.new ≡ S.caller s.old }
    ensures in_order { IsExact (S.caller s.old) → QueueHas (S.world s.old) queue.now [] → IfOk result (λ tasks. tasks ≡ (Some first, Some second)) }
{
    put(queue, first, guard, s)?;
    put(queue, second, guard, s)?;
    let one = take(queue, guard, s)?;
    let other = take(queue, guard, s)?;
    Ok((one, other))
}

/// The same in the turn of a participant of a world. `TooManyGuards` where no guard can be opened.
pub fn two_tasks_in_turn(
    world: &mut World<LinkedEntry<Task>>,
    place: &Place,
    first: Task,
    second: Task,
) -> Result<(Option<Task>, Option<Task>), Refused>
    requires place { IsPlaceOf world.old (index_of place.now) }
    ensures in_order { IfOk result (λ tasks. tasks ≡ (Some first, Some second)) }
{
    let mut turn = world.at(place);
    let guard = Guard::new(&mut turn)?;
    let tasks = two_tasks(first, second, &guard, &mut turn);
    guard.close(&mut turn);
    tasks
}
