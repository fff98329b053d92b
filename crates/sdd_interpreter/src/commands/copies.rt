//! What participants copy of queues and stacks.
ghost use Rattle.std.specs.Prelude.{◌≡◌, ◌≤◌, ℕ, IfOk, List, [], None, Option, length};
ghost use Rattle.std.specs.Vec.{vec_capacity};
ghost use Rattle.sdd_space.specs.Guard.{reader_of};
ghost use Rattle.sdd_lists.specs.Lists.{Entry};
ghost use Rattle.sdd_lists.specs.Queue.{AreOfCells, IsQueue, cells_in};
ghost use Rattle.sdd_lists.specs.Stack.{cell_in, home_in};
ghost use Rattle.sdd_script_model.specs.Listed.{AreNumbers, Begins};
ghost use Rattle.sdd_script_model.specs.Val.{Val, link_of};
ghost use Rattle.sdd_script_model.specs.Copies.{ArePlain, entry_slots};
ghost use Rattle.sdd_interpreter.specs.Containers.{HasEntries, IsListOf};
ghost use Rattle.sdd_interpreter.specs.Copies.{QueueIsCopied, StackIsCopied};

use crate::commands::step::ListCommand;
use crate::holding::AnyList;
use sdd_core::Refused;
use sdd_lists::{LinkedList, Queue, Stack, Unfinished};
use sdd_script_model::{Body, Val};
use sdd_space::inner::slot_of_ptr;
use sdd_space::{Cells, Guard, Items, LookThrough, Several, SharedItems};

/// A queue is copied. Where that is refused what was built is closed.
pub struct CopyQueue<'a> {
    pub queue: &'a Queue<Body>,
    /// One of the participant's.
    pub guard: &'a Guard,
}

impl ListCommand for CopyQueue<'_> {
    type Out = Result<Queue<Body>, Refused>;

    ghost asks = { λ step home reader world. AreOfCells home.cells step.queue.now × (reader_of step.guard.now ≡ reader)
        × ((es : List (Entry Val)) × (second : Option ℕ) × IsQueue link_of world (cells_in step.queue.now) es second × AreNumbers es) };

    ghost does = { λ step home place before result after. IfOk result (AreOfCells home.cells)
        × ((es : List (Entry Val)) (second : Option ℕ) → IsQueue link_of before (cells_in step.queue.now) es second →
        QueueIsCopied place before es result after) };

    fn done<S: Items<Val> + Several<Val> + SharedItems<Val> + Cells<Val> + LookThrough<Val>>(
        self,
        s: &mut S,
    ) -> Result<Queue<Body>, Refused> {
        let CopyQueue { queue, guard } = self;
        match queue.clone(guard, s) {
            Ok(copy) => Ok(copy),
            Err(Unfinished::NotBegun(refused)) => Err(refused),
            Err(Unfinished::Part(part, back, refused)) => {
                part.close(guard, s);
                ends_none(back);
                Err(refused)
            }
        }
    }
}

/// A stack is copied. Where that is refused what was built is closed.
pub struct CopyStack<'a> {
    pub stack: &'a Stack<Body>,
    /// One of the participant's.
    pub guard: &'a Guard,
}

impl ListCommand for CopyStack<'_> {
    type Out = Result<Stack<Body>, Refused>;

    ghost asks = { λ step home reader world. (home_in step.stack.now ≡ home.cells) × (reader_of step.guard.now ≡ reader)
        × ((es : List (Entry Val)) × Begins world (cell_in step.stack.now) es × AreNumbers es) };

    ghost does = { λ step home place before result after. IfOk result (λ copy. home_in copy ≡ home.cells)
        × ((es : List (Entry Val)) → Begins before (cell_in step.stack.now) es → StackIsCopied place before es result after) };

    fn done<S: Items<Val> + Several<Val> + SharedItems<Val> + Cells<Val> + LookThrough<Val>>(
        self,
        s: &mut S,
    ) -> Result<Stack<Body>, Refused> {
        let CopyStack { stack, guard } = self;
        match stack.clone(guard, s) {
            Ok(copy) => Ok(copy),
            Err(Unfinished::NotBegun(refused)) => Err(refused),
            Err(Unfinished::Part(part, back, refused)) => {
                part.close(guard, s);
                ends_none(back);
                Err(refused)
            }
        }
    }
}

/// The slots of a container's entries, in order.
pub struct ListSlots<'a> {
    pub list: AnyList<'a>,
    /// One of the participant's.
    pub guard: &'a Guard,
    /// How many entries there are at most.
    pub most: usize,
    /// Room for as many.
    pub room: Vec<u32>,
}

impl ListCommand for ListSlots<'_> {
    type Out = Vec<u32>;

    ghost asks = { λ step home reader _. IsListOf home.cells step.list × (reader_of step.guard.now ≡ reader)
        × (step.room.items ≡ []) × (step.most ≤ vec_capacity step.room) };

    ghost does = { λ step _ _ before slots after. (after ≡ before)
        × ((es : List (Entry Val)) (second : Option ℕ) → HasEntries before step.list es second → ArePlain es → length es ≤ step.most →
        slots.items ≡ entry_slots es) };

    fn done<S: Items<Val> + Several<Val> + SharedItems<Val> + Cells<Val> + LookThrough<Val>>(
        self,
        s: &mut S,
    ) -> Vec<u32> {
        let ListSlots {
            list,
            guard,
            most,
            room,
        } = self;
        let mut slots = room;
        let mut next = list.peek(guard, s);
        for _ in 0..most {
            let Some(slot) = slot_of_ptr(&next) else {
                break;
            };
            let Some(entry) = next.as_ref(s) else {
                break;
            };
            slots.push_reserved(slot.number());
            s.shown_is_of_home();
            next = entry.link_ref().load(guard, s);
        }
        slots
    }
}

/// A number that found no place was not made.
fn ends_none(back: Option<Body>)
    requires { back ≡ None }
{
    match back {
        None => {}
        _ => unreachable!(),
    }
}
