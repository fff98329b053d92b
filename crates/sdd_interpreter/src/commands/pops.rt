//! What participants take out of containers of entries.
ghost use Rattle.std.specs.Prelude.{◌≡◌, ◌↔◌, ℕ, IsTrue, List, Option, Some};
ghost use Rattle.sdd_space.specs.Guard.{reader_of};
ghost use Rattle.sdd_lists.specs.Lists.{Entry};
ghost use Rattle.sdd_script_model.specs.Containers.{HasNumber};
ghost use Rattle.sdd_script_model.specs.Val.{Val};
ghost use Rattle.sdd_interpreter.specs.Containers.{HasEntries, IsListOf, PopsIf, PopsOff};

use crate::commands::step::ListCommand;
use crate::containers::is_this_number;
use crate::holding::AnyList;
use sdd_core::Refused;
use sdd_lists::Unpopped;
use sdd_script_model::{Body, Val};
use sdd_space::{Cells, Guard, Items, LookThrough, Several, Shared, SharedItems};

/// The first entry that isn't deleted is taken out of a container.
pub struct PopFirst<'a> {
    pub list: AnyList<'a>,
    /// One of the participant's.
    pub guard: &'a Guard,
}

impl ListCommand for PopFirst<'_> {
    type Out = Result<Option<Shared<Val>>, Refused>;

    ghost asks = { λ step home reader _. IsListOf home.cells step.list × (reader_of step.guard.now ≡ reader) };

    ghost does = { λ step home place before result after. (es : List (Entry Val)) (second : Option ℕ) → HasEntries before step.list es second →
        PopsOff home.slots before place step.list es second result after };

    fn done<S: Items<Val> + Several<Val> + SharedItems<Val> + Cells<Val> + LookThrough<Val>>(
        self,
        s: &mut S,
    ) -> Result<Option<Shared<Val>>, Refused> {
        let PopFirst { list, guard } = self;
        match list {
            AnyList::Queue(queue) => queue.pop(guard, s),
            AnyList::Stack(stack) => stack.pop(guard, s),
        }
    }
}

/// The same, if it is a given number.
pub struct PopFirstIf<'a> {
    pub list: AnyList<'a>,
    /// What it must be.
    pub first: u64,
    /// One of the participant's.
    pub guard: &'a Guard,
}

impl ListCommand for PopFirstIf<'_> {
    type Out = Result<Option<Shared<Val>>, Unpopped<Body>>;

    ghost asks = { λ step home reader _. IsListOf home.cells step.list × (reader_of step.guard.now ≡ reader) };

    ghost does = { λ step home place before result after. (es : List (Entry Val)) (second : Option ℕ) → HasEntries before step.list es second →
        PopsIf home.slots before place step.list es second (Some step.first) result after };

    fn done<S: Items<Val> + Several<Val> + SharedItems<Val> + Cells<Val> + LookThrough<Val>>(
        self,
        s: &mut S,
    ) -> Result<Option<Shared<Val>>, Unpopped<Body>> {
        let PopFirstIf { list, first, guard } = self;
        let is_first = move |value: &Val| -> bool
            ensures { IsTrue result ↔ HasNumber (Some value.now) first }
        { is_this_number(Some(value), first) };
        match list {
            AnyList::Queue(queue) => queue.pop_if(is_first, guard, s),
            AnyList::Stack(stack) => stack.pop_if(is_first, guard, s),
        }
    }
}
