//! What participants put among the entries of containers.
ghost use Rattle.std.specs.Prelude.{◌≡◌, ◌↔◌, ℕ, IsTrue, List, Option, Some, option_copied};
ghost use Rattle.sdd_space.specs.Guard.{reader_of};
ghost use Rattle.sdd_lists.specs.Lists.{Entry};
ghost use Rattle.sdd_script_model.specs.Containers.{HasNumber};
ghost use Rattle.sdd_script_model.specs.Val.{Val};
ghost use Rattle.sdd_interpreter.specs.Containers.{HasEntries, IsListOf, PushesIf, PushesNumber};

use crate::commands::step::ListCommand;
use crate::containers::{is_this_number, refusal_of};
use crate::holding::AnyList;
use sdd_core::Refused;
use sdd_script_model::{Body, Val};
use sdd_space::{Cells, Guard, Items, LookThrough, Several, Shared, SharedItems};

/// A number is put behind a queue's entries, or in front of a stack's.
pub struct PushNumber<'a> {
    pub list: AnyList<'a>,
    pub number: u64,
    /// One of the participant's.
    pub guard: &'a Guard,
}

impl ListCommand for PushNumber<'_> {
    type Out = Result<Shared<Val>, Refused>;

    ghost asks = { λ step home reader _. IsListOf home.cells step.list × (reader_of step.guard.now ≡ reader) };

    ghost does = { λ step home place before result after. (es : List (Entry Val)) (second : Option ℕ) → HasEntries before step.list es second →
        PushesNumber home.slots before place step.list es second step.number result after };

    fn done<S: Items<Val> + Several<Val> + SharedItems<Val> + Cells<Val> + LookThrough<Val>>(
        self,
        s: &mut S,
    ) -> Result<Shared<Val>, Refused> {
        let PushNumber {
            list,
            number,
            guard,
        } = self;
        let value = Body::Number(number);
        match list {
            AnyList::Queue(queue) => match queue.push(value, guard, s) {
                Ok(owner) => Ok(owner),
                Err(back) => Err(refusal_of(back)),
            },
            AnyList::Stack(stack) => match stack.push(value, guard, s) {
                Ok(owner) => Ok(owner),
                Err(back) => Err(refusal_of(back)),
            },
        }
    }
}

/// The same, if the newest number that isn't deleted is a given one.
pub struct PushNumberIf<'a> {
    pub list: AnyList<'a>,
    pub number: u64,
    /// What the newest that isn't deleted must be.
    pub newest: u64,
    /// One of the participant's.
    pub guard: &'a Guard,
}

impl ListCommand for PushNumberIf<'_> {
    type Out = Result<Shared<Val>, Option<Refused>>;

    ghost asks = { λ step home reader _. IsListOf home.cells step.list × (reader_of step.guard.now ≡ reader) };

    ghost does = { λ step home place before result after. (es : List (Entry Val)) (second : Option ℕ) → HasEntries before step.list es second →
        PushesIf home.slots before place step.list es second step.number (Some step.newest) result after };

    fn done<S: Items<Val> + Several<Val> + SharedItems<Val> + Cells<Val> + LookThrough<Val>>(
        self,
        s: &mut S,
    ) -> Result<Shared<Val>, Option<Refused>> {
        let PushNumberIf {
            list,
            number,
            newest,
            guard,
        } = self;
        let value = Body::Number(number);
        let is_newest = move |value: Option<&Val>| -> bool
            ensures { IsTrue result ↔ HasNumber (option_copied value.entry) newest }
        { is_this_number(value, newest) };
        match list {
            AnyList::Queue(queue) => match queue.push_if(value, is_newest, guard, s) {
                Ok(owner) => Ok(owner),
                Err(back) => Err(refusal_of(back)),
            },
            AnyList::Stack(stack) => match stack.push_if(value, is_newest, guard, s) {
                Ok(owner) => Ok(owner),
                Err(back) => Err(refusal_of(back)),
            },
        }
    }
}
