//! What participants are told of the entries of containers.
ghost use Rattle.std.specs.Prelude.{◌≡◌, ℕ, IfOk, List, Option, length, map};
ghost use Rattle.sdd_space.specs.Guard.{reader_of};
ghost use Rattle.sdd_lists.specs.Lists.{Entry, content, first_value, left};
ghost use Rattle.sdd_lists.specs.Walk.{shown_of};
ghost use Rattle.sdd_script_model.specs.Containers.{TellsNumber};
ghost use Rattle.sdd_script_model.specs.Val.{Val};
ghost use Rattle.sdd_script_model.specs.declared.val.Body.TheVariants as body;
ghost use Rattle.sdd_interpreter.specs.Containers.{HasEntries, IsListOf, IsOfNumbers, PopsIf, PushesIf};
ghost use Rattle.sdd_space.specs.CallerId.{reader_at};
ghost use Rattle.sdd_world_model.specs.World.{World, IsPlaceOf};
ghost use Rattle.sdd_world.specs.Place.{index_of};

use crate::commands::pops::{PopFirst, PopFirstIf};
use crate::commands::pushes::{PushNumber, PushNumberIf};
use crate::commands::step::ListCommand;
use crate::holding::AnyList;
use crate::items::number_of;
use sdd_core::Refused;
use sdd_lists::Unpopped;
use sdd_script_model::{Body, Val};
use sdd_script_text::{Numbers, Reply};
use sdd_space::{Cells, Guard, Items, LookThrough, Several, Shared, SharedItems};
use sdd_world::{Place, World};
use std::alloc::{AllocError, Global};

/// The first number of a container that isn't deleted, as a reply.
pub struct PeekFirst<'a> {
    pub list: AnyList<'a>,
    /// One of the participant's.
    pub guard: &'a Guard,
}

impl ListCommand for PeekFirst<'_> {
    type Out = Reply;

    ghost asks = { λ step home reader world. IsListOf home.cells step.list × (reader_of step.guard.now ≡ reader)
        × IsOfNumbers world step.list };

    ghost does = { λ step _ _ before told after. (after ≡ before)
        × ((es : List (Entry Val)) (second : Option ℕ) → HasEntries before step.list es second → TellsNumber told (first_value (left es))) };

    fn done<S: Items<Val> + Several<Val> + SharedItems<Val> + Cells<Val> + LookThrough<Val>>(
        self,
        s: &mut S,
    ) -> Reply {
        let PeekFirst { list, guard } = self;
        let first = list.peek(guard, s);
        match first.as_ref(s) {
            Some(value) => match number_of(value) {
                Some(number) => Reply::Value(number),
                None => unreachable!(),
            },
            None => Reply::Nothing,
        }
    }
}

/// How many entries of a container aren't deleted.
pub struct CountEntries<'a> {
    pub list: AnyList<'a>,
    /// One of the participant's.
    pub guard: &'a Guard,
}

impl ListCommand for CountEntries<'_> {
    type Out = u64;

    ghost asks = { λ step home reader _. IsListOf home.cells step.list × (reader_of step.guard.now ≡ reader) };

    ghost does = { λ step _ _ before count after. (after ≡ before)
        × ((es : List (Entry Val)) (second : Option ℕ) → HasEntries before step.list es second → count ≡ length (content es)) };

    fn done<S: Items<Val> + Several<Val> + SharedItems<Val> + Cells<Val> + LookThrough<Val>>(
        self,
        s: &mut S,
    ) -> u64 {
        let CountEntries { list, guard } = self;
        list.len(guard, s)
    }
}

/// The numbers of a container that aren't deleted, in order. Refused where memory for them is.
pub struct ListNumbers<'a> {
    pub list: AnyList<'a>,
    /// One of the participant's.
    pub guard: &'a Guard,
    pub alloc: Global,
}

impl ListCommand for ListNumbers<'_> {
    type Out = Result<Numbers, AllocError>;

    ghost asks = { λ step home reader world. IsListOf home.cells step.list × (reader_of step.guard.now ≡ reader)
        × IsOfNumbers world step.list };

    ghost does = { λ step _ _ before result after. (after ≡ before)
        × IfOk result (λ numbers. (es : List (Entry Val)) (second : Option ℕ) → HasEntries before step.list es second
        → shown_of es ≡ map body.Number numbers) };

    fn done<S: Items<Val> + Several<Val> + SharedItems<Val> + Cells<Val> + LookThrough<Val>>(
        self,
        s: &mut S,
    ) -> Result<Numbers, AllocError> {
        let ListNumbers { list, guard, alloc } = self;
        let mut walk = list.walk(guard, s);
        let mut numbers = Numbers::new(alloc);
        while let Some(body) = walk.next(guard, s) {
            match body {
                Body::Number(number) => numbers.push(*number)?,
                _ => unreachable!(),
            }
        }
        Ok(numbers)
    }
}

/// A number is put among a container's entries, under a guard of the participant; if the newest that isn't deleted is a given one, where one is given.
pub fn push_at(
    world: &mut World<Val>,
    place: &Place,
    list: AnyList<'_>,
    number: u64,
    newest: Option<u64>,
    guard: &Guard,
) -> Result<Shared<Val>, Option<Refused>>
    requires place { IsPlaceOf world.old (index_of place.now) }
    requires list { IsListOf world.old.home.cells list }
    requires reader { reader_of guard.now ≡ reader_at world.old (index_of place.now) }
    ensures pushed { (es : List (Entry Val)) (second : Option ℕ) → HasEntries world.old list.entry es second →
        PushesIf world.old.home.slots world.old (index_of place.now) list.entry es second number newest result world.new }
{
    let Some(newest) = newest else {
        let step = PushNumber {
            list,
            number,
            guard,
        };
        return match step.at(world, place) {
            Ok(owner) => Ok(owner),
            Err(refused) => Err(Some(refused)),
        };
    };
    let step = PushNumberIf {
        list,
        number,
        newest,
        guard,
    };
    step.at(world, place)
}

/// The first entry that isn't deleted is taken out of a container, under a guard of the participant; if it is a given number, where one is given.
pub fn pop_at(
    world: &mut World<Val>,
    place: &Place,
    list: AnyList<'_>,
    first: Option<u64>,
    guard: &Guard,
) -> Result<Option<Shared<Val>>, Unpopped<Body>>
    requires place { IsPlaceOf world.old (index_of place.now) }
    requires list { IsListOf world.old.home.cells list }
    requires reader { reader_of guard.now ≡ reader_at world.old (index_of place.now) }
    ensures popped { (es : List (Entry Val)) (second : Option ℕ) → HasEntries world.old list.entry es second →
        PopsIf world.old.home.slots world.old (index_of place.now) list.entry es second first result world.new }
{
    let Some(first) = first else {
        return match (PopFirst { list, guard }).at(world, place) {
            Ok(popped) => Ok(popped),
            Err(refused) => Err(Unpopped::Refused(refused)),
        };
    };
    PopFirstIf { list, first, guard }.at(world, place)
}
