//! What participants copy of queues and stacks.
#![tactic(auto, using(sdd_interpreter::proofs::EnvironmentAnswers::in_hand))]

ghost use Rattle.std.specs.Prelude.{◌≡◌, ◌+◌, ◌&&◌, ◌<◌, ◌≤◌, ◌^◌, ℕ, false, is_some, List, None, Option, IfOk, MatchResult, OnOk, if◌then◌else◌, length, slice_index, slice_index_or};
ghost use Rattle.std.specs.Vec.{vec_capacity};
ghost use Rattle.sdd_space.specs.CallerId.{reader_at};
ghost use Rattle.sdd_space.specs.Guard.{reader_of};
ghost use Rattle.sdd_world.specs.Place.{index_of};
ghost use Rattle.sdd_world_model.specs.World.{IsPlaceOf, standing_at};
ghost use Rattle.sdd_lists.specs.Lists.{Entry};
ghost use Rattle.sdd_script_model.specs.Script.{Acts};
ghost use Rattle.sdd_script_model.specs.ScriptState.{BeginsLine};
ghost use Rattle.sdd_script_model.specs.Val.{Val};
ghost use Rattle.sdd_script_text.specs.Actions as action;
ghost use Rattle.sdd_interpreter.specs.Containers.{HasEntries, IsListOf, IsOfNumbers};
ghost use Rattle.sdd_interpreter.specs.Environment.{date_now};
ghost use Rattle.sdd_script.specs.ListCopies.{HasRoomFor, HasSameLists, IsCopied, IsCopyOf, IsGivenName, IsListIn, IsReadyToCopy, named_so, next_name};

use sdd_core::Refused;
use sdd_interpreter::Interpreter;
use sdd_interpreter::commands::ListCommand;
use sdd_interpreter::commands::copies::{CopyQueue, CopyStack, ListSlots};
use sdd_interpreter::containers::Lists;
use sdd_interpreter::holding::AnyList;
use sdd_interpreter::items::{date_new, forget_new, name_all};
use sdd_interpreter::log::Log;
use sdd_interpreter::participants::under;
use sdd_lists::{Queue, Stack};
use sdd_script_model::{Body, Val};
use sdd_script_text::{Call, GuardName, ListName, PlaceName, QueueName, Reply, StackName};
use sdd_space::Guard;
use sdd_world::{Place, World};
use std::alloc::AllocError;

/// A copy of a queue or a stack, which has no name yet.
pub enum ListCopy {
    Queue(Queue<Body>),
    Stack(Stack<Body>),
}

impl ListCopy {
    /// The copy, to look at its entries.
    fn as_list(&self) -> AnyList<'_>
        ensures { IsListIn self.now result }
    {
        match self {
            ListCopy::Queue(queue) => AnyList::Queue(queue),
            ListCopy::Stack(stack) => AnyList::Stack(stack),
        }
    }
}

/// What a copy is begun with.
#[derive(Drop)]
pub struct Ready {
    /// Room for the slots of the copy's entries.
    pub room: Vec<u32>,
    /// Of each slot whether its item waited before.
    pub waited: Vec<bool>,
    /// Of each slot whether it was free before.
    pub free: Vec<bool>,
}

/// `P clonelist L G`: another list with the numbers of this one that aren't deleted, in order, named as its items are. `NoSlot` and `NoCell` are replies: what
/// was built is closed then, and its items have no names. Refused where memory is, and then nothing has changed.
pub fn copy_list(
    interpreter: &mut Interpreter,
    name: PlaceName,
    list: ListName,
    guard: GuardName,
) -> Result<Reply, AllocError>
    requires line { BeginsLine interpreter.old }
    ensures acts { MatchResult result
        (λ reply. Acts interpreter.old (Call.At name (action.CloneList list guard)) reply interpreter.new)
        (λ _. interpreter.new ≡ interpreter.old) }
{
    let environment = &mut interpreter.environment;
    let Some((participant, held)) = under(&environment.places, &environment.guards, name, guard)
    else {
        return Ok(Reply::Invalid);
    };
    let Some(_) = environment.lists.list_named(list) else {
        return Ok(Reply::Invalid);
    };
    make_room(&mut environment.lists, list)?;
    environment.world.is_whole();
    let Ready { room, waited, free } = make_ready(&mut environment.log, &environment.world)?;
    let Some(copied) = environment.lists.list_named(list) else {
        unreachable!()
    };
    let place = &participant.place;
    let guard = &held.guard;
    let copy = match copy_of(&mut environment.world, place, copied, guard) {
        Ok(copy) => copy,
        Err(refused) => {
            note_refusal(
                &mut environment.log,
                &environment.world,
                waited.as_slice(),
                free.as_slice(),
            );
            return Ok(Reply::Refused(refused));
        }
    };
    let list = copy.as_list();
    let most = environment.log.names.len();
    let entries = ListSlots {
        list,
        guard,
        most,
        room,
    };
    let slots = entries.at(&mut environment.world, place);
    name_all(
        &mut environment.log.slots,
        &mut environment.log.names,
        slots.as_slice(),
    );
    Ok(give_name(&mut environment.lists, copy))
}

/// Room for the name of one list more of this one's kind.
fn make_room(lists: &mut Lists, list: ListName) -> Result<(), AllocError>
    ensures kept { HasSameLists lists.old lists.new }
    ensures room { OnOk result (HasRoomFor list lists.new) }
{
    match list {
        ListName::Queue(_) => lists.queues.make_room(),
        ListName::Stack(_) => lists.stacks.make_room(),
    }
}

/// Room for as many items as there are slots, and what is so of the slots.
fn make_ready(log: &mut Log, world: &World<Val>) -> Result<Ready, AllocError>
    requires small { length log.old.names.items ≤ 2 ^ 32 }
    ensures same { log.new ≡ record log.old { slots = log.new.slots } }
    ensures slots { log.new.slots.items ≡ log.old.slots.items }
    ensures names { OnOk result (length log.new.slots.items + length log.old.names.items ≤ vec_capacity log.new.slots) }
    ensures ready { IfOk result (IsReadyToCopy log.old world.now) }
{
    let most = log.names.len();
    log.slots.reserve(most)?;
    let room = Vec::with_capacity(log.alloc, most)?;
    let waited = log.waiting_by_slot(world)?;
    let free = log.free_by_slot(world)?;
    Ok(Ready { room, waited, free })
}

/// A participant at its place copies a list. Where that is refused what was built is closed.
fn copy_of(
    world: &mut World<Val>,
    place: &Place,
    list: AnyList<'_>,
    guard: &Guard,
) -> Result<ListCopy, Refused>
    requires place { IsPlaceOf world.old (index_of place.now) }
    requires home { IsListOf world.old.home.cells list }
    requires reader { reader_of guard.now ≡ reader_at world.old (index_of place.now) }
    requires numbers { IsOfNumbers world.old list }
    ensures home { IfOk result (IsCopyOf world.old.home.cells) }
    ensures copied { (es : List (Entry Val)) (second : Option ℕ) → HasEntries world.old list.entry es second →
        IsCopied (index_of place.now) world.old list.entry es result world.new }
{
    match list {
        AnyList::Queue(queue) => {
            let copy = CopyQueue { queue, guard }.at(world, place)?;
            Ok(ListCopy::Queue(copy))
        }
        AnyList::Stack(stack) => {
            let copy = CopyStack { stack, guard }.at(world, place)?;
            Ok(ListCopy::Stack(copy))
        }
    }
}

/// After a refusal what was built has no names, and what of it waits began to do so in this line.
fn note_refusal(log: &mut Log, world: &World<Val>, waited: &[bool], free: &[bool])
    requires small { length log.old.names.items ≤ 2 ^ 32 }
    requires waited { length waited.now ≡ length log.old.dates.items }
    requires free { length free.now ≡ length log.old.names.items }
    requires dates { length log.old.dates.items ≡ length log.old.names.items }
    ensures same { log.new ≡ record log.old { names = log.new.names; dates = log.new.dates } }
    ensures names { (s : ℕ) → s < length log.old.names.items → slice_index_or log.new.names.items s None
        ≡ (if is_some (standing_at world.now s) && slice_index_or free.now s false then None else slice_index_or log.old.names.items s None) }
    ensures dates { (s : ℕ) → s < length log.old.dates.items →
        slice_index log.new.dates.items s ≡ date_now world.now waited.now log.old.moment log.old.dates.items s }
    ensures long { (length log.new.names.items ≡ length log.old.names.items) × (length log.new.dates.items ≡ length log.old.dates.items) }
{
    let line = log.moment;
    forget_new(&mut log.names, world, free);
    date_new(&mut log.dates, world, waited, line);
}

/// Gives the next name of its kind to a copy, and tells it.
fn give_name(lists: &mut Lists, copy: ListCopy) -> Reply
    requires room { HasRoomFor (next_name lists.old copy) lists.old }
    ensures given { IsGivenName lists.old copy lists.new }
    ensures reply { result ≡ named_so (next_name lists.old copy) }
{
    match copy {
        ListCopy::Queue(queue) => Reply::Queue(QueueName(lists.queues.give(queue))),
        ListCopy::Stack(stack) => Reply::Stack(StackName(lists.stacks.give(stack))),
    }
}
