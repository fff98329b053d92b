//! Names of containers of entries, and the numbers of their entries.
ghost use Rattle.std.specs.Prelude.{◌≡◌, ◌↔◌, ℕ, IsTrue, List, MatchOption, Option, Some, length, option_copied};
ghost use Rattle.sdd_space.specs.CallerId.{IsExact, IsSeated};
ghost use Rattle.sdd_space.specs.Guard.{reader_of};
ghost use Rattle.sdd_space.specs.Ptr.{PtrIsShown, slot_named};
ghost use Rattle.sdd_space.specs.Shared.{slot_of, slots_home};
ghost use Rattle.sdd_space.specs.Undisturbed.{Undisturbed};
ghost use Rattle.sdd_world_model.specs.World.{World, value_at};
ghost use Rattle.sdd_lists.specs.Lists.{Entry, content, first_slot, left};
ghost use Rattle.sdd_lists.specs.Walk.{IsWalkOf, ShowsInOrder, shown_of};
ghost use Rattle.sdd_script_model.specs.Containers.{HasNumber};
ghost use Rattle.sdd_script_model.specs.Listed.{IsNumber};
ghost use Rattle.sdd_script_model.specs.Val.{Val, body_of};
ghost use Rattle.sdd_interpreter.specs.Containers.{HasEntries, IsListOf, NamesNone, StandsFor};

use crate::holding::AnyList;
use crate::items::number_of;
use crate::name_table::NameTable;
use sdd_bag::Bag;
use sdd_lists::{Queue, Stack, Walk};
use sdd_script_model::{Body, Val};
use sdd_script_text::ListName;
use sdd_space::{Cells, Guard, Items, LookThrough, Ptr, Shared};
use sdd_world::World;

/// The queues, stacks and bags of a script.
pub struct Lists {
    pub queues: NameTable<Queue<Body>>,
    pub stacks: NameTable<Stack<Body>>,
    pub bags: NameTable<Bag<u64, 32, Body>>,
}

impl Lists {
    /// The container of entries of this name, if it is there.
    pub fn list_named(&self, name: ListName) -> Option<AnyList<'_>>
        ensures { MatchOption result (NamesNone self.now.queues.entries.items self.now.stacks.entries.items name)
            (StandsFor self.now.queues.entries.items self.now.stacks.entries.items name) }
    {
        match name {
            ListName::Queue(queue) => Some(AnyList::Queue(self.queues.get(queue.0)?)),
            ListName::Stack(stack) => Some(AnyList::Stack(self.stacks.get(stack.0)?)),
        }
    }
}

impl AnyList<'_> {
    /// A pointer to the first entry that isn't deleted.
    pub fn peek<'g, S: Items<Val> + Cells<Val> + LookThrough<Val>>(
        self,
        guard: &'g Guard,
        s: &mut S,
    ) -> Ptr<'g, Val>
        requires seated { IsSeated (S.caller s.old) }
        requires home { IsListOf (S.caller s.old).home.cells self }
        requires reader { reader_of guard.now ≡ (S.caller s.old).reader }
        ensures undisturbed { Undisturbed S.caller S.own S.known S.shows s.old s.new }
        ensures world { IsExact (S.caller s.old) → S.world s.new ≡ S.world s.old }
        ensures shown { PtrIsShown (S.shows s.new) result }
        ensures list { IsExact (S.caller s.old) → (es : List (Entry Val)) (second : Option ℕ) → HasEntries (S.world s.old) self.entry es second →
            slot_named result ≡ first_slot (left es) }
    {
        match self {
            AnyList::Queue(queue) => queue.peek(guard, s),
            AnyList::Stack(stack) => stack.peek(guard, s),
        }
    }

    /// How many entries aren't deleted.
    pub fn len<S: Items<Val> + Cells<Val> + LookThrough<Val>>(self, guard: &Guard, s: &mut S) -> u64
        requires seated { IsSeated (S.caller s.old) }
        requires home { IsListOf (S.caller s.old).home.cells self }
        requires reader { reader_of guard.now ≡ (S.caller s.old).reader }
        ensures undisturbed { Undisturbed S.caller S.own S.known S.shows s.old s.new }
        ensures world { IsExact (S.caller s.old) → S.world s.new ≡ S.world s.old }
        ensures list { IsExact (S.caller s.old) → (es : List (Entry Val)) (second : Option ℕ) → HasEntries (S.world s.old) self.entry es second →
            result ≡ length (content es) }
    {
        match self {
            AnyList::Queue(queue) => queue.len(guard, s),
            AnyList::Stack(stack) => stack.len(guard, s),
        }
    }

    /// A walk along the entries that aren't deleted.
    pub fn walk<'g, S: Items<Val> + Cells<Val> + LookThrough<Val>>(
        self,
        guard: &'g Guard,
        s: &mut S,
    ) -> Walk<'g, Body>
        requires seated { IsSeated (S.caller s.old) }
        requires home { IsListOf (S.caller s.old).home.cells self }
        requires reader { reader_of guard.now ≡ (S.caller s.old).reader }
        ensures undisturbed { Undisturbed S.caller S.own S.known S.shows s.old s.new }
        ensures home { IsWalkOf (S.caller s.old).home.cells result }
        ensures world { IsExact (S.caller s.old) → S.world s.new ≡ S.world s.old }
        ensures list { IsExact (S.caller s.old) → (es : List (Entry Val)) (second : Option ℕ) → HasEntries (S.world s.old) self.entry es second →
            ShowsInOrder (S.world s.new) result (shown_of es) }
    {
        match self {
            AnyList::Queue(queue) => queue.walk(guard, s),
            AnyList::Stack(stack) => stack.walk(guard, s),
        }
    }
}

/// Why a number was refused.
pub fn refusal_of<R>(back: (Body, R)) -> R
    requires { IsNumber back.0 }
    ensures { result ≡ back.1 }
{
    match back {
        (Body::Number(_), refused) => refused,
        _ => unreachable!(),
    }
}

/// A value is there, and is this number.
pub fn is_this_number(value: Option<&Val>, number: u64) -> bool
    ensures { IsTrue result ↔ HasNumber (option_copied value.entry) number }
{
    match value {
        Some(value) => number_of(value) == Some(number),
        None => false,
    }
}

/// The number that an owner's item is.
pub fn number_owned(owner: &Shared<Val>, world: &World<Val>) -> u64
    requires home { slots_home owner.now ≡ world.now.home.slots }
    requires number { (v : Val) → value_at world.now (slot_of owner.now) ≡ Some v → IsNumber (body_of v) }
    ensures { HasNumber (value_at world.now (slot_of owner.now)) result }
{
    match number_of(owner.get(world)) {
        Some(number) => number,
        None => unreachable!(),
    }
}
