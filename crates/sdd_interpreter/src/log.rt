//! What a script has noted of items and jobs: their names, and the lines in which they began to wait.
ghost use Rattle.std.specs.Prelude.{◌≡◌, ◌<◌, ◌≤◌, ◌^◌, ℕ, false, not, is_some, All, IsSome, None, Some, MatchOption, length, map, slice_index_or, IfOk, IfSome};
ghost use Rattle.std.specs.List.Sorted.{IsPermutation, IsNonDecreasingBy};
ghost use Rattle.std.specs.Option.{option_map};
ghost use Rattle.sdd_world_model.specs.World.{World, standing_at};
ghost use Rattle.sdd_script_model.specs.Val.{Val, body_of};
ghost use Rattle.sdd_script_model.specs.Shown.{told_of, item_in, job_in, names_in};
ghost use Rattle.sdd_script_model.specs.Held.{places_among, slots_among, slots_waiting_for};
ghost use Rattle.sdd_interpreter.specs.Environment.{IsOfNamed, CanPointAt, CanCompareAt};
ghost use Rattle.sdd_script_text.specs.declared.name.ItemName.{ItemName as Named};
ghost use Rattle.sdd_script_text.specs.declared.name.JobName.{JobName as NamedJob};
ghost use Rattle.sdd_world_model.specs.Slots.{is_waiting as waits};

use crate::holding::{slot_of_share, slot_of_sole};
use crate::items::{is_waiting, items_in, slots_among, slots_for};
use crate::jobs::{jobs_of, places_among};
use sdd_core::SlotName;
use sdd_participants::LimboEntry;
use sdd_script_model::{Body, Val};
use sdd_script_text::{ItemName, JobName, Reply};
use sdd_space::{Owned, Shared};
use sdd_world::World;
use sdd_world::inner::standing_of;
use std::alloc::{AllocError, Global};

/// What a script has noted of its lines, items and jobs.
#[derive(Drop)]
pub struct Log {
    pub alloc: Global,
    /// How many lines there were, the present one counted.
    pub moment: u64,
    /// Of each item its slot.
    pub slots: Vec<u32>,
    /// Of each slot the name of the item that it had last, if that had one.
    pub names: Vec<Option<u64>>,
    /// Of each slot the line in which its item began to wait.
    pub dates: Vec<u64>,
    /// How many jobs there were.
    pub jobs: u64,
    /// Of each place of the table of jobs the name of the job that it had last.
    pub deferred: Vec<u64>,
    /// Of each place of the table of jobs the line in which that was deferred.
    pub job_dates: Vec<u64>,
}

/// What goes and runs by an opening, each in ascending order, and of each slot whether its item waited before.
#[derive(Drop)]
pub struct Due {
    pub items: Vec<ItemName>,
    pub jobs: Vec<JobName>,
    pub waited: Vec<bool>,
}

impl Log {
    /// What the value of an item holds, as a reply.
    pub fn told(&self, value: &Val) -> Reply
        requires { IsOfNamed self.now.names.items (body_of value.now) }
        ensures { result ≡ told_of self.now.names.items (body_of value.now) }
    {
        match value.as_ref() {
            Body::Number(number) => Reply::Value(*number),
            Body::Owned(owner) => Reply::Holding(self.item_at(slot_of_sole(owner))),
            Body::Shared(owner) => Reply::Holding(self.item_at(slot_of_share(owner))),
            Body::Storage(_) => Reply::Done,
        }
    }

    /// The item that a slot had last, which has a name.
    pub fn item_at(&self, slot: u32) -> ItemName
        requires { IsSome (slice_index_or self.now.names.items slot None) }
        ensures { result ≡ item_in self.now.names.items slot }
    {
        match self.names[slot as usize] {
            Some(item) => ItemName(item),
            None => unreachable!(),
        }
    }

    /// The item that a slot had last, if it is that of one.
    pub fn item_seen(&self, slot: Option<SlotName>) -> Option<ItemName>
        requires named { IfSome slot (λ s. IsSome (slice_index_or self.now.names.items s None)) }
        ensures { result ≡ option_map (item_in self.now.names.items) slot }
    {
        Some(self.item_at(slot?.number()))
    }

    /// The slot of an item that a participant can point to whose last outermost opening was in this line.
    pub fn slot_since(&self, world: &World<Val>, item: ItemName, since: u64) -> Option<u32>
        requires names { length self.now.names.items ≡ length world.now.standings }
        requires dates { length self.now.dates.items ≡ length world.now.standings }
        requires inside { (s : ℕ) → IsSome (standing_at world.now s)
            → IfSome (slice_index_or self.now.names.items s None) (λ i. i < length self.now.slots.items) }
        ensures { MatchOption result
            (¬ (CanPointAt world.now self.now.slots.items self.now.names.items self.now.dates.items item.0 since))
            (λ slot. CanPointAt world.now self.now.slots.items self.now.names.items self.now.dates.items item.0 since
            × (slot ≡ slice_index_or self.now.slots.items item.0 0)) }
    {
        let index = usize::try_from(item.0).ok()?;
        let slot = *self.slots.get(index)?;
        if *self.names.get(slot as usize)? != Some(item.0) || standing_of(world, slot).is_none() {
            return None;
        }
        if is_waiting(world, slot) && self.dates[slot as usize] < since {
            return None;
        }
        Some(slot)
    }

    /// The slot of the item that an exchange compares with, or none for null, if a participant can point to it whose last outermost opening was in this line.
    pub fn slot_compared(
        &self,
        world: &World<Val>,
        item: Option<ItemName>,
        since: u64,
    ) -> Option<Option<SlotName>>
        requires names { length self.now.names.items ≡ length world.now.standings }
        requires dates { length self.now.dates.items ≡ length world.now.standings }
        requires inside { (s : ℕ) → IsSome (standing_at world.now s)
            → IfSome (slice_index_or self.now.names.items s None) (λ i. i < length self.now.slots.items) }
        ensures { MatchOption result
            (¬ (CanCompareAt world.now self.now.slots.items self.now.names.items self.now.dates.items item since))
            (λ slot. CanCompareAt world.now self.now.slots.items self.now.names.items self.now.dates.items item since
            × (slot ≡ option_map (λ (i : Named). slice_index_or self.now.slots.items i.0 0) item)) }
    {
        let Some(item) = item else {
            return Some(None);
        };
        match self.slot_since(world, item, since) {
            Some(slot) => Some(Some(SlotName::of(slot))),
            None => None,
        }
    }

    /// Of each slot whether its item waits.
    pub fn waiting_by_slot(&self, world: &World<Val>) -> Result<Vec<bool>, AllocError>
        requires small { length self.now.names.items ≤ 2 ^ 32 }
        ensures long { IfOk result (λ found. length found.items ≡ length self.now.names.items) }
        ensures each { IfOk result (λ found. (s : ℕ) → s < length self.now.names.items →
            slice_index_or found.items s false ≡ waits (standing_at world.now s)) }
    {
        let mut found = Vec::with_capacity(self.alloc, self.names.len())?;
        for slot in 0..self.names.len() {
            found.push_reserved(is_waiting(world, slot as u32));
        }
        Ok(found)
    }

    /// Of each slot whether it is free.
    pub fn free_by_slot(&self, world: &World<Val>) -> Result<Vec<bool>, AllocError>
        requires small { length self.now.names.items ≤ 2 ^ 32 }
        ensures long { IfOk result (λ found. length found.items ≡ length self.now.names.items) }
        ensures each { IfOk result (λ found. (s : ℕ) → s < length self.now.names.items →
            slice_index_or found.items s false ≡ not (is_some (standing_at world.now s))) }
    {
        let mut found = Vec::with_capacity(self.alloc, self.names.len())?;
        for slot in 0..self.names.len() {
            found.push_reserved(standing_of(world, slot as u32).is_none());
        }
        Ok(found)
    }

    /// The items with names among what waits, in ascending order.
    fn items_among(&self, waiting: &[LimboEntry]) -> Result<Vec<ItemName>, AllocError>
        requires named { All (λ slot. slot < length self.now.names.items) (slots_among waiting.now) }
        ensures items { IfOk result (λ found. IsPermutation (names_in self.now.names.items (slots_among waiting.now)) found.items) }
        ensures ascending { IfOk result (λ found. IsNonDecreasingBy (λ (i : Named). i.0) found.items) }
    {
        let slots = slots_among(self.alloc, waiting)?;
        items_in(self.alloc, slots.as_slice(), self.names.as_slice())
    }

    /// The items with names that wait for a collector, in ascending order.
    pub fn items_for(&self, world: &World<Val>, collector: u32) -> Result<Vec<ItemName>, AllocError>
        requires small { length self.now.names.items ≤ 2 ^ 32 }
        requires named { All (λ slot. slot < length self.now.names.items)
            (slots_waiting_for world.now collector (length self.now.names.items)) }
        ensures items { IfOk result (λ found.
            IsPermutation (names_in self.now.names.items (slots_waiting_for world.now collector (length self.now.names.items))) found.items) }
        ensures ascending { IfOk result (λ found. IsNonDecreasingBy (λ (i : Named). i.0) found.items) }
    {
        let slots = slots_for(self.alloc, world, collector, self.names.len())?;
        items_in(self.alloc, slots.as_slice(), self.names.as_slice())
    }

    /// What goes and what runs where all of this is reclaimed, and of each slot whether its item waits now.
    pub fn due(&self, world: &World<Val>, waiting: &[LimboEntry]) -> Result<Due, AllocError>
        requires small { length self.now.names.items ≤ 2 ^ 32 }
        requires named { All (λ slot. slot < length self.now.names.items) (slots_among waiting.now) }
        requires inside { All (λ place. place < length self.now.deferred.items) (places_among waiting.now) }
        ensures items { IfOk result (λ due. IsPermutation (names_in self.now.names.items (slots_among waiting.now)) due.items.items
            × IsNonDecreasingBy (λ (i : Named). i.0) due.items.items) }
        ensures jobs { IfOk result (λ due. IsPermutation (map (job_in self.now.deferred.items) (places_among waiting.now)) due.jobs.items
            × IsNonDecreasingBy (λ (j : NamedJob). j.0) due.jobs.items) }
        ensures long { IfOk result (λ due. length due.waited.items ≡ length self.now.names.items) }
        ensures each { IfOk result (λ due. (s : ℕ) → s < length self.now.names.items →
            slice_index_or due.waited.items s false ≡ waits (standing_at world.now s)) }
    {
        let items = self.items_among(waiting)?;
        let jobs = self.jobs_among(waiting)?;
        let waited = self.waiting_by_slot(world)?;
        Ok(Due {
            items,
            jobs,
            waited,
        })
    }

    /// The names of the jobs among what waits, in ascending order: of each the name that its place of the table of jobs had last.
    fn jobs_among(&self, waiting: &[LimboEntry]) -> Result<Vec<JobName>, AllocError>
        requires inside { All (λ place. place < length self.now.deferred.items) (places_among waiting.now) }
        ensures named { IfOk result (λ jobs. IsPermutation (map (job_in self.now.deferred.items) (places_among waiting.now)) jobs.items) }
        ensures ascending { IfOk result (λ jobs. IsNonDecreasingBy (λ (j : NamedJob). j.0) jobs.items) }
    {
        let places = places_among(self.alloc, waiting)?;
        let mut jobs = jobs_of(self.alloc, places.as_slice(), self.deferred.as_slice())?;
        jobs.sort_unstable();
        Ok(jobs)
    }
}
