//! Items in their slots: what they hold, and whether they wait.
ghost use Rattle.std.specs.Prelude.{◌++◌, ◌+◌, ◌&&◌, is_some, ◌≡◌, ◌↔◌, ◌<◌, ◌≤◌, ◌^◌, ℕ, false, All, IsTrue, None, MatchOption, length, slice_index, slice_index_or, IfOk, IfSome, if◌then◌else◌};
ghost use Rattle.std.specs.List.Sorted.{IsPermutation, IsNonDecreasingBy};
ghost use Rattle.std.specs.Vec.{vec_capacity};
ghost use Rattle.sdd_participants.specs.Collecting.{is_private_to};
ghost use Rattle.sdd_world_model.specs.Slots as slots;
ghost use Rattle.sdd_world_model.specs.World.{World, standing_at};
ghost use Rattle.sdd_script_text.specs.declared.name.ItemName.{ItemName as Named};
ghost use Rattle.sdd_script_model.specs.declared.val.Body.TheVariants.{Number};
ghost use Rattle.sdd_script_model.specs.Held.{slots_among, slots_waiting_for};
ghost use Rattle.sdd_script_model.specs.Listed.{IsNumber};
ghost use Rattle.sdd_script_model.specs.ScriptState.{names_from};
ghost use Rattle.sdd_script_model.specs.Shown.{names_in};
ghost use Rattle.sdd_script_model.specs.Val.{Val, body_of};
ghost use Rattle.sdd_interpreter.specs.Environment.{date_now, dated_if_waiting};

use sdd_participants::{LimboEntry, Standing};
use sdd_script_model::{Body, Val};
use sdd_script_text::ItemName;
use sdd_world::World;
use sdd_world::inner::standing_of;
use std::alloc::{AllocError, Global};

/// The item in a slot waits to be reclaimed.
pub fn is_waiting(world: &World<Val>, slot: u32) -> bool
    ensures { result ≡ slots.is_waiting (standing_at world.now slot) }
{
    matches!(
        standing_of(world, slot),
        Some(Standing::Retired | Standing::Private(_))
    )
}

pub fn is_number(value: &Val) -> bool
    ensures { IsTrue result ↔ ((number : ℕ) × (body_of value.now ≡ Number number)) }
{
    match value.as_ref() {
        Body::Number(_) => true,
        _ => false,
    }
}

/// The number that a value is, if it is one.
pub fn number_of(value: &Val) -> Option<u64>
    ensures { MatchOption result (¬ (IsNumber (body_of value.now))) (λ number. body_of value.now ≡ Number number) }
{
    match value.as_ref() {
        Body::Number(number) => Some(*number),
        _ => None,
    }
}

/// The slots of the items among what waits.
pub(crate) fn slots_among(alloc: Global, waiting: &[LimboEntry]) -> Result<Vec<u32>, AllocError>
    ensures { IfOk result (λ found. found.items ≡ slots_among waiting.now) }
{
    let mut found = Vec::with_capacity(alloc, waiting.len())?;
    for what in waiting {
        match what {
            LimboEntry::Item(slot) => found.push_reserved(slot.number()),
            LimboEntry::Job(_) => {}
        }
    }
    Ok(found)
}

/// Of so many slots, those whose items wait for a collector.
pub(crate) fn slots_for(
    alloc: Global,
    world: &World<Val>,
    collector: u32,
    slots: usize,
) -> Result<Vec<u32>, AllocError>
    requires small { slots ≤ 2 ^ 32 }
    ensures { IfOk result (λ found. found.items ≡ slots_waiting_for world.now collector slots) }
{
    let mut found = Vec::new(alloc);
    for slot in 0..slots {
        if waits_for(world, slot as u32, collector) {
            found.push(slot as u32)?;
        }
    }
    Ok(found)
}

/// The item in a slot waits for a collector.
fn waits_for(world: &World<Val>, slot: u32, collector: u32) -> bool
    ensures { result ≡ is_private_to collector (standing_at world.now slot) }
{
    match standing_of(world, slot) {
        Some(Standing::Private(of)) => of == collector,
        _ => false,
    }
}

/// The items with names that these slots had last, in ascending order.
pub(crate) fn items_in(
    alloc: Global,
    slots: &[u32],
    names: &[Option<u64>],
) -> Result<Vec<ItemName>, AllocError>
    requires named { All (λ slot. slot < length names.now) slots.now }
    ensures items { IfOk result (λ found. IsPermutation (names_in names.now slots.now) found.items) }
    ensures ascending { IfOk result (λ found. IsNonDecreasingBy (λ (i : Named). i.0) found.items) }
{
    let mut items = names_of(alloc, slots, names)?;
    items.sort_unstable();
    Ok(items)
}

/// The names of the items that these slots had last, of those that had one.
fn names_of(
    alloc: Global,
    slots: &[u32],
    names: &[Option<u64>],
) -> Result<Vec<ItemName>, AllocError>
    requires inside { All (λ slot. slot < length names.now) slots.now }
    ensures { IfOk result (λ found. found.items ≡ names_in names.now slots.now) }
{
    let mut found = Vec::with_capacity(alloc, slots.len())?;
    for slot in slots {
        if let Some(item) = names[*slot as usize] {
            found.push_reserved(ItemName(item));
        }
    }
    Ok(found)
}

/// The item in this slot, if it waits now, began to do so in this line.
pub fn date_if_waiting(dates: &mut Vec<u64>, world: &World<Val>, slot: Option<u32>, line: u64)
    requires { IfSome slot (λ slot. slot < length dates.old.items) }
    ensures { dates.new.items ≡ dated_if_waiting world.now slot line dates.old.items }
{
    if let Some(slot) = slot {
        if is_waiting(world, slot) {
            dates[slot as usize] = line;
        }
    }
}

/// What waits now and did not before began to do so in this line.
pub fn date_new(dates: &mut Vec<u64>, world: &World<Val>, waited: &[bool], line: u64)
    requires small { length dates.old.items ≤ 2 ^ 32 }
    requires long { length waited.now ≡ length dates.old.items }
    ensures dated { (s : ℕ) → s < length dates.old.items → slice_index dates.new.items s ≡ date_now world.now waited.now line dates.old.items s }
    ensures long { length dates.new.items ≡ length dates.old.items }
{
    for slot in 0..dates.len() {
        if is_waiting(world, slot as u32) && !waited[slot] {
            dates[slot] = line;
        }
    }
}

/// What is in a slot that was free has no name.
pub fn forget_new(names: &mut Vec<Option<u64>>, world: &World<Val>, free: &[bool])
    requires small { length names.old.items ≤ 2 ^ 32 }
    requires long { length free.now ≡ length names.old.items }
    ensures names { (s : ℕ) → s < length names.old.items → slice_index_or names.new.items s None
        ≡ (if is_some (standing_at world.now s) && slice_index_or free.now s false then None else slice_index_or names.old.items s None) }
    ensures long { length names.new.items ≡ length names.old.items }
{
    for slot in 0..names.len() {
        if standing_of(world, slot as u32).is_some() && free[slot] {
            names[slot] = None;
        }
    }
}

/// The next items are in these slots, in order.
pub fn name_all(slots: &mut Vec<u32>, names: &mut Vec<Option<u64>>, found: &[u32])
    requires room { length slots.old.items + length found.now ≤ vec_capacity slots.old }
    requires inside { All (λ slot. slot < length names.old.items) found.now }
    ensures slots { slots.new.items ≡ slots.old.items ++ found.now }
    ensures names { names.new.items ≡ names_from names.old.items (length slots.old.items) found.now }
{
    for slot in found {
        names[*slot as usize] = Some(slots.len() as u64);
        slots.push_reserved(*slot);
    }
}
