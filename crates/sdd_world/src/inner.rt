//! What a script, or a test, needs of a world beyond the public surface.
ghost use Rattle.std.specs.Prelude.{◌≡◌, ◌↔◌, ◌+◌, ◌^◌, ◌<◌, ◌≤◌, ℕ, IfOk, IsSome, IsTrue, MatchResult, Some, map};
ghost use Rattle.sdd_participants.specs.EpochState.{is_open, phase_at, revived};
ghost use Rattle.sdd_world_model.specs.World.{IsPlaceOf, place_at, standing_at, value_at};
ghost use Rattle.sdd_space.specs.Guard.{reader_of};
ghost use Rattle.sdd_space.specs.CallerId.{reader_at};
ghost use Rattle.sdd_space.specs.Ptr.{slot_named, shown_by};
ghost use Rattle.sdd_world_model.specs.UnderGuards.{CannotGo};
ghost use Rattle.sdd_space.specs.Shared as shared;
ghost use Rattle.sdd_rights.specs.SharedRights as shares;
ghost use Rattle.sdd_world_model.specs.Slots.{IsSharedBy};
ghost use Rattle.sdd_participants.specs.Slab.{IsFull, entry_at};
ghost use Rattle.sdd_participants.specs.declared.standing.Standing.TheVariants as standing;
ghost use Rattle.sdd_world_model.specs.WorldChanges.{reclaims, held_in, without_cell, with_standing};
ghost use Rattle.sdd_world_model.specs.Out.{IsNullCell};
ghost use Rattle.sdd_space.specs.Collector as collectors;
ghost use Rattle.sdd_world.specs.Place.{index_of};

use crate::world::{Place, World};
use sdd_core::{Refused, SlotName};
use sdd_participants::{Job, LimboEntry, Standing};
use sdd_rights::SharedRights;
use sdd_space::inner::{
    owner_of, ptr_to, right_in_shared, right_of_cell, right_of_collector, right_of_owner,
};
use sdd_space::{Guard, Item, PrivateCollector, Ptr, Shared};

/// The items that the next opening of a participant reclaims, and the jobs that it runs.
pub fn reclaims_next<'w, T: Item<T>, J: Job>(
    world: &'w World<T, J>,
    place: &Place,
) -> &'w [LimboEntry]
    requires { IsPlaceOf world.now (index_of place.now) }
    ensures { result.now ≡ reclaims world.now (index_of place.now) }
{
    world.reclaims(place.index())
}

/// The value in a slot that is not free.
pub fn value_in<T: Item<T>, J: Job>(world: &World<T, J>, slot: u32) -> &T
    requires { IsSome (value_at world.now slot) }
    ensures { value_at world.now slot ≡ Some result.now }
{
    world.value_in(slot)
}

/// How the item in a slot stands; nothing where the slot is free.
pub fn standing_of<T: Item<T>, J: Job>(world: &World<T, J>, slot: u32) -> Option<Standing>
    ensures { result ≡ standing_at world.now slot }
{
    world.standing(slot)
}

/// A guard of the participant is open.
pub fn is_open<T: Item<T>, J: Job>(world: &World<T, J>, place: &Place) -> bool
    requires { IsPlaceOf world.now (index_of place.now) }
    ensures { result ≡ is_open (place_at world.now (index_of place.now)) }
{
    world.time().is_open(place.index())
}

/// A pointer to the item in a slot, which stays there while a guard of the participant is open. The guard is one of its.
pub fn ptr_at<'g, T: Item<T>, J: Job>(
    world: &mut World<T, J>,
    place: &Place,
    slot: u32,
    guard: &'g Guard,
) -> Ptr<'g, T>
    requires place { IsPlaceOf world.old (index_of place.now) }
    requires reader { reader_of guard.now ≡ reader_at world.old (index_of place.now) }
    requires stays { CannotGo world.old (index_of place.now) slot }
    ensures slot { slot_named result ≡ Some slot }
    ensures shown { shown_by result ≡ value_at world.old slot }
    ensures full { IsSome (shown_by result) }
    ensures world { world.new ≡ world.old }
{
    ptr_to(SlotName::of(slot), world.look(place, slot, guard))
}

/// No slot is free.
pub fn has_no_slot<T: Item<T>, J: Job>(world: &World<T, J>) -> bool
    ensures { IsTrue result ↔ IsFull world.now.standings }
{
    world.core.is_full()
}

/// No cell is free.
pub fn has_no_cell<T: Item<T>, J: Job>(world: &World<T, J>) -> bool
    ensures { IsTrue result ↔ IsFull world.now.cells }
{
    world.core.has_no_cell()
}

/// Some cell holds an owner of the item in this slot. Each cell is looked at.
pub fn is_in_cell<T: Item<T>, J: Job>(world: &World<T, J>, slot: u32) -> bool
    ensures { IsTrue result ↔ ((c : ℕ) × (held_in (entry_at world.now.cells c) ≡ Some slot)) }
{
    world.core.is_held(slot)
}

/// The place of a participant, or of one that has ended: there is one again then, with what waits there.
pub fn some_place<T: Item<T>, J: Job>(world: &mut World<T, J>) -> Place
    requires some { (p : ℕ) × IsSome (phase_at world.old.time p) }
    ensures taken { IsSome (phase_at world.old.time (index_of result)) }
    ensures revived { world.new ≡ record world.old { time = revived world.old.time (index_of result) } }
    ensures place { IsPlaceOf world.new (index_of result) }
    ensures nests { 0 < world.new.time.nesting }
{
    world.some_place()
}

/// A collector's cell is free. What waits for the collector waits on, and goes with the world at latest.
pub fn leave_collector<T: Item<T>, J: Job>(world: &mut World<T, J>, collector: PrivateCollector<T>)
    requires home { collectors.cells_home collector ≡ world.old.home.cells }
    ensures null { IsNullCell world.old (collectors.collector_of collector) }
    ensures left { world.new ≡ without_cell world.old (collectors.collector_of collector) }
{
    world.leave_collector(right_of_collector(collector));
}

/// So many owners more of an owner's item at once, in one piece. So a test reaches the most owners that there may be.
///
/// `TooManyOwners` where with them more than 2^62 would own it, cells counted.
pub fn add_owners<T: Item<T>, J: Job>(
    world: &mut World<T, J>,
    owner: &Shared<T>,
    more: u64,
) -> Result<SharedRights, Refused>
    requires home { shared.slots_home owner.now ≡ world.old.home.slots }
    requires some { 1 ≤ more }
    ensures home { IfOk result (λ several. shares.home_of several ≡ world.old.home.slots) }
    ensures slot { IfOk result (λ several. shares.number_of several ≡ shared.slot_of owner.now) }
    ensures count { IfOk result (λ several. shares.count_of several ≡ more) }
    ensures exact { (owners : ℕ) × IsSharedBy owners (standing_at world.old (shared.slot_of owner.now)) × MatchResult result
        (λ _. (owners + more ≤ 2 ^ 62) × (world.new ≡ with_standing world.old (shared.slot_of owner.now) (standing.Shared (owners + more))))
        (λ e. (2 ^ 62 < owners + more) × (e ≡ Refused.TooManyOwners) × (world.new ≡ world.old)) }
{
    world.core.add_owners(right_in_shared(owner), more)
}

/// Owners go that came in one piece, all but one, which is an owner as any other. With it the item has one at least, so nothing waits.
pub fn release_all_but_one<T: Item<T>, J: Job>(
    world: &mut World<T, J>,
    several: SharedRights,
) -> Shared<T>
    requires { shares.home_of several ≡ world.old.home.slots }
    ensures home { shared.slots_home result ≡ world.old.home.slots }
    ensures slot { shared.slot_of result ≡ shares.number_of several }
    ensures exact { (others : ℕ) × IsSharedBy (others + shares.count_of several) (standing_at world.old (shares.number_of several))
        × (world.new ≡ with_standing world.old (shares.number_of several) (standing.Shared (others + 1))) }
{
    owner_of(world.core.release_all_but_one(several))
}
