ghost use Rattle.std.specs.Prelude.{◌≡◌, ◌≢◌, ℕ, ◌+◌, ◌<◌, ◌≤◌, ◌⊎◌, [], false, map, length, Some, None, Option, IfOk, IfSome, MatchOption, MatchResult, IsSome, IsTrue, ◌↔◌};
ghost use Rattle.sdd_rights.specs.Right.{raw_number_of, raw_home_of};
ghost use Rattle.sdd_participants.specs.EpochState.{CanNest, phase_at, revived, IsVacant, IsCrowded, is_open, due_next};
ghost use Rattle.sdd_participants.specs.Slab.{IsEmptyAt, IsFull};
ghost use Rattle.sdd_world_model.specs.OwnerOrCell.{AreOf};
ghost use Rattle.sdd_world_model.specs.World.{World, AnyGuardOpen, IsPlaceOf, IsNew, place_at, standing_at, value_at};
ghost use Rattle.sdd_space.specs.Guard.{reader_of};
ghost use Rattle.sdd_space.specs.CallerId.{reader_at};
ghost use Rattle.sdd_world_model.specs.UnderGuards.{CannotGo};
ghost use Rattle.sdd_world_model.specs.Out.{IsNullCell, out};
ghost use Rattle.sdd_core.specs.Limits.{AreInRange};
ghost use Rattle.sdd_world_model.specs.WorldChanges.{made, nulled, without_cell, opened, changed, closed, stirred, accelerated, registered, ended, reclaims};

mod closing;
mod laws;

use sdd_core::{Limits, Refused};
use sdd_participants::{EpochState, Idle, Job, LimboEntry, Standing, Tally};
use sdd_rights::RawRight;
use sdd_space::{Guard, Item, inner};
use sdd_world_core::WorldCore;
use std::alloc::Global;
use std::marker::Model;

/// All that the participants of one thread share: items, cells, and the epoch.
///
/// A world must be spent by `close` or `leak`.
pub struct World<T: Item<T>, J: Job = Idle> {
    pub(crate) core: WorldCore<T, J>,
    pub(crate) spare: Vec<LimboEntry>,
    alloc: Global,
}

impl<T: Item<T>, J: Job> Model for World<T, J> {
    ghost use Rattle.std.specs.Prelude.{◌≡◌, ◌≤◌, [], length, vec_capacity};
    ghost use Rattle.sdd_world_model.specs.World.{World, most};
    ghost use Rattle.sdd_world_model.specs.WorldInvariant.{IsWhole};
    ghost use Rattle.sdd_world_core.specs.Lending.{AreLent};

    ghost Value = { World T };

    ghost view = { λ w. w.core.world };

    ghost invariant = { λ w. (w.spare.items ≡ []) × (most w.core.world ≤ vec_capacity w.spare) × IsWhole w.core.world × AreLent w.core };
}

/// A participant of a world.
#[derive(Drop)]
pub struct Place {
    index: usize,
}

impl Place {
    ghost use Rattle.sdd_world.specs.Place.{index_of};

    /// Its number. The place of a participant that has ended is given out again once it was adopted.
    pub fn index(&self) -> usize
        ensures { result ≡ index_of self.now }
    {
        self.index
    }
}

impl<T: Item<T>, J: Job> World<T, J> {
    ghost use Rattle.sdd_world.specs.Place.{index_of};

    /// A world that starts at epoch 0.
    ///
    /// `BadLimits` where a limit is out of its range; `NoMemory` where the memory for all items and cells was refused.
    pub fn new(alloc: Global, limits: Limits) -> Result<World<T, J>, Refused>
        ensures new { IfOk result (IsNew limits 0) }
        ensures spent { IfOk result (λ world. ¬ (AnyGuardOpen world) × (out world ≡ 0)) }
        ensures limits { MatchResult result (λ _. AreInRange limits)
            (λ e. ((e ≡ Refused.BadLimits) × ¬ (AreInRange limits)) ⊎ ((e ≡ Refused.NoMemory) × AreInRange limits)) }
    {
        World::starting_at(alloc, limits, 0)
    }

    /// A world that starts at a count of epochs, of which epochs show the last six bits.
    ///
    /// Refusals are those of `new`.
    pub fn starting_at(alloc: Global, limits: Limits, count: u64) -> Result<World<T, J>, Refused>
        ensures new { IfOk result (IsNew limits count) }
        ensures spent { IfOk result (λ world. ¬ (AnyGuardOpen world) × (out world ≡ 0)) }
        ensures limits { MatchResult result (λ _. AreInRange limits)
            (λ e. ((e ≡ Refused.BadLimits) × ¬ (AreInRange limits)) ⊎ ((e ≡ Refused.NoMemory) × AreInRange limits)) }
    {
        if !limits.are_in_range() {
            return Err(Refused::BadLimits);
        }
        let most = (limits.slots + limits.jobs) as usize;
        let time = EpochState::new(
            alloc,
            count,
            limits.participants as usize,
            limits.nesting as u32,
            most,
        )?;
        let spare = Vec::with_capacity(alloc, most)?;
        let core = WorldCore::new(
            alloc,
            time,
            limits.participants as u32,
            limits.slots as u32,
            limits.cells as u32,
            limits.jobs as u32,
        )?;
        Ok(World { core, spare, alloc })
    }

    /// Registers a participant, at some place that isn't taken: a free one, or one more.
    ///
    /// `NoPlace` where all places are taken; `NoMemory` where the memory for what may wait with it was refused.
    pub fn register(&mut self) -> Result<Place, Refused>
        ensures registered { MatchResult result
            (λ place. IsVacant self.old.time (index_of place) × (self.new ≡ registered self.old (index_of place)))
            (λ e. ((e ≡ Refused.NoPlace) × IsCrowded self.old.time ⊎ (e ≡ Refused.NoMemory) × ¬ (IsCrowded self.old.time)) × (self.new ≡ self.old)) }
        ensures place { IfOk result (λ place. IsPlaceOf self.new (index_of place)) }
        ensures others { IfOk result (λ place. (p : ℕ) → IsPlaceOf self.old p → (p ≢ index_of place) × IsPlaceOf self.new p) }
        ensures quiet { ¬ (AnyGuardOpen self.old) → ¬ (AnyGuardOpen self.new) }
    {
        let index = self.core.register()?;
        Ok(Place { index })
    }

    /// The place of a participant, or of one that has ended: there is one again then, with what waits there.
    pub(crate) fn some_place(&mut self) -> Place
        requires some { (p : ℕ) × IsSome (phase_at self.old.time p) }
        ensures taken { IsSome (phase_at self.old.time (index_of result)) }
        ensures revived { self.new ≡ record self.old { time = revived self.old.time (index_of result) } }
        ensures place { IsPlaceOf self.new (index_of result) }
        ensures nests { 0 < self.new.time.nesting }
    {
        let index = self.core.some_place();
        Place { index }
    }

    /// Ends a participant: what waits with it is left until another participant adopts it, as if it were retired then. Until then its place is taken.
    ///
    /// `GuardOpen` where a guard of it is open: the place comes back, and nothing has changed.
    pub fn end(&mut self, place: Place) -> Result<(), (Place, Refused)>
        requires { IsPlaceOf self.old (index_of place) }
        ensures ended { MatchResult result
            (λ _. ¬ (IsTrue (is_open (place_at self.old (index_of place)))) × (self.new ≡ ended self.old (index_of place)))
            (λ e. IsTrue (is_open (place_at self.old (index_of place))) × (e ≡ (place, Refused.GuardOpen)) × (self.new ≡ self.old)) }
        ensures others { (p : ℕ) → p ≢ index_of place → IsPlaceOf self.old p → IsPlaceOf self.new p }
        ensures quiet { ¬ (AnyGuardOpen self.old) → ¬ (AnyGuardOpen self.new) }
    {
        if self.time().is_open(place.index) {
            return Err((place, Refused::GuardOpen));
        }
        self.core.end(place.index);
        Ok(())
    }

    /// How many items were made, reclaimed and dropped in place so far.
    pub fn tally(&self) -> Tally
        ensures { result ≡ self.now.tally }
    {
        self.core.tally()
    }

    /// A collector's cell is free. What waits for the collector waits on.
    pub(crate) fn leave_collector(&mut self, collector: RawRight)
        requires home { raw_home_of collector ≡ self.old.home.cells }
        ensures null { IsNullCell self.old (raw_number_of collector) }
        ensures left { self.new ≡ without_cell self.old (raw_number_of collector) }
    {
        self.core.close_raw_cell(collector);
    }

    /// The value in a slot whose item stays there while a guard of the place is open, for as long as this guard is borrowed.
    pub(crate) fn look<'g>(&mut self, place: &Place, slot: u32, guard: &'g Guard) -> &'g T
        requires place { IsPlaceOf self.old (index_of place.now) }
        requires reader { reader_of guard.now ≡ reader_at self.old (index_of place.now) }
        requires stays { CannotGo self.old (index_of place.now) slot }
        ensures value { value_at self.old slot ≡ Some result.now }
        ensures world { self.new ≡ self.old }
    {
        self.core
            .look_in(place.index, slot, inner::section_of(guard))
    }

    /// The value in a slot that is not free.
    pub(crate) fn value_in(&self, slot: u32) -> &T
        requires { IsSome (value_at self.now slot) }
        ensures { value_at self.now slot ≡ Some result.now }
    {
        self.core.value_in(slot)
    }

    /// How the item in a slot stands; nothing where the slot is free.
    pub(crate) fn standing(&self, slot: u32) -> Option<Standing>
        ensures { result ≡ standing_at self.now slot }
    {
        self.core.standing(slot)
    }

    /// A guard of some participant is open.
    pub(crate) fn is_guarded(&self) -> bool
        ensures { IsTrue result ↔ AnyGuardOpen self.now }
    {
        self.core.is_guarded()
    }

    pub(crate) fn time(&self) -> &EpochState
        ensures { result.now ≡ self.now.time }
    {
        self.core.time()
    }

    /// The items that the next opening of a place reclaims, and the jobs that it runs.
    pub(crate) fn reclaims(&self, place: usize) -> &[LimboEntry]
        requires { IsPlaceOf self.now place }
        ensures { result.now ≡ reclaims self.now place }
    {
        let time = self.core.time();
        if time.is_open(place) || !time.finds_another(place) {
            return &[];
        }
        time.due(place)
    }
}
