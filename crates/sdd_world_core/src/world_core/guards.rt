//! Guards are opened and closed.
ghost use Rattle.std.specs.Prelude.{◌≡◌, ℕ, ◌^◌, ◌<◌, ◌≤◌, true, false, Contains, [], vec_capacity};
ghost use Rattle.sdd_participants.specs.declared.waiting.LimboEntry.TheVariants.{Item};
ghost use Rattle.sdd_participants.specs.EpochState as time;
ghost use Rattle.sdd_participants.specs.Jobs.{jobs_without_all};
ghost use Rattle.sdd_world_model.specs.World.{most, KeepsSizes, IsPlaceOf};
ghost use Rattle.sdd_world_model.specs.WorldChanges.{opened, reclaims, closed, stirred, accelerated};
ghost use Rattle.sdd_world_model.specs.WorldInvariant.{IsWhole};
ghost use Rattle.sdd_values.specs.Block.{IsUnlent, IsFreeFor, fraction_at};
ghost use Rattle.sdd_values.specs.ReadSections.{kept_at};
ghost use Rattle.sdd_world_core.specs.Lending.{AreLent, IsSectionAt, shared, given_up};

use super::WorldCore;
use sdd_participants::{Job, LimboEntry};
use sdd_space::Item;
use sdd_values::{ReadSection, SectionState};

impl<T: Item<T>, J: Job> WorldCore<T, J> {
    /// Opens one more guard of a place, and answers its part of the place's section. For a change an empty bag is lent.
    pub fn open(&mut self, place: usize, spare: &mut Vec<LimboEntry>) -> ReadSection
        requires place { IsPlaceOf self.old.world place }
        requires few { time.CanNest self.old.world.time place }
        requires whole { IsWhole self.old.world }
        requires lent { AreLent self.old }
        requires empty { spare.old.items ≡ [] }
        requires reserved { most self.old.world ≤ vec_capacity spare.old }
        ensures opened { self.new.world ≡ opened T.holds self.old.world place }
        ensures jobs { self.new.deferred ≡ jobs_without_all self.old.deferred (reclaims self.old.world place) }
        ensures sizes { KeepsSizes self.old.world self.new.world }
        ensures whole { IsWhole self.new.world }
        ensures lent { AreLent self.new }
        ensures section { IsSectionAt self.old.world.home.readers place result }
        ensures empty { spare.new.items ≡ [] }
        ensures reserved { most self.new.world ≤ vec_capacity spare.new }
    {
        let is_nested = self.time.is_open(place);
        self.enter(place, spare);
        self.share(place, is_nested)
    }

    /// One more guard of a place is open. An outermost one that finds another count is a change.
    fn enter(&mut self, place: usize, spare: &mut Vec<LimboEntry>)
        requires place { IsPlaceOf self.old.world place }
        requires few { time.CanNest self.old.world.time place }
        requires home { (k : ℕ) → Contains (reclaims self.old.world place) (Item k) → IsUnlent self.old.lending.fractions k }
        requires empty { spare.old.items ≡ [] }
        requires reserved { most self.old.world ≤ vec_capacity spare.old }
        ensures opened { self.new ≡ record self.old {
          world = opened T.holds self.old.world place;
          deferred = jobs_without_all self.old.deferred (reclaims self.old.world place);
        } }
        ensures sizes { KeepsSizes self.old.world self.new.world }
        ensures whole { IsWhole self.old.world → IsWhole self.new.world }
        ensures empty { spare.new.items ≡ [] }
        ensures reserved { most self.new.world ≤ vec_capacity spare.new }
    {
        if self.time.open(place) {
            self.change(place, spare);
        }
    }

    /// A part of the place's section, which its first guard begins.
    fn share(&mut self, place: usize, is_nested: bool) -> ReadSection
        requires inside { place < self.old.world.home.readers.size }
        requires more { 1 < (kept_at self.old.lending.sections place).units }
        requires first { is_nested ≡ false → (kept_at self.old.lending.sections place).units ≡ 2 ^ 63 }
        requires open { is_nested ≡ true → (kept_at self.old.lending.sections place).kind ≡ SectionState.Open }
        ensures shared { self.new ≡ record self.old { lending = shared self.old.lending place } }
        ensures section { IsSectionAt self.old.world.home.readers place result }
    {
        if is_nested {
            return self.sections.split(place);
        }
        self.sections.begin(place);
        self.sections.split(place)
    }

    /// Closes a guard of a place, which gives back its part of the section.
    pub fn close(&mut self, place: usize, section: ReadSection)
        requires place { IsPlaceOf self.old.world place }
        requires whole { IsWhole self.old.world }
        requires lent { AreLent self.old }
        requires section { IsSectionAt self.old.world.home.readers place section }
        ensures closed { self.new.world ≡ closed self.old.world place }
        ensures jobs { self.new.deferred ≡ self.old.deferred }
        ensures sizes { KeepsSizes self.old.world self.new.world }
        ensures whole { IsWhole self.new.world }
        ensures lent { AreLent self.new }
    {
        self.sections.join(place, section);
        self.time.close(place);
        if !self.time.is_open(place) {
            self.settle_loans(place);
        }
    }

    /// The place's section ends, and with it all that was lent to the place.
    fn settle_loans(&mut self, place: usize)
        requires inside { place < self.old.world.home.readers.size }
        requires all { (kept_at self.old.lending.sections place).units ≡ 2 ^ 63 }
        requires lent { (k : ℕ) → IsFreeFor (kept_at self.old.lending.sections place).lifetime (fraction_at self.old.lending.fractions k place) }
        ensures { (next : ℕ) × (self.new ≡ record self.old { lending = given_up self.old.lending place next }) }
    {
        let ended = self.sections.end(place);
        self.slots.settle(place, &ended);
    }

    /// A place has garbage, as if something had begun to wait with it.
    pub fn set_has_garbage(&mut self, place: usize)
        requires place { IsPlaceOf self.old.world place }
        ensures stirred { self.new ≡ record self.old { world = stirred self.old.world place } }
        ensures sizes { KeepsSizes self.old.world self.new.world }
        ensures whole { IsWhole self.old.world → IsWhole self.new.world }
        ensures lent { IsWhole self.old.world → AreLent self.old → AreLent self.new }
    {
        self.time.set_has_garbage(place);
    }

    /// The next close of a place scans.
    pub fn accelerate(&mut self, place: usize)
        requires place { IsPlaceOf self.old.world place }
        ensures accelerated { self.new ≡ record self.old { world = accelerated self.old.world place } }
        ensures sizes { KeepsSizes self.old.world self.new.world }
        ensures whole { IsWhole self.old.world → IsWhole self.new.world }
        ensures lent { IsWhole self.old.world → AreLent self.old → AreLent self.new }
    {
        self.time.accelerate(place);
    }
}
