//! Participants come and end.
ghost use Rattle.std.specs.Prelude.{◌≡◌, ◌<◌, ℕ, length, IsSome, MatchResult, IsTrue, ◌⊎◌};
ghost use Rattle.sdd_participants.specs.EpochState as time;
ghost use Rattle.sdd_world_model.specs.World.{place_at, IsPlaceOf};
ghost use Rattle.sdd_world_model.specs.WorldChanges.{registered, ended};
ghost use Rattle.sdd_world_model.specs.WorldInvariant.{IsWhole};
ghost use Rattle.sdd_world_core.specs.Lending.{AreLent};

use super::WorldCore;
use sdd_core::Refused;
use sdd_participants::Job;
use sdd_space::Item;

impl<T: Item<T>, J: Job> WorldCore<T, J> {
    /// A participant more, at some place that isn't taken.
    ///
    /// `NoPlace` where all places are taken; `NoMemory` where the memory for what may wait with it was refused.
    pub fn register(&mut self) -> Result<usize, Refused>
        ensures registered { MatchResult result
            (λ p. time.IsVacant self.old.world.time p × (self.new ≡ record self.old { world = registered self.old.world p }))
            (λ e. ((e ≡ Refused.NoPlace) × time.IsCrowded self.old.world.time ⊎ (e ≡ Refused.NoMemory) × ¬ (time.IsCrowded self.old.world.time))
            × (self.new ≡ self.old)) }
        ensures slots { (length self.new.world.standings ≡ length self.old.world.standings) × (self.new.world.home ≡ self.old.world.home) }
        ensures jobs { self.new.world.jobs ≡ self.old.world.jobs }
        ensures whole { IsWhole self.old.world → IsWhole self.new.world }
        ensures lent { IsWhole self.old.world → AreLent self.old → AreLent self.new }
    {
        self.time.register()
    }

    /// What waits with a participant is left at its place, until another one adopts it.
    pub fn end(&mut self, place: usize)
        requires place { IsPlaceOf self.old.world place }
        ensures ended { self.new ≡ record self.old { world = ended self.old.world place } }
        ensures slots { (length self.new.world.standings ≡ length self.old.world.standings) × (self.new.world.home ≡ self.old.world.home) }
        ensures jobs { self.new.world.jobs ≡ self.old.world.jobs }
        ensures whole { ¬ (IsTrue (time.is_open (place_at self.old.world place))) → IsWhole self.old.world → IsWhole self.new.world }
        ensures lent { ¬ (IsTrue (time.is_open (place_at self.old.world place))) → IsWhole self.old.world → AreLent self.old → AreLent self.new }
    {
        self.time.end(place);
    }

    /// Some place that isn't free, which is a participant's from then on, with what waits there, also where one had ended.
    pub fn some_place(&mut self) -> usize
        requires some { (p : ℕ) × IsSome (time.phase_at self.old.world.time p) }
        ensures taken { (result < length self.old.world.time.places) × IsSome (time.phase_at self.old.world.time result) }
        ensures revived { self.new ≡ record self.old { world = record self.old.world { time = time.revived self.old.world.time result } } }
        ensures nests { 0 < self.new.world.time.nesting }
        ensures whole { IsWhole self.old.world → IsWhole self.new.world }
        ensures lent { AreLent self.old → AreLent self.new }
    {
        let Some(place) = self.time.some_taken() else {
            unreachable!()
        };
        self.time.revive(place);
        place
    }
}
