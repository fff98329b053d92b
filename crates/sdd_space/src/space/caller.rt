ghost use Rattle.std.specs.Prelude.{◌≡◌, ◌↔◌, ℕ, None, Some, length};
ghost use Rattle.sdd_participants.specs.declared.participant.Participant.{Participant};
ghost use Rattle.sdd_world_model.specs.World.{World, place_at, standing_at, value_at};
ghost use Rattle.sdd_space.specs.CallerId.{CallerId, IsExact};
ghost use Rattle.sdd_world_model.specs.KnownEpochs.{KnownEpochs};

use crate::item::Item;
use crate::look::Shows;

/// One participant of a world or domain, who calls.
pub trait Caller<T: Item<T>>: Shows<T> {
    /// Who calls, and on which loan of which world: no call changes it.
    ghost caller: { Self → CallerId };
    /// What the participant keeps of its own.
    ghost own: { Self → Participant };
    /// What it knows of the count of epochs.
    ghost known: { Self → KnownEpochs };
    /// What the calls change.
    ghost world: { Self → World T };

    /// A law, which does nothing when the program runs: in an exact space there is a place for a value in each slot, and a slot that is free has none.
    fn values_fit_slots(&self)
        ensures many { IsExact (caller self.now) → length (world self.now).values ≡ length (world self.now).standings }
        ensures bare { IsExact (caller self.now) → (k : ℕ) → standing_at (world self.now) k ≡ None → value_at (world self.now) k ≡ None };

    /// The space is where the participant sits.
    ghost home_is_caller: { (s : Self) → Self.home s ≡ (caller s).home };

    /// In an exact space what the participant keeps of its own is what the world keeps of it.
    ghost own_is_place: { (s : Self) → IsExact (caller s) → own s ≡ place_at (world s) (caller s).place };

    /// In an exact space a slot shows the value that is in it.
    ghost shows_is_value: { (s : Self) → IsExact (caller s) → (k : ℕ) (value : T) → Self.shows s k value ↔ (value_at (world s) k ≡ Some value) };
}
