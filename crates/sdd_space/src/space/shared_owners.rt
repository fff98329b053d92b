ghost use Rattle.std.specs.Prelude.{◌≡◌, ◌+◌, ◌^◌, ◌<◌, ℕ, IfErr, IfOk, MatchResult};
ghost use Rattle.sdd_world_model.specs.World.{standing_at};
ghost use Rattle.sdd_space.specs.CallerId.{IsSeated, IsExact};
ghost use Rattle.sdd_space.specs.Undisturbed.{Undisturbed};
ghost use Rattle.sdd_rights.specs.Right.{number_of, home_of, kind_of};
ghost use Rattle.sdd_world_model.specs.Slots.{IsSharedBy};
ghost use Rattle.sdd_world_model.specs.WorldChanges.{with_standing};

use crate::item::Item;
use crate::space::caller::Caller;
use sdd_core::Refused;
use sdd_participants::Standing;
use sdd_rights::{Right, StandingKind};

/// Items with several owners, as one who owns them has them.
pub trait SharedOwners<T: Item<T>>: Caller<T> {
    /// One owner more of the item of a shared owner, whose value it has too.
    ///
    /// `TooManyOwners` where as many share the item as may.
    fn clone_owner(&mut self, right: &Right) -> Result<Right, Refused>
        requires seated { IsSeated (Self.caller self.old) }
        requires home { home_of right.now ≡ (Self.caller self.old).home.slots }
        requires kind { kind_of right.now ≡ StandingKind.Shared }
        ensures undisturbed { Undisturbed Self.caller Self.own Self.known Self.shows self.old self.new }
        ensures home { IfOk result (λ other. home_of other ≡ (Self.caller self.old).home.slots) }
        ensures slot { IfOk result (λ other. number_of other ≡ number_of right.now) }
        ensures kind { IfOk result (λ other. kind_of other ≡ StandingKind.Shared) }
        ensures value { IfOk result (λ other. (v : T) → Self.owns_value self.old right.now v → Self.owns_value self.new other v) }
        ensures back { IfErr result (λ e. e ≡ Refused.TooManyOwners) }
        ensures exact { IsExact (Self.caller self.old) → (owners : ℕ) × IsSharedBy owners (standing_at (Self.world self.old) (number_of right.now)) ×
            MatchResult result
            (λ _. (owners < 2 ^ 62) ×
            (Self.world self.new ≡ with_standing (Self.world self.old) (number_of right.now) (Standing.Shared (owners + 1))))
            (λ e. (owners ≡ 2 ^ 62) × (e ≡ Refused.TooManyOwners) × (Self.world self.new ≡ Self.world self.old)) };
}
