ghost use Rattle.std.specs.Prelude.{◌≡◌, ◌+◌, ◌^◌, ◌<◌, ℕ, IfErr, IfOk, IfSome, MatchOption, MatchResult, None};
ghost use Rattle.sdd_world_model.specs.World.{standing_at};
ghost use Rattle.sdd_space.specs.CallerId.{IsSeated, IsExact};
ghost use Rattle.sdd_space.specs.Refusals.{IsRefusedBy};
ghost use Rattle.sdd_space.specs.Undisturbed.{Undisturbed};
ghost use Rattle.sdd_rights.specs.Right.{number_of, home_of, kind_of};
ghost use Rattle.sdd_world_model.specs.Slots.{IsSharedBy, owners_of};
ghost use Rattle.sdd_world_model.specs.WorldChanges.{with_standing};

use crate::item::Item;
use crate::space::shared_owners::SharedOwners;
use sdd_core::{Refused, SlotName};
use sdd_participants::Standing;
use sdd_rights::{Right, StandingKind};

/// Items with several owners, which are found by their slots too.
pub trait SharedItems<T: Item<T>>: SharedOwners<T> {
    /// One owner more is had of what a guard of the caller sees alone. In a domain with others it is; a world, and a lone participant, ask nothing.
    ghost asks_shown: { Self → Type 0 };

    /// One owner more of the item in a slot, if it is shared. What the slot shows is its value.
    ///
    /// `TooManyOwners` where as many share the item as may; `Contended`, in a domain alone, where others changed how many do too often meanwhile.
    fn get_shared(&mut self, slot: SlotName) -> Result<Option<Right>, Refused>
        requires seated { IsSeated (Self.caller self.old) }
        requires seen { Self.asks_shown self.old → (value : T) × Self.shows self.old slot value }
        ensures undisturbed { Undisturbed Self.caller Self.own Self.known Self.shows self.old self.new }
        ensures home { IfOk result (λ o. IfSome o (λ right. home_of right ≡ (Self.caller self.old).home.slots)) }
        ensures slot { IfOk result (λ o. IfSome o (λ right. number_of right ≡ slot)) }
        ensures kind { IfOk result (λ o. IfSome o (λ right. kind_of right ≡ StandingKind.Shared)) }
        ensures value { IfOk result (λ o. IfSome o (λ right. (v : T) → Self.shows self.old slot v → Self.owns_value self.new right v)) }
        ensures back { IfErr result (IsRefusedBy (Self.caller self.old) Refused.TooManyOwners) }
        ensures exact { IsExact (Self.caller self.old) → MatchResult result
            (λ o. MatchOption o
            ((owners_of (standing_at (Self.world self.old) slot) ≡ None) × (Self.world self.new ≡ Self.world self.old))
            (λ _. (owners : ℕ) × IsSharedBy owners (standing_at (Self.world self.old) slot) × (owners < 2 ^ 62) ×
            (Self.world self.new ≡ with_standing (Self.world self.old) slot (Standing.Shared (owners + 1)))))
            (λ e. IsSharedBy (2 ^ 62) (standing_at (Self.world self.old) slot) × (e ≡ Refused.TooManyOwners) × (Self.world self.new ≡ Self.world self.old)) };

    /// In an exact space nothing is asked.
    ghost exact_asks_nothing: { (s : Self) → IsExact (Self.caller s) → ¬ (Self.asks_shown s) };
}
