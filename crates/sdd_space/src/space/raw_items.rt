ghost use Rattle.std.specs.Prelude.{◌≡◌, ◌≢◌, ◌↔◌, IfSome, IsSome, MatchOption, Some};
ghost use Rattle.sdd_world_model.specs.World.{standing_at};
ghost use Rattle.sdd_space.specs.CallerId.{IsSeated, IsExact};
ghost use Rattle.sdd_space.specs.Undisturbed.{Undisturbed};
ghost use Rattle.sdd_rights.specs.Right.{number_of, home_of, kind_of};
ghost use Rattle.sdd_space.specs.Guard.{reader_of};
ghost use Rattle.sdd_world_model.specs.WorldChanges.{with_standing};

use crate::guard::Guard;
use crate::item::Item;
use crate::space::caller::Caller;
use sdd_core::SlotName;
use sdd_participants::Standing;
use sdd_rights::{Right, StandingKind};

/// Items that are out as raw, and that nobody owns.
pub trait RawItems<T: Item<T>>: Caller<T> {
    /// The item of the one owner is out as raw, and nobody owns it.
    fn into_raw(&mut self, right: Right) -> SlotName
        requires seated { IsSeated (Self.caller self.old) }
        requires home { home_of right ≡ (Self.caller self.old).home.slots }
        requires kind { kind_of right ≡ StandingKind.Owned }
        ensures undisturbed { Undisturbed Self.caller Self.own Self.known Self.shows self.old self.new }
        ensures slot { result ≡ number_of right }
        ensures owned { IsExact (Self.caller self.old) → standing_at (Self.world self.old) (number_of right) ≡ Some Standing.Owned }
        ensures exact { IsExact (Self.caller self.old) → Self.world self.new ≡ with_standing (Self.world self.old) (number_of right) Standing.Raw };

    /// The owner of an item that is out as raw; of any other slot none.
    fn from_raw(&mut self, slot: SlotName) -> Option<Right>
        requires seated { IsSeated (Self.caller self.old) }
        ensures undisturbed { Undisturbed Self.caller Self.own Self.known Self.shows self.old self.new }
        ensures home { IfSome result (λ right. home_of right ≡ (Self.caller self.old).home.slots) }
        ensures slot { IfSome result (λ right. number_of right ≡ slot) }
        ensures kind { IfSome result (λ right. kind_of right ≡ StandingKind.Owned) }
        ensures exact { IsExact (Self.caller self.old) → MatchOption result
            ((standing_at (Self.world self.old) slot ≢ Some Standing.Raw) × (Self.world self.new ≡ Self.world self.old))
            (λ _. (standing_at (Self.world self.old) slot ≡ Some Standing.Raw) ×
            (Self.world self.new ≡ with_standing (Self.world self.old) slot Standing.Owned)) };

    /// The value of an item that is out as raw, for as long as the guard is borrowed, whatever becomes of the item; of any other slot none.
    fn get_guarded_raw<'g>(&mut self, slot: SlotName, guard: &'g Guard) -> Option<&'g T>
        requires seated { IsSeated (Self.caller self.old) }
        requires reader { reader_of guard.now ≡ (Self.caller self.old).reader }
        ensures undisturbed { Undisturbed Self.caller Self.own Self.known Self.shows self.old self.new }
        ensures shown { IfSome result (λ value. Self.shows self.new slot value.now) }
        ensures exact { IsExact (Self.caller self.old) →
            (IsSome result ↔ (standing_at (Self.world self.old) slot ≡ Some Standing.Raw)) × (Self.world self.new ≡ Self.world self.old) };
}
