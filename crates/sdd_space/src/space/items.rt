ghost use Rattle.std.specs.Prelude.{◌≡◌, ◌↔◌, ◌⊎◌, IfErr, IfOk, IsTrue, MatchResult, length, if◌then◌else◌};
ghost use Rattle.sdd_participants.specs.Slab.{IsEmptyAt, IsFull};
ghost use Rattle.sdd_world_model.specs.OwnerOrCell.{AreOf};
ghost use Rattle.sdd_space.specs.CallerId.{IsSeated, IsExact, IsLone};
ghost use Rattle.sdd_world_model.specs.Releases.{Releases, left_waiting};
ghost use Rattle.sdd_space.specs.Undisturbed.{Undisturbed, Unmoved};
ghost use Rattle.sdd_rights.specs.StandingKind.{IsOwner};
ghost use Rattle.sdd_rights.specs.Right.{number_of, home_of, kind_of};
ghost use Rattle.sdd_world_model.specs.Slots.{first_standing};
ghost use Rattle.sdd_space.specs.Guard.{reader_of};
ghost use Rattle.sdd_world_model.specs.WorldChanges.{made_as};

use crate::guard::Guard;
use crate::item::Item;
use crate::space::caller::Caller;
use sdd_core::Refused;
use sdd_rights::{Right, StandingKind};

/// The items of a world or domain, as one participant makes them, looks at them and lets them go.
///
/// An owner is here the right that it has to its slot.
pub trait Items<T: Item<T>>: Caller<T> {
    /// By what the participant knows no slot is free.
    ghost is_used_up: { Self → Type 0 };

    /// Puts a value into a free slot, for an owner of this kind.
    fn new_item(&mut self, value: T, kind: StandingKind) -> Result<Right, (T, Refused)>
        requires seated { IsSeated (Self.caller self.old) }
        requires home { AreOf (Self.caller self.old).home (T.holds value) }
        requires owner { IsOwner kind }
        ensures undisturbed { Undisturbed Self.caller Self.own Self.known Self.shows self.old self.new }
        ensures home { IfOk result (λ right. home_of right ≡ (Self.caller self.old).home.slots) }
        ensures kind { IfOk result (λ right. kind_of right ≡ kind) }
        ensures shown { IfOk result (λ right. Self.owns_value self.new right value) }
        ensures back { IfErr result (λ e. (e.0 ≡ value) × ((e.1 ≡ Refused.NoSlot) ⊎ (e.1 ≡ Refused.Contended))) }
        ensures lone { IsLone (Self.caller self.old) → IfErr result (λ e. (e.1 ≡ Refused.NoSlot) × is_used_up self.old) }
        ensures exact { IsExact (Self.caller self.old) → MatchResult result
            (λ right. IsEmptyAt (Self.world self.old).standings (number_of right) ×
            (Self.world self.new ≡ made_as (Self.world self.old) (number_of right) value (first_standing kind)))
            (λ e. IsFull (Self.world self.old).standings × (e ≡ (value, Refused.NoSlot)) × (Self.world self.new ≡ Self.world self.old)) };

    /// Makes a value and puts it into a free slot, for an owner of this kind; where none is free it isn't made.
    fn new_item_with<F: FnOnce() -> T>(
        &mut self,
        make: F,
        kind: StandingKind,
    ) -> Result<Right, (F, Refused)>
        requires seated { IsSeated (Self.caller self.old) }
        requires callable { F.pre make }
        requires home { (value : T) → F.post make value → AreOf (Self.caller self.old).home (T.holds value) }
        requires owner { IsOwner kind }
        ensures undisturbed { Undisturbed Self.caller Self.own Self.known Self.shows self.old self.new }
        ensures home { IfOk result (λ right. home_of right ≡ (Self.caller self.old).home.slots) }
        ensures kind { IfOk result (λ right. kind_of right ≡ kind) }
        ensures shown { IfOk result (λ right. (value : T) × F.post make value × Self.owns_value self.new right value) }
        ensures back { IfErr result (λ e. (e.0 ≡ make) × ((e.1 ≡ Refused.NoSlot) ⊎ (e.1 ≡ Refused.Contended))) }
        ensures lone { IsLone (Self.caller self.old) → IfErr result (λ e. (e.1 ≡ Refused.NoSlot) × is_used_up self.old) }
        ensures exact { IsExact (Self.caller self.old) → MatchResult result
            (λ right. IsEmptyAt (Self.world self.old).standings (number_of right) ×
            ((value : T) × F.post make value × (Self.world self.new ≡ made_as (Self.world self.old) (number_of right) value (first_standing kind))))
            (λ e. IsFull (Self.world self.old).standings × (e ≡ (make, Refused.NoSlot)) × (Self.world self.new ≡ Self.world self.old)) };

    /// The value of an owner's item, for as long as the guard is borrowed, whatever becomes of the item.
    fn get_guarded<'g>(&mut self, right: &Right, guard: &'g Guard) -> &'g T
        requires seated { IsSeated (Self.caller self.old) }
        requires home { home_of right.now ≡ (Self.caller self.old).home.slots }
        requires reader { reader_of guard.now ≡ (Self.caller self.old).reader }
        ensures undisturbed { Undisturbed Self.caller Self.own Self.known Self.shows self.old self.new }
        ensures shown { Self.shows self.new (number_of right.now) result.now }
        ensures value { Self.owns_value self.new right.now result.now }
        ensures exact { IsExact (Self.caller self.old) → Self.world self.new ≡ Self.world self.old };

    /// An owner of this kind lets its item go, and is told whether it was the last. The last one's item waits with the participant.
    ///
    /// Who calls knows the kind when the program is compiled, so that nothing is looked up for an owner that is alone.
    fn release(&mut self, right: Right, kind: StandingKind) -> bool
        requires seated { IsSeated (Self.caller self.old) }
        requires home { home_of right ≡ (Self.caller self.old).home.slots }
        requires kind { kind_of right ≡ kind }
        ensures unmoved { Unmoved Self.caller Self.known Self.shows self.old self.new }
        ensures own { Self.own self.new ≡ left_waiting result (number_of right) (Self.own self.old) }
        ensures sole { kind_of right ≡ StandingKind.Owned → IsTrue result }
        ensures released { IsExact (Self.caller self.old) →
            Releases (Self.world self.old) (Self.caller self.old).place (number_of right) (kind_of right) result (Self.world self.new) };

    /// How many slots there are.
    fn slots(&self) -> u64
        ensures size { result ≡ (Self.caller self.now).home.slots.size }
        ensures exact { IsExact (Self.caller self.now) → result ≡ length (Self.world self.now).standings };

    /// A slot was found free. Where others fill slots too, it may be full again when that is answered.
    fn has_slot(&mut self) -> bool
        requires seated { IsSeated (Self.caller self.old) }
        ensures undisturbed { Undisturbed Self.caller Self.own Self.known Self.shows self.old self.new }
        ensures lone { IsLone (Self.caller self.old) → IsTrue result ↔ ¬ (is_used_up self.old) }
        ensures exact { IsExact (Self.caller self.old) →
            (IsTrue result ↔ ¬ (IsFull (Self.world self.old).standings)) × (Self.world self.new ≡ Self.world self.old) };

    /// A law, which changes nothing: in an exact space an owner's item has the value that its slot shows.
    fn owned_is_shown(&mut self, right: &Right)
        requires home { home_of right.now ≡ (Self.caller self.old).home.slots }
        ensures same { self.new ≡ self.old }
        ensures shown { IsExact (Self.caller self.old) → (value : T) →
            Self.owns_value self.old right.now value ↔ Self.shows self.old (number_of right.now) value };

    /// In an exact space that is as the world says.
    ghost used_up_is_full: { (s : Self) → IsExact (Self.caller s) → is_used_up s ↔ IsFull (Self.world s).standings };
}
