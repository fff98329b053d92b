//! What participants do with the owners of items.
ghost use Rattle.std.specs.Prelude.{◌≡◌, ◌≢◌, ◌+◌, ◌^◌, ◌<◌, ℕ, IfOk, IsTrue, ◌↔◌, Some, MatchOption, MatchResult};
ghost use Rattle.sdd_participants.specs.declared.standing.Standing.TheVariants.{Shared as shared_by};
ghost use Rattle.sdd_world_model.specs.Slots.{IsSharedBy};
ghost use Rattle.sdd_world_model.specs.WorldChanges.{retired, owner_given, with_standing};
ghost use Rattle.sdd_world_model.specs.World.{standing_at, World, IsPlaceOf};
ghost use Rattle.sdd_space.specs.Owned.{slot_of, slots_home};
ghost use Rattle.sdd_space.specs.Ptr.{slot_named};
ghost use Rattle.sdd_script_model.specs.Val.{Val};
ghost use Rattle.sdd_core.specs.declared.refused.Refused.TheVariants as refused;
ghost use Rattle.sdd_space.specs.Shared as shared_owner;
ghost use Rattle.sdd_participants.specs.declared.standing.Standing.TheVariants as standing;
ghost use Rattle.sdd_space.specs.Guard.{reader_of};
ghost use Rattle.sdd_space.specs.CallerId.{reader_at};
ghost use Rattle.sdd_world_model.specs.UnderGuards.{CannotGo};
ghost use Rattle.sdd_world.specs.Place.{index_of};

use crate::commands::step::ItemCommand;
use sdd_core::Refused;
use sdd_script_model::Val;
use sdd_space::{Cells, Guard, Items, Owned, Ptr, Shared, SharedItems};
use sdd_world::inner::ptr_at;
use sdd_world::{Place, World};

/// The only owner retires its item, which waits with the participant.
pub struct RetireItem {
    pub owner: Owned<Val>,
}

impl ItemCommand for RetireItem {
    type Out = ();

    ghost asks = { λ step home _ _. slots_home step.owner ≡ home.slots };

    ghost does = { λ step _ place before _ after. (after ≡ retired before place (slot_of step.owner)) ×
        (standing_at before (slot_of step.owner) ≡ Some standing.Owned) };

    fn done<S: Items<Val> + SharedItems<Val> + Cells<Val>>(self, s: &mut S) {
        let RetireItem { owner } = self;
        owner.retire(s);
    }
}

/// A shared owner is given up; the last one's item waits with the participant.
pub struct ReleaseOwner {
    pub owner: Shared<Val>,
}

impl ItemCommand for ReleaseOwner {
    type Out = bool;

    ghost asks = { λ step home _ _. shared_owner.slots_home step.owner ≡ home.slots };

    ghost does = { λ step _ place before was_last after. (owners : ℕ) × IsSharedBy owners (standing_at before (shared_owner.slot_of step.owner)) ×
        (IsTrue was_last ↔ (owners ≡ 1))
        × (after ≡ owner_given before place (shared_owner.slot_of step.owner) (Some (shared_by owners))) };

    fn done<S: Items<Val> + SharedItems<Val> + Cells<Val>>(self, s: &mut S) -> bool {
        let ReleaseOwner { owner } = self;
        owner.release(s)
    }
}

/// One owner more beside a shared one.
pub struct CloneOwner<'a> {
    pub owner: &'a Shared<Val>,
}

impl ItemCommand for CloneOwner<'_> {
    type Out = Result<Shared<Val>, Refused>;

    ghost asks = { λ step home _ _. shared_owner.slots_home step.owner.now ≡ home.slots };

    ghost does = { λ step home _ before result after. (IfOk result (λ other.
        (shared_owner.slot_of other ≡ shared_owner.slot_of step.owner.now) × (shared_owner.slots_home other ≡ home.slots)))
        × ((owners : ℕ) × IsSharedBy owners (standing_at before (shared_owner.slot_of step.owner.now)) × MatchResult result
        (λ _. (owners < 2 ^ 62) × (after ≡ with_standing before (shared_owner.slot_of step.owner.now) (shared_by (owners + 1))))
        (λ e. (owners ≡ 2 ^ 62) × (e ≡ refused.TooManyOwners) × (after ≡ before))) };

    fn done<S: Items<Val> + SharedItems<Val> + Cells<Val>>(
        self,
        s: &mut S,
    ) -> Result<Shared<Val>, Refused> {
        let CloneOwner { owner } = self;
        owner.clone(s)
    }
}

/// One owner more of the item that a pointer is to.
pub struct ShareItem<'a> {
    pub ptr: Ptr<'a, Val>,
}

impl ItemCommand for ShareItem<'_> {
    type Out = Result<Option<Shared<Val>>, Refused>;

    ghost asks = { λ _ _ _ _. Unit {0} };

    ghost does = { λ step home _ before result after. (slot : ℕ) → slot_named step.ptr ≡ Some slot → (IfOk result (λ o. MatchOption o (Unit {0})
        (λ owner. (shared_owner.slot_of owner ≡ slot) × (shared_owner.slots_home owner ≡ home.slots))))
        × MatchResult result
        (λ o. MatchOption o (((owners : ℕ) → standing_at before slot ≢ Some (shared_by owners)) × (after ≡ before))
        (λ _. (owners : ℕ) × IsSharedBy owners (standing_at before slot) × (owners < 2 ^ 62)
        × (after ≡ with_standing before slot (shared_by (owners + 1)))))
        (λ e. (e ≡ refused.TooManyOwners) × IsSharedBy (2 ^ 62) (standing_at before slot) × (after ≡ before)) };

    fn done<S: Items<Val> + SharedItems<Val> + Cells<Val>>(
        self,
        s: &mut S,
    ) -> Result<Option<Shared<Val>>, Refused> {
        let ShareItem { ptr } = self;
        ptr.get_shared(s)
    }
}

/// One owner more of the item in a slot, through a pointer to it under a guard of the participant.
pub fn share_item(
    world: &mut World<Val>,
    place: &Place,
    guard: &Guard,
    slot: u32,
) -> Result<Option<Shared<Val>>, Refused>
    requires place { IsPlaceOf world.old (index_of place.now) }
    requires reader { reader_of guard.now ≡ reader_at world.old (index_of place.now) }
    requires stays { CannotGo world.old (index_of place.now) slot }
    ensures owner { IfOk result (λ o. MatchOption o (Unit {0})
        (λ owner. (shared_owner.slot_of owner ≡ slot) × (shared_owner.slots_home owner ≡ world.old.home.slots))) }
    ensures shared { MatchResult result
        (λ o. MatchOption o (((owners : ℕ) → standing_at world.old slot ≢ Some (shared_by owners)) × (world.new ≡ world.old))
        (λ _. (owners : ℕ) × IsSharedBy owners (standing_at world.old slot) × (owners < 2 ^ 62)
        × (world.new ≡ with_standing world.old slot (shared_by (owners + 1)))))
        (λ e. (e ≡ Refused.TooManyOwners) × IsSharedBy (2 ^ 62) (standing_at world.old slot) × (world.new ≡ world.old)) }
{
    let ptr = ptr_at(world, place, slot, guard);
    ShareItem { ptr }.at(world, place)
}
