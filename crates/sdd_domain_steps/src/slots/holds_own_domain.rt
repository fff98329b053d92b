//! Which values a domain takes.
use sdd_shared_values::ValueInvariant;
use sdd_space::Item;

/// Values that hold what is of their domain: who makes an item shows that its value does, and who reclaims it may rest on it.
pub struct HoldsOwnDomain;

impl<T: Item<T>> ValueInvariant<T> for HoldsOwnDomain {
    ghost use Rattle.sdd_world_model.specs.OwnerOrCell.{AreOf};
    ghost use Rattle.sdd_domain_steps.specs.SpaceIds.{home_of_slots};

    ghost fits = { λ table gamma size value. AreOf (home_of_slots table gamma size) (T.holds value) };
}
