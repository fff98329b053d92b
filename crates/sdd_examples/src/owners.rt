//! Owners look at their items without a guard: over a turn at a world, and over a participant of a domain.
ghost use Rattle.std.specs.Prelude.{◌≡◌, ◌⊎◌, IfErr, IfOk};
ghost use Rattle.sdd_space.specs.Owned.{slots_home};
ghost use Rattle.sdd_space.specs.CallerId.{IsSeated};
ghost use Rattle.sdd_world_model.specs.World.{World, IsPlaceOf};
ghost use Rattle.sdd_world.specs.Place.{index_of};
ghost use Rattle.sdd_domain.specs.Space.{caller_of};

use sdd_core::Refused;
use sdd_domain::Local;
use sdd_space::{Items, Look, Owned};
use sdd_world::{Place, World};

/// Makes an item and looks at it without a guard: answers what is seen, which is what was put in.
///
/// `NoSlot` or `Contended` where `Owned::new` is refused so; the value comes back.
pub fn made_and_seen<S: Look<u64> + Items<u64>>(
    value: u64,
    s: &mut S,
) -> Result<(Owned<u64>, u64), (u64, Refused)>
    requires { IsSeated (S.caller s.old) }
    ensures caller { S.caller s.new ≡ S.caller s.old }
    ensures home { IfOk result (λ made. slots_home made.0 ≡ (S.caller s.new).home.slots) }
    ensures seen { IfOk result (λ made. made.1 ≡ value) }
    ensures back { IfErr result (λ e. (e.0 ≡ value) × ((e.1 ≡ Refused.NoSlot) ⊎ (e.1 ≡ Refused.Contended))) }
{
    let owner = Owned::new(value, s)?;
    let seen = *owner.get(s);
    Ok((owner, seen))
}

/// The same by a participant of a world.
pub fn seen_in_a_world(
    value: u64,
    world: &mut World<u64>,
    place: &Place,
) -> Result<(Owned<u64>, u64), (u64, Refused)>
    requires { IsPlaceOf world.old (index_of place.now) }
    ensures home { IfOk result (λ made. slots_home made.0 ≡ world.old.home.slots) }
    ensures seen { IfOk result (λ made. made.1 ≡ value) }
    ensures back { IfErr result (λ e. (e.0 ≡ value) × ((e.1 ≡ Refused.NoSlot) ⊎ (e.1 ≡ Refused.Contended))) }
{
    made_and_seen(value, &mut world.at(place))
}

/// The same by a participant of a domain, whatever the others do.
pub fn seen_in_a_domain(
    value: u64,
    local: &mut Local<'_, u64>,
) -> Result<(Owned<u64>, u64), (u64, Refused)>
    requires { IsSeated (caller_of local.old) }
    ensures caller { caller_of local.new ≡ caller_of local.old }
    ensures home { IfOk result (λ made. slots_home made.0 ≡ (caller_of local.new).home.slots) }
    ensures seen { IfOk result (λ made. made.1 ≡ value) }
    ensures back { IfErr result (λ e. (e.0 ≡ value) × ((e.1 ≡ Refused.NoSlot) ⊎ (e.1 ≡ Refused.Contended))) }
{
    made_and_seen(value, local)
}
