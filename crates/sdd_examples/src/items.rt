//! Items in any space.
ghost use Rattle.std.specs.Prelude.{◌≡◌, ℕ, IfOk, MatchResult, Some};
ghost use Rattle.sdd_participants.specs.Slab.{IsEmptyAt, IsFull};
ghost use Rattle.sdd_space.specs.CallerId.{IsSeated, IsExact};
ghost use Rattle.sdd_world_model.specs.WorldChanges.{made, retired};
ghost use Rattle.sdd_world_model.specs.World.{place_at, value_at};
ghost use Rattle.sdd_space.specs.Owned.{slot_of, slots_home};
ghost use Rattle.sdd_participants.specs.EpochState.{has_garbage};

use sdd_core::Refused;
use sdd_space::laws::{comes_back, owned_is_shown};
use sdd_space::{Guard, Guards, Items, Look, Owned, RawItems};

/// Makes an item, reads it and retires it; answers what was read, which is what was put in.
pub fn made_and_read<S: Look<u64> + Items<u64>>(
    value: u64,
    s: &mut S,
) -> Result<u64, (u64, Refused)>
    requires seated { IsSeated (S.caller s.old) }
    ensures caller { S.caller s.new ≡ S.caller s.old }
    ensures read { IfOk result (λ read. read ≡ value) }
    ensures exact { IsExact (S.caller s.old) → MatchResult result
        (λ _. (k : ℕ) × IsEmptyAt (S.world s.old).standings k × (S.world s.new ≡ retired (made (S.world s.old) k value) (S.caller s.old).place k))
        (λ e. IsFull (S.world s.old).standings × (e ≡ (value, Refused.NoSlot)) × (S.world s.new ≡ S.world s.old)) }
{
    let owner = Owned::new(value, s)?;
    let read = *owner.get(s);
    owner.retire(s);
    Ok(read)
}

/// The value of an owner's item, in an exact space: the one in its slot.
pub fn value_in_its_slot<S: Look<u64> + Items<u64>>(owner: &Owned<u64>, s: &mut S) -> u64
    requires home { slots_home owner.now ≡ (S.caller s.old).home.slots }
    requires exact { IsExact (S.caller s.old) }
    ensures same { s.new ≡ s.old }
    ensures value { value_at (S.world s.new) (slot_of owner.now) ≡ Some result }
{
    owned_is_shown(owner, s);
    *owner.get(s)
}

/// Puts an item out as raw and takes it back; answers what is read then, which is what was in its slot.
pub fn raw_and_back<S: Look<u64> + Items<u64> + RawItems<u64>>(
    owner: Owned<u64>,
    s: &mut S,
) -> (Owned<u64>, u64)
    requires seated { IsSeated (S.caller s.old) }
    requires home { slots_home owner ≡ (S.caller s.old).home.slots }
    requires exact { IsExact (S.caller s.old) }
    ensures caller { S.caller s.new ≡ S.caller s.old }
    ensures home { slots_home result.0 ≡ (S.caller s.new).home.slots }
    ensures same { slot_of result.0 ≡ slot_of owner }
    ensures read { value_at (S.world s.old) (slot_of owner) ≡ Some result.1 }
    ensures world { S.world s.new ≡ S.world s.old }
{
    let owner = comes_back(owner, s);
    let read = value_in_its_slot(&owner, s);
    (owner, read)
}

/// Whether something may wait with the participant of an exact space, as the world has it.
pub fn may_wait<S: Guards<u64>>(guard: &Guard, s: &S) -> bool
    requires seated { IsSeated (S.caller s.now) }
    requires exact { IsExact (S.caller s.now) }
    ensures own { result ≡ has_garbage (S.own s.now) }
    ensures place { S.own s.now ≡ place_at (S.world s.now) (S.caller s.now).place }
{
    guard.has_garbage(s)
}
