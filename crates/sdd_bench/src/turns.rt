//! The loops whose instructions are counted, written once for every space.
ghost use Rattle.std.specs.Prelude.{◌≡◌, Some};
ghost use Rattle.sdd_participants.specs.declared.standing.Standing.TheVariants.{Shared as shared_by};
ghost use Rattle.sdd_space.specs.CallerId.{IsExact, IsSeated};
ghost use Rattle.sdd_space.specs.Guard.{reader_of};
ghost use Rattle.sdd_world_model.specs.World.{standing_at};
ghost use Rattle.sdd_space.specs.Owned.{slot_of, slots_home};
ghost use Rattle.sdd_space.specs.Shared as shared;
ghost use Rattle.sdd_bench.specs.Leaves.{Leaves};

use crate::operation::Guarding;
use sdd_core::Refused;
use sdd_participants::Idle;
use sdd_space::laws::comes_back;
use sdd_space::{Deferrals, Guard, Guards, Items, Look, Owned, RawItems, Shared, SharedOwners};

/// Does something with guards that often.
#[inline(always)]
pub fn guards<S: Guards<u64>>(space: &mut S, guarding: Guarding, turns: u64) -> Result<(), Refused>
    requires { IsSeated (S.caller space.old) }
    ensures { Leaves (S.caller space.old) (S.own space.old) (S.world space.old) (S.caller space.new) (S.own space.new) (S.world space.new) }
{
    match guarding {
        Guarding::Outermost => plain(space, turns),
        Guarding::Nested => nested(space, turns),
        Guarding::Accelerated => accelerated(space, turns),
    }
}

#[inline(always)]
fn plain<S: Guards<u64>>(space: &mut S, turns: u64) -> Result<(), Refused>
    requires { IsSeated (S.caller space.old) }
    ensures { Leaves (S.caller space.old) (S.own space.old) (S.world space.old) (S.caller space.new) (S.own space.new) (S.world space.new) }
{
    for _turn in 0..turns {
        let guard = Guard::new(space)?;
        guard.close(space);
    }
    Ok(())
}

#[inline(always)]
fn nested<S: Guards<u64>>(space: &mut S, turns: u64) -> Result<(), Refused>
    requires { IsSeated (S.caller space.old) }
    ensures { Leaves (S.caller space.old) (S.own space.old) (S.world space.old) (S.caller space.new) (S.own space.new) (S.world space.new) }
{
    let outer = Guard::new(space)?;
    let done = plain(space, turns);
    outer.close(space);
    done
}

#[inline(always)]
fn accelerated<S: Guards<u64>>(space: &mut S, turns: u64) -> Result<(), Refused>
    requires { IsSeated (S.caller space.old) }
    ensures { Leaves (S.caller space.old) (S.own space.old) (S.world space.old) (S.caller space.new) (S.own space.new) (S.world space.new) }
{
    for _turn in 0..turns {
        let guard = Guard::new(space)?;
        guard.accelerate(space);
        guard.close(space);
    }
    Ok(())
}

/// Makes and retires an item under a guard that often.
#[inline(always)]
pub fn items<S: Guards<u64> + Items<u64>>(space: &mut S, turns: u64) -> Result<(), Refused>
    requires { IsSeated (S.caller space.old) }
    ensures { Leaves (S.caller space.old) (S.own space.old) (S.world space.old) (S.caller space.new) (S.own space.new) (S.world space.new) }
{
    for turn in 0..turns {
        let guard = Guard::new(space)?;
        match Owned::new(turn, space) {
            Ok(owner) => owner.retire(space),
            Err((_value, refused)) => {
                guard.close(space);
                return Err(refused);
            }
        }
        guard.close(space);
    }
    Ok(())
}

/// Opens a guard that often, and defers a job under each. What is due runs.
#[inline(always)]
pub fn jobs<S: Guards<u64> + Deferrals<u64, Job = Idle>>(
    space: &mut S,
    turns: u64,
) -> Result<(), Refused>
    requires { IsSeated (S.caller space.old) }
    ensures { Leaves (S.caller space.old) (S.own space.old) (S.world space.old) (S.caller space.new) (S.own space.new) (S.world space.new) }
{
    for _ in 0..turns {
        let guard = Guard::new(space)?;
        let deferred = guard.defer_execute(Idle, space);
        guard.close(space);
        if let Err((_job, refused)) = deferred {
            return Err(refused);
        }
    }
    Ok(())
}

/// Makes two items, has their owners look that often, and retires both.
#[inline(always)]
pub fn looks<S: Look<u64> + Items<u64>>(space: &mut S, turns: u64) -> Result<u64, Refused>
    requires { IsSeated (S.caller space.old) }
    ensures { Leaves (S.caller space.old) (S.own space.old) (S.world space.old) (S.caller space.new) (S.own space.new) (S.world space.new) }
{
    let one = match Owned::new(1, space) {
        Ok(one) => one,
        Err((_value, refused)) => return Err(refused),
    };
    match Owned::new(3, space) {
        Ok(other) => {
            let sum = reads(space, &one, &other, turns);
            one.retire(space);
            other.retire(space);
            Ok(sum)
        }
        Err((_value, refused)) => {
            one.retire(space);
            Err(refused)
        }
    }
}

/// The sum of what two owners found in turn.
///
/// What was found so far decides which one looks, so that no look can be left out.
#[inline(always)]
pub fn reads<L: Look<u64>>(space: &L, one: &Owned<u64>, other: &Owned<u64>, turns: u64) -> u64
    requires one { slots_home one.now ≡ (L.home space.now).slots }
    requires other { slots_home other.now ≡ (L.home space.now).slots }
{
    let mut sum = 0u64;
    for _turn in 0..turns {
        let value = if sum % 2 == 0 {
            *one.get(space)
        } else {
            *other.get(space)
        };
        sum = sum.wrapping_add(value);
    }
    sum
}

/// Makes and retires an item under a guard that often, while so many others have owners.
pub fn items_beside<S: Guards<u64> + Items<u64>>(
    space: &mut S,
    others: u64,
    turns: u64,
) -> Result<(), Refused>
    requires { IsSeated (S.caller space.old) }
    ensures { Leaves (S.caller space.old) (S.own space.old) (S.world space.old) (S.caller space.new) (S.own space.new) (S.world space.new) }
{
    if others == 0 {
        return items(space, turns);
    }
    match Owned::new(others, space) {
        Ok(owner) => {
            let done = items_beside(space, others - 1, turns);
            owner.retire(space);
            done
        }
        Err((_value, refused)) => Err(refused),
    }
}

/// Makes two items, looks at them that often under a guard, and retires both. Where `once` is set each is looked at once, and then read.
#[inline(always)]
pub fn sights<S: Guards<u64> + Items<u64>>(
    space: &mut S,
    once: bool,
    turns: u64,
) -> Result<u64, Refused>
    requires { IsSeated (S.caller space.old) }
    ensures { Leaves (S.caller space.old) (S.own space.old) (S.world space.old) (S.caller space.new) (S.own space.new) (S.world space.new) }
{
    let guard = Guard::new(space)?;
    let sum = sights_under(space, &guard, once, turns);
    guard.close(space);
    sum
}

#[inline(always)]
fn sights_under<S: Items<u64>>(
    space: &mut S,
    guard: &Guard,
    once: bool,
    turns: u64,
) -> Result<u64, Refused>
    requires seated { IsSeated (S.caller space.old) }
    requires reader { reader_of guard.now ≡ (S.caller space.old).reader }
    ensures { Leaves (S.caller space.old) (S.own space.old) (S.world space.old) (S.caller space.new) (S.own space.new) (S.world space.new) }
{
    let one = match Owned::new(1, space) {
        Ok(one) => one,
        Err((_value, refused)) => return Err(refused),
    };
    match Owned::new(3, space) {
        Ok(other) => {
            let sum = sum_found(space, &one, &other, guard, once, turns);
            one.retire(space);
            other.retire(space);
            Ok(sum)
        }
        Err((_value, refused)) => {
            one.retire(space);
            Err(refused)
        }
    }
}

#[inline(always)]
fn sum_found<S: Items<u64>>(
    space: &mut S,
    one: &Owned<u64>,
    other: &Owned<u64>,
    guard: &Guard,
    once: bool,
    turns: u64,
) -> u64
    requires seated { IsSeated (S.caller space.old) }
    requires one { slots_home one.now ≡ (S.caller space.old).home.slots }
    requires other { slots_home other.now ≡ (S.caller space.old).home.slots }
    requires reader { reader_of guard.now ≡ (S.caller space.old).reader }
    ensures caller { S.caller space.new ≡ S.caller space.old }
    ensures own { S.own space.new ≡ S.own space.old }
    ensures exact { IsExact (S.caller space.old) → S.world space.new ≡ S.world space.old }
{
    if once {
        sum_read(space, one, other, guard, turns)
    } else {
        sum_seen(space, one, other, guard, turns)
    }
}

/// The sum of what was seen at two owners in turn. What was found so far decides which one is looked at.
#[inline(always)]
fn sum_seen<S: Items<u64>>(
    space: &mut S,
    one: &Owned<u64>,
    other: &Owned<u64>,
    guard: &Guard,
    turns: u64,
) -> u64
    requires seated { IsSeated (S.caller space.old) }
    requires one { slots_home one.now ≡ (S.caller space.old).home.slots }
    requires other { slots_home other.now ≡ (S.caller space.old).home.slots }
    requires reader { reader_of guard.now ≡ (S.caller space.old).reader }
    ensures caller { S.caller space.new ≡ S.caller space.old }
    ensures own { S.own space.new ≡ S.own space.old }
    ensures exact { IsExact (S.caller space.old) → S.world space.new ≡ S.world space.old }
{
    let mut sum = 0u64;
    for _turn in 0..turns {
        let owner = if sum % 2 == 0 { one } else { other };
        sum = sum.wrapping_add(*owner.get_guarded_ref(guard, space));
    }
    sum
}

/// The same by references that were got once.
#[inline(always)]
fn sum_read<S: Items<u64>>(
    space: &mut S,
    one: &Owned<u64>,
    other: &Owned<u64>,
    guard: &Guard,
    turns: u64,
) -> u64
    requires seated { IsSeated (S.caller space.old) }
    requires one { slots_home one.now ≡ (S.caller space.old).home.slots }
    requires other { slots_home other.now ≡ (S.caller space.old).home.slots }
    requires reader { reader_of guard.now ≡ (S.caller space.old).reader }
    ensures caller { S.caller space.new ≡ S.caller space.old }
    ensures own { S.own space.new ≡ S.own space.old }
    ensures exact { IsExact (S.caller space.old) → S.world space.new ≡ S.world space.old }
{
    let one = one.get_guarded_ref(guard, space);
    let other = other.get_guarded_ref(guard, space);
    let mut sum = 0u64;
    for _turn in 0..turns {
        let value = if sum % 2 == 0 { one } else { other };
        sum = sum.wrapping_add(*value);
    }
    sum
}

/// Makes an item with a shared owner, clones the owner and releases the clone that often, and releases the owner.
#[inline(always)]
pub fn shares<S: Items<u64> + SharedOwners<u64>>(space: &mut S, turns: u64) -> Result<(), Refused>
    requires { IsSeated (S.caller space.old) }
    ensures { Leaves (S.caller space.old) (S.own space.old) (S.world space.old) (S.caller space.new) (S.own space.new) (S.world space.new) }
{
    match Shared::new(1, space) {
        Ok(owner) => {
            let done = clones(space, &owner, turns);
            let _ = owner.release(space);
            done
        }
        Err((_value, refused)) => Err(refused),
    }
}

/// Clones the only owner of an item, and releases the clone, that often.
#[inline(always)]
fn clones<S: Items<u64> + SharedOwners<u64>>(
    space: &mut S,
    owner: &Shared<u64>,
    turns: u64,
) -> Result<(), Refused>
    requires seated { IsSeated (S.caller space.old) }
    requires home { shared.slots_home owner.now ≡ (S.caller space.old).home.slots }
    requires alone { IsExact (S.caller space.old) → standing_at (S.world space.old) (shared.slot_of owner.now) ≡ Some (shared_by 1) }
    ensures leaves { Leaves (S.caller space.old) (S.own space.old) (S.world space.old) (S.caller space.new) (S.own space.new) (S.world space.new) }
    ensures alone { IsExact (S.caller space.old) → standing_at (S.world space.new) (shared.slot_of owner.now) ≡ Some (shared_by 1) }
{
    for _turn in 0..turns {
        let other = owner.clone(space)?;
        let _ = other.release(space);
    }
    Ok(())
}

/// Makes an item, which goes raw and comes back that often, and retires it.
#[inline(always)]
pub fn raws<S: Items<u64> + RawItems<u64>>(space: &mut S, turns: u64) -> Result<(), Refused>
    requires seated { IsSeated (S.caller space.old) }
    requires exact { IsExact (S.caller space.old) }
    ensures { Leaves (S.caller space.old) (S.own space.old) (S.world space.old) (S.caller space.new) (S.own space.new) (S.world space.new) }
{
    match Owned::new(1, space) {
        Ok(owner) => {
            let owner = round_trips(space, owner, turns);
            owner.retire(space);
            Ok(())
        }
        Err((_value, refused)) => Err(refused),
    }
}

/// An item goes raw and comes back that often.
#[inline(always)]
fn round_trips<S: RawItems<u64>>(space: &mut S, owner: Owned<u64>, turns: u64) -> Owned<u64>
    requires seated { IsSeated (S.caller space.old) }
    requires exact { IsExact (S.caller space.old) }
    requires home { slots_home owner ≡ (S.caller space.old).home.slots }
    ensures caller { S.caller space.new ≡ S.caller space.old }
    ensures own { S.own space.new ≡ S.own space.old }
    ensures world { S.world space.new ≡ S.world space.old }
    ensures home { slots_home result ≡ (S.caller space.new).home.slots }
    ensures same { slot_of result ≡ slot_of owner }
{
    let mut owner = owner;
    for _turn in 0..turns {
        owner = round_trip(space, owner);
    }
    owner
}

/// An item goes raw and comes back.
#[inline(always)]
fn round_trip<S: RawItems<u64>>(space: &mut S, owner: Owned<u64>) -> Owned<u64>
    requires seated { IsSeated (S.caller space.old) }
    requires exact { IsExact (S.caller space.old) }
    requires home { slots_home owner ≡ (S.caller space.old).home.slots }
    ensures caller { S.caller space.new ≡ S.caller space.old }
    ensures own { S.own space.new ≡ S.own space.old }
    ensures world { S.world space.new ≡ S.world space.old }
    ensures home { slots_home result ≡ (S.caller space.new).home.slots }
    ensures same { slot_of result ≡ slot_of owner }
{
    comes_back(owner, space)
}
