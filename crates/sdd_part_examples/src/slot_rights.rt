//! How a space uses parts, at one slot: a value is put in, read by its owner, and taken out.
//!
//! The space has the slot's `Option` and one unit. The owner has all other units, and nothing else.
ghost use Rattle.std.specs.Prelude.{◌≡◌, ◌≢◌, ◌+◌, ◌-◌, ◌<◌};
ghost use Rattle.sdd_part_examples.specs.SlotRights.{Fits};
ghost use Rattle.sdd_part_examples.specs.declared.slot_rights.Standing.TheVariants.{Free as is_free, Owned as is_owned};

use sdd_rights::{Fraction, GhostKeys, WHOLE};

/// What stands of a slot.
#[derive(Clone, Copy)]
pub enum Standing {
    Free,
    Owned,
}

/// The ghost map of a space, and its first two slots.
pub fn space_of(size: usize) -> (GhostKeys<Standing>, Fraction<Standing>, Fraction<Standing>)
    ensures size { result.0.home.size ≡ size }
    ensures homes { (result.1.home ≡ result.0.home) × (result.2.home ≡ result.0.home) }
    ensures free { (result.1.kind ≡ is_free) × (result.2.kind ≡ is_free) }
    ensures whole { (result.1.units ≡ WHOLE) × (result.2.units ≡ WHOLE) }
    ensures two { result.1.number ≢ result.2.number }
{
    let mut keys = GhostKeys::new(size);
    let first = keys.issue(&Standing::Free);
    let second = keys.issue(&Standing::Free);
    (keys, first, second)
}

/// A value for a free slot, and its owner.
pub fn put<T: Drop>(
    slot: &mut Option<T>,
    kept: &mut Fraction<Standing>,
    value: T,
) -> Fraction<Standing>
    requires fits { Fits slot.old kept.old }
    requires free { slot.old ≡ None }
    ensures fits { Fits slot.new kept.new }
    ensures filled { slot.new ≡ Some value }
    ensures home { kept.new.home ≡ kept.old.home }
    ensures number { kept.new.number ≡ kept.old.number }
    ensures owner { result ≡ record kept.new { units = WHOLE - 1 } }
    ensures shown { result.shown ≡ T.row.coded.code value }
{
    kept.set(&Standing::Owned, &value);
    let owner = kept.split(WHOLE - 1);
    *slot = Some(value);
    owner
}

/// The value of an owner.
pub fn get<'a, T>(
    slot: &'a Option<T>,
    kept: &Fraction<Standing>,
    owner: &Fraction<Standing>,
) -> &'a T
    requires fits { Fits slot.now kept.now }
    requires home { owner.now.home ≡ kept.now.home }
    requires number { owner.now.number ≡ kept.now.number }
    requires owned { owner.now.kind ≡ is_owned }
    ensures { slot.now ≡ Some result.now }
{
    kept.agree(owner);
    let Some(value) = slot else { unreachable!() };
    value
}

/// The value of an owner, out of its slot, which is free again.
pub fn take<T: Drop>(
    slot: &mut Option<T>,
    kept: &mut Fraction<Standing>,
    owner: Fraction<Standing>,
) -> T
    requires fits { Fits slot.old kept.old }
    requires home { owner.home ≡ kept.old.home }
    requires number { owner.number ≡ kept.old.number }
    requires owned { owner.kind ≡ is_owned }
    requires others { owner.units ≡ WHOLE - 1 }
    ensures fits { Fits slot.new kept.new }
    ensures was { slot.old ≡ Some result }
    ensures free { slot.new ≡ None }
{
    kept.agree(&owner);
    let Some(value) = slot.take() else {
        unreachable!()
    };
    kept.join(owner);
    kept.set(&Standing::Free, &value);
    value
}

/// Two parts of one number show one value.
pub fn shows_one<T>(kept: &Fraction<Standing>, owner: &Fraction<Standing>, one: &T, other: &T)
    requires home { owner.now.home ≡ kept.now.home }
    requires number { owner.now.number ≡ kept.now.number }
    requires one { kept.now.shown ≡ T.row.coded.code one.now }
    requires other { owner.now.shown ≡ T.row.coded.code other.now }
    ensures { one.now ≡ other.now }
{
    owner.agree(kept);
    kept.same(one, other);
}

/// Beside another part of its number no part has all units.
pub fn not_whole(one: &mut Fraction<Standing>, other: &mut Fraction<Standing>)
    requires home { other.old.home ≡ one.old.home }
    requires number { other.old.number ≡ one.old.number }
    ensures kept { (one.new ≡ one.old) × (other.new ≡ other.old) }
    ensures fewer { one.old.units < WHOLE }
{
    one.apart(other);
}
