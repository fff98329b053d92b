//! What the tests do with owners over any space. Each step answers what is compared.
ghost use Rattle.std.specs.Prelude.{◌≡◌};
ghost use Rattle.sdd_space.specs.CallerId.{IsSeated};
ghost use Rattle.sdd_space.specs.Guard.{reader_of};
ghost use Rattle.sdd_world_model.specs.OwnerOrCell.{AreOf};
ghost use Rattle.sdd_space.specs.Owned as owned;
ghost use Rattle.sdd_space.specs.Shared as shared;

use sdd_core::Refused;
use sdd_space::{Guard, Guards, InPlaceItems, Item, Items, Owned, Shared, SharedOwners};
use std::process::Abort;

/// The only owner of a new item.
pub fn owned_item<T: Item<T>, S: Items<T>>(rt: &impl Abort, s: &mut S, value: T) -> Owned<T>
    requires seated { IsSeated (S.caller s.old) }
    requires home { AreOf (S.caller s.old).home (T.holds value) }
    ensures caller { S.caller s.new ≡ S.caller s.old }
    ensures home { owned.slots_home result ≡ (S.caller s.old).home.slots }
{
    match Owned::new(value, s) {
        Ok(owner) => owner,
        Err((_value, refused)) => panic!(rt; "refused: {refused:?}"),
    }
}

/// The first owner of a new item.
pub fn shared_item<T: Item<T>, S: Items<T>>(rt: &impl Abort, s: &mut S, value: T) -> Shared<T>
    requires seated { IsSeated (S.caller s.old) }
    requires home { AreOf (S.caller s.old).home (T.holds value) }
    ensures caller { S.caller s.new ≡ S.caller s.old }
    ensures home { shared.slots_home result ≡ (S.caller s.old).home.slots }
{
    match Shared::new(value, s) {
        Ok(owner) => owner,
        Err((_value, refused)) => panic!(rt; "refused: {refused:?}"),
    }
}

/// One owner more.
pub fn copied<T: Item<T>, S: SharedOwners<T>>(
    rt: &impl Abort,
    s: &mut S,
    owner: &Shared<T>,
) -> Shared<T>
    requires seated { IsSeated (S.caller s.old) }
    requires home { shared.slots_home owner.now ≡ (S.caller s.old).home.slots }
    ensures caller { S.caller s.new ≡ S.caller s.old }
    ensures home { shared.slots_home result ≡ (S.caller s.old).home.slots }
{
    owner.clone(s).expect(rt, "there are few owners")
}

/// Gives the owner up, and tells whether it was the last.
pub fn released<T: Item<T>, S: Items<T>>(s: &mut S, owner: Shared<T>) -> bool
    requires seated { IsSeated (S.caller s.old) }
    requires home { shared.slots_home owner ≡ (S.caller s.old).home.slots }
    ensures { S.caller s.new ≡ S.caller s.old }
{
    owner.release(s)
}

/// The number that a guard shows of the owner's item.
pub fn seen<S: Items<u64>>(s: &mut S, guard: &Guard, owner: &Shared<u64>) -> u64
    requires seated { IsSeated (S.caller s.old) }
    requires reader { reader_of guard.now ≡ (S.caller s.old).reader }
    requires home { shared.slots_home owner.now ≡ (S.caller s.old).home.slots }
    ensures { S.caller s.new ≡ S.caller s.old }
{
    *owner.get_guarded_ref(guard, s)
}

/// The item has another number from now on. The one before.
pub fn put<S: InPlaceItems<u64>>(
    s: &mut S,
    owner: &mut Shared<u64>,
    value: u64,
) -> Result<u64, Refused>
    requires seated { IsSeated (S.caller s.old) }
    requires home { shared.slots_home owner.old ≡ (S.caller s.old).home.slots }
    ensures caller { S.caller s.new ≡ S.caller s.old }
    ensures home { shared.slots_home owner.new ≡ shared.slots_home owner.old }
{
    match owner.get_mut(|number| std::mem::replace(number, value), s) {
        Ok(was) => Ok(was),
        Err((_put, refused)) => Err(refused),
    }
}

/// The owner goes in place, and tells whether it was the last.
pub fn dropped_in_place<T: Item<T>, S: InPlaceItems<T>>(
    rt: &impl Abort,
    s: &mut S,
    owner: Shared<T>,
) -> bool
    requires seated { IsSeated (S.caller s.old) }
    requires home { shared.slots_home owner ≡ (S.caller s.old).home.slots }
    ensures { S.caller s.new ≡ S.caller s.old }
{
    match owner.drop_in_place(s) {
        Ok(last) => last,
        Err((_owner, refused)) => panic!(rt; "refused: {refused:?}"),
    }
}

/// A guard is open, and the owner, which is the last, comes back.
pub fn stays_in_place<T: Item<T>, S: InPlaceItems<T>>(
    rt: &impl Abort,
    s: &mut S,
    owner: Shared<T>,
) -> Shared<T>
    requires seated { IsSeated (S.caller s.old) }
    requires home { shared.slots_home owner ≡ (S.caller s.old).home.slots }
    ensures caller { S.caller s.new ≡ S.caller s.old }
    ensures home { shared.slots_home result ≡ (S.caller s.old).home.slots }
{
    match owner.drop_in_place(s) {
        Ok(_last) => panic!(rt; "a guard is open"),
        Err((owner, refused)) => {
            assert_eq!(rt; refused, Refused::GuardOpen);
            owner
        }
    }
}

/// Opens, accelerates and closes a guard. The epoch that it showed, and whether something might wait then.
pub fn turn_shows<T: Item<T>, S: Guards<T>>(rt: &impl Abort, s: &mut S) -> (u8, bool)
    requires { IsSeated (S.caller s.old) }
    ensures { S.caller s.new ≡ S.caller s.old }
{
    let guard = Guard::new(s).expect(rt, "a guard may be opened");
    let epoch = u8::from(guard.epoch(s));
    let waits = guard.has_garbage(s);
    guard.accelerate(s);
    guard.close(s);
    (epoch, waits)
}
