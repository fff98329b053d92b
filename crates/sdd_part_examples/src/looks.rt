//! Looks through a pointer while others go on.
ghost use Rattle.std.specs.Prelude.{◌≡◌, ◌≢◌, [], IfErr, IfOk, IsSome, IsTrue, MatchResult, Some};
ghost use Rattle.sdd_participants.specs.EpochState.{CanNest, is_open};
ghost use Rattle.sdd_space.specs.Guard.{reader_of};
ghost use Rattle.sdd_world_model.specs.OwnerOrCell.{AreOf};
ghost use Rattle.sdd_space.specs.Owned.{slot_of, slots_home};
ghost use Rattle.sdd_space.specs.CallerId.{IsSeated};
ghost use Rattle.sdd_world_model.specs.WorldChanges.{opened};
ghost use Rattle.sdd_world_model.specs.World.{World, IsPlaceOf, value_at};
ghost use Rattle.sdd_world.specs.Place.{index_of};

use sdd_core::Refused;
use sdd_space::{Guard, Guards, Item, Items, Look, Owned};
use sdd_world::{Place, World};

/// What was found of one item.
pub struct Looks {
    /// By its owner, once the reader's guard was open.
    pub owned: u64,
    /// Through the reader's pointer, before the item was retired.
    pub first: Option<u64>,
    /// Through the same pointer, after another participant had retired the item and gone on.
    pub second: Option<u64>,
    /// Whether that participant could open its guards.
    pub gone_on: Result<(), Refused>,
}

/// A reader looks at an item; a writer retires it and opens, accelerates and closes guards; the reader looks again through the same pointer.
///
/// `TooManyGuards` where the reader can open no guard: the owner comes back.
pub fn reader_and_writer(
    world: &mut World<u64>,
    reader: &Place,
    writer: &Place,
    owner: Owned<u64>,
) -> Result<Looks, (Owned<u64>, Refused)>
    requires reader { IsPlaceOf world.old (index_of reader.now) }
    requires writer { IsPlaceOf world.old (index_of writer.now) }
    requires different { index_of reader.now ≢ index_of writer.now }
    requires home { slots_home owner ≡ world.old.home.slots }
    ensures owned { IfOk result (λ looks. value_at (opened (λ _. []) world.old (index_of reader.now)) (slot_of owner) ≡ Some looks.owned) }
    ensures first { IfOk result (λ looks. looks.first ≡ Some looks.owned) }
    ensures same { IfOk result (λ looks. looks.second ≡ looks.first) }
    ensures refused { MatchResult result (λ _. CanNest world.old.time (index_of reader.now))
        (λ e. (e ≡ (owner, Refused.TooManyGuards)) × ¬ (CanNest world.old.time (index_of reader.now)) × (world.new ≡ world.old)) }
{
    let mut turn = world.at(reader);
    let guard = match Guard::new(&mut turn) {
        Ok(guard) => guard,
        Err(refused) => return Err((owner, refused)),
    };
    let owned = *owner.get(&turn);
    let ptr = owner.get_guarded_ptr(&guard, &mut turn);
    let first = ptr.as_ref(&turn).copied();
    drop(turn);
    let gone_on = retires_and_goes_on(&mut world.at(writer), owner);
    let second = ptr.as_ref(&*world).copied();
    guard.close(&mut world.at(reader));
    Ok(Looks {
        owned,
        first,
        second,
        gone_on,
    })
}

/// Retires an item and goes on: the count of epochs is raised where it can be, and what is due is reclaimed.
///
/// `TooManyGuards` where the participant can open no guard; the item is retired all the same.
fn retires_and_goes_on<S: Guards<u64> + Items<u64>>(
    s: &mut S,
    owner: Owned<u64>,
) -> Result<(), Refused>
    requires seated { IsSeated (S.caller s.old) }
    requires home { slots_home owner ≡ (S.caller s.old).home.slots }
    ensures caller { S.caller s.new ≡ S.caller s.old }
{
    owner.retire(s);
    goes_on(s)?;
    goes_on(s)?;
    goes_on(s)?;
    goes_on(s)
}

/// Opens a guard, accelerates it and closes it.
fn goes_on<T: Item<T>, S: Guards<T>>(s: &mut S) -> Result<(), Refused>
    requires seated { IsSeated (S.caller s.old) }
    ensures caller { S.caller s.new ≡ S.caller s.old }
{
    let guard = Guard::new(s)?;
    guard.accelerate(s);
    guard.close(s);
    Ok(())
}

/// Looks under two guards of one participant, of which the outer is closed first: answers what the inner one's pointer shows before that and after.
///
/// `TooManyGuards` where not both can be opened.
pub fn nested_guards_outer_first<S: Look<u64> + Guards<u64> + Items<u64>>(
    one: &Owned<u64>,
    other: &Owned<u64>,
    s: &mut S,
) -> Result<(Option<u64>, Option<u64>), Refused>
    requires seated { IsSeated (S.caller s.old) }
    requires one { slots_home one.now ≡ (S.caller s.old).home.slots }
    requires other { slots_home other.now ≡ (S.caller s.old).home.slots }
    ensures caller { S.caller s.new ≡ S.caller s.old }
    ensures seen { IfOk result (λ looks. IsSome looks.0) }
    ensures same { IfOk result (λ looks. looks.0 ≡ looks.1) }
    ensures refused { IfErr result (λ e. e ≡ Refused.TooManyGuards) }
{
    let outer = Guard::new(s)?;
    let inner = match Guard::new(s) {
        Ok(inner) => inner,
        Err(refused) => {
            outer.close(s);
            return Err(refused);
        }
    };
    let under_outer = one.get_guarded_ptr(&outer, s);
    let under_inner = other.get_guarded_ptr(&inner, s);
    prove!(!under_outer.is_null());
    let before = under_inner.as_ref(s).copied();
    outer.close(s);
    let after = under_inner.as_ref(s).copied();
    inner.close(s);
    Ok((before, after))
}

/// Makes an item under a guard, looks at it, looks again under a guard within that one, and retires it: answers what was seen, which is both times
/// the value that it was made with, whatever other participants do meanwhile.
///
/// `TooManyGuards` where not both guards can be opened, and `NoSlot` where no slot is free.
pub fn made_and_seen<T: Item<T> + Copy, S: Guards<T> + Items<T>>(
    value: T,
    s: &mut S,
) -> Result<(T, T), Refused>
    requires seated { IsSeated (S.caller s.old) }
    requires home { AreOf (S.caller s.old).home (T.holds value) }
    ensures caller { S.caller s.new ≡ S.caller s.old }
    ensures first { IfOk result (λ seen. seen.0 ≡ value) }
    ensures second { IfOk result (λ seen. seen.1 ≡ value) }
{
    let guard = Guard::new(s)?;
    let seen = made_and_seen_under(value, &guard, s);
    guard.close(s);
    seen
}

/// The same under a guard that is open.
fn made_and_seen_under<T: Item<T> + Copy, S: Guards<T> + Items<T>>(
    value: T,
    outer: &Guard,
    s: &mut S,
) -> Result<(T, T), Refused>
    requires seated { IsSeated (S.caller s.old) }
    requires home { AreOf (S.caller s.old).home (T.holds value) }
    requires reader { reader_of outer.now ≡ (S.caller s.old).reader }
    requires open { IsTrue (is_open (S.own s.old)) }
    ensures caller { S.caller s.new ≡ S.caller s.old }
    ensures first { IfOk result (λ seen. seen.0 ≡ value) }
    ensures second { IfOk result (λ seen. seen.1 ≡ value) }
{
    let owner = match Owned::new(value, s) {
        Ok(owner) => owner,
        Err((_, refused)) => return Err(refused),
    };
    let first = *owner.get_guarded_ref(outer, s);
    let inner = match Guard::new(s) {
        Ok(inner) => inner,
        Err(refused) => {
            owner.retire(s);
            return Err(refused);
        }
    };
    let second = *owner.get_guarded_ref(&inner, s);
    inner.close(s);
    owner.retire(s);
    Ok((first, second))
}
