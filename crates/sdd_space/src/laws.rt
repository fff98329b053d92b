//! Laws of every space, as functions that callers can cite by calling them.
ghost use Rattle.std.specs.Prelude.{◌≡◌, ◌↔◌, ◌⊎◌, ℕ, IfErr, IfOk, IsTrue, None, length};
ghost use Rattle.sdd_core.specs.Epoch.{epoch_after};
ghost use Rattle.sdd_space.specs.Guard.{reader_of};
ghost use Rattle.sdd_world_model.specs.OwnerOrCell.{AreOf};
ghost use Rattle.sdd_world_model.specs.World.{World, standing_at, value_at};
ghost use Rattle.sdd_world_model.specs.WorkingGuards.{WorkLaws};
ghost use Rattle.sdd_space.specs.CallerId.{IsSeated, IsExact, IsLone};
ghost use Rattle.sdd_world_model.specs.KnownEpochs.{KnowsOn};
ghost use Rattle.sdd_space.specs.Undisturbed.{Undisturbed};
ghost use Rattle.sdd_space.specs.Owned.{right_of, slot_of, slots_home};
ghost use Rattle.sdd_space.specs.Shared as shared;
ghost use Rattle.sdd_participants.specs.EpochState.{is_open};

use crate::guard::Guard;
use crate::item::Item;
use crate::owner::{Owned, Shared};
use crate::space::{Caller, Guards, Items, RawItems};
use sdd_core::{Epoch, Refused};

/// The epoch, asked twice under one open guard: the second answer is the first one or its `next`.
pub fn epoch_moves_by_one<T: Item<T>, S: Guards<T>>(guard: &Guard, s: &mut S) -> (Epoch, Epoch)
    requires seated { IsSeated (S.caller s.old) }
    requires guarded { IsTrue (is_open (S.own s.old)) }
    ensures caller { S.caller s.new ≡ S.caller s.old }
    ensures own { S.own s.new ≡ S.own s.old }
    ensures known { KnowsOn (S.known s.old) (S.known s.new) }
    ensures moved { (result.1 ≡ result.0) ⊎ (result.1 ≡ epoch_after result.0) }
{
    let first = guard.epoch::<T, S>(s);
    let second = guard.epoch::<T, S>(s);
    (first, second)
}

/// An owner whose item goes raw and comes back owns the same item, and all else is as before.
pub fn comes_back<T: Item<T>, S: RawItems<T>>(owner: Owned<T>, s: &mut S) -> Owned<T>
    requires seated { IsSeated (S.caller s.old) }
    requires home { slots_home owner ≡ (S.caller s.old).home.slots }
    requires exact { IsExact (S.caller s.old) }
    ensures caller { S.caller s.new ≡ S.caller s.old }
    ensures home { slots_home result ≡ (S.caller s.new).home.slots }
    ensures same { slot_of result ≡ slot_of owner }
    ensures world { S.world s.new ≡ S.world s.old }
{
    let ptr = owner.into_raw(s);
    let Some(owner) = Owned::from_raw(ptr, s) else {
        unreachable!()
    };
    owner
}

/// An item is made, and its owner looks at it under the guard: it has the value that it was made with, whatever other participants do meanwhile.
///
/// `NoSlot` or `Contended` where `Owned::new` is refused so; the value comes back.
pub fn shows_what_was_made<'g, T: Item<T>, S: Items<T>>(
    value: T,
    guard: &'g Guard,
    s: &mut S,
) -> Result<(Owned<T>, &'g T), (T, Refused)>
    requires seated { IsSeated (S.caller s.old) }
    requires home { AreOf (S.caller s.old).home (T.holds value) }
    requires reader { reader_of guard.now ≡ (S.caller s.old).reader }
    ensures undisturbed { Undisturbed S.caller S.own S.known S.shows s.old s.new }
    ensures home { IfOk result (λ made. slots_home made.0 ≡ (S.caller s.old).home.slots) }
    ensures value { IfOk result (λ made. S.owns_value s.new (right_of made.0) value) }
    ensures seen { IfOk result (λ made. made.1.now ≡ value) }
    ensures back { IfErr result (λ e. (e.0 ≡ value) × ((e.1 ≡ Refused.NoSlot) ⊎ (e.1 ≡ Refused.Contended))) }
    ensures lone { IsLone (S.caller s.old) → IfErr result (λ e. (e.1 ≡ Refused.NoSlot) × S.is_used_up s.old) }
{
    let owner = Owned::new(value, s)?;
    let seen = owner.get_guarded_ref(guard, s);
    Ok((owner, seen))
}

/// In an exact space an owner's item has the value that its slot shows. Nothing changes.
pub fn owned_is_shown<T: Item<T>, S: Items<T>>(owner: &Owned<T>, s: &mut S)
    requires home { slots_home owner.now ≡ (S.caller s.old).home.slots }
    ensures same { s.new ≡ s.old }
    ensures shown { IsExact (S.caller s.old) → (value : T) → S.owns_value s.old (right_of owner.now) value ↔ S.shows s.old (slot_of owner.now) value }
{
    s.owned_is_shown(owner.right());
}

/// The same of an owner that may be one of several.
pub fn shared_is_shown<T: Item<T>, S: Items<T>>(owner: &Shared<T>, s: &mut S)
    requires home { shared.slots_home owner.now ≡ (S.caller s.old).home.slots }
    ensures same { s.new ≡ s.old }
    ensures shown { IsExact (S.caller s.old) → (value : T) →
        S.owns_value s.old (shared.right_of owner.now) value ↔ S.shows s.old (shared.slot_of owner.now) value }
{
    s.owned_is_shown(owner.right());
}

/// In an exact space there is a place for a value in each slot, and a slot that is free has none.
pub fn values_fit_slots<T: Item<T>, S: Caller<T>>(s: &S)
    ensures many { IsExact (S.caller s.now) → length (S.world s.now).values ≡ length (S.world s.now).standings }
    ensures bare { IsExact (S.caller s.now) → (k : ℕ) → standing_at (S.world s.now) k ≡ None → value_at (S.world s.now) k ≡ None }
{
    s.values_fit_slots();
}

/// What hinders no guard under which it is called: an item that is made, retired or released, a job that is deferred, a cell that is set, a guard that is
/// opened and closed again, by whomever; and all of these, one after another.
pub fn calls_are_work<T: Item<T>>()
    ensures { WorkLaws T.holds }
{}
