//! An owner is alone with its item where no guard is open at any place: its slot is held while each is looked at, and then its value may be moved.
ghost use Rattle.std.specs.Prelude.{◌≡◌, ◌⊎◌, ◌<◌, ◌≤◌, true, [], ◌∷◌, None, Some, IfSome, MatchOption, MatchResult, slice_set};
ghost use Rattle.std.specs.Fn.{FnOnceReturnsAtMut};
ghost use base.Stored.{Gv};
ghost use Rattle.sdd_shared_values.specs.SharedValues.{IsNoValueCode, showing};
ghost use Rattle.sdd_rights.specs.declared.views.ShownValue.{ShownValue};
ghost use Rattle.sdd_domain_invariant.specs.Epoch.{HasPlace, IsLone};
ghost use Rattle.sdd_domain_invariant.specs.Codes.{free_word};
ghost use Rattle.sdd_domain_invariant.specs.Slots.{Holds};
ghost use Rattle.sdd_domain_invariant.specs.Slots.SlotSteps.{discarded};
ghost use Rattle.sdd_domain_invariant.specs.Fractions.FractionSteps.{CarriesAll, dropping, moving, undrawing, untold};
ghost use Rattle.sdd_domain_invariant.specs.Slots.FilledInvariant.{HasRecord};
ghost use Rattle.sdd_domain_invariant.specs.Slots.Records.{IsIn};
ghost use Rattle.sdd_atomics.specs.SeatAtTable.{id_of, gamma_of, places_of, slots_of, IsReady, facts_at};
ghost use Rattle.sdd_atomics.specs.DomainSeat.{view, epoch, slots, Taught};
ghost use Rattle.sdd_atomics.specs.ReadFractions.{IsReadFractionOf, IsUnitOf};
ghost use Rattle.sdd_rights.specs.Owner.{witness_of_owner};
ghost use Rattle.sdd_world_model.specs.OwnerOrCell.{AreOf};
ghost use Rattle.sdd_domain_steps.specs.SpaceIds.{home_of_slots};
ghost use Rattle.sdd_domain_steps.specs.DomainValues.{IsValuesOf};
ghost use Rattle.sdd_domain_steps.specs.Claims.{IsUnmoved};
ghost use Rattle.sdd_domain_steps.specs.InPlace.{IsBare, IsHeldBy, IsHindered, IsLetGoOf, LooksAround, refused_by, CountsOthers, KnewUnique, grasped, let_go_of};
ghost use Rattle.sdd_domain_steps.specs.GoesInPlace.{Goes, changed_by};

use crate::slots::holds_own_domain::HoldsOwnDomain;
use crate::slots::values::{leave_beside, move_in};
use sdd_atomics::SeatAtTable;
use sdd_atomics::read_fractions::{join_rest, unit_of};
use sdd_atomics::steps::epoch::OPEN;
use sdd_atomics::steps::slots::{
    SHARED_BY_ONE, cut, discard, enter_unit, hold, look_for_guard, release_hold, share_again,
    take_held, take_in, try_hold,
};
use sdd_atomics::steps::values::take;
use sdd_core::Refused;
use sdd_rights::ReadFraction;
use sdd_shared_values::{GhostValues, SharedValues};
use sdd_space::Item;
use sdd_witness::Witness;

/// What hinders an owner from having its item's value for itself.
pub enum Hindrance {
    /// Others own the item: the slot's word counts them.
    Others(u64),
    /// A guard is open at some place.
    Guarded,
}

impl Hindrance {
    /// The answer to whom it hinders.
    pub fn refused(self) -> Refused
        ensures { result ≡ refused_by self }
    {
        match self {
            Hindrance::Others(_) => Refused::NotAlone,
            Hindrance::Guarded => Refused::GuardOpen,
        }
    }
}

/// Looks at each place, the own one too, while a slot is held, or a collector is closed: where no guard is open, none sees what is held or waits for the
/// collector, nor will meanwhile.
pub fn none_is_open(seat: &mut SeatAtTable<'_>) -> bool
    requires place { HasPlace (epoch seat.old) × ((epoch seat.old).place < places_of seat.old) × ((epoch seat.old).all ≡ places_of seat.old) }
    requires first { (slots seat.old).looked ≡ 0 }
    ensures { LooksAround (places_of seat.old) result seat.old seat.new }
{
    let first = seat.first_state();
    for place in 0..seat.places() {
        if look_for_guard(seat, first, place) == OPEN {
            return false;
        }
    }
    true
}

/// Holds a slot of the participant's own, whose owner is the only one; where there are others, nothing changes, and the answer is the word that counts them.
///
/// Where an owner isn't counted there are no others, and so no word tells of the hold. One that is counted holds the slot by an exchange.
fn grasp(seat: &mut SeatAtTable<'_>, slot: u32, shared: bool) -> Option<u64>
    requires inside { slot < slots_of seat.old }
    requires ready { IsReady seat.old }
    requires told { (value : Gv) × HasRecord (view seat.old).fractions.owns (record { slot = slot; shared = shared; value = value }) }
    requires free { (slots seat.old).holds ≡ None }
    ensures { MatchOption result
        (Taught (λ v _ w. w ≡ grasped shared slot v) seat.old 0 seat.new × KnewUnique slot shared (view seat.old))
        (λ word. Taught (λ v _ w. w ≡ v) seat.old 0 seat.new × CountsOthers slot shared word (view seat.old)) }
{
    if !shared {
        hold(seat, slot);
        return None;
    }
    let word = try_hold(seat, slot);
    if word == SHARED_BY_ONE {
        None
    } else {
        Some(word)
    }
}

/// Lets go of the slot that is held by its only owner.
fn let_go(seat: &mut SeatAtTable<'_>, slot: u32, shared: bool)
    requires inside { slot < slots_of seat.old }
    requires ready { IsReady seat.old }
    requires held { Holds (view seat.old) slot }
    requires told { (r : ShownValue) → HasRecord (view seat.old).fractions.owns r → r.slot ≡ slot → r.shared ≡ shared }
    ensures { Taught (λ v _ w. w ≡ let_go_of shared slot v) seat.old 0 seat.new }
{
    if shared {
        share_again(seat, slot);
    } else {
        release_hold(seat, slot);
    }
}

/// Takes the owner of a slot in and holds the slot, where it is the only one and no guard is open at any place; else the owner comes back as it was.
pub fn hold_alone(
    seat: &mut SeatAtTable<'_>,
    slot: u32,
    shared: bool,
    owner: Witness,
) -> Result<(), (Witness, Hindrance)>
    requires inside { slot < slots_of seat.old }
    requires place { HasPlace (epoch seat.old) × ((epoch seat.old).place < places_of seat.old) × ((epoch seat.old).all ≡ places_of seat.old) }
    requires bare { IsBare (view seat.old) }
    requires closes { (slots seat.old).closes ≡ None }
    requires owner { (owner.table_id ≡ id_of seat.old) × ((value : Gv) × (owner.views ≡ witness_of_owner slot shared value)) }
    ensures { MatchResult result
        (λ _. (value : Gv) → owner.views ≡ witness_of_owner slot shared value → IsHeldBy slot shared value (places_of seat.old) seat.old seat.new)
        (λ back. IsHindered slot shared back.1 seat.old seat.new × (back.0.table_id ≡ id_of seat.old) × (back.0.views ≡ owner.views)) }
{
    take_in(seat, owner);
    if let Some(word) = grasp(seat, slot, shared) {
        return Err((cut(seat), Hindrance::Others(word)));
    }
    if none_is_open(seat) {
        return Ok(());
    }
    let_go(seat, slot, shared);
    Err((cut(seat), Hindrance::Guarded))
}

/// Moves the value of a slot out that is held and was looked for at each place. Its owner's unit goes to the bank, and all fractions of it are out.
fn take_alone<T: Item<T>>(
    values: &SharedValues<T, HoldsOwnDomain>,
    seat: &mut SeatAtTable<'_>,
    slot: u32,
    read_fraction: ReadFraction,
) -> T
    requires values { IsValuesOf (facts_at seat.old) values.now }
    requires inside { slot < slots_of seat.old }
    requires ready { IsReady seat.old }
    requires held { Holds (view seat.old) slot × ((slots seat.old).owns ≡ slot ∷ []) × ((slots seat.old).drawn ≡ slot ∷ []) }
    requires looked { places_of seat.old ≤ (slots seat.old).looked }
    requires unit { IsUnitOf (gamma_of seat.old) slot read_fraction }
    requires shows { IsIn (view seat.old).fractions.owns slot read_fraction.shown }
    ensures home { (seat.new.table_id ≡ seat.old.table_id) × (seat.new.id ≡ seat.old.id) }
    ensures view { view seat.new ≡ moving slot (untold (undrawing (view seat.old))) }
    ensures row { CarriesAll (gamma_of seat.old) slot (places_of seat.old) 0 IsNoValueCode seat.old.me.1 seat.new.me.1 }
    ensures value { IsIn (view seat.old).fractions.owns slot (showing T.row result) }
    ensures fits { AreOf (home_of_slots (id_of seat.old) (gamma_of seat.old) (slots_of seat.old)) (T.holds result) }
{
    let unit = unit_of(seat, slot, read_fraction);
    enter_unit(seat, slot, unit);
    let rest = take_held(seat, slot);
    join_rest(seat, slot, rest);
    let count = seat.places() + 1;
    take(values, slot as usize, seat, count)
}

/// Changes the value of a slot that is held and was looked for at each place, which is let go of: its owner is a seat of its own again. The ledger has
/// the new value.
pub fn change_alone<T: Item<T>, R, F: FnOnce(&mut T) -> R>(
    values: &SharedValues<T, HoldsOwnDomain>,
    seat: &mut SeatAtTable<'_>,
    ledger: &mut GhostValues<T>,
    slot: u32,
    shared: bool,
    read_fraction: ReadFraction,
    f: F,
) -> (Witness, ReadFraction, R)
    requires values { IsValuesOf (facts_at seat.old) values.now }
    requires inside { slot < slots_of seat.old }
    requires ready { IsReady seat.old }
    requires held { Holds (view seat.old) slot × ((slots seat.old).owns ≡ slot ∷ []) × ((slots seat.old).drawn ≡ slot ∷ []) }
    requires looked { places_of seat.old ≤ (slots seat.old).looked }
    requires unit { IsUnitOf (gamma_of seat.old) slot read_fraction }
    requires shows { IsIn (view seat.old).fractions.owns slot read_fraction.shown }
    requires callable { F.IsAlwaysCallable f }
    requires held_on { (was now : T) (r : R) → FnOnceReturnsAtMut F.FnOnce f was r now
        → AreOf (home_of_slots (id_of seat.old) (gamma_of seat.old) (slots_of seat.old)) (T.holds was)
        → AreOf (home_of_slots (id_of seat.old) (gamma_of seat.old) (slots_of seat.old)) (T.holds now) }
    ensures home { (seat.new.table_id ≡ seat.old.table_id) × (seat.new.id ≡ seat.old.id) × (seat.new.me.1 ≡ seat.old.me.1) }
    ensures changed { (was now : T) × IsIn (view seat.old).fractions.owns slot (showing T.row was) × FnOnceReturnsAtMut F.FnOnce f was result.2 now
        × (view seat.new ≡ changed_by slot shared (showing T.row now) (view seat.old))
        × (result.0.table_id ≡ id_of seat.old) × (result.0.views ≡ witness_of_owner slot shared (showing T.row now))
        × IsReadFractionOf (gamma_of seat.old) slot (showing T.row now) result.1
        × AreOf (home_of_slots (id_of seat.old) (gamma_of seat.old) (slots_of seat.old)) (T.holds now)
        × (ledger.new.entries ≡ slice_set ledger.old.entries slot (Some (now, showing T.row now))) }
{
    let mut value = take_alone(values, seat, slot, read_fraction);
    let answer = f(&mut value);
    ledger.fill(slot as usize, &value);
    let read_fraction = move_in(values, seat, slot, shared, value);
    let_go(seat, slot, shared);
    (cut(seat), read_fraction, answer)
}

/// Moves the value of a slot out that is held and was looked for at each place, and frees the slot: its item has gone at once.
pub fn drop_alone<T: Item<T>>(
    values: &SharedValues<T, HoldsOwnDomain>,
    seat: &mut SeatAtTable<'_>,
    slot: u32,
    read_fraction: ReadFraction,
) -> T
    requires values { IsValuesOf (facts_at seat.old) values.now }
    requires inside { slot < slots_of seat.old }
    requires ready { IsReady seat.old }
    requires held { Holds (view seat.old) slot × ((slots seat.old).owns ≡ slot ∷ []) × ((slots seat.old).drawn ≡ slot ∷ []) }
    requires looked { places_of seat.old ≤ (slots seat.old).looked }
    requires unit { IsUnitOf (gamma_of seat.old) slot read_fraction }
    requires shows { IsIn (view seat.old).fractions.owns slot read_fraction.shown }
    ensures home { (seat.new.table_id ≡ seat.old.table_id) × (seat.new.id ≡ seat.old.id) × (seat.new.me.1 ≡ seat.old.me.1) }
    ensures view { view seat.new ≡ dropping (discarded slot (free_word 0) (moving slot (untold (undrawing (view seat.old))))) }
    ensures value { IsIn (view seat.old).fractions.owns slot (showing T.row result) }
    ensures fits { AreOf (home_of_slots (id_of seat.old) (gamma_of seat.old) (slots_of seat.old)) (T.holds result) }
{
    let value = take_alone(values, seat, slot, read_fraction);
    discard(seat, slot);
    value
}

/// One try to let an owner go whose item is dropped in its place where it is the last: then its value comes out. Where others stay, none does. The owner
/// comes back where a guard is open, and where others came or went meanwhile, which no answer tells.
fn try_to_go<T: Item<T>>(
    values: &SharedValues<T, HoldsOwnDomain>,
    seat: &mut SeatAtTable<'_>,
    slot: u32,
    shared: bool,
    owner: Witness,
    read_fraction: ReadFraction,
) -> Result<Option<T>, (Witness, ReadFraction, Option<Refused>)>
    requires values { IsValuesOf (facts_at seat.old) values.now }
    requires inside { slot < slots_of seat.old }
    requires place { HasPlace (epoch seat.old) × ((epoch seat.old).place < places_of seat.old) × ((epoch seat.old).all ≡ places_of seat.old) }
    requires bare { IsBare (view seat.old) }
    requires closes { (slots seat.old).closes ≡ None }
    requires owner { (owner.table_id ≡ id_of seat.old)
        × ((value : Gv) × (owner.views ≡ witness_of_owner slot shared value) × IsReadFractionOf (gamma_of seat.old) slot value read_fraction) }
    ensures { MatchResult result
        (λ gone. Goes T.row slot shared owner.views gone seat.old seat.new
        × IfSome gone (λ value. AreOf (home_of_slots (id_of seat.old) (gamma_of seat.old) (slots_of seat.old)) (T.holds value)))
        (λ back. (back.0.table_id ≡ id_of seat.old) × (back.0.views ≡ owner.views)
        × ((value : Gv) → owner.views ≡ witness_of_owner slot shared value → IsReadFractionOf (gamma_of seat.old) slot value back.1)
        × MatchOption back.2 (IsUnmoved seat.old seat.new × (shared ≡ true) × ¬ (IsLone (epoch seat.old)))
        (λ why. (why ≡ Refused.GuardOpen) × IsLetGoOf slot shared seat.old seat.new)) }
{
    match hold_alone(seat, slot, shared, owner) {
        Ok(()) => Ok(Some(drop_alone(values, seat, slot, read_fraction))),
        Err((owner, hindrance)) => match hindrance {
            Hindrance::Guarded => Err((owner, read_fraction, Some(Refused::GuardOpen))),
            Hindrance::Others(word) => {
                match leave_beside(seat, slot, owner, read_fraction, word) {
                    Ok(()) => Ok(None),
                    Err((owner, read_fraction)) => Err((owner, read_fraction, None)),
                }
            }
        },
    }
}

/// Lets an owner go, whose item is dropped in its place where it is the last: then its value comes out. Where others stay, none does.
///
/// The owner comes back: `GuardOpen` where it is the last and a guard is open; `Contended` where others came or went meanwhile at each of so many tries.
pub fn go_in_place<T: Item<T>>(
    values: &SharedValues<T, HoldsOwnDomain>,
    seat: &mut SeatAtTable<'_>,
    slot: u32,
    shared: bool,
    owner: Witness,
    read_fraction: ReadFraction,
    tries: u64,
) -> Result<Option<T>, (Witness, ReadFraction, Refused)>
    requires values { IsValuesOf (facts_at seat.old) values.now }
    requires inside { slot < slots_of seat.old }
    requires place { HasPlace (epoch seat.old) × ((epoch seat.old).place < places_of seat.old) × ((epoch seat.old).all ≡ places_of seat.old) }
    requires bare { IsBare (view seat.old) }
    requires closes { (slots seat.old).closes ≡ None }
    requires owner { (owner.table_id ≡ id_of seat.old)
        × ((value : Gv) × (owner.views ≡ witness_of_owner slot shared value) × IsReadFractionOf (gamma_of seat.old) slot value read_fraction) }
    requires tries { 0 < tries }
    ensures { MatchResult result
        (λ gone. Goes T.row slot shared owner.views gone seat.old seat.new
        × IfSome gone (λ value. AreOf (home_of_slots (id_of seat.old) (gamma_of seat.old) (slots_of seat.old)) (T.holds value)))
        (λ back. (back.0.table_id ≡ id_of seat.old) × (back.0.views ≡ owner.views)
        × ((value : Gv) → owner.views ≡ witness_of_owner slot shared value → IsReadFractionOf (gamma_of seat.old) slot value back.1)
        × (((back.2 ≡ Refused.GuardOpen) × IsLetGoOf slot shared seat.old seat.new)
        ⊎ ((back.2 ≡ Refused.Contended) × IsUnmoved seat.old seat.new × (shared ≡ true) × ¬ (IsLone (epoch seat.old))))) }
{
    let mut owner = owner;
    let mut read_fraction = read_fraction;
    let mut left = tries;
    loop {
        match try_to_go(values, seat, slot, shared, owner, read_fraction) {
            Ok(gone) => return Ok(gone),
            Err((back, unit, refused)) => match refused {
                Some(refused) => return Err((back, unit, refused)),
                None => {
                    left -= 1;
                    if left == 0 {
                        return Err((back, unit, Refused::Contended));
                    }
                    owner = back;
                    read_fraction = unit;
                }
            },
        }
    }
}
