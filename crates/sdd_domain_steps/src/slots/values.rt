//! A value comes into the place of a slot, and leaves it.
ghost use Rattle.std.specs.Prelude.{◌≡◌, ◌<◌, true, false, IsTrue, MatchResult, suc, drop, [], ◌∷◌, None};
ghost use base.Stored.{Gv};
ghost use Rattle.sdd_shared_values.specs.SharedValues.{IsNoValueCode, showing};
ghost use Rattle.sdd_domain_invariant.specs.Codes.{alive, counted, free_word};
ghost use Rattle.sdd_domain_invariant.specs.Epoch.{HasPlace, IsLone};
ghost use Rattle.sdd_domain_invariant.specs.Slots.{Owns, Holds};
ghost use Rattle.sdd_domain_invariant.specs.Slots.SlotSteps.{IsDue, Knew};
ghost use Rattle.sdd_domain_invariant.specs.Fractions.FractionsAtHome.{CarriedFractions, Moves};
ghost use Rattle.sdd_domain_invariant.specs.Fractions.FractionSteps.{CarriesAll, resting, telling, drawing};
ghost use Rattle.sdd_domain_invariant.specs.Fractions.BankInvariant.{one_where};
ghost use Rattle.sdd_domain_invariant.specs.Slots.FilledInvariant.{HasRecord};
ghost use Rattle.sdd_domain_invariant.specs.Slots.KindsInvariant.{written};
ghost use Rattle.sdd_domain_invariant.specs.Slots.Records.{IsIn};
ghost use Rattle.sdd_atomics.specs.SeatAtTable.{id_of, gamma_of, places_of, slots_of, IsReady, facts_at};
ghost use Rattle.sdd_world_model.specs.OwnerOrCell.{AreOf};
ghost use Rattle.sdd_domain_steps.specs.SpaceIds.{home_of_slots};
ghost use Rattle.sdd_domain_steps.specs.DomainValues.{IsValuesOf};
ghost use Rattle.sdd_domain_steps.specs.WaitingItems.{GivesOneBack};
ghost use Rattle.sdd_rights.specs.Owner.{witness_of_owner};
ghost use Rattle.sdd_atomics.specs.Owner.{disowned};
ghost use Rattle.sdd_atomics.specs.ReadFractions.{IsReadFractionOf, IsUnitOf};
ghost use Rattle.sdd_domain_steps.specs.Claims.{IsUnmoved};
ghost use Rattle.sdd_domain_steps.specs.InPlace.{IsBare, IsGoneBeside};
ghost use Rattle.sdd_domain_steps.specs.Values.{with_filled, LetsOneGo, WasFilled};
ghost use Rattle.sdd_atomics.specs.DomainSeat.{view, epoch, slots, Taught, MovedAlone};

use crate::slots::holds_own_domain::HoldsOwnDomain;
use sdd_atomics::SeatAtTable;
use sdd_atomics::read_fractions::{cut_rest, join_rest, unit_of};
use sdd_atomics::steps::slots::{
    SHARED_BY_ONE, cut, draw_unit, enter_unit, give_back, house, leave, let_go, retire, take_in,
    take_out,
};
use sdd_atomics::steps::values::{put, take};
use sdd_rights::ReadFraction;
use sdd_shared_values::SharedValues;
use sdd_space::Item;
use sdd_witness::Witness;

/// Moves a value into the place of a slot of the participant's own, which was claimed, or is held. Its owner shows the value then, and has a unit of the
/// place's number. It may be one of several, where the slot was claimed by a word that counts them.
#[inline]
pub fn move_in<T: Item<T>>(
    values: &SharedValues<T, HoldsOwnDomain>,
    seat: &mut SeatAtTable<'_>,
    slot: u32,
    shared: bool,
    value: T,
) -> ReadFraction
    requires values { IsValuesOf (facts_at seat.old) values.now }
    requires fits { AreOf (home_of_slots (id_of seat.old) (gamma_of seat.old) (slots_of seat.old)) (T.holds value) }
    requires inside { slot < slots_of seat.old }
    requires place { HasPlace (epoch seat.old) }
    requires own { Moves (view seat.old) slot × Owns (view seat.old) slot }
    requires kind { ¬ (Holds (view seat.old) slot) → counted (written (view seat.old) slot) ≡ one_where shared }
    requires row { (rest : CarriedFractions) × CarriesAll (gamma_of seat.old) slot (places_of seat.old) 0 IsNoValueCode rest seat.old.me.1 }
    ensures home { (seat.new.table_id ≡ seat.old.table_id) × (seat.new.id ≡ seat.old.id) }
    ensures view { view seat.new ≡ resting (telling slot shared (showing T.row value) (drawing slot (view seat.old))) }
    ensures given { seat.new.me.1 ≡ drop (suc (places_of seat.old)) seat.old.me.1 }
    ensures read_fraction { IsReadFractionOf (gamma_of seat.old) slot (showing T.row value) result }
{
    let count = seat.places() + 1;
    put(values, slot as usize, seat, count, value);
    let (read_fraction, rest) = cut_rest(seat, slot);
    house(seat, rest, shared);
    read_fraction
}

/// Moves a value into the place of a slot that was claimed, whose owner is a seat of its own then, which shows the value, with a unit of the place's
/// number. The owner may be one of several, where the slot was claimed by a word that counts them.
#[inline(always)]
pub fn put_value<T: Item<T>>(
    values: &SharedValues<T, HoldsOwnDomain>,
    seat: &mut SeatAtTable<'_>,
    slot: u32,
    shared: bool,
    value: T,
) -> (Witness, ReadFraction)
    requires values { IsValuesOf (facts_at seat.old) values.now }
    requires fits { AreOf (home_of_slots (id_of seat.old) (gamma_of seat.old) (slots_of seat.old)) (T.holds value) }
    requires inside { slot < slots_of seat.old }
    requires place { HasPlace (epoch seat.old) }
    requires own { Moves (view seat.old) slot × ((slots seat.old).owns ≡ slot ∷ []) × ((view seat.old).fractions.owns ≡ []) }
    requires free { ((slots seat.old).holds ≡ None) × ((slots seat.old).drawn ≡ []) }
    requires kind { counted (written (view seat.old) slot) ≡ one_where shared }
    requires row { (rest : CarriedFractions) × CarriesAll (gamma_of seat.old) slot (places_of seat.old) 0 IsNoValueCode rest seat.old.me.1 }
    ensures home { (seat.new.table_id ≡ seat.old.table_id) × (seat.new.id ≡ seat.old.id) }
    ensures view { view seat.new ≡ disowned (resting (with_filled slot shared (showing T.row value) (view seat.old))) }
    ensures given { seat.new.me.1 ≡ drop (suc (places_of seat.old)) seat.old.me.1 }
    ensures owner { (result.0.table_id ≡ id_of seat.old) × (result.0.views ≡ witness_of_owner slot shared (showing T.row value)) }
    ensures read_fraction { IsReadFractionOf (gamma_of seat.old) slot (showing T.row value) result.1 }
{
    let read_fraction = move_in(values, seat, slot, shared, value);
    (cut(seat), read_fraction)
}

/// Lets an owner go that was taken in, which is one of several or not, and whose unit goes to the bank. The answer is whether it was the last: then the
/// item waits with the participant from now on.
#[inline(always)]
pub fn let_one_go(
    seat: &mut SeatAtTable<'_>,
    slot: u32,
    read_fraction: ReadFraction,
    shared: bool,
) -> bool
    requires inside { slot < slots_of seat.old }
    requires ready { IsReady seat.old }
    requires own { ((slots seat.old).owns ≡ slot ∷ []) × ¬ (Holds (view seat.old) slot) × ((slots seat.old).drawn ≡ slot ∷ []) }
    requires told { (value : Gv) × HasRecord (view seat.old).fractions.owns (record { slot = slot; shared = shared; value = value }) }
    requires unit { IsUnitOf (gamma_of seat.old) slot read_fraction }
    requires shows { IsIn (view seat.old).fractions.owns slot read_fraction.shown }
    ensures went { MovedAlone (LetsOneGo slot shared result) seat.old seat.new }
    ensures unique { shared ≡ false → IsTrue result }
{
    let unit = unit_of(seat, slot, read_fraction);
    enter_unit(seat, slot, unit);
    if shared {
        let_go(seat, slot) == SHARED_BY_ONE
    } else {
        retire(seat, slot);
        true
    }
}

/// Tries to let an owner go beside others, where the slot's word is still the one that was found, which counts two or more. Else the owner comes back.
pub fn leave_beside(
    seat: &mut SeatAtTable<'_>,
    slot: u32,
    owner: Witness,
    read_fraction: ReadFraction,
    word: u64,
) -> Result<(), (Witness, ReadFraction)>
    requires inside { slot < slots_of seat.old }
    requires place { HasPlace (epoch seat.old) }
    requires bare { IsBare (view seat.old) }
    requires owner { (owner.table_id ≡ id_of seat.old)
        × ((value : Gv) × (owner.views ≡ witness_of_owner slot true value) × IsReadFractionOf (gamma_of seat.old) slot value read_fraction) }
    requires several { (counted word ≡ 1) × (1 < alive word) }
    ensures { MatchResult result
        (λ _. IsGoneBeside slot word seat.old seat.new)
        (λ back. IsUnmoved seat.old seat.new × (back.0.table_id ≡ id_of seat.old) × (back.0.views ≡ owner.views)
        × ((value : Gv) → owner.views ≡ witness_of_owner slot true value → IsReadFractionOf (gamma_of seat.old) slot value back.1)
        × ¬ (IsLone (epoch seat.old) × Knew slot (view seat.old) word)) }
{
    take_in(seat, owner);
    enter_unit(seat, slot, unit_of(seat, slot, read_fraction));
    if leave(seat, slot, word) == word {
        return Ok(());
    }
    let read_fraction = draw_unit(seat, slot).into_read_fraction();
    Err((cut(seat), read_fraction))
}

/// Moves the value of an item out that has seen three changes, and gives back its slot. A lone participant moved that value in.
pub fn take_value<T: Item<T>>(
    values: &SharedValues<T, HoldsOwnDomain>,
    seat: &mut SeatAtTable<'_>,
    slot: u32,
) -> T
    requires values { IsValuesOf (facts_at seat.old) values.now }
    requires inside { slot < slots_of seat.old }
    requires ready { IsReady seat.old }
    requires due { IsDue (view seat.old) slot }
    ensures given_back { Taught (GivesOneBack slot) seat.old (free_word 0) seat.new }
    ensures fits { AreOf (home_of_slots (id_of seat.old) (gamma_of seat.old) (slots_of seat.old)) (T.holds result) }
    ensures lone { IsLone (epoch seat.old) → WasFilled slot (showing T.row result) (view seat.old) }
{
    let rest = take_out(seat, slot);
    join_rest(seat, slot, rest);
    let count = seat.places() + 1;
    let value = take(values, slot as usize, seat, count);
    give_back(seat, slot);
    value
}
