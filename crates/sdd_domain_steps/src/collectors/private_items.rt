//! Items that wait for a collector: what becomes of one that is due, and how a close takes the value of one out before.
ghost use Rattle.std.specs.Prelude.{◌≡◌, ◌≤◌, ◌<◌, [], None, false, IfSome, MatchBool, MatchOption};
ghost use Rattle.sdd_shared_values.specs.SharedValues.{IsNoValueCode, showing};
ghost use Rattle.sdd_domain_invariant.specs.Epoch.{IsLone};
ghost use Rattle.sdd_domain_invariant.specs.Codes as codes;
ghost use Rattle.sdd_domain_invariant.specs.Slots.SlotSteps.{Knew};
ghost use Rattle.sdd_domain_invariant.specs.Collectors.{Closes, Empties};
ghost use Rattle.sdd_domain_invariant.specs.Collectors.CollectorWordSteps.{WaitsFor};
ghost use Rattle.sdd_domain_invariant.specs.Fractions.FractionSteps.{CarriesAll, moving};
ghost use Rattle.sdd_atomics.specs.SeatAtTable.{id_of, gamma_of, places_of, slots_of, IsReady, facts_at};
ghost use Rattle.sdd_atomics.specs.DomainSeat.{view, epoch, slots};
ghost use Rattle.sdd_world_model.specs.OwnerOrCell.{AreOf};
ghost use Rattle.sdd_domain_steps.specs.SpaceIds.{home_of_slots};
ghost use Rattle.sdd_domain_steps.specs.DomainValues.{IsValuesOf};
ghost use Rattle.sdd_domain_steps.specs.Claims.{IsUnmoved};
ghost use Rattle.sdd_domain_steps.specs.PrivateItems.{IsClaimedBack, IsLost, FindsEmptied, GivesUpLost, LetsGoOf, EmptiesOwn, EmptiesAnothers};
ghost use Rattle.sdd_domain_steps.specs.Values.{WasFilled};

use crate::slots::free_slot_hints::FreeSlotHints;
use crate::slots::holds_own_domain::HoldsOwnDomain;
use sdd_atomics::SeatAtTable;
use sdd_atomics::read_fractions::join_rest;
use sdd_atomics::steps::collectors::emptying::{
    EMPTYING, LEFT, finish_emptying, give_empty_back, give_own_back, private_word, reclaim_private,
    take_private,
};
use sdd_atomics::steps::collectors::{
    claim_own_private, claim_private, give_private_back, leave_to_close,
};
use sdd_atomics::steps::slots::look;
use sdd_atomics::steps::values::take;
use sdd_shared_values::SharedValues;
use sdd_space::Item;

/// Leaves a private item of the participant's own to the close that has claimed it, as the word says that was found, where the close is not done with it yet.
/// Else its slot is found emptied.
fn try_to_leave(seat: &mut SeatAtTable<'_>, slot: u32, found: u64) -> bool
    requires inside { slot < slots_of seat.old }
    requires ready { IsReady seat.old }
    requires lost { IsLost slot found (view seat.old) }
    ensures { MatchBool result (GivesUpLost slot seat.old seat.new) (FindsEmptied slot seat.old seat.new) }
{
    if found != EMPTYING {
        return false;
    }
    leave_to_close(seat, slot) == EMPTYING
}

/// Lets go of a private item of the participant's own that a close has claimed, whose word was found to be this. Where the close is done with it, the slot
/// is given back, and remembered; else the close gives it back.
fn let_go(seat: &mut SeatAtTable<'_>, known: &mut FreeSlotHints, slot: u32, found: u64)
    requires inside { slot < slots_of seat.old }
    requires ready { IsReady seat.old }
    requires known { known.old.slots ≡ slots_of seat.old }
    requires lost { IsLost slot found (view seat.old) }
    ensures gone { GivesUpLost slot seat.old seat.new }
    ensures known { known.new.slots ≡ known.old.slots }
{
    if try_to_leave(seat, slot, found) {
        return;
    }
    give_private_back(seat, slot);
    known.remember(slot);
}

/// Claims a private item of the participant's own, which waits as any other from then on. False where its collector's close came first: then the item is let
/// go of.
pub fn claim_back(
    seat: &mut SeatAtTable<'_>,
    known: &mut FreeSlotHints,
    slot: u32,
    collector: u32,
) -> bool
    requires inside { slot < slots_of seat.old }
    requires ready { IsReady seat.old }
    requires known { known.old.slots ≡ slots_of seat.old }
    requires waits { WaitsFor collector (view seat.old) slot }
    requires found { (slots seat.old).emptied ≡ [] }
    ensures claimed { IsClaimedBack collector slot result seat.old seat.new }
    ensures known { known.new.slots ≡ known.old.slots }
{
    let found = reclaim_private(seat, slot, collector);
    if found == private_word(collector) {
        return true;
    }
    let_go(seat, known, slot, found);
    false
}

/// Moves the value of a slot out that the participant empties for a close.
fn take_claimed<T: Item<T>>(
    values: &SharedValues<T, HoldsOwnDomain>,
    seat: &mut SeatAtTable<'_>,
    slot: u32,
) -> T
    requires values { IsValuesOf (facts_at seat.old) values.now }
    requires inside { slot < slots_of seat.old }
    requires ready { IsReady seat.old }
    requires empties { Empties (view seat.old) slot }
    ensures home { (seat.new.table_id ≡ seat.old.table_id) × (seat.new.id ≡ seat.old.id) }
    ensures view { view seat.new ≡ moving slot (view seat.old) }
    ensures row { CarriesAll (gamma_of seat.old) slot (places_of seat.old) 0 IsNoValueCode seat.old.me.1 seat.new.me.1 }
    ensures fits { AreOf (home_of_slots (id_of seat.old) (gamma_of seat.old) (slots_of seat.old)) (T.holds result) }
    ensures lone { IsLone (epoch seat.old) → WasFilled slot (showing T.row result) (view seat.old) }
{
    let rest = take_private(seat, slot);
    join_rest(seat, slot, rest);
    let count = seat.places() + 1;
    take(values, slot as usize, seat, count)
}

/// Takes the value of a private item of the participant's own out for the close of its collector, and gives the slot back, which is remembered. None where an
/// earlier close claimed it, of a collector that had the same number: then the item is let go of.
pub fn empty_own<T: Item<T>>(
    values: &SharedValues<T, HoldsOwnDomain>,
    seat: &mut SeatAtTable<'_>,
    known: &mut FreeSlotHints,
    slot: u32,
    collector: u32,
) -> Option<T>
    requires inside { slot < slots_of seat.old }
    requires ready { IsReady seat.old }
    requires values { IsValuesOf (facts_at seat.old) values.now }
    requires known { known.old.slots ≡ slots_of seat.old }
    requires waits { WaitsFor collector (view seat.old) slot }
    requires closing { Closes (view seat.old) collector × (places_of seat.old ≤ (slots seat.old).looked) }
    requires idle { ((slots seat.old).emptied ≡ []) × ((slots seat.old).empties ≡ None) × ((slots seat.old).left ≡ false) }
    ensures emptied { MatchOption result (LetsGoOf collector slot seat.old seat.new)
        (λ value. EmptiesOwn slot (showing T.row value) seat.old seat.new) }
    ensures known { known.new.slots ≡ known.old.slots }
    ensures fits { IfSome result (λ value. AreOf (home_of_slots (id_of seat.old) (gamma_of seat.old) (slots_of seat.old)) (T.holds value)) }
{
    let found = claim_own_private(seat, slot, collector);
    if found != private_word(collector) {
        let_go(seat, known, slot, found);
        return None;
    }
    let value = take_claimed(values, seat, slot);
    give_own_back(seat, slot);
    known.remember(slot);
    Some(value)
}

/// Takes the value of an item out that waits for the collector with another participant, if one does in this slot. The bag in which it waits gives the slot
/// back, or has let go of it meanwhile.
pub fn empty_anothers<T: Item<T>>(
    values: &SharedValues<T, HoldsOwnDomain>,
    seat: &mut SeatAtTable<'_>,
    slot: u32,
    collector: u32,
) -> Option<T>
    requires inside { slot < slots_of seat.old }
    requires ready { IsReady seat.old }
    requires values { IsValuesOf (facts_at seat.old) values.now }
    requires closing { Closes (view seat.old) collector × (places_of seat.old ≤ (slots seat.old).looked) }
    requires idle { ((slots seat.old).empties ≡ None) × ((slots seat.old).left ≡ false) }
    ensures emptied { MatchOption result
        (IsUnmoved seat.old seat.new × ¬ (IsLone (epoch seat.old) × Knew slot (view seat.old) (codes.private_word collector)))
        (λ _. EmptiesAnothers collector slot seat.old seat.new) }
    ensures fits { IfSome result (λ value. AreOf (home_of_slots (id_of seat.old) (gamma_of seat.old) (slots_of seat.old)) (T.holds value)) }
{
    let word = private_word(collector);
    // An exchange takes the slot's line from others: it is tried only where the item seems to wait.
    if look(seat, slot) != word || claim_private(seat, slot, collector) != word {
        return None;
    }
    let value = take_claimed(values, seat, slot);
    if finish_emptying(seat, slot) == LEFT {
        give_empty_back(seat, slot);
    }
    Some(value)
}
