//! The atomic steps on private items that move them on: their bag claims one again, or the close of their collector empties its slot.
ghost use Rattle.std.specs.Prelude.{◌≡◌, ◌<◌, true};
ghost use Rattle.sdd_domain_invariant.specs.Codes as codes;
ghost use Rattle.sdd_domain_invariant.specs.Codes.{free_word};
ghost use Rattle.sdd_domain_invariant.specs.Epoch.{HasPlace};
ghost use Rattle.sdd_rights.specs.declared.views.PrivateItem.{PrivateItem};
ghost use Rattle.sdd_domain_invariant.specs.Collectors.{Empties, HasPrivate};
ghost use Rattle.sdd_domain_invariant.specs.Collectors.CollectorWordSteps.{WaitsFor};
ghost use Rattle.sdd_shared_values.specs.SharedValues.{IsNoValueCode};
ghost use Rattle.sdd_domain_invariant.specs.Fractions.FractionsAtHome.{CarriedFractions, Moves};
ghost use Rattle.sdd_domain_invariant.specs.Fractions.FractionSteps.{CarriesAll, IsDeposit};
ghost use Rattle.sdd_domain_invariant.specs.Collectors.CollectorSteps.{ReclaimsOne, TakesPrivate, EmptiedOne, GivesOneEmptyBack, GivesOneOwnBack};
ghost use Rattle.sdd_atomics.specs.SeatAtTable.{gamma_of, places_of, slots_of, IsReady};
ghost use Rattle.sdd_atomics.specs.DomainSeat.{view, epoch, slots, Moved, MovedAlone};

use crate::plays::{FinishEmptying, GiveEmptyBack, GiveOwnBack, ReclaimPrivate, TakePrivate};
use crate::seat_at_table::SeatAtTable;
use crate::steps::slots::{FREE, WAITING};
use sdd_shared_values::ValueFraction;

/// Its private item was moved out by the close of its collector, and is still in its bag.
pub const EMPTIED: u64 = 6;
/// The close of its collector moves its private item out.
pub const EMPTYING: u64 = 7;
/// The close of its collector moves its private item out, and its bag has let go of it.
pub const LEFT: u64 = 8;

/// The word of a slot whose item waits for this collector.
#[inline]
pub fn private_word(collector: u32) -> u64
    ensures { result ≡ codes.private_word collector }
{
    16 * collector as u64 + 5
}

/// Tries to claim a private item for its bag, and answers the slot's word before. Where this is the `private_word` of its collector, it waits as any other
/// from now on, and it is known what it shows. Else the collector's close came first: `EMPTYING`, and it waits for no collector from now on, or `EMPTIED`.
#[inline]
pub fn reclaim_private(seat: &mut SeatAtTable<'_>, slot: u32, collector: u32) -> u64
    requires inside { slot < slots_of seat.old }
    requires ready { IsReady seat.old }
    requires waits { WaitsFor collector (view seat.old) slot }
    ensures { Moved (ReclaimsOne collector slot) seat.old result seat.new }
{
    let SeatAtTable { table, seat } = seat;
    let word = private_word(collector);
    table
        .atomic
        .shared
        .compare_exchange::<ReclaimPrivate>(seat, table.slot_word(slot), word, WAITING)
}

/// Takes all fractions in the slot that it empties for a close, and what the bank has of it. No word is touched.
#[inline]
pub fn take_private(seat: &mut SeatAtTable<'_>, slot: u32) -> ValueFraction
    requires inside { slot < slots_of seat.old }
    requires ready { IsReady seat.old }
    requires empties { Empties (view seat.old) slot }
    ensures taken { MovedAlone (TakesPrivate slot) seat.old seat.new }
    ensures deposit { IsDeposit slot seat.old.me result.content }
{
    let SeatAtTable { table, seat } = seat;
    table
        .bank
        .draw::<TakePrivate>(&table.atomic.shared, seat, slot as u64)
}

/// Says of the slot that it empties that the value was moved out, and answers its word before. Where this is `EMPTYING`, all fractions in it go home, and its
/// bag is to give the slot back. Else its bag has let go of it, nothing goes home yet, and this participant is to give it back (`give_empty_back`).
#[inline]
pub fn finish_emptying(seat: &mut SeatAtTable<'_>, slot: u32) -> u64
    requires inside { slot < slots_of seat.old }
    requires place { HasPlace (epoch seat.old) }
    requires emptied { Moves (view seat.old) slot × Empties (view seat.old) slot }
    requires row { (rest : CarriedFractions) × CarriesAll (gamma_of seat.old) slot (places_of seat.old) 0 IsNoValueCode rest seat.old.me.1 }
    ensures { Moved (EmptiedOne slot) seat.old result seat.new }
{
    let SeatAtTable { table, seat } = seat;
    table
        .atomic
        .shared
        .compare_exchange::<FinishEmptying>(seat, table.slot_word(slot), EMPTYING, EMPTIED)
}

/// Gives back the slot that it emptied, of which the bag has let go: all fractions in it go home.
#[inline]
pub fn give_empty_back(seat: &mut SeatAtTable<'_>, slot: u32)
    requires inside { slot < slots_of seat.old }
    requires place { HasPlace (epoch seat.old) }
    requires emptied { Moves (view seat.old) slot × Empties (view seat.old) slot }
    requires left { (slots seat.old).left ≡ true }
    requires row { (rest : CarriedFractions) × CarriesAll (gamma_of seat.old) slot (places_of seat.old) 0 IsNoValueCode rest seat.old.me.1 }
    ensures { Moved (GivesOneEmptyBack slot) seat.old (free_word 0) seat.new }
{
    let SeatAtTable { table, seat } = seat;
    table
        .atomic
        .shared
        .store::<GiveEmptyBack>(seat, table.slot_word(slot), FREE);
}

/// Gives back the slot of an item of its own bag that it emptied: all fractions in it go home.
#[inline]
pub fn give_own_back(seat: &mut SeatAtTable<'_>, slot: u32)
    requires inside { slot < slots_of seat.old }
    requires place { HasPlace (epoch seat.old) }
    requires emptied { Moves (view seat.old) slot × Empties (view seat.old) slot }
    requires own { (item : PrivateItem) × HasPrivate (view seat.old) item × (item.item.slot ≡ slot) }
    requires row { (rest : CarriedFractions) × CarriesAll (gamma_of seat.old) slot (places_of seat.old) 0 IsNoValueCode rest seat.old.me.1 }
    ensures { Moved (GivesOneOwnBack slot) seat.old (free_word 0) seat.new }
{
    let SeatAtTable { table, seat } = seat;
    table
        .atomic
        .shared
        .store::<GiveOwnBack>(seat, table.slot_word(slot), FREE);
}
