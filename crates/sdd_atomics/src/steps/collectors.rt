//! The atomic steps of a collector's close, and of a bag on items that wait for collectors.
//!
//! An item that waits is collected beside the right to the collector, so that nobody closes that meanwhile. The close claims what waits for its collector once
//! it has looked at all places; the bag leaves what it finds claimed to it.
ghost use Rattle.std.specs.Prelude.{◌≡◌, ◌<◌, ◌≤◌, ℕ, false, [], ◌∷◌, None};
ghost use Rattle.sdd_rights.specs.declared.views.CellKind.TheVariants.{Raw, Collector};
ghost use Rattle.sdd_rights.specs.declared.views.WaitingItem.{WaitingItem};
ghost use Rattle.sdd_domain_invariant.specs.Codes as codes;
ghost use Rattle.sdd_domain_invariant.specs.Codes.{free_word};
ghost use Rattle.sdd_domain_invariant.specs.Epoch.{HasPlace};
ghost use Rattle.sdd_domain_invariant.specs.Collectors.{Closes, FoundEmptied};
ghost use Rattle.sdd_domain_invariant.specs.Collectors.CollectorWordSteps.{WaitsFor, HasWaiting};
ghost use Rattle.sdd_domain_invariant.specs.Collectors.CollectorSteps.{CollectsOne, LeavesOneToClose, GivesOnePrivateBack, ClosesOne, ClosesNone, EmptiesOne, EmptiesOwnOne};
ghost use Rattle.sdd_rights.specs.Owner.{witness_of_cell};
ghost use Rattle.sdd_atomics.specs.SeatAtTable.{id_of, places_of, slots_of, IsReady};
ghost use Rattle.sdd_atomics.specs.DomainSeat.{view, epoch, slots, Moved, MovedAlone};

pub mod emptying;

use super::slots::FREE;
use crate::plays::{
    BeginClose, ClaimOwnPrivate, ClaimPrivate, Collect, EndClose, GivePrivateBack, LeaveToClose,
};
use crate::seat_at_table::SeatAtTable;
use emptying::{EMPTYING, LEFT, private_word};
use sdd_witness::{Swap, Witness, step_alone};
use std::marker::PhantomData;

/// Begins to close the open collector to whose cell the participant has the right, which tells of the close from then on, whoever has it. The participant has
/// looked at no place yet. No word is touched.
#[inline]
pub fn begin_close(seat: &mut SeatAtTable<'_>, collector: u32)
    requires place { HasPlace (epoch seat.old) }
    requires right { (view seat.old).cells.rights ≡ record { cell = collector; kind = Raw } ∷ [] }
    requires idle { (slots seat.old).closes ≡ None }
    ensures { MovedAlone (ClosesOne collector) seat.old seat.new }
{
    let SeatAtTable { table, seat } = seat;
    let _ = collector;
    step_alone::<_, _, _, _, BeginClose>(&table.atomic.shared, seat);
}

/// Ends the close of a collector, to whose cell the participant has the right: that is one to an open collector again. No word is touched.
#[inline]
pub fn end_close(seat: &mut SeatAtTable<'_>, collector: u32)
    requires place { HasPlace (epoch seat.old) }
    requires right { (view seat.old).cells.rights ≡ record { cell = collector; kind = Collector } ∷ [] }
    requires closes { Closes (view seat.old) collector }
    ensures { MovedAlone (ClosesNone collector) seat.old seat.new }
{
    let SeatAtTable { table, seat } = seat;
    let _ = collector;
    step_alone::<_, _, _, _, EndClose>(&table.atomic.shared, seat);
}

/// Tries to claim a slot for the close of a collector, once every place was looked at, and answers the slot's word before. Where this is the `private_word` of
/// the collector, the participant empties the slot from now on. Else nothing changes.
#[inline]
pub fn claim_private(seat: &mut SeatAtTable<'_>, slot: u32, collector: u32) -> u64
    requires inside { slot < slots_of seat.old }
    requires ready { IsReady seat.old }
    requires closes { Closes (view seat.old) collector }
    requires looked { places_of seat.old ≤ (slots seat.old).looked }
    requires idle { ((slots seat.old).empties ≡ None) × ((slots seat.old).left ≡ false) }
    ensures { Moved (EmptiesOne collector slot) seat.old result seat.new }
{
    let SeatAtTable { table, seat } = seat;
    let word = private_word(collector);
    table
        .atomic
        .shared
        .compare_exchange::<ClaimPrivate>(seat, table.slot_word(slot), word, EMPTYING)
}

/// Tries to claim an item of its own bag for the close of a collector, once every place was looked at, and answers the slot's word before. Where this is the
/// `private_word` of the collector, the participant empties the slot from now on. Else an earlier close came first: `EMPTYING`, and the item waits for no
/// collector from now on, or `EMPTIED`, and the slot is the bag's to give back.
#[inline]
pub fn claim_own_private(seat: &mut SeatAtTable<'_>, slot: u32, collector: u32) -> u64
    requires inside { slot < slots_of seat.old }
    requires ready { IsReady seat.old }
    requires waits { WaitsFor collector (view seat.old) slot }
    requires closes { Closes (view seat.old) collector }
    requires looked { places_of seat.old ≤ (slots seat.old).looked }
    requires idle { ((slots seat.old).empties ≡ None) × ((slots seat.old).left ≡ false) }
    ensures { Moved (EmptiesOwnOne collector slot) seat.old result seat.new }
{
    let SeatAtTable { table, seat } = seat;
    let word = private_word(collector);
    table
        .atomic
        .shared
        .compare_exchange::<ClaimOwnPrivate>(seat, table.slot_word(slot), word, EMPTYING)
}

/// Tries to leave a private item to the close that empties its slot, and answers the slot's word before. Where this is `EMPTYING`, the bag has let go of the
/// item. Where it is `EMPTIED`, the slot is the bag's to give back. Where it is the `private_word` of its collector, the close hasn't come to it.
#[inline]
pub fn leave_to_close(seat: &mut SeatAtTable<'_>, slot: u32) -> u64
    requires inside { slot < slots_of seat.old }
    requires ready { IsReady seat.old }
    requires waits { (k : ℕ) × WaitsFor k (view seat.old) slot }
    ensures { (k : ℕ) → WaitsFor k (view seat.old) slot → Moved (LeavesOneToClose k slot) seat.old result seat.new }
{
    let SeatAtTable { table, seat } = seat;
    table
        .atomic
        .shared
        .compare_exchange::<LeaveToClose>(seat, table.slot_word(slot), EMPTYING, LEFT)
}

/// Gives back the slot of a private item that was found emptied.
#[inline]
pub fn give_private_back(seat: &mut SeatAtTable<'_>, slot: u32)
    requires inside { slot < slots_of seat.old }
    requires ready { IsReady seat.old }
    requires found { FoundEmptied (view seat.old) slot }
    ensures { Moved (GivesOnePrivateBack slot) seat.old (free_word 0) seat.new }
{
    let SeatAtTable { table, seat } = seat;
    table
        .atomic
        .shared
        .store::<GivePrivateBack>(seat, table.slot_word(slot), FREE);
}

/// Collects an item that waits, beside the seat of the right to the cell of an open collector: from now on it waits for this collector, and what was
/// remembered of it is forgotten, since the close of the collector may move the value out.
#[inline]
pub fn collect(seat: &mut SeatAtTable<'_>, slot: u32, collector: u32, right: &Witness)
    requires inside { slot < slots_of seat.old }
    requires ready { IsReady seat.old }
    requires free { (view seat.old).pledges.own ≡ [] }
    requires waits { (item : WaitingItem) × HasWaiting (view seat.old) slot item }
    requires right { (right.now.table_id ≡ id_of seat.old) × (right.now.views ≡ witness_of_cell collector Raw) }
    ensures { Moved (CollectsOne collector slot) seat.old (codes.private_word collector) seat.new }
{
    let SeatAtTable { table, seat } = seat;
    let deed = Swap::<Collect> {
        word: table.slot_word(slot),
        new: private_word(collector),
        marker: PhantomData,
    };
    table
        .ledger
        .beside(&table.atomic.shared, seat, right, &deed);
}
