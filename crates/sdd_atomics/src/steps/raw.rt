//! The atomic steps on items that are out as raw, which nobody owns, by a participant.
ghost use Rattle.std.specs.Prelude.{◌≡◌, ◌<◌, [], ◌∷◌, None, false};
ghost use base.Stored.{Gv};
ghost use Rattle.sdd_domain_invariant.specs.Codes.{owned_word, raw_word};
ghost use Rattle.sdd_domain_invariant.specs.Epoch.{IsOpen};
ghost use Rattle.sdd_domain_invariant.specs.Slots.{Holds};
ghost use Rattle.sdd_domain_invariant.specs.Slots.FilledInvariant.{HasRecord};
ghost use Rattle.sdd_domain_invariant.specs.Raw.RawSteps.{TurnsRawOne, RegainsOne, SeesRawOne};
ghost use Rattle.sdd_atomics.specs.SeatAtTable.{places_of, slots_of, IsReady};
ghost use Rattle.sdd_atomics.specs.DomainSeat.{view, epoch, slots, Moved};

pub mod pointers;

use crate::plays::{LookForRaw, Regain, TurnRaw};
use crate::seat_at_table::SeatAtTable;
use crate::steps::slots::OWNED;
use sdd_shared_values::ValueFraction;

/// Its item is out as raw, and nobody owns it.
pub const RAW: u64 = 2;

/// Puts the item of a slot of its own out as raw. The owner, which was the only one that there could be, is gone, and its unit is in the bank.
#[inline]
pub fn turn_raw(seat: &mut SeatAtTable<'_>, slot: u32)
    requires inside { slot < slots_of seat.old }
    requires ready { IsReady seat.old }
    requires own { ((slots seat.old).owns ≡ slot ∷ []) × ¬ (Holds (view seat.old) slot) × ((slots seat.old).drawn ≡ []) }
    requires told { (value : Gv) × HasRecord (view seat.old).fractions.owns (record { slot = slot; shared = false; value = value }) }
    ensures { Moved (TurnsRawOne slot) seat.old (raw_word 0) seat.new }
{
    let SeatAtTable { table, seat } = seat;
    table
        .atomic
        .shared
        .store::<TurnRaw>(seat, table.slot_word(slot), RAW);
}

/// Tries to take an item back that is out as raw, and answers its word before. It was out where this is `RAW`: then the participant has its only owner,
/// which has no unit yet, and knows what the slot shows.
#[inline]
pub fn regain(seat: &mut SeatAtTable<'_>, slot: u32) -> u64
    requires inside { slot < slots_of seat.old }
    requires ready { IsReady seat.old }
    ensures { Moved (RegainsOne slot (raw_word 0) (owned_word 0)) seat.old result seat.new }
{
    let SeatAtTable { table, seat } = seat;
    table
        .atomic
        .shared
        .compare_exchange::<Regain>(seat, table.slot_word(slot), RAW, OWNED)
}

/// Looks under the open guard at the word of a slot. Where this is `RAW` its item was out as raw at this moment: then the guard sees the slot from now
/// on, and has the fraction of its place out.
#[inline]
pub fn look_for_raw(seat: &mut SeatAtTable<'_>, slot: u32) -> u64
    requires inside { slot < slots_of seat.old }
    requires open { IsOpen (epoch seat.old) }
    requires near { (epoch seat.old).place < places_of seat.old }
    requires rests { (view seat.old).fractions.moves ≡ None }
    ensures { Moved (SeesRawOne slot (raw_word 0)) seat.old result seat.new }
{
    let SeatAtTable { table, seat } = seat;
    table
        .atomic
        .shared
        .load::<LookForRaw>(seat, table.slot_word(slot))
}
