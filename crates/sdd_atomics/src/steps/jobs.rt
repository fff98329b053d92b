//! The atomic steps on places of the table of jobs, by a participant.
//!
//! A place is free, or a job waits in it. It is a slot without a value: its number comes after those of the slots. A lone participant knows each word
//! beforehand.
ghost use Rattle.std.specs.Prelude.{◌<◌, ◌≤◌};
ghost use Rattle.sdd_domain_invariant.specs.Codes.{free_word, waiting_word};
ghost use Rattle.sdd_domain_invariant.specs.Slots.SlotSteps.{IsDue, LooksAtSlot};
ghost use Rattle.sdd_domain_invariant.specs.Fractions.FractionSteps.{DefersJob, GivesPlace};
ghost use Rattle.sdd_atomics.specs.SeatAtTable.{slots_of, most_waiting_of, IsReady};
ghost use Rattle.sdd_atomics.specs.DomainSeat.{view, Taught, Moved};

use super::slots::{FREE, WAITING};
use crate::plays::{Defer, GivePlaceBack, LookAtSlot};
use crate::seat_at_table::SeatAtTable;

/// Looks at the word of a job's place, which was free at this moment where this is `FREE`.
#[inline]
pub fn look_at_place(seat: &mut SeatAtTable<'_>, place: u32) -> u64
    requires inside { (slots_of seat.old ≤ place) × (place < most_waiting_of seat.old) }
    requires ready { IsReady seat.old }
    ensures { Taught (LooksAtSlot place) seat.old result seat.new }
{
    let SeatAtTable { table, seat } = seat;
    table
        .atomic
        .shared
        .load::<LookAtSlot>(seat, table.slot_word(place))
}

/// Tries to claim a place for a job, and answers its word before. It was free where this is `FREE`: then the job waits with the participant from this
/// step on, as a retired item does.
#[inline]
pub fn defer(seat: &mut SeatAtTable<'_>, place: u32) -> u64
    requires inside { (slots_of seat.old ≤ place) × (place < most_waiting_of seat.old) }
    requires ready { IsReady seat.old }
    ensures { Moved (DefersJob place (free_word 0) (waiting_word 0)) seat.old result seat.new }
{
    let SeatAtTable { table, seat } = seat;
    table
        .atomic
        .shared
        .compare_exchange::<Defer>(seat, table.slot_word(place), FREE, WAITING)
}

/// Gives back the place of a job that has seen three changes.
#[inline]
pub fn give_place_back(seat: &mut SeatAtTable<'_>, place: u32)
    requires inside { (slots_of seat.old ≤ place) × (place < most_waiting_of seat.old) }
    requires ready { IsReady seat.old }
    requires due { IsDue (view seat.old) place }
    ensures { Moved (GivesPlace place) seat.old (free_word 0) seat.new }
{
    let SeatAtTable { table, seat } = seat;
    table
        .atomic
        .shared
        .store::<GivePlaceBack>(seat, table.slot_word(place), FREE);
}
