//! The search for a free place, by who registers.
ghost use Rattle.std.specs.Prelude.{◌≡◌, ◌⊎◌, ◌<◌, IfErr, IfOk};
ghost use Rattle.sdd_rights.specs.Views.{nobody};
ghost use Rattle.sdd_domain_invariant.specs.Epoch.EpochSteps.{Takes};
ghost use Rattle.sdd_domain_invariant.specs.Slots.SlotSteps.{blank};
ghost use Rattle.sdd_domain_invariant.specs.Words.{state_word};
ghost use Rattle.sdd_atomics.specs.DomainTable as of_table;
ghost use Rattle.sdd_atomics.specs.SeatAtTable.{sizes_of, places_of};
ghost use Rattle.sdd_atomics.specs.DomainSeat.{epoch, words_known, IsSameBut};
ghost use Rattle.sdd_domain_steps.specs.Sightings.{AreSeenTaken};

use crate::sightings::Sightings;
use sdd_atomics::steps::epoch;
use sdd_atomics::{DomainTable, SeatAtTable};
use sdd_core::Refused;

/// A place seems to be free, where the state of the first one is at that word: a peek proves nothing of the moment after, but takes the place's line from
/// nobody.
fn seems_free(table: &DomainTable, first: usize, place: usize) -> bool
    requires first { first ≡ state_word (of_table.sizes_of table.now) 0 }
    requires inside { place < of_table.places_of table.now }
{
    table.atomic.shared.peek(table.state_from(first, place)) == epoch::FREE
}

/// Takes a free place: the first one that is found so. An exchange is tried only there, since it takes a place's line from its participant. Where there is
/// none each was found taken, which is told for clauses.
pub fn take_place(seat: &mut SeatAtTable<'_>) -> Result<usize, Sightings>
    requires idle { epoch seat.old ≡ nobody (places_of seat.old) }
    requires blank { words_known seat.old ≡ blank (sizes_of seat.old) }
    ensures same { IsSameBut seat.old seat.new }
    ensures taken { IfOk result (λ place. (place < places_of seat.old) × Takes (nobody (places_of seat.old)) place (epoch seat.new)) }
    ensures seen { IfErr result (AreSeenTaken 0 (places_of seat.old)) }
{
    let mut seen = Sightings::new(seat.places(), 0);
    let first = seat.first_state();
    for place in 0..seat.places() {
        if !seems_free(seat.table, first, place) {
            seen.note(place);
            continue;
        }
        if epoch::register(seat, place) == epoch::FREE {
            return Ok(place);
        }
        seen.note(place);
    }
    Err(seen)
}

/// What a registering without memory is refused with: where no place is free either, that goes before, and each was found taken.
pub fn want_of_memory(table: &DomainTable) -> (Refused, Sightings)
    ensures { ((result.0 ≡ Refused.NoPlace) × AreSeenTaken 0 (of_table.places_of table.now) result.1) ⊎ (result.0 ≡ Refused.NoMemory) }
{
    let mut seen = Sightings::new(table.places(), 0);
    let first = table.first_state();
    for place in 0..table.places() {
        if seems_free(table, first, place) {
            return (Refused::NoMemory, seen);
        }
        seen.note(place);
    }
    (Refused::NoPlace, seen)
}
