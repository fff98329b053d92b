//! The end of a domain: nobody takes part any more, and nothing is in use.
ghost use Rattle.std.specs.Prelude.{◌≡◌, ◌+◌, ◌<◌, ◌≤◌, true, false, None, IfOk, IfErr, MatchOption, length};
ghost use Rattle.sdd_domain_invariant.specs.Epoch.Barred.{past};
ghost use Rattle.sdd_domain_invariant.specs.Codes as codes;
ghost use Rattle.sdd_rights.specs.Views.{no_counts};
ghost use Rattle.sdd_atomics.specs.DomainTable as of_table;
ghost use Rattle.sdd_atomics.specs.SeatAtTable.{id_of, places_of, most_waiting_of};
ghost use Rattle.sdd_atomics.specs.DomainSeat.{view};
ghost use Rattle.sdd_domain_steps.specs.Sightings.{IsAnyTaken, KeepsMarks};

use crate::sightings::Sightings;
use sdd_atomics::steps::epoch;
use sdd_atomics::steps::slots::{FREE, look_for_value};
use sdd_atomics::{DomainTable, SeatAtTable};

/// The word of a slot in which no value is.
fn is_free(word: u64) -> bool
    ensures { result ≡ true → codes.full word ≡ 0 }
{
    word == FREE
}

/// At this moment no place is a participant's. A peek changes nothing, so that a close that is refused here leaves the places as they were.
fn are_nobodys(table: &DomainTable, seen: &mut Sightings) -> bool
    requires numbers { of_table.places_of table.now ≤ length seen.old.taken }
    ensures kept { KeepsMarks seen.old.taken seen.new.taken }
    ensures seen { result ≡ false → IsAnyTaken seen.new }
{
    let first = table.first_state();
    for place in 0..table.places() {
        let state = table.atomic.shared.peek(table.state_from(first, place));
        if state != epoch::FREE && state != epoch::ENDED && state != epoch::BARRED {
            seen.note(place);
            return false;
        }
    }
    true
}

/// At this moment all slots are free, and all places of jobs, which have the numbers behind those of the slots: with a peek at each.
fn seem_free(table: &DomainTable, numbers: u32, seen: &mut Sightings) -> bool
    requires numbers { numbers ≡ of_table.most_waiting_of table.now }
    requires room { of_table.places_of table.now + numbers ≤ length seen.old.taken }
    ensures kept { KeepsMarks seen.old.taken seen.new.taken }
    ensures seen { result ≡ false → IsAnyTaken seen.new }
{
    for slot in 0..numbers {
        if !is_free(table.atomic.shared.peek(table.slot_word(slot))) {
            seen.note(number_of(table, slot));
            return false;
        }
    }
    true
}

/// The number of a slot, or of a job's place, behind those of the participants' places.
fn number_of(table: &DomainTable, slot: u32) -> usize
    ensures { result ≡ of_table.places_of table.now + slot }
{
    table.places() + slot as usize
}

/// Bars the next place, unless it is a participant's: whether it is barred then.
fn bars(seat: &mut SeatAtTable<'_>, place: usize) -> bool
    requires next { (place < places_of seat.old) × (place ≡ (view seat.old).places.ended) }
    ensures home { seat.new.table_id ≡ id_of seat.old }
    ensures barred { result ≡ true → view seat.new ≡ past place (view seat.old) }
{
    let found = epoch::bar(seat, place, epoch::FREE);
    if found == epoch::FREE || found == epoch::BARRED {
        return true;
    }
    if found != epoch::ENDED {
        return false;
    }
    let found = epoch::bar(seat, place, epoch::ENDED);
    found == epoch::ENDED || found == epoch::BARRED
}

/// Bars each place that is nobody's. A seat that knows that all are barred, unless one is a participant's.
fn bar_all<'d>(table: &'d DomainTable, seen: &mut Sightings) -> Option<SeatAtTable<'d>>
    requires numbers { of_table.places_of table.now ≤ length seen.old.taken }
    ensures barred { MatchOption result (IsAnyTaken seen.new)
        (λ seat. (seat.table_id ≡ of_table.id_of table.now) × ((view seat).sizes ≡ of_table.sizes_of table.now)
        × (of_table.places_of table.now ≤ (view seat).places.ended)
        × ((view seat).fractions.counts ≡ no_counts) × ((view seat).places.quiet ≡ 0)) }
    ensures kept { KeepsMarks seen.old.taken seen.new.taken }
{
    let mut seat = epoch::sit(table);
    for place in 0..table.places() {
        if !bars(&mut seat, place) {
            seen.note(place);
            return None;
        }
    }
    Some(seat)
}

/// Looks at each slot in turn, and at each job's place, once all places are barred. All are free, and stay so, which the seat knows then; unless one is
/// found that isn't.
fn are_free(seat: &mut SeatAtTable<'_>, numbers: u32, seen: &mut Sightings) -> bool
    requires numbers { numbers ≡ most_waiting_of seat.old }
    requires room { places_of seat.old + numbers ≤ length seen.old.taken }
    requires ended { places_of seat.old ≤ (view seat.old).places.ended }
    requires quiet { (view seat.old).places.quiet ≡ 0 }
    ensures home { seat.new.table_id ≡ id_of seat.old }
    ensures ended { (view seat.new).places.ended ≡ (view seat.old).places.ended }
    ensures counts { (view seat.new).fractions.counts ≡ (view seat.old).fractions.counts }
    ensures quiet { result ≡ true → numbers ≤ (view seat.new).places.quiet }
    ensures seen { result ≡ false → IsAnyTaken seen.new }
{
    for slot in 0..numbers {
        if !is_free(look_for_value(seat, slot)) {
            seen.note(seat.places() + slot as usize);
            return false;
        }
    }
    true
}

/// The same, unless something is found to be in use.
fn settled_by<'d>(
    table: &'d DomainTable,
    numbers: u32,
    seen: &mut Sightings,
) -> Option<SeatAtTable<'d>>
    requires numbers { numbers ≡ of_table.most_waiting_of table.now }
    requires room { of_table.places_of table.now + numbers ≤ length seen.old.taken }
    ensures settled { MatchOption result (IsAnyTaken seen.new)
        (λ seat. (seat.table_id ≡ of_table.id_of table.now) × (of_table.places_of table.now ≤ (view seat).places.ended)
        × ((view seat).fractions.counts ≡ no_counts) × (numbers ≤ (view seat).places.quiet)) }
{
    if !are_nobodys(table, seen) || !seem_free(table, numbers, seen) {
        return None;
    }
    let mut seat = bar_all(table, seen)?;
    if are_free(&mut seat, numbers, seen) {
        Some(seat)
    } else {
        None
    }
}

/// A seat that knows that all places are barred, and all slots and all places of jobs are free, where that is so: nothing is out any more, and nothing
/// waits. Else something was found to be in use, which is told for clauses: a place by its number, or a slot or a job's place by a number behind those.
pub fn settled(table: &DomainTable, numbers: u32) -> Result<SeatAtTable<'_>, Sightings>
    requires { numbers ≡ of_table.most_waiting_of table.now }
    ensures home { IfOk result (λ seat. seat.table_id ≡ of_table.id_of table.now) }
    ensures ended { IfOk result (λ seat. of_table.places_of table.now ≤ (view seat).places.ended) }
    ensures counts { IfOk result (λ seat. (view seat).fractions.counts ≡ no_counts) }
    ensures quiet { IfOk result (λ seat. numbers ≤ (view seat).places.quiet) }
    ensures used { IfErr result IsAnyTaken }
{
    let mut seen = Sightings::new(number_of(table, numbers), 0);
    match settled_by(table, numbers, &mut seen) {
        Some(seat) => Ok(seat),
        None => Err(seen),
    }
}
