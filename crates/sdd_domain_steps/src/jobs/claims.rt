//! The search for a free place of a job.
ghost use Rattle.std.specs.Prelude.{◌≡◌, ◌⊎◌, ◌+◌, ◌^◌, ◌<◌, ◌≤◌, true, false, None, IfErr, IfOk, IfSome, MatchOption, MatchResult, length};
ghost use Rattle.sdd_atomics.specs.SeatAtTable.{slots_of, most_waiting_of, IsReady};
ghost use Rattle.sdd_domain_steps.specs.Claims.{AreTaken, ComesFirst, Defers, Misses, Loses};
ghost use Rattle.sdd_domain_steps.specs.Sightings.{AreSeenTaken, Explains, IsOver, SearchesOn};

use crate::search::Search;
use crate::sightings::Sightings;
use sdd_atomics::SeatAtTable;
use sdd_atomics::steps::jobs::defer;
use sdd_atomics::steps::slots::FREE;
use sdd_core::{Limits, Refused};

/// Tries the places from one up to another one.
fn walk(
    seat: &mut SeatAtTable<'_>,
    from: u32,
    to: u32,
    search: &mut Search,
) -> Result<Option<u32>, Refused>
    requires inside { (slots_of seat.old ≤ from) × (to ≤ most_waiting_of seat.old) }
    requires ready { IsReady seat.old }
    requires left { 0 < search.old.left }
    requires numbers { to ≤ length search.old.seen.taken }
    ensures tried { MatchResult result
        (λ found. MatchOption found
        (Misses (λ k. (from ≤ k) × (k < to)) seat.old seat.new)
        (λ place. (from ≤ place) × (place < to) × Defers place seat.old seat.new))
        (λ e. (e ≡ Refused.Contended) × Loses seat.old seat.new) }
    ensures first { IfOk result (λ found. IfSome found (λ place. AreTaken (λ k. (from ≤ k) × (k < place)) seat.old)) }
    ensures on { SearchesOn search.old search.new }
    ensures seen { MatchResult result
        (λ found. (0 < search.new.left) × (found ≡ None → AreSeenTaken from to search.new.seen))
        (λ _. IsOver search.new) }
{
    for place in from..to {
        if search.place(seat, place)? {
            return Ok(Some(place));
        }
    }
    Ok(None)
}

/// Claims a place for a job, if it is free.
#[inline]
fn claim(seat: &mut SeatAtTable<'_>, place: u32) -> bool
    requires inside { (slots_of seat.old ≤ place) × (place < most_waiting_of seat.old) }
    requires ready { IsReady seat.old }
    ensures won { result ≡ true → Defers place seat.old seat.new }
    ensures lost { result ≡ false → Misses (λ k. k ≡ place) seat.old seat.new }
{
    defer(seat, place) == FREE
}

/// Where a walk over so many places begins: at this one, or at the first where there is no such place.
fn start_of(next: u32, places: u32) -> u32
    ensures inside { result ≤ places }
    ensures same { next < places → result ≡ next }
    ensures first { places ≤ next → result ≡ 0 }
{
    if next < places { next } else { 0 }
}

/// Tries all places in a walk, once round, which begins at this one, or at the first where there is no such place.
fn try_all(
    seat: &mut SeatAtTable<'_>,
    next: u32,
    slots: u32,
    jobs: u32,
    search: &mut Search,
) -> Result<u32, Refused>
    requires slots { (slots ≡ slots_of seat.old) × (slots + jobs ≡ most_waiting_of seat.old) }
    requires small { slots + jobs < 2 ^ 32 }
    requires ready { IsReady seat.old }
    requires left { 0 < search.old.left }
    requires numbers { slots + jobs ≤ length search.old.seen.taken }
    ensures tried { MatchResult result
        (λ job. (job < jobs) × Defers (slots + job) seat.old seat.new)
        (λ e. ((e ≡ Refused.NoJob) × Misses (λ k. (slots ≤ k) × (k < slots + jobs)) seat.old seat.new)
        ⊎ ((e ≡ Refused.Contended) × Loses seat.old seat.new)) }
    ensures seen { IfErr result (λ e. Explains Refused.NoJob slots (slots + jobs) (length search.old.seen.lost) e search.new.seen) }
    ensures first { IfOk result (λ job. ComesFirst slots (slots + jobs) (slots + next) (slots + job) seat.old) }
{
    let next = start_of(next, jobs);
    if let Some(place) = walk(seat, slots + next, slots + jobs, search)? {
        return Ok(place - slots);
    }
    if let Some(place) = walk(seat, slots, slots + next, search)? {
        return Ok(place - slots);
    }
    Err(Refused::NoJob)
}

/// The same search, which may lose so many exchanges, and tells with a refusal what it saw.
#[inline(never)]
fn search(
    seat: &mut SeatAtTable<'_>,
    next: u32,
    slots: u32,
    jobs: u32,
    tries: u64,
) -> Result<u32, (Refused, Sightings)>
    requires slots { (slots ≡ slots_of seat.old) × (slots + jobs ≡ most_waiting_of seat.old) }
    requires small { slots + jobs < 2 ^ 32 }
    requires ready { IsReady seat.old }
    requires tries { 0 < tries }
    ensures tried { MatchResult result
        (λ job. (job < jobs) × Defers (slots + job) seat.old seat.new)
        (λ e. ((e.0 ≡ Refused.NoJob) × Misses (λ k. (slots ≤ k) × (k < slots + jobs)) seat.old seat.new)
        ⊎ ((e.0 ≡ Refused.Contended) × Loses seat.old seat.new)) }
    ensures seen { IfErr result (λ e. Explains Refused.NoJob slots (slots + jobs) tries e.0 e.1) }
    ensures first { IfOk result (λ job. ComesFirst slots (slots + jobs) (slots + next) (slots + job) seat.old) }
{
    let mut search = Search::new(slots + jobs, tries);
    match try_all(seat, next, slots, jobs, &mut search) {
        Ok(place) => Ok(place),
        Err(refused) => Err((refused, search.into_seen())),
    }
}

/// The same search, with so many slots and places of jobs, and so many tries, as the limits say.
// Compiled into its caller, so that the place in memory of the search's answer is made ready only where there is a search.
#[inline]
fn search_within(
    seat: &mut SeatAtTable<'_>,
    next: u32,
    limits: &Limits,
) -> Result<u32, (Refused, Sightings)>
    requires slots { (limits.now.slots ≡ slots_of seat.old) × (limits.now.slots + limits.now.jobs ≡ most_waiting_of seat.old) }
    requires small { limits.now.slots + limits.now.jobs < 2 ^ 32 }
    requires ready { IsReady seat.old }
    requires tries { 0 < limits.now.tries }
    ensures tried { MatchResult result
        (λ job. (job < limits.now.jobs) × Defers (limits.now.slots + job) seat.old seat.new)
        (λ e. ((e.0 ≡ Refused.NoJob) × Misses (λ k. (limits.now.slots ≤ k) × (k < limits.now.slots + limits.now.jobs)) seat.old seat.new)
        ⊎ ((e.0 ≡ Refused.Contended) × Loses seat.old seat.new)) }
    ensures seen { IfErr result (λ e. Explains Refused.NoJob limits.now.slots (limits.now.slots + limits.now.jobs) limits.now.tries e.0 e.1) }
    ensures first { IfOk result (λ job. ComesFirst limits.now.slots (limits.now.slots + limits.now.jobs)
        (limits.now.slots + next) (limits.now.slots + job) seat.old) }
{
    let slots = limits.slots as u32;
    let jobs = limits.jobs as u32;
    match search(seat, next, slots, jobs, limits.tries) {
        Ok(place) => Ok(place),
        Err(refused) => Err(refused),
    }
}

/// Claims a free place for a job: this one, by an exchange without a look before, or else the first one of a walk over all places, once round, which
/// begins there, or at the first place where there is no such one. A job's place has the number behind those of the slots.
///
/// `NoJob` where none was found free; `Contended` where as many exchanges of the walk were lost as the limits allow: what was seen of that is told for
/// clauses.
#[inline]
pub fn claim_place(
    seat: &mut SeatAtTable<'_>,
    next: u32,
    limits: &Limits,
) -> Result<u32, (Refused, Sightings)>
    requires slots { (limits.now.slots ≡ slots_of seat.old) × (limits.now.slots + limits.now.jobs ≡ most_waiting_of seat.old) }
    requires small { limits.now.slots + limits.now.jobs < 2 ^ 32 }
    requires ready { IsReady seat.old }
    requires tries { 0 < limits.now.tries }
    ensures tried { MatchResult result
        (λ job. (job < limits.now.jobs) × Defers (limits.now.slots + job) seat.old seat.new)
        (λ e. ((e.0 ≡ Refused.NoJob) × Misses (λ k. (limits.now.slots ≤ k) × (k < limits.now.slots + limits.now.jobs)) seat.old seat.new)
        ⊎ ((e.0 ≡ Refused.Contended) × Loses seat.old seat.new)) }
    ensures seen { IfErr result (λ e. Explains Refused.NoJob limits.now.slots (limits.now.slots + limits.now.jobs) limits.now.tries e.0 e.1) }
    ensures first { IfOk result (λ job. ComesFirst limits.now.slots (limits.now.slots + limits.now.jobs)
        (limits.now.slots + next) (limits.now.slots + job) seat.old) }
{
    if next < limits.jobs as u32 && claim(seat, limits.slots as u32 + next) {
        return Ok(next);
    }
    search_within(seat, next, limits)
}
