//! The search for a free slot.
ghost use Rattle.std.specs.Prelude.{◌≡◌, ◌⊎◌, ◌+◌, ◌<◌, ◌≤◌, ℕ, List, [], ◌∷◌, ◌++◌, None, Ok, IfErr, IfOk, IfSome, IsTrue, MatchBool, MatchOption, MatchResult, length};
ghost use Rattle.sdd_domain_invariant.specs.Codes.{alive};
ghost use Rattle.sdd_domain_invariant.specs.Epoch.{HasPlace, IsLone};
ghost use Rattle.sdd_atomics.specs.SeatAtTable.{slots_of, IsReady};
ghost use Rattle.sdd_atomics.specs.DomainSeat.{epoch};
ghost use Rattle.sdd_domain_steps.specs.Claims.{AreTaken, ComesFirst, IsKnownFree, IsUnmoved, Gains, Misses, Loses};
ghost use Rattle.sdd_domain_steps.specs.Sightings.{AreSeenTaken, Explains, IsOver, SearchesOn};

use crate::search::Search;
use crate::sightings::Sightings;
use crate::slots::free_slot_hints::FreeSlotHints;
use sdd_atomics::SeatAtTable;
use sdd_atomics::steps::slots::{FREE, claim, look};
use sdd_core::{Limits, Refused};

/// One try at a slot that was given back, by an exchange at once: it is claimed by this word, of one owner, if it is free.
#[inline(always)]
fn claim_at_once(seat: &mut SeatAtTable<'_>, slot: u32, word: u64) -> bool
    requires inside { slot < slots_of seat.old }
    requires ready { IsReady seat.old }
    requires one { alive word ≡ 1 }
    ensures { MatchBool result (Gains word slot seat.old seat.new) (Misses (λ k. k ≡ slot) seat.old seat.new) }
{
    claim(seat, slot, word) == FREE
}

/// Tries the slots that were given back.
fn try_known(
    seat: &mut SeatAtTable<'_>,
    known: &mut FreeSlotHints,
    word: u64,
    search: &mut Search,
) -> Result<Option<u32>, Refused>
    requires slots { known.old.slots ≡ slots_of seat.old }
    requires ready { IsReady seat.old }
    requires one { alive word ≡ 1 }
    requires left { 0 < search.old.left }
    requires numbers { slots_of seat.old ≤ length search.old.seen.taken }
    ensures tried { MatchResult result
        (λ found. MatchOption found (IsUnmoved seat.old seat.new) (λ slot. Gains word slot seat.old seat.new))
        (λ e. (e ≡ Refused.Contended) × Loses seat.old seat.new) }
    ensures none { known.old.given_back.items ≡ [] → IfOk result (λ found. found ≡ None) }
    ensures next { known.new.next ≡ known.old.next }
    ensures slots { known.new.slots ≡ known.old.slots }
    ensures on { SearchesOn search.old search.new }
    ensures seen { MatchResult result (λ _. 0 < search.new.left) (λ _. IsOver search.new) }
{
    for _ in 0..known.len() {
        let Some(slot) = known.pop() else {
            return Ok(None);
        };
        if search.slot(seat, slot, word)? {
            return Ok(Some(slot));
        }
    }
    Ok(None)
}

/// Tries the slots from one up to another one.
fn walk(
    seat: &mut SeatAtTable<'_>,
    from: u32,
    to: u32,
    word: u64,
    search: &mut Search,
) -> Result<Option<u32>, Refused>
    requires inside { to ≤ slots_of seat.old }
    requires ready { IsReady seat.old }
    requires one { alive word ≡ 1 }
    requires left { 0 < search.old.left }
    requires numbers { to ≤ length search.old.seen.taken }
    ensures tried { MatchResult result
        (λ found. MatchOption found
        (Misses (λ k. (from ≤ k) × (k < to)) seat.old seat.new)
        (λ slot. Gains word slot seat.old seat.new))
        (λ e. (e ≡ Refused.Contended) × Loses seat.old seat.new) }
    ensures first { IfOk result (λ found. IfSome found (λ slot. (from ≤ slot) × (slot < to) × AreTaken (λ k. (from ≤ k) × (k < slot)) seat.old)) }
    ensures on { SearchesOn search.old search.new }
    ensures seen { MatchResult result
        (λ found. (0 < search.new.left) × (found ≡ None → AreSeenTaken from to search.new.seen))
        (λ _. IsOver search.new) }
{
    for slot in from..to {
        if search.slot(seat, slot, word)? {
            return Ok(Some(slot));
        }
    }
    Ok(None)
}

/// Tries the slots that were given back, and then all slots in a walk, once round.
fn try_all(
    seat: &mut SeatAtTable<'_>,
    known: &mut FreeSlotHints,
    slots: u32,
    word: u64,
    search: &mut Search,
) -> Result<u32, Refused>
    requires slots { (known.old.slots ≡ slots_of seat.old) × (slots ≡ slots_of seat.old) }
    requires ready { IsReady seat.old }
    requires one { alive word ≡ 1 }
    requires left { 0 < search.old.left }
    requires numbers { slots ≤ length search.old.seen.taken }
    ensures tried { MatchResult result
        (λ slot. Gains word slot seat.old seat.new)
        (λ e. ((e ≡ Refused.NoSlot) × Misses (λ k. k < slots_of seat.old) seat.old seat.new)
        ⊎ ((e ≡ Refused.Contended) × Loses seat.old seat.new)) }
    ensures seen { IfErr result (λ e. Explains Refused.NoSlot 0 (slots_of seat.old) (length search.old.seen.lost) e search.new.seen) }
    ensures first { known.old.given_back.items ≡ [] → IfOk result (λ slot. (known.new.next ≡ slot + 1)
        × ComesFirst 0 (slots_of seat.old) known.old.next slot seat.old) }
    ensures slots { known.new.slots ≡ known.old.slots }
{
    if let Some(slot) = try_known(seat, known, word, search)? {
        return Ok(slot);
    }
    let next = known.next();
    if let Some(slot) = walk(seat, next, slots, word, search)? {
        known.find(slot);
        return Ok(slot);
    }
    if let Some(slot) = walk(seat, 0, next, word, search)? {
        known.find(slot);
        return Ok(slot);
    }
    Err(Refused::NoSlot)
}

/// The same search, which may lose as many exchanges as the limits allow, and tells with a refusal what it saw.
#[cold]
#[inline(never)]
fn search(
    seat: &mut SeatAtTable<'_>,
    known: &mut FreeSlotHints,
    limits: &Limits,
    word: u64,
) -> Result<u32, (Refused, Sightings)>
    requires slots { (known.old.slots ≡ slots_of seat.old) × (limits.now.slots ≡ slots_of seat.old) }
    requires ready { IsReady seat.old }
    requires one { alive word ≡ 1 }
    requires tries { 0 < limits.now.tries }
    ensures tried { MatchResult result
        (λ slot. Gains word slot seat.old seat.new)
        (λ e. ((e.0 ≡ Refused.NoSlot) × Misses (λ k. k < slots_of seat.old) seat.old seat.new)
        ⊎ ((e.0 ≡ Refused.Contended) × Loses seat.old seat.new)) }
    ensures seen { IfErr result (λ e. Explains Refused.NoSlot 0 (slots_of seat.old) limits.now.tries e.0 e.1) }
    ensures first { known.old.given_back.items ≡ [] → IfOk result (λ slot. (known.new.next ≡ slot + 1)
        × ComesFirst 0 (slots_of seat.old) known.old.next slot seat.old) }
    ensures slots { known.new.slots ≡ known.old.slots }
{
    seat.is_small();
    let slots = limits.slots as u32;
    let mut search = Search::new(slots, limits.tries);
    match try_all(seat, known, slots, word, &mut search) {
        Ok(slot) => Ok(slot),
        Err(refused) => Err((refused, search.into_seen())),
    }
}

/// A slot is found free by a walk over all of them, which claims none.
pub fn finds_free(seat: &mut SeatAtTable<'_>, slots: u32) -> bool
    requires slots { slots ≡ slots_of seat.old }
    requires place { HasPlace (epoch seat.old) }
    ensures same { IsUnmoved seat.old seat.new }
    ensures some { IsTrue result → 0 < slots }
    ensures found { IsTrue result → IsLone (epoch seat.old) → (slot : ℕ) × (slot < slots_of seat.old) × IsKnownFree seat.old slot }
    ensures missed { ¬ (IsTrue result) → Misses (λ k. k < slots_of seat.old) seat.old seat.new }
{
    for slot in 0..slots {
        if look(seat, slot) == FREE {
            return true;
        }
    }
    false
}

/// Claims a free slot by this word, of one owner: one that was given back, or else the first one of a walk over all slots, once round.
/// All fractions in it are out then.
///
/// `NoSlot` where none was found free; `Contended` where as many exchanges were lost as the limits allow: what was seen of that is told for clauses. An
/// exchange at once at the slot that was given back last isn't counted: others may have that slot for long.
#[inline(always)]
pub fn claim_free(
    seat: &mut SeatAtTable<'_>,
    known: &mut FreeSlotHints,
    limits: &Limits,
    word: u64,
) -> Result<u32, (Refused, Sightings)>
    requires slots { (known.old.slots ≡ slots_of seat.old) × (limits.now.slots ≡ slots_of seat.old) }
    requires ready { IsReady seat.old }
    requires one { alive word ≡ 1 }
    requires tries { 0 < limits.now.tries }
    ensures tried { MatchResult result
        (λ slot. Gains word slot seat.old seat.new)
        (λ e. ((e.0 ≡ Refused.NoSlot) × Misses (λ k. k < slots_of seat.old) seat.old seat.new)
        ⊎ ((e.0 ≡ Refused.Contended) × Loses seat.old seat.new)) }
    ensures seen { IfErr result (λ e. Explains Refused.NoSlot 0 (slots_of seat.old) limits.now.tries e.0 e.1) }
    ensures last { IsLone (epoch seat.old) → (rest : List ℕ) (slot : ℕ) → known.old.given_back.items ≡ rest ++ slot ∷ [] → IsKnownFree seat.old slot
        → (result ≡ Ok slot) × (known.new.given_back.items ≡ rest) × (known.new.next ≡ known.old.next) }
    ensures first { known.old.given_back.items ≡ [] → IfOk result (λ slot. (known.new.next ≡ slot + 1)
        × ComesFirst 0 (slots_of seat.old) known.old.next slot seat.old) }
    ensures slots { known.new.slots ≡ known.old.slots }
{
    if let Some(slot) = known.pop()
        && claim_at_once(seat, slot, word)
    {
        return Ok(slot);
    }
    search(seat, known, limits, word)
}
