//! Names of participants and guards.
ghost use Rattle.std.specs.Prelude.{◌≡◌, ◌≢◌, ◌<◌, ℕ, IfSome, None, Some, MatchOption, length, map, slice_index_or, if◌then◌else◌};
ghost use Rattle.sdd_world.specs.Place.{index_of};
ghost use Rattle.sdd_interpreter.specs.declared.participants.NamedGuard.{NamedGuard as Held};
ghost use Rattle.sdd_interpreter.specs.Environment.{open_since, guarding, opened_since, AreOpen};

use crate::name_table::NameTable;
use sdd_script_text::{GuardName, PlaceName};
use sdd_space::Guard;
use sdd_world::Place;

/// A participant of a script.
#[derive(Drop)]
pub struct NamedParticipant {
    pub place: Place,
    /// The line of its last outermost opening.
    pub since: u64,
}

/// A guard of a script.
pub struct NamedGuard {
    pub guard: Guard,
    /// The place of the participant whose it is.
    pub place: usize,
    /// The name of the participant whose it is.
    pub participant: u64,
    /// The line of its opening.
    pub since: u64,
}

/// The participant of this name, and its guard of this name, if both are there.
pub fn under<'p, 'g>(
    places: &'p NameTable<NamedParticipant>,
    guards: &'g NameTable<NamedGuard>,
    name: PlaceName,
    guard: GuardName,
) -> Option<(&'p NamedParticipant, &'g NamedGuard)>
    ensures valid { MatchOption result
        (¬ (AreOpen (map open_since places.now.entries.items) (map guarding guards.now.entries.items) name.0 guard.0))
        (λ _. AreOpen (map open_since places.now.entries.items) (map guarding guards.now.entries.items) name.0 guard.0) }
    ensures found { IfSome result (λ found. (open_since (Some found.0.now) ≡ slice_index_or (map open_since places.now.entries.items) name.0 None)
        × (slice_index_or guards.now.entries.items guard.0 None ≡ Some found.1.now) × (found.1.now.place ≡ index_of found.0.now.place)) }
{
    let participant = places.get(name.0)?;
    let held = guards.get(guard.0)?;
    if held.place == participant.place.index() {
        Some((participant, held))
    } else {
        None
    }
}

/// A guard of the participant at a place, if one has a name.
fn guard_of(guards: &NameTable<NamedGuard>, place: usize) -> Option<&NamedGuard>
    ensures { MatchOption result
        ((g : ℕ) (held : Held) → slice_index_or guards.now.entries.items g None ≡ Some held → held.place ≢ place)
        (λ held. (held.now.place ≡ place) × ((g : ℕ) × (slice_index_or guards.now.entries.items g None ≡ Some held.now))) }
{
    for entry in guards.entries.as_slice() {
        if let Some(held) = entry
            && held.place == place
        {
            return Some(held);
        }
    }
    None
}

/// The participant of this name, and some guard of it, if both are there.
pub fn under_any<'p, 'g>(
    places: &'p NameTable<NamedParticipant>,
    guards: &'g NameTable<NamedGuard>,
    name: PlaceName,
) -> Option<(&'p NamedParticipant, &'g NamedGuard)>
    ensures { MatchOption result
        ((g : ℕ) → ¬ (AreOpen (map open_since places.now.entries.items) (map guarding guards.now.entries.items) name.0 g))
        (λ found. (open_since (Some found.0.now) ≡ slice_index_or (map open_since places.now.entries.items) name.0 None)
        × (found.1.now.place ≡ index_of found.0.now.place) × ((g : ℕ) × (slice_index_or guards.now.entries.items g None ≡ Some found.1.now)
        × AreOpen (map open_since places.now.entries.items) (map guarding guards.now.entries.items) name.0 g)) }
{
    let participant = places.get(name.0)?;
    let held = guard_of(guards, participant.place.index())?;
    Some((participant, held))
}

/// An opening that isn't nested is the participant's last outermost one, in this line.
pub fn note_opening(
    places: &mut NameTable<NamedParticipant>,
    name: u64,
    since: u64,
    is_nested: bool,
)
    requires { name < length places.old.entries.items }
    ensures { map open_since places.new.entries.items
        ≡ (if is_nested then map open_since places.old.entries.items else opened_since (map open_since places.old.entries.items) name since) }
{
    if is_nested {
        return;
    }
    if let Some(participant) = &mut places.entries[name as usize] {
        participant.since = since;
    }
}
