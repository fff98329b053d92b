ghost use Rattle.std.specs.Prelude.{◌≡◌, ◌<◌, [], ◌∷◌, ◌++◌, IfOk, IsSome, is_some, MatchOption, Some, length};
ghost use Rattle.sdd_participants.specs.Slab.{entry_at, with_entry, without_entry, IsEmptyAt, IsFull};
ghost use Rattle.sdd_participants.specs.PlaceStates.{is_ended};

use std::alloc::{AllocError, Global};
use std::marker::Model;

/// What a place is that isn't free.
#[derive(Clone, Copy, Debug, PartialEq, Eq)]
pub enum PlaceState {
    /// A participant's.
    Live,
    /// Ended, until another participant has adopted what it left.
    Ended,
}

/// Which places are free, live and ended.
///
/// A free place is found at once, by a list of them. Memory is taken when the phases are made, and never again.
#[derive(Drop)]
pub struct PlaceStates {
    entries: Vec<Option<PlaceState>>,
    vacant: Vec<usize>,
    room: usize,
}

impl Model for PlaceStates {
    ghost use Rattle.sdd_participants.specs.PlaceStates.{PlaceStates, IsReserved};
    ghost use Rattle.std.specs.Prelude.{vec_capacity};

    ghost Value = { PlaceStates };

    ghost view = { λ p. record { entries = p.entries.items; room = p.room } };

    ghost invariant = { λ p. IsReserved p.entries.items p.vacant.items p.room (vec_capacity p.entries) (vec_capacity p.vacant) };
}

impl PlaceStates {
    /// No place yet, and as many as this may be added.
    pub fn new(alloc: Global, room: usize) -> Result<PlaceStates, AllocError>
        ensures { IfOk result (λ p. p ≡ record { entries = []; room = room }) }
    {
        let entries = Vec::with_capacity(alloc, room)?;
        let vacant = Vec::with_capacity(alloc, room)?;
        Ok(PlaceStates {
            entries,
            vacant,
            room,
        })
    }

    /// How many places there may be.
    pub fn room(&self) -> usize
        ensures { result ≡ self.now.room }
    {
        self.room
    }

    /// Some free place, if one is there, is live.
    pub fn claim(&mut self) -> Option<usize>
        ensures claimed { MatchOption result
            (IsFull self.old.entries × (self.new ≡ self.old))
            (λ k. IsEmptyAt self.old.entries k × (self.new ≡ record self.old { entries = with_entry self.old.entries k PlaceState.Live })) }
    {
        let place = self.vacant.pop()?;
        self.entries[place] = Some(PlaceState::Live);
        Some(place)
    }

    /// One place more, which is live.
    pub fn add(&mut self)
        requires { length self.old.entries < self.old.room }
        ensures { self.new ≡ record self.old { entries = self.old.entries ++ Some PlaceState.Live ∷ [] } }
    {
        self.entries.push_reserved(Some(PlaceState::Live));
    }

    /// The place is live or has ended from now on.
    pub fn set(&mut self, place: usize, phase: PlaceState)
        requires { IsSome (entry_at self.old.entries place) }
        ensures { self.new ≡ record self.old { entries = with_entry self.old.entries place phase } }
    {
        self.entries[place] = Some(phase);
    }

    /// The place is free.
    pub fn free(&mut self, place: usize)
        requires { IsSome (entry_at self.old.entries place) }
        ensures { self.new ≡ record self.old { entries = without_entry self.old.entries place } }
    {
        self.entries[place] = None;
        self.vacant.push_reserved(place);
    }

    /// The place isn't free.
    pub fn is_taken(&self, place: usize) -> bool
        requires { place < length self.now.entries }
        ensures { result ≡ is_some (entry_at self.now.entries place) }
    {
        self.entries[place].is_some()
    }

    /// The place has ended, and was not adopted yet.
    pub fn is_ended(&self, place: usize) -> bool
        requires { place < length self.now.entries }
        ensures { result ≡ is_ended (entry_at self.now.entries place) }
    {
        matches!(self.entries[place], Some(PlaceState::Ended))
    }
}
