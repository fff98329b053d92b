ghost use Rattle.std.specs.Prelude.{IsSome, ◌≡◌, ◌≢◌, ℕ, ◌+◌, ◌<◌, ◌≤◌, ◌==◌, sum_by, List, [], ◌∷◌, ◌↔◌, map, length, IsTrue, IfOk, MatchOption, MatchResult, vec_capacity, Bool, false, if◌then◌else◌, Any, IsOk, Err, ◌⊎◌};
ghost use Rattle.std.specs.List.{list_all};
ghost use Rattle.sdd_participants.specs.Waiting.{due, aged};
ghost use Rattle.sdd_participants.specs.PlaceStates.{is_ended};
ghost use Rattle.sdd_participants.specs.Collecting.{is_kept_for, chosen_of, chosen_among, time_without, without};
ghost use Rattle.std.specs.Prelude.{◌++◌};
ghost use Rattle.sdd_participants.specs.EpochState.{EpochState, IsLive, KeepsPlaces, adopted, adopted_from, ended, newcomer, phase_at, rested, revived, waiting_count, with_place, place_at, IsCrowded, IsVacant, CanNest, registered, with_garbage, has_garbage, accelerated, awaiting, nested, rotated, settled, pace_of, passes, raised, scanned, closed, stirred_at, accelerated_at, awaiting_at, nested_at, rotated_at, settled_at, paced_at, finds_another, is_open, due_next};

use crate::bags::Bags;
use crate::participant::{CountdownState, Participant};
use crate::place_states::{PlaceState, PlaceStates};
use crate::standing::StandingLookup;
use crate::waiting::LimboEntry;
use sdd_core::Refused;
use std::alloc::{AllocError, Global};
use std::marker::Model;

/// The epoch of a world and its participants.
#[derive(Drop)]
pub struct EpochState {
    count: u64,
    marked: bool,
    places: Vec<Participant>,
    phases: PlaceStates,
    nesting: u32,
    room: usize,
    alloc: Global,
}

impl Model for EpochState {
    ghost use Rattle.sdd_participants.specs.EpochState.{EpochState, IsEpochState};
    ghost use Rattle.std.specs.Prelude.{vec_capacity};

    ghost Value = { EpochState };

    ghost view = { λ t. record {
      count = t.count;
      marked = t.marked;
      places = t.places.items;
      phases = t.phases.entries;
      participants = t.phases.room;
      nesting = t.nesting;
      room = t.room;
    } };

    ghost invariant = { λ t. IsEpochState t.places.items t.phases t.marked t.nesting t.room (vec_capacity t.places) };
}

impl EpochState {
    /// A time that starts at this count, without participants.
    pub fn new(
        alloc: Global,
        count: u64,
        participants: usize,
        nesting: u32,
        room: usize,
    ) -> Result<EpochState, AllocError>
        requires { 0 < nesting }
        ensures { IfOk result (λ t. t ≡
            record { count = count; marked = false; places = []; phases = []; participants = participants; nesting = nesting; room = room }) }
    {
        let places = Vec::with_capacity(alloc, participants)?;
        let phases = PlaceStates::new(alloc, participants)?;
        Ok(EpochState {
            count,
            marked: false,
            places,
            phases,
            nesting,
            room,
            alloc,
        })
    }

    /// Some place that isn't taken becomes a participant's. Where it was none before, its bags take memory.
    pub fn register(&mut self) -> Result<usize, Refused>
        ensures registered { MatchResult result (λ p. IsVacant self.old p × (self.new ≡ registered self.old p)) (λ _. self.new ≡ self.old) }
        ensures crowded { (result ≡ Err Refused.NoPlace) ↔ IsCrowded self.old }
        ensures no_memory { (result ≡ Err Refused.NoMemory) ⊎ (result ≡ Err Refused.NoPlace) ⊎ IsOk result }
    {
        if let Some(place) = self.phases.claim() {
            self.places[place].begin();
            return Ok(place);
        }
        if self.places.len() >= self.phases.room() {
            return Err(Refused::NoPlace);
        }
        let bags = Bags::with_room(self.alloc, self.room)?;
        Ok(self.add(bags))
    }

    /// One place more is a participant's.
    fn add(&mut self, bags: Bags) -> usize
        requires few { length self.old.places < self.old.participants }
        requires empty { bags ≡ record { waiting = []; room = self.old.room } }
        ensures { (result ≡ length self.old.places) × (self.new ≡ registered self.old result) }
    {
        let place = self.places.len();
        self.places.push_reserved(Participant::new(bags));
        self.phases.add();
        place
    }

    /// The participant has ended: what waits with it is left at its place.
    pub fn end(&mut self, place: usize)
        requires { IsLive self.old place }
        ensures { self.new ≡ ended self.old place }
    {
        self.phases.set(place, PlaceState::Ended);
        self.marked = true;
    }

    /// The place is a participant's from then on, with what waits there, also where one had ended.
    pub fn revive(&mut self, place: usize)
        requires { IsSome (phase_at self.old place) }
        ensures revived { self.new ≡ revived self.old place }
        ensures nests { 0 < self.new.nesting }
    {
        self.phases.set(place, PlaceState::Live);
    }

    /// The place has ended, and what it left was not adopted yet.
    fn is_ended(&self, place: usize) -> bool
        requires { place < length self.now.places }
        ensures { result ≡ is_ended (phase_at self.now place) }
    {
        self.phases.is_ended(place)
    }

    /// Some place that isn't free.
    pub fn some_taken(&self) -> Option<usize>
        ensures { MatchOption result
            ((p : ℕ) → phase_at self.now p ≡ None)
            (λ place. (place < length self.now.places) × IsSome (phase_at self.now place)) }
    {
        for place in 0..self.places.len() {
            if self.phases.is_taken(place) {
                return Some(place);
            }
        }
        None
    }

    pub fn count(&self) -> u64
        ensures { result ≡ self.now.count }
    {
        self.count
    }

    /// How many places there are so far.
    pub fn len(&self) -> usize
        ensures { result ≡ length self.now.places }
    {
        self.places.len()
    }

    /// A guard of a place is open.
    pub fn is_open(&self, place: usize) -> bool
        requires { place < length self.now.places }
        ensures { result ≡ is_open (place_at self.now place) }
    {
        self.places[place].guards > 0
    }

    /// One guard more is within the limit, as the first one always is.
    pub fn can_nest(&self, place: usize) -> bool
        requires { place < length self.now.places }
        ensures { IsTrue result ↔ CanNest self.now place }
    {
        let guards = self.places[place].guards;
        guards == 0 || guards < self.nesting
    }

    /// A guard of some place is open.
    pub fn is_any_open(&self) -> bool
        ensures { IsTrue result ↔ Any (λ p. IsTrue (is_open p)) self.now.places }
    {
        self.places.iter().any(|p| p.guards > 0)
    }

    pub fn has_garbage(&self, place: usize) -> bool
        requires { place < length self.now.places }
        ensures { result ≡ has_garbage (place_at self.now place) }
    {
        self.places[place].has_garbage()
    }

    pub fn set_has_garbage(&mut self, place: usize)
        requires { place < length self.old.places }
        ensures { self.new ≡ stirred_at self.old place }
    {
        self.places[place].set_has_garbage();
    }

    pub fn accelerate(&mut self, place: usize)
        requires { place < length self.old.places }
        ensures { self.new ≡ accelerated_at self.old place }
    {
        self.places[place].countdown = 0;
    }

    /// An item or a job waits with a place from now on.
    pub fn wait(&mut self, place: usize, what: LimboEntry)
        requires place { place < length self.old.places }
        requires room { length (place_at self.old place).bags.waiting < self.old.room }
        ensures { self.new ≡ awaiting_at self.old place what }
    {
        let participant = &mut self.places[place];
        participant.bags.push(what);
        participant.set_has_garbage();
    }

    /// One guard more of a place is open. Tells whether that is a change: an outermost opening that finds another count.
    pub fn open(&mut self, place: usize) -> bool
        requires place { place < length self.old.places }
        requires few { CanNest self.old place }
        ensures opened { self.new ≡ nested_at self.old place }
        ensures change { result ≡ (if is_open (place_at self.old place) then false else finds_another self.old place) }
    {
        let participant = &mut self.places[place];
        if participant.guards > 0 {
            participant.guards += 1;
            return false;
        }
        participant.guards = 1;
        participant.found != self.count
    }

    /// The last count that this place found isn't the count.
    pub fn finds_another(&self, place: usize) -> bool
        requires { place < length self.now.places }
        ensures { result ≡ finds_another self.now place }
    {
        self.places[place].found != self.count
    }

    /// A change: what has seen three comes out, into the empty bag that is handed in.
    pub fn rotate(&mut self, place: usize, bag: &mut Vec<LimboEntry>)
        requires place { place < length self.old.places }
        requires empty { bag.old.items ≡ [] }
        requires reserved { self.old.room ≤ vec_capacity bag.old }
        ensures rotated { self.new ≡ rotated_at self.old place }
        ensures taken { bag.new.items ≡ due_next (place_at self.old place) }
        ensures reserved { self.old.room ≤ vec_capacity bag.new }
        ensures count { length (place_at self.new place).bags.waiting + length bag.new.items ≡ length (place_at self.old place).bags.waiting }
    {
        let participant = &mut self.places[place];
        participant.found = self.count;
        participant.bags.rotate(bag);
    }

    /// What the next change of a place takes out.
    pub fn due(&self, place: usize) -> &[LimboEntry]
        requires { place < length self.now.places }
        ensures { result.now ≡ due_next (place_at self.now place) }
    {
        self.places[place].bags.due()
    }

    /// What waits for a collector, with whomever, comes out, into the empty bag that is handed in.
    pub fn take_for<S: StandingLookup>(
        &mut self,
        collector: u32,
        standings: &S,
        bag: &mut Vec<LimboEntry>,
    )
        requires empty { bag.old.items ≡ [] }
        requires reserved { sum_by waiting_count self.old.places ≤ vec_capacity bag.old }
        ensures left { self.new ≡ time_without (is_kept_for collector (S.standings standings.now)) self.old }
        ensures taken { bag.new.items ≡ chosen_among (is_kept_for collector (S.standings standings.now)) self.old.places }
        ensures reserved { vec_capacity bag.new ≡ vec_capacity bag.old }
        ensures count { sum_by waiting_count self.new.places + length bag.new.items ≡ sum_by waiting_count self.old.places }
    {
        for place in 0..self.places.len() {
            self.take_from(place, collector, standings, bag);
        }
    }

    /// What waits for a collector with a place comes out.
    fn take_from<S: StandingLookup>(
        &mut self,
        place: usize,
        collector: u32,
        standings: &S,
        bag: &mut Vec<LimboEntry>,
    )
        requires place { place < length self.old.places }
        requires room { length bag.old.items + waiting_count (place_at self.old place) ≤ vec_capacity bag.old }
        ensures left { self.new ≡ with_place self.old place (without (is_kept_for collector (S.standings standings.now)) (place_at self.old place)) }
        ensures taken { bag.new.items ≡ bag.old.items ++ chosen_of (is_kept_for collector (S.standings standings.now)) (place_at self.old place).bags.waiting }
        ensures reserved { vec_capacity bag.new ≡ vec_capacity bag.old }
    {
        self.places[place].bags.take_for(collector, standings, bag);
    }

    /// After a rotation and the drops.
    pub fn settle(&mut self, place: usize)
        requires { place < length self.old.places }
        ensures { self.new ≡ settled_at self.old place }
    {
        self.places[place].settle();
    }

    /// Nothing waits with a place.
    pub fn is_clear(&self, place: usize) -> bool
        requires { place < length self.now.places }
        ensures { IsTrue result ↔ ((place_at self.now place).bags.waiting ≡ []) }
    {
        self.places[place].bags.is_empty()
    }

    pub fn pace(&self, place: usize) -> CountdownState
        requires { place < length self.now.places }
        ensures { result ≡ pace_of (place_at self.now place) }
    {
        let participant = &self.places[place];
        CountdownState {
            found: participant.found,
            countdown: participant.countdown,
        }
    }

    pub fn set_pace(&mut self, place: usize, pace: CountdownState)
        requires { place < length self.old.places }
        ensures { self.new ≡ paced_at self.old place pace }
    {
        let participant = &mut self.places[place];
        participant.found = pace.found;
        participant.countdown = pace.countdown;
    }

    /// A scan at the count passes every place.
    fn is_passable(&self) -> bool
        ensures { result ≡ list_all (passes self.now.count) self.now.places }
    {
        let count = self.count;
        self.places.iter().all(|p| p.passes(count))
    }

    /// The end of a scan.
    fn raise(&mut self)
        ensures { self.new ≡ raised self.old }
    {
        if self.count < u64::MAX && self.is_passable() {
            self.count += 1;
        }
    }

    /// What the place of another left waits with this one, and that place is free.
    #[cold]
    #[inline(never)]
    fn adopt_from(&mut self, place: usize, from: usize)
        requires places { (place < length self.old.places) × (from < length self.old.places) × (place ≢ from) }
        requires ended { IsTrue (is_ended (phase_at self.old from)) }
        requires room { waiting_count (place_at self.old place) + waiting_count (place_at self.old from) ≤ self.old.room }
        ensures { self.new ≡ adopted_from self.old place from }
    {
        let mut left = std::mem::replace(&mut self.places[from].bags, Bags::empty(self.alloc));
        self.places[place].bags.adopt(&mut left);
        self.places[from].bags = left;
        self.phases.free(from);
    }

    /// All that was left so far waits with the place, and who left it has a free place.
    fn adopt(&mut self, place: usize)
        requires live { IsLive self.old place }
        requires room { sum_by waiting_count self.old.places ≤ self.old.room }
        ensures { self.new ≡ adopted self.old place }
    {
        for from in 0..self.places.len() {
            if self.is_ended(from) {
                self.adopt_from(place, from);
            }
        }
    }

    /// A scan of a place. Where the mark is not set, nobody has ended since all that was left was adopted.
    // A function of its own, so that the close of a guard stays short enough to be inlined.
    #[inline(never)]
    fn scan(&mut self, place: usize)
        requires live { IsLive self.old place }
        requires room { sum_by waiting_count self.old.places ≤ self.old.room }
        ensures { self.new ≡ scanned self.old place }
    {
        if self.places[place].found == self.count {
            if self.marked {
                self.adopt(place);
                self.marked = false;
            }
            self.raise();
        }
    }

    /// A guard of a place is closed; the last one at countdown 0 after a scan.
    pub fn close(&mut self, place: usize)
        requires live { IsLive self.old place }
        requires room { sum_by waiting_count self.old.places ≤ self.old.room }
        requires open { IsTrue (is_open (place_at self.old place)) }
        ensures closed { self.new ≡ closed self.old place }
        ensures kept { KeepsPlaces self.old self.new }
    {
        if self.places[place].guards > 1 {
            self.places[place].guards -= 1;
        } else {
            self.leave(place);
        }
    }

    fn leave(&mut self, place: usize)
        requires live { IsLive self.old place }
        requires room { sum_by waiting_count self.old.places ≤ self.old.room }
        requires open { (place_at self.old place).guards ≡ 1 }
        ensures { self.new ≡ closed self.old place }
    {
        if self.places[place].countdown == 0 {
            let marked = self.marked;
            self.scan(place);
            self.rest(place, marked);
        } else {
            self.rest(place, self.marked);
        }
    }

    /// The last guard of a place is closed; the ended mark is as it was found.
    fn rest(&mut self, place: usize, marked: bool)
        requires { place < length self.old.places }
        ensures { self.new ≡ with_place self.old place (rested marked (place_at self.old place)) }
    {
        self.places[place].leave(marked);
    }
}
