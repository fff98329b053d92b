ghost use Rattle.std.specs.Prelude.{◌≡◌, ℕ, ◌+◌, ◌<◌, ◌≤◌, List, [], ◌∷◌, ◌++◌, length, IfOk, vec_capacity, map, IsTrue, ◌↔◌};
ghost use Rattle.sdd_participants.specs.Waiting.{anew, aged, due, left, fresh};
ghost use Rattle.sdd_participants.specs.Bags.{Bags};
ghost use Rattle.sdd_participants.specs.Collecting.{is_kept_for, chosen_of, rest_of};
ghost use Rattle.std.specs.Prelude.{filter, not};

use crate::standing::{Standing, StandingLookup};
use crate::waiting::LimboEntry;
use std::alloc::{AllocError, Global};
use std::marker::Model;

/// What waits with a participant, in three bags: current, previous and next.
///
/// Memory is taken when the bags are made, and never again.
#[derive(Drop)]
pub struct Bags {
    current: Vec<LimboEntry>,
    previous: Vec<LimboEntry>,
    next: Vec<LimboEntry>,
    room: usize,
}

impl Model for Bags {
    ghost use Rattle.sdd_participants.specs.Bags.{Bags, waiting_of};
    ghost use Rattle.std.specs.Prelude.{◌≤◌, vec_capacity};

    ghost Value = { Bags };

    ghost view = { λ b. record { waiting = waiting_of b.next.items b.previous.items b.current.items; room = b.room } };

    ghost invariant = { λ b. (b.room ≤ vec_capacity b.current) × (b.room ≤ vec_capacity b.previous) × (b.room ≤ vec_capacity b.next) };
}

impl Bags {
    /// Bags with no room.
    pub fn empty(alloc: Global) -> Bags
        ensures { result ≡ record { waiting = []; room = 0 } }
    {
        Bags {
            current: Vec::new(alloc),
            previous: Vec::new(alloc),
            next: Vec::new(alloc),
            room: 0,
        }
    }

    /// Bags in which that much can wait.
    pub fn with_room(alloc: Global, room: usize) -> Result<Bags, AllocError>
        ensures { IfOk result (λ b. b ≡ record { waiting = []; room = room }) }
    {
        let current = Vec::with_capacity(alloc, room)?;
        let previous = Vec::with_capacity(alloc, room)?;
        let next = Vec::with_capacity(alloc, room)?;
        Ok(Bags {
            current,
            previous,
            next,
            room,
        })
    }

    /// Puts something into the current bag.
    pub fn push(&mut self, what: LimboEntry)
        requires room { length self.old.waiting < self.old.room }
        ensures { self.new ≡ record self.old { waiting = self.old.waiting ++ fresh what ∷ [] } }
    {
        self.current.push_reserved(what);
    }

    /// Nothing waits.
    pub fn is_empty(&self) -> bool
        ensures { IsTrue result ↔ (self.now.waiting ≡ []) }
    {
        self.current.is_empty() && self.previous.is_empty() && self.next.is_empty()
    }

    /// What the next rotation gives out.
    pub fn due(&self) -> &[LimboEntry]
        ensures { result.now ≡ due (aged self.now.waiting) }
    {
        self.next.as_slice()
    }

    /// Rotates: an empty bag is handed in to become the current one, and what is due comes back in its place.
    pub fn rotate(&mut self, bag: &mut Vec<LimboEntry>)
        requires empty { bag.old.items ≡ [] }
        requires room { self.old.room ≤ vec_capacity bag.old }
        ensures kept { self.new ≡ record self.old { waiting = left (aged self.old.waiting) } }
        ensures taken { bag.new.items ≡ due (aged self.old.waiting) }
        ensures room { self.old.room ≤ vec_capacity bag.new }
        ensures count { length self.new.waiting + length bag.new.items ≡ length self.old.waiting }
    {
        std::mem::swap(bag, &mut self.current);
        std::mem::swap(bag, &mut self.previous);
        std::mem::swap(bag, &mut self.next);
    }

    /// Nothing waits any more.
    pub fn clear(&mut self)
        ensures { self.new ≡ record self.old { waiting = [] } }
    {
        self.current.clear();
        self.previous.clear();
        self.next.clear();
    }

    /// What waits in other bags waits in the current one of these from now on, the oldest first, and nothing waits there any more.
    pub fn adopt(&mut self, left: &mut Bags)
        requires { length self.old.waiting + length left.old.waiting ≤ self.old.room }
        ensures adopted { self.new ≡ record self.old { waiting = self.old.waiting ++ map anew left.old.waiting } }
        ensures left { left.new ≡ record left.old { waiting = [] } }
    {
        pour(&mut left.next, &mut self.current);
        pour(&mut left.previous, &mut self.current);
        pour(&mut left.current, &mut self.current);
    }

    /// What waits for a collector comes out, into the bag that is handed in, the oldest first.
    pub fn take_for<S: StandingLookup>(
        &mut self,
        collector: u32,
        standings: &S,
        bag: &mut Vec<LimboEntry>,
    )
        requires { length bag.old.items + length self.old.waiting ≤ vec_capacity bag.old }
        ensures left { self.new ≡ record self.old { waiting = rest_of (is_kept_for collector (S.standings standings.now)) self.old.waiting } }
        ensures taken { bag.new.items ≡ bag.old.items ++ chosen_of (is_kept_for collector (S.standings standings.now)) self.old.waiting }
        ensures reserved { vec_capacity bag.new ≡ vec_capacity bag.old }
    {
        pick(&mut self.next, collector, standings, bag);
        pick(&mut self.previous, collector, standings, bag);
        pick(&mut self.current, collector, standings, bag);
    }
}

/// It is an item that waits for the collector.
fn is_kept_for<S: StandingLookup>(what: LimboEntry, collector: u32, standings: &S) -> bool
    ensures { result ≡ is_kept_for collector (S.standings standings.now) what }
{
    match what {
        LimboEntry::Item(slot) => match standings.stands(slot) {
            Some(Standing::Private(number)) => number == collector,
            _ => false,
        },
        LimboEntry::Job(_) => false,
    }
}

/// Moves what waits for a collector from a bag to another one.
fn pick<S: StandingLookup>(
    from: &mut Vec<LimboEntry>,
    collector: u32,
    standings: &S,
    to: &mut Vec<LimboEntry>,
)
    requires { length to.old.items + length from.old.items ≤ vec_capacity to.old }
    ensures picked { to.new.items ≡ to.old.items ++ filter (is_kept_for collector (S.standings standings.now)) from.old.items }
    ensures left { from.new.items ≡ filter (λ what. not (is_kept_for collector (S.standings standings.now) what)) from.old.items }
    ensures reserved { (vec_capacity to.new ≡ vec_capacity to.old) × (vec_capacity from.new ≡ vec_capacity from.old) }
{
    copy_kept(from.as_slice(), collector, standings, to);
    from.retain(|what| !is_kept_for(*what, collector, standings));
}

/// Adds what waits for a collector to a bag.
fn copy_kept<S: StandingLookup>(
    from: &[LimboEntry],
    collector: u32,
    standings: &S,
    to: &mut Vec<LimboEntry>,
)
    requires { length to.old.items + length from.now ≤ vec_capacity to.old }
    ensures copied { to.new.items ≡ to.old.items ++ filter (is_kept_for collector (S.standings standings.now)) from.now }
    ensures reserved { vec_capacity to.new ≡ vec_capacity to.old }
{
    for what in from {
        if is_kept_for(*what, collector, standings) {
            to.push_reserved(*what);
        }
    }
}

/// Moves what is in a bag to another one.
fn pour(from: &mut Vec<LimboEntry>, to: &mut Vec<LimboEntry>)
    requires { length to.old.items + length from.old.items ≤ vec_capacity to.old }
    ensures poured { to.new.items ≡ to.old.items ++ from.old.items }
    ensures emptied { from.new.items ≡ [] }
    ensures reserved { (vec_capacity to.new ≡ vec_capacity to.old) × (vec_capacity from.new ≡ vec_capacity from.old) }
{
    for what in from.as_slice() {
        to.push_reserved(*what);
    }
    from.clear();
}
