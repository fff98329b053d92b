//! What an opening took out of the bags.
ghost use Rattle.std.specs.Prelude.{◌≡◌, ◌≤◌, List, [], ◌∷◌, length, MatchOption, IfOk};
ghost use Rattle.sdd_participants.specs.declared.waiting.LimboEntry.{LimboEntry as Entry};
ghost use Rattle.sdd_domain_steps.specs.WaitingItems.{items_in};
ghost use Rattle.sdd_participants.specs.Waiting.{aged, due, left};
ghost use Rattle.sdd_participants.specs.Collecting.{is_kept_for, chosen_of, rest_of};

use sdd_participants::{Bags, LimboEntry, StandingLookup};
use std::alloc::{AllocError, Global};
use std::marker::Model;

/// What is due, one after another: the oldest first. It is gone through once.
#[derive(Drop)]
pub struct DueItems {
    bag: Vec<LimboEntry>,
    /// How many of the bag were given out.
    taken: usize,
}

impl Model for DueItems {
    ghost use Rattle.std.specs.Prelude.{◌≤◌, drop, length, vec_capacity};
    ghost use Rattle.sdd_domain_steps.specs.DueItems.{Pending};

    ghost Value = { Pending };

    ghost view = { λ d. record { items = drop d.taken d.bag.items; room = vec_capacity d.bag } };

    ghost invariant = { λ d. d.taken ≤ length d.bag.items };
}

/// How many of these are items.
pub fn count_items(due: &[LimboEntry]) -> usize
    ensures { result ≡ items_in due.now }
{
    due.iter()
        .filter(|what| matches!(what, LimboEntry::Item(_)))
        .count()
}

impl DueItems {
    /// Nothing, with room for so much.
    pub fn with_room(alloc: Global, room: usize) -> Result<DueItems, AllocError>
        ensures none { IfOk result (λ made. made.items ≡ []) }
        ensures room { IfOk result (λ made. room ≤ made.room) }
    {
        let bag = Vec::with_capacity(alloc, room)?;
        Ok(DueItems { bag, taken: 0 })
    }

    /// The bags rotate, and what is due comes out of them.
    pub fn rotate(&mut self, bags: &mut Bags)
        requires none { self.old.items ≡ [] }
        requires room { bags.old.room ≤ self.old.room }
        ensures taken { self.new.items ≡ due (aged bags.old.waiting) }
        ensures kept { bags.new ≡ record bags.old { waiting = left (aged bags.old.waiting) } }
        ensures room { bags.old.room ≤ self.new.room }
    {
        self.bag.clear();
        self.taken = 0;
        bags.rotate(&mut self.bag);
    }

    /// What waits for a collector comes out of the bags, the oldest first.
    pub fn take_for<S: StandingLookup>(&mut self, bags: &mut Bags, collector: u32, standings: &S)
        requires none { self.old.items ≡ [] }
        requires room { length bags.old.waiting ≤ self.old.room }
        ensures taken { self.new.items ≡ chosen_of (is_kept_for collector (S.standings standings.now)) bags.old.waiting }
        ensures kept { bags.new ≡ record bags.old { waiting = rest_of (is_kept_for collector (S.standings standings.now)) bags.old.waiting } }
        ensures room { self.new.room ≡ self.old.room }
    {
        self.bag.clear();
        self.taken = 0;
        bags.take_for(collector, standings, &mut self.bag);
    }

    /// How many items of it there are.
    pub fn items(&self) -> usize
        ensures { result ≡ items_in self.now.items }
    {
        count_items(&self.bag[self.taken..])
    }

    /// The next of it, which stays.
    #[inline]
    pub fn first(&self) -> Option<LimboEntry>
        ensures { MatchOption result (self.now.items ≡ []) (λ what. (rest : List Entry) × (self.now.items ≡ what ∷ rest)) }
    {
        self.bag.get(self.taken).copied()
    }

    /// The next of it.
    #[inline]
    pub fn next(&mut self) -> Option<LimboEntry>
        ensures next { MatchOption result ((self.old.items ≡ []) × (self.new ≡ self.old)) (λ what. self.old.items ≡ what ∷ self.new.items) }
        ensures room { self.new.room ≡ self.old.room }
    {
        if self.taken < self.bag.len() {
            let what = self.bag[self.taken];
            self.taken += 1;
            Some(what)
        } else {
            None
        }
    }
}
