//! A search for a free slot, place of a job, or cell: how often it may lose an exchange, and what it saw.
ghost use Rattle.std.specs.Prelude.{◌≡◌, ◌-◌, ◌<◌, ◌≤◌, [], true, false, None, MatchOption, MatchResult, length, replicate};
ghost use Rattle.sdd_rights.specs.Views.{no_rights};
ghost use Rattle.sdd_domain_invariant.specs.Codes.{alive, held_slots};
ghost use Rattle.sdd_rights.specs.Owner.{witness_of_cell};
ghost use Rattle.sdd_atomics.specs.Cells.{cells_of, FitsCell};
ghost use Rattle.sdd_atomics.specs.SeatAtTable.{id_of, slots_of, most_waiting_of, IsReady};
ghost use Rattle.sdd_atomics.specs.DomainSeat.{view, slots};
ghost use Rattle.sdd_domain_steps.specs.Cells.{Claims, MissesCells};
ghost use Rattle.sdd_domain_steps.specs.Claims.{Defers, Gains, Misses, Loses};
ghost use Rattle.sdd_domain_steps.specs.Sightings.{IsMarked, IsOver, SearchesOn};

use crate::cells;
use crate::sightings::Sightings;
use sdd_atomics::SeatAtTable;
use sdd_atomics::steps::cells::{FREE_CELL, look_in};
use sdd_atomics::steps::jobs::{defer, look_at_place};
use sdd_atomics::steps::slots::{FREE, claim, look};
use sdd_core::Refused;
use sdd_rights::views::CellKind;
use sdd_witness::Witness;
use std::marker::Model;

/// A search, which ends once it has lost as many exchanges as it may.
#[derive(Drop)]
pub struct Search {
    left: u64,
    seen: Sightings,
}

impl Model for Search {
    ghost use Rattle.std.specs.Prelude.{ℕ, ◌<◌, ◌≤◌, length};
    ghost use Rattle.sdd_domain_steps.specs.Sightings.{Searching, IsMarked};

    ghost Value = { Searching };

    ghost view = { λ s. record { left = s.left; seen = s.seen } };

    ghost invariant = { λ s. (s.left ≤ length s.seen.lost) × ((k : ℕ) → s.left ≤ k → k < length s.seen.lost → IsMarked s.seen.lost k) };
}

impl Search {
    /// One among numbers below this one, which may lose so many exchanges.
    pub fn new(numbers: u32, tries: u64) -> Search
        ensures left { result.left ≡ tries }
        ensures seen { result.seen ≡ record { taken = replicate numbers None; lost = replicate tries None } }
    {
        Search {
            left: tries,
            seen: Sightings::new(numbers as usize, tries),
        }
    }

    /// What it saw.
    pub fn into_seen(self) -> Sightings
        ensures { result ≡ self.seen }
    {
        let Search { left: _, seen } = self;
        seen
    }

    /// A number was found taken.
    #[inline]
    fn note(&mut self, number: u32)
        requires inside { number < length self.old.seen.taken }
        ensures on { SearchesOn self.old self.new }
        ensures left { self.new.left ≡ self.old.left }
        ensures marked { IsMarked self.new.seen.taken number }
    {
        self.seen.note(number as usize);
    }

    /// An exchange was lost. `Contended` where it was the last that might be.
    #[inline]
    fn lose(&mut self) -> Result<(), Refused>
        requires left { 0 < self.old.left }
        ensures on { SearchesOn self.old self.new }
        ensures left { self.new.left ≡ self.old.left - 1 }
        ensures over { MatchResult result (λ _. 0 < self.new.left) (λ e. (e ≡ Refused.Contended) × IsOver self.new) }
    {
        self.left -= 1;
        self.seen.lose(self.left);
        if self.left == 0 {
            return Err(Refused::Contended);
        }
        Ok(())
    }

    /// One try at a slot, which is claimed by this word, of one owner, if it is found free.
    ///
    /// `Contended` where the last exchange was lost that might be.
    pub fn slot(
        &mut self,
        seat: &mut SeatAtTable<'_>,
        slot: u32,
        word: u64,
    ) -> Result<bool, Refused>
        requires inside { slot < slots_of seat.old }
        requires ready { IsReady seat.old }
        requires one { alive word ≡ 1 }
        requires left { 0 < self.old.left }
        requires number { slot < length self.old.seen.taken }
        ensures tried { MatchResult result
            (λ won. (won ≡ true → Gains word slot seat.old seat.new) × (won ≡ false → Misses (λ k. k ≡ slot) seat.old seat.new))
            (λ e. (e ≡ Refused.Contended) × Loses seat.old seat.new) }
        ensures on { SearchesOn self.old self.new }
        ensures seen { MatchResult result
            (λ won. (0 < self.new.left) × (won ≡ false → IsMarked self.new.seen.taken slot))
            (λ _. IsOver self.new) }
    {
        if look(seat, slot) != FREE {
            self.note(slot);
            return Ok(false);
        }
        if claim(seat, slot, word) == FREE {
            return Ok(true);
        }
        self.note(slot);
        self.lose()?;
        Ok(false)
    }

    /// One try at a place of a job, which is claimed for one if it is found free. A place has the number behind those of the slots.
    ///
    /// `Contended` where the last exchange was lost that might be.
    pub fn place(&mut self, seat: &mut SeatAtTable<'_>, place: u32) -> Result<bool, Refused>
        requires inside { (slots_of seat.old ≤ place) × (place < most_waiting_of seat.old) }
        requires ready { IsReady seat.old }
        requires left { 0 < self.old.left }
        requires number { place < length self.old.seen.taken }
        ensures tried { MatchResult result
            (λ won. (won ≡ true → Defers place seat.old seat.new) × (won ≡ false → Misses (λ k. k ≡ place) seat.old seat.new))
            (λ e. (e ≡ Refused.Contended) × Loses seat.old seat.new) }
        ensures on { SearchesOn self.old self.new }
        ensures seen { MatchResult result
            (λ won. (0 < self.new.left) × (won ≡ false → IsMarked self.new.seen.taken place))
            (λ _. IsOver self.new) }
    {
        if look_at_place(seat, place) != FREE {
            self.note(place);
            return Ok(false);
        }
        if defer(seat, place) == FREE {
            return Ok(true);
        }
        self.note(place);
        self.lose()?;
        Ok(false)
    }

    /// One try at a cell of this kind, which is claimed by this word if it is found free: the right to it is a seat of its own, and the owner that the
    /// participant had is in the cell, if it had one.
    ///
    /// `Contended` where the last exchange was lost that might be.
    pub fn cell(
        &mut self,
        seat: &mut SeatAtTable<'_>,
        cell: u32,
        word: u64,
        kind: CellKind,
    ) -> Result<Option<Witness>, Refused>
        requires inside { cell < cells_of seat.old }
        requires ready { IsReady seat.old }
        requires own { ((slots seat.old).owns ≡ held_slots word) × ((slots seat.old).holds ≡ None) × ((slots seat.old).drawn ≡ []) }
        requires fits { FitsCell kind word (view seat.old).fractions.owns }
        requires rights { (view seat.old).cells ≡ no_rights }
        requires word { 0 < word }
        requires left { 0 < self.old.left }
        requires number { cell < length self.old.seen.taken }
        ensures tried { MatchResult result
            (λ won. MatchOption won (MissesCells (λ k. k ≡ cell) seat.old seat.new) (λ right. Claims word cell seat.old seat.new
            × (right.table_id ≡ id_of seat.old) × (right.views ≡ witness_of_cell cell kind)))
            (λ e. (e ≡ Refused.Contended) × Loses seat.old seat.new) }
        ensures on { SearchesOn self.old self.new }
        ensures seen { MatchResult result
            (λ won. (0 < self.new.left) × (won ≡ None → IsMarked self.new.seen.taken cell))
            (λ _. IsOver self.new) }
    {
        if look_in(seat, cell) != FREE_CELL {
            self.note(cell);
            return Ok(None);
        }
        if let Some(right) = cells::claims::claim(seat, cell, word, kind) {
            return Ok(Some(right));
        }
        self.note(cell);
        self.lose()?;
        Ok(None)
    }
}
