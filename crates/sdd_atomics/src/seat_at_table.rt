//! A seat at its table: what a participant steps with.
ghost use Rattle.std.specs.Prelude.{◌≡◌, ◌≤◌};
ghost use Rattle.sdd_domain_invariant.specs.Words as words;
ghost use Rattle.sdd_atomics.specs.Sizes.{AreSmall};
ghost use Rattle.sdd_atomics.specs.SeatAtTable.{places_of, sizes_of};

use crate::domain_table::{DomainSeat, DomainTable};
use std::marker::Model;

/// A seat at the table that it is one of, of which it knows how many of each there are, and of which ghost map the values' places are.
///
/// In clauses it is the seat.
#[derive(Drop)]
pub struct SeatAtTable<'d> {
    pub table: &'d DomainTable,
    pub seat: DomainSeat,
}

impl<'d> Model for SeatAtTable<'d> {
    ghost use Rattle.atomic_table.specs.declared.shared.Seat.{Seat};
    ghost use Rattle.atomic_table.specs.contracts.shared.Seat as seats;
    ghost use Rattle.sdd_shared_values.specs.declared.value_fraction.ValueFraction.{ValueFraction};
    ghost use Rattle.sdd_shared_values.specs.contracts.value_fraction.ValueFraction as fractions;
    ghost use Rattle.sdd_rights.specs.declared.views.View.{View};
    ghost use Rattle.sdd_rights.specs.contracts.views.View as views;
    ghost use Rattle.sdd_atomics.specs.TableFacts.{facts_of};
    ghost use Rattle.sdd_atomics.specs.SeatAtTable.{SitsAt};

    ghost Value = { Seat ValueFraction View };

    ghost coded = { (seats.the_row fractions.the_row views.the_row).coded };

    ghost view = { λ s. s.seat };

    ghost invariant = { λ s. SitsAt (facts_of s.table.now) s.seat };
}

impl SeatAtTable<'_> {
    /// How many places its table has.
    #[inline]
    pub fn places(&self) -> usize
        ensures places { result ≡ places_of self.now }
        ensures few { result ≤ 1024 }
    {
        self.table.places()
    }

    /// Where the state of the first place is. Those of the others come behind it, a line apart.
    #[inline]
    pub fn first_state(&self) -> usize
        ensures { result ≡ words.state_word (sizes_of self.now) 0 }
    {
        self.table.first_state()
    }

    /// A law, which does nothing when the program runs: how many of each its table has is within the ranges of a domain's limits.
    #[inline]
    pub fn is_small(&self)
        ensures { AreSmall (sizes_of self.now) }
    {
        let _table = self.table;
    }

    /// The seat alone, as it leaves its table.
    #[inline]
    pub fn into_seat(self) -> DomainSeat
        ensures { result ≡ self.entry }
    {
        self.seat
    }
}
