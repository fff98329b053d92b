//! What is left of a participant with which nothing waited.
ghost use Rattle.std.specs.Prelude.{◌≡◌, [], ◌∷◌, false};
ghost use Rattle.sdd_rights.specs.Right.{home_of_table};
ghost use Rattle.sdd_atomics.specs.DomainTable.{id_of};
ghost use Rattle.sdd_atomics.specs.DomainSeat.{view};
ghost use Rattle.sdd_domain_steps.specs.Receipt.{HasLeft, IsTallied};

use sdd_atomics::steps::epoch::counts::cut_counts;
use sdd_atomics::{DomainSeat, DomainTable};
use sdd_participants::Tally;
use sdd_witness::Witness;
use std::marker::Model;

/// The seat of a participant that has ended, which knows what it made and reclaimed.
#[derive(Drop)]
pub struct EndedCounts {
    seat: DomainSeat,
    /// How many slots its domain has.
    slots: u64,
    tally: Tally,
}

impl Model for EndedCounts {
    ghost use Rattle.std.specs.Prelude.{false};
    ghost use Rattle.sdd_rights.specs.Right.{home_of_table};
    ghost use Rattle.sdd_domain_steps.specs.Receipt.{Receipt, IsTallied};

    ghost Value = { Receipt };

    ghost view = { λ e. record { home = home_of_table e.seat.table_id e.seat.me.0.fractions.gamma e.slots; tally = e.tally; waits = false } };

    ghost invariant = { λ e. IsTallied 1 e.tally e.seat.me.0.fractions.counts };
}

impl EndedCounts {
    /// What a seat knows whose place has ended.
    pub fn new(seat: DomainSeat, slots: u64, tally: Tally) -> EndedCounts
        requires { IsTallied 1 tally (view seat).fractions.counts }
        ensures { result ≡ record { home = home_of_table seat.table_id (view seat).fractions.gamma slots; tally = tally; waits = false } }
    {
        EndedCounts { seat, slots, tally }
    }

    /// How many items its participant made, reclaimed and dropped in place.
    pub fn tally(&self) -> Tally
        ensures { result ≡ self.now.tally }
    {
        self.tally
    }

    /// The counts behind the tally.
    pub fn into_counts(self, table: &DomainTable) -> Witness
        requires { self.home.tables ≡ id_of table.now ∷ [] }
        ensures home { result.table_id ≡ id_of table.now }
        ensures counts { HasLeft result.views self.tally }
    {
        let EndedCounts {
            seat,
            slots: _,
            tally: _,
        } = self;
        cut_counts(table, seat)
    }
}
