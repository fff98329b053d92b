//! The counts of a place that has ended, which leave its seat and come to that of the close.
ghost use Rattle.std.specs.Prelude.{◌≡◌, ◌<◌};
ghost use Rattle.sdd_rights.specs.declared.views.CountsView.{CountsView};
ghost use Rattle.sdd_domain_invariant.specs.Counts.{over_by};
ghost use Rattle.sdd_domain_invariant.specs.Fractions.FractionSteps.{counts_seat, counting};
ghost use Rattle.sdd_atomics.specs.DomainTable as of_table;
ghost use Rattle.sdd_atomics.specs.SeatAtTable.{id_of};
ghost use Rattle.sdd_atomics.specs.Counts.{witness_of_counts};
ghost use Rattle.sdd_atomics.specs.DomainSeat.{view, Taught};

use crate::domain_table::{DomainSeat, DomainTable};
use crate::plays::{CutCounts, TakeCounts};
use crate::seat_at_table::SeatAtTable;
use sdd_witness::{Witness, part, rejoin};

/// Spends the seat of a place that has ended, but for its counts. No word is touched.
pub fn cut_counts(table: &DomainTable, mut seat: DomainSeat) -> Witness
    requires home { seat.table_id ≡ of_table.id_of table.now }
    requires over { 0 < over_by (view seat) }
    ensures home { result.table_id ≡ of_table.id_of table.now }
    ensures counts { result.views ≡ witness_of_counts (view seat).fractions.counts }
{
    part::<_, _, _, _, CutCounts>(&table.atomic.shared, &mut seat)
}

/// Takes the counts of another seat in. No word is touched.
pub fn take_counts(seat: &mut SeatAtTable<'_>, counts: Witness)
    requires counts { (counts.table_id ≡ id_of seat.old) × ((known : CountsView) × (counts.views ≡ witness_of_counts known)) }
    ensures { (known : CountsView) → counts.views ≡ witness_of_counts known
        → Taught (λ v _ w. w ≡ counting v (counts_seat known)) seat.old 0 seat.new }
{
    let SeatAtTable { table, seat } = seat;
    rejoin::<_, _, _, _, TakeCounts>(&table.atomic.shared, seat, counts);
}
