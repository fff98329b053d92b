//! The close of a collector begins where no guard is open at any place: none sees what waits for it then, nor will.
ghost use Rattle.std.specs.Prelude.{◌≡◌, ◌<◌, None, MatchResult};
ghost use Rattle.sdd_rights.specs.Views.{no_rights};
ghost use Rattle.sdd_rights.specs.declared.views.CellKind.TheVariants.{Raw, Collector};
ghost use Rattle.sdd_domain_invariant.specs.Epoch.{HasPlace, IsLone, IsOpen};
ghost use Rattle.sdd_rights.specs.Owner.{witness_of_cell};
ghost use Rattle.sdd_atomics.specs.SeatAtTable.{id_of, places_of};
ghost use Rattle.sdd_atomics.specs.DomainSeat.{view, epoch, slots};
ghost use Rattle.sdd_domain_steps.specs.Claims.{IsUnmoved};
ghost use Rattle.sdd_domain_steps.specs.PrivateItems.{BeginsWhereShut};

use crate::slots::holding::none_is_open;
use sdd_atomics::SeatAtTable;
use sdd_atomics::steps::cells::{cut_right, find_cell, take_in_right};
use sdd_atomics::steps::collectors::{begin_close, end_close};
use sdd_witness::Witness;

/// Begins to close the collector of a cell, whose right this is, where no guard is open at any place, the own one too: then it comes back as the right to a
/// collector that is being closed. Where a guard is open it comes back as it was, and nothing has changed.
pub fn begin_where_shut(
    seat: &mut SeatAtTable<'_>,
    collector: u32,
    right: Witness,
) -> Result<Witness, Witness>
    requires place { HasPlace (epoch seat.old) × ((epoch seat.old).place < places_of seat.old) × ((epoch seat.old).all ≡ places_of seat.old) }
    requires idle { ((slots seat.old).closes ≡ None) × ((slots seat.old).looked ≡ 0) }
    requires rests { (view seat.old).fractions.moves ≡ None }
    requires rights { (view seat.old).cells ≡ no_rights }
    requires right { (right.table_id ≡ id_of seat.old) × (right.views ≡ witness_of_cell collector Raw) }
    ensures begun { MatchResult result
        (λ right. BeginsWhereShut collector (places_of seat.old) seat.old seat.new
        × (right.table_id ≡ id_of seat.old) × (right.views ≡ witness_of_cell collector Collector))
        (λ right. IsUnmoved seat.old seat.new × (IsLone (epoch seat.old) → IsOpen (epoch seat.old))
        × (right.table_id ≡ id_of seat.old) × (right.views ≡ witness_of_cell collector Raw)) }
    ensures inside { collector < (view seat.old).sizes.cells }
{
    find_cell(seat, &right);
    take_in_right(seat, right);
    begin_close(seat, collector);
    if none_is_open(seat) {
        return Ok(cut_right(seat));
    }
    end_close(seat, collector);
    Err(cut_right(seat))
}
