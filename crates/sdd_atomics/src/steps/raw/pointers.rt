//! The atomic steps on the words of cells' pointers, by a participant.
//!
//! Such a word owns nothing, so that each may be written whoever has the right to its cell. It names a slot or nothing, with a tag:
//! `4 * (slot + 1) + tag`, or the tag alone. A lone participant knows each word beforehand.
ghost use Rattle.std.specs.Prelude.{◌<◌};
ghost use Rattle.sdd_domain_invariant.specs.Cells.CellWordSteps.{LooksAtPointer, SwapsPointer, ExchangesPointer};
ghost use Rattle.sdd_domain_invariant.specs.Codes.{pointers_end};
ghost use Rattle.sdd_domain_invariant.specs.Cells.CellSteps.{FindsPointer};
ghost use Rattle.sdd_atomics.specs.Cells.{cells_of};
ghost use Rattle.sdd_atomics.specs.SeatAtTable.{IsReady};
ghost use Rattle.sdd_atomics.specs.DomainSeat.{Moved};

use crate::plays::{ExchangePointer, LookAtPointer, SwapPointer};
use crate::seat_at_table::SeatAtTable;

/// Looks at the word of a cell's pointer.
#[inline]
pub fn look_at_pointer(seat: &mut SeatAtTable<'_>, cell: u32) -> u64
    requires inside { cell < cells_of seat.old }
    requires ready { IsReady seat.old }
    ensures { Moved (FindsPointer LooksAtPointer cell) seat.old result seat.new }
{
    let SeatAtTable { table, seat } = seat;
    table
        .atomic
        .shared
        .load::<LookAtPointer>(seat, table.pointer_word(cell))
}

/// Puts this word in place of that of a cell's pointer, and answers its word before.
#[inline]
pub fn swap_pointer(seat: &mut SeatAtTable<'_>, cell: u32, word: u64) -> u64
    requires inside { cell < cells_of seat.old }
    requires ready { IsReady seat.old }
    requires word { word < pointers_end }
    ensures { Moved (FindsPointer (SwapsPointer word) cell) seat.old result seat.new }
{
    let SeatAtTable { table, seat } = seat;
    table
        .atomic
        .shared
        .swap::<SwapPointer>(seat, table.pointer_word(cell), word)
}

/// The same where the word of the cell's pointer is still this one; else nothing changes. Answers its word before.
#[inline]
pub fn exchange_pointer(seat: &mut SeatAtTable<'_>, cell: u32, old: u64, word: u64) -> u64
    requires inside { cell < cells_of seat.old }
    requires ready { IsReady seat.old }
    requires word { word < pointers_end }
    ensures { Moved (FindsPointer (ExchangesPointer old word) cell) seat.old result seat.new }
{
    let SeatAtTable { table, seat } = seat;
    table
        .atomic
        .shared
        .compare_exchange::<ExchangePointer>(seat, table.pointer_word(cell), old, word)
}
