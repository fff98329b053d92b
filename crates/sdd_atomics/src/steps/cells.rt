//! The atomic steps on cells, by a participant: an owner goes into a cell, and what the cell held comes out.
//!
//! A cell is free, or holds no owner, or one, with a tag. Which owners it is for is known from the seat of the right to it, beside which a participant steps.
ghost use Rattle.std.specs.Prelude.{◌≡◌, ◌<◌, ℕ, Bool, [], ◌∷◌, None};
ghost use Rattle.sdd_rights.specs.declared.views.ShownValue.{ShownValue};
ghost use Rattle.sdd_rights.specs.declared.views.CellKind.{CellKind};
ghost use Rattle.sdd_rights.specs.contracts.views.View.{the_row};
ghost use Rattle.sdd_rights.specs.Views.{right_to};
ghost use Rattle.sdd_domain_invariant.specs.Codes.{held_slots};
ghost use Rattle.sdd_domain_invariant.specs.Epoch.{HasPlace, IsOpen};
ghost use Rattle.sdd_domain_invariant.specs.Slots.FilledInvariant.{HasRecord};
ghost use Rattle.sdd_domain_invariant.specs.Cells.CellSteps.{ClaimsCell, FillsBare, RetagsOne, SwapsBare, SwapsOne, ExchangesOne, FreesCell, FreesBare, IsBare, FindsCell, LooksInCell, SeesInCell, LearnsCell, rightless, rights_of, righted};
ghost use Rattle.sdd_rights.specs.Owner.{cell_kind, witness_of_cell};
ghost use Rattle.sdd_atomics.specs.SeatAtTable.{id_of, places_of, IsReady};
ghost use Rattle.sdd_atomics.specs.Cells.{cells_of, FitsCell};
ghost use Rattle.sdd_atomics.specs.DomainSeat.{view, epoch, slots, Taught, Moved, MovedAlone};

use crate::plays::{
    ClaimForOwned, ClaimForRaw, ClaimForShared, CutRight, ExchangeCell, FillForOwned,
    FillForShared, FindCell, FreeBareCell, FreeCell, JoinRight, LearnCell, LookIn, RetagCell,
    SeeIn, SwapBareCell, SwapCell,
};
use crate::seat_at_table::SeatAtTable;
use crate::words::cell_word;
use sdd_rights::views::CellKind;
use sdd_witness::{CompareExchange, Swap, Witness, part, step_beside};
use std::marker::PhantomData;

/// Nobody's cell.
pub const FREE_CELL: u64 = 0;

/// Looks into a cell.
#[inline]
pub fn look_in(seat: &mut SeatAtTable<'_>, cell: u32) -> u64
    requires inside { cell < cells_of seat.old }
    requires ready { IsReady seat.old }
    ensures { Moved (LooksInCell cell) seat.old result seat.new }
{
    let SeatAtTable { table, seat } = seat;
    table.atomic.shared.load::<LookIn>(seat, cell_word(cell))
}

/// Looks into a cell under the open guard, which sees the item whose owner the cell held at this moment from now on, and has the fraction of its place out.
#[inline]
pub fn see_in(seat: &mut SeatAtTable<'_>, cell: u32) -> u64
    requires inside { cell < cells_of seat.old }
    requires open { IsOpen (epoch seat.old) }
    requires near { (epoch seat.old).place < places_of seat.old }
    requires rests { (view seat.old).fractions.moves ≡ None }
    ensures { Moved (SeesInCell cell) seat.old result seat.new }
{
    let SeatAtTable { table, seat } = seat;
    table.atomic.shared.load::<SeeIn>(seat, cell_word(cell))
}

/// Tries to claim a cell of this kind by this word, and answers its word before. It was free where this is `FREE_CELL`: then the participant has the right
/// to it,
/// and the owner that it had is in the cell, if it had one. The kind is no collector's: one that is being closed comes of an open one.
#[inline]
pub fn claim_cell(seat: &mut SeatAtTable<'_>, cell: u32, word: u64, kind: CellKind) -> u64
    requires inside { cell < cells_of seat.old }
    requires ready { IsReady seat.old }
    requires own { ((slots seat.old).owns ≡ held_slots word) × ((slots seat.old).holds ≡ None) × ((slots seat.old).drawn ≡ []) }
    requires fits { FitsCell kind word (view seat.old).fractions.owns }
    requires word { 0 < word }
    ensures { Moved (ClaimsCell word kind cell) seat.old result seat.new }
{
    let shared = &seat.table.atomic.shared;
    let at = cell_word(cell);
    match kind {
        CellKind::Owned => shared.compare_exchange::<ClaimForOwned>(
            &mut seat.seat,
            at,
            FREE_CELL,
            word,
        ),
        CellKind::Shared => shared.compare_exchange::<ClaimForShared>(
            &mut seat.seat,
            at,
            FREE_CELL,
            word,
        ),
        CellKind::Raw => shared.compare_exchange::<ClaimForRaw>(
            &mut seat.seat,
            at,
            FREE_CELL,
            word,
        ),
        CellKind::Collector => unreachable!(),
    }
}

/// Puts the owner that the participant has into a cell to which it has the right and which holds none, by this word. The right is one to a cell for owners of
/// which there may be several, or not, from then on.
#[inline]
pub fn fill_bare_cell(seat: &mut SeatAtTable<'_>, cell: u32, word: u64, shared: bool) -> u64
    requires inside { cell < cells_of seat.old }
    requires ready { IsReady seat.old }
    requires own { ((slots seat.old).owns ≡ held_slots word) × ((slots seat.old).holds ≡ None) × ((slots seat.old).drawn ≡ []) }
    requires kind { (r : ShownValue) → HasRecord (view seat.old).fractions.owns r → r.shared ≡ shared }
    requires right { (kind : CellKind) × IsBare kind × ((view seat.old).cells.rights ≡ record { cell = cell; kind = kind } ∷ []) }
    requires word { 0 < word }
    ensures { Moved (FillsBare word shared cell) seat.old result seat.new }
{
    if shared {
        seat.table
            .atomic
            .shared
            .swap::<FillForShared>(&mut seat.seat, cell_word(cell), word)
    } else {
        seat.table
            .atomic
            .shared
            .swap::<FillForOwned>(&mut seat.seat, cell_word(cell), word)
    }
}

/// Puts this word into a cell in place of another one by which it holds the same owner, or none: where the cell's word is no more that one nothing changes.
/// Answers its word before.
#[inline]
pub fn retag_cell(seat: &mut SeatAtTable<'_>, cell: u32, old: u64, word: u64) -> u64
    requires inside { cell < cells_of seat.old }
    requires ready { IsReady seat.old }
    requires loose { (slots seat.old).holds ≡ None }
    requires same { held_slots word ≡ held_slots old }
    requires word { 0 < word }
    ensures { Moved (RetagsOne old word cell) seat.old result seat.new }
{
    let SeatAtTable { table, seat } = seat;
    table
        .atomic
        .shared
        .compare_exchange::<RetagCell>(seat, cell_word(cell), old, word)
}

/// Puts this word into a cell that holds no owners, beside the seat of the right to it, and answers its word before.
#[inline]
pub fn swap_bare_cell(seat: &mut SeatAtTable<'_>, cell: u32, word: u64, right: &Witness) -> u64
    requires inside { cell < cells_of seat.old }
    requires ready { IsReady seat.old }
    requires own { ((slots seat.old).owns ≡ []) × ((slots seat.old).holds ≡ None) }
    requires free { (view seat.old).pledges.own ≡ [] }
    requires word { (0 < word) × (held_slots word ≡ []) }
    requires right { (right.now.table_id ≡ id_of seat.old) × ((kind : CellKind) × IsBare kind × (right.now.views ≡ witness_of_cell cell kind)) }
    ensures { Moved (SwapsBare word cell) seat.old result seat.new }
{
    let SeatAtTable { table, seat } = seat;
    let deed = Swap::<SwapBareCell> {
        word: cell_word(cell),
        new: word,
        marker: PhantomData,
    };
    table
        .ledger
        .beside(&table.atomic.shared, seat, right, &deed)
}

/// Puts this word into a cell, beside the seat of the right to it, and answers its word before. The owner that the participant had is in the cell then, and it
/// has the one that the cell held, whose unit is in the bank.
#[inline]
pub fn swap_cell(seat: &mut SeatAtTable<'_>, cell: u32, word: u64, right: &Witness) -> u64
    requires inside { cell < cells_of seat.old }
    requires ready { IsReady seat.old }
    requires own { ((slots seat.old).owns ≡ held_slots word) × ((slots seat.old).holds ≡ None) × ((slots seat.old).drawn ≡ []) }
    requires free { (view seat.old).pledges.own ≡ [] }
    requires word { 0 < word }
    requires right { (right.now.table_id ≡ id_of seat.old) × ((shared : Bool) × (right.now.views ≡ witness_of_cell cell (cell_kind shared))
        × ((r : ShownValue) → HasRecord (view seat.old).fractions.owns r → r.shared ≡ shared)) }
    ensures { (shared : Bool) → right.now.views ≡ witness_of_cell cell (cell_kind shared)
        → Moved (SwapsOne word shared cell) seat.old result seat.new }
{
    let SeatAtTable { table, seat } = seat;
    let deed = Swap::<SwapCell> {
        word: cell_word(cell),
        new: word,
        marker: PhantomData,
    };
    table
        .ledger
        .beside(&table.atomic.shared, seat, right, &deed)
}

/// The same where the cell's word is still this one; else nothing changes.
#[inline]
pub fn exchange_cell(
    seat: &mut SeatAtTable<'_>,
    cell: u32,
    old: u64,
    word: u64,
    right: &Witness,
) -> u64
    requires inside { cell < cells_of seat.old }
    requires ready { IsReady seat.old }
    requires own { ((slots seat.old).owns ≡ held_slots word) × ((slots seat.old).holds ≡ None) × ((slots seat.old).drawn ≡ []) }
    requires free { (view seat.old).pledges.own ≡ [] }
    requires word { 0 < word }
    requires right { (right.now.table_id ≡ id_of seat.old) × ((shared : Bool) × (right.now.views ≡ witness_of_cell cell (cell_kind shared))
        × ((r : ShownValue) → HasRecord (view seat.old).fractions.owns r → r.shared ≡ shared)) }
    ensures { (shared : Bool) → right.now.views ≡ witness_of_cell cell (cell_kind shared)
        → Moved (ExchangesOne old word shared cell) seat.old result seat.new }
{
    let SeatAtTable { table, seat } = seat;
    let deed = CompareExchange::<ExchangeCell> {
        word: cell_word(cell),
        old,
        new: word,
        marker: PhantomData,
    };
    table
        .ledger
        .beside(&table.atomic.shared, seat, right, &deed)
}

/// Frees the cell to which the participant has the right, and answers its word before. The participant has the owner that it held, whose unit is in the bank.
#[inline]
pub fn free_cell(seat: &mut SeatAtTable<'_>, cell: u32) -> u64
    requires inside { cell < cells_of seat.old }
    requires ready { IsReady seat.old }
    requires own { ((slots seat.old).owns ≡ []) × ((slots seat.old).holds ≡ None) × ((slots seat.old).drawn ≡ []) × ((view seat.old).fractions.owns ≡ []) }
    requires right { (shared : Bool) × ((view seat.old).cells.rights ≡ record { cell = cell; kind = cell_kind shared } ∷ []) }
    ensures { (shared : Bool) → (view seat.old).cells.rights ≡ record { cell = cell; kind = cell_kind shared } ∷ []
        → Moved (FreesCell shared cell) seat.old result seat.new }
{
    let SeatAtTable { table, seat } = seat;
    table
        .atomic
        .shared
        .swap::<FreeCell>(seat, cell_word(cell), FREE_CELL)
}

/// The same of a cell that holds no owners.
#[inline]
pub fn free_bare_cell(seat: &mut SeatAtTable<'_>, cell: u32) -> u64
    requires inside { cell < cells_of seat.old }
    requires ready { IsReady seat.old }
    requires own { ((slots seat.old).owns ≡ []) × ((slots seat.old).holds ≡ None) × ((slots seat.old).drawn ≡ []) × ((view seat.old).fractions.owns ≡ []) }
    requires right { (kind : CellKind) × IsBare kind × ((view seat.old).cells.rights ≡ record { cell = cell; kind = kind } ∷ []) }
    ensures { Moved (FreesBare cell) seat.old result seat.new }
{
    let SeatAtTable { table, seat } = seat;
    table
        .atomic
        .shared
        .swap::<FreeBareCell>(seat, cell_word(cell), FREE_CELL)
}

/// Cuts the right to a cell off that the participant has, as a seat of its own. No word is touched.
#[inline]
pub fn cut_right(seat: &mut SeatAtTable<'_>) -> Witness
    requires place { HasPlace (epoch seat.old) }
    ensures participant { Taught (λ v _ w. w ≡ rightless v) seat.old 0 seat.new }
    ensures right { (result.table_id ≡ id_of seat.old) × (result.views ≡ the_row.coded.code (rights_of (view seat.old)) ∷ []) }
{
    let SeatAtTable { table, seat } = seat;
    part::<_, _, _, _, CutRight>(&table.atomic.shared, seat)
}

/// Takes the right to a cell in. No word is touched.
#[inline]
pub fn take_in_right(seat: &mut SeatAtTable<'_>, right: Witness)
    requires place { HasPlace (epoch seat.old) }
    requires right { (right.table_id ≡ id_of seat.old) × ((cell : ℕ) × (kind : CellKind) × (right.views ≡ witness_of_cell cell kind)) }
    ensures { (cell : ℕ) (kind : CellKind) → right.views ≡ witness_of_cell cell kind
        → Taught (λ v _ w. w ≡ righted v (right_to cell kind)) seat.old 0 seat.new }
{
    let SeatAtTable { table, seat } = seat;
    table
        .ledger
        .rejoin::<JoinRight>(&table.atomic.shared, seat, right);
}

/// A lone participant learns beside the seat of the right to a cell what it knows of the cell, by the words that it knows. Nothing changes, and no word is
/// touched.
#[inline]
pub fn recall_cell(seat: &mut SeatAtTable<'_>, right: &Witness)
    requires ready { IsReady seat.old }
    requires right { (right.now.table_id ≡ id_of seat.old)
        × ((cell : ℕ) × (shared : Bool) × (right.now.views ≡ witness_of_cell cell (cell_kind shared))) }
    ensures { (cell : ℕ) (shared : Bool) → right.now.views ≡ witness_of_cell cell (cell_kind shared)
        → MovedAlone (LearnsCell cell shared) seat.old seat.new }
{
    let SeatAtTable { table, seat } = seat;
    step_beside::<_, _, _, _, LearnCell>(&table.atomic.shared, seat, right);
}

/// A participant learns beside the seat of the right to a cell of any kind that there is that cell. Nothing changes, and no word is touched.
#[inline]
pub fn find_cell(seat: &mut SeatAtTable<'_>, right: &Witness)
    requires ready { IsReady seat.old }
    requires right { (right.now.table_id ≡ id_of seat.old) × ((cell : ℕ) × (kind : CellKind) × (right.now.views ≡ witness_of_cell cell kind)) }
    ensures { (cell : ℕ) (kind : CellKind) → right.now.views ≡ witness_of_cell cell kind → MovedAlone (FindsCell cell) seat.old seat.new }
{
    let SeatAtTable { table, seat } = seat;
    step_beside::<_, _, _, _, FindCell>(&table.atomic.shared, seat, right);
}
