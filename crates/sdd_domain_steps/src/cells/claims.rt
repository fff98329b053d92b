//! The search for a free cell.
ghost use Rattle.std.specs.Prelude.{◌≡◌, ◌⊎◌, ◌<◌, ◌≤◌, [], None, IfErr, IfOk, IfSome, MatchOption, MatchResult, length};
ghost use Rattle.sdd_rights.specs.Views.{no_rights};
ghost use Rattle.sdd_domain_invariant.specs.Codes.{held_slots, null_word};
ghost use Rattle.sdd_domain_invariant.specs.Epoch.{HasPlace};
ghost use Rattle.sdd_rights.specs.Owner.{cell_kind, witness_of_cell};
ghost use Rattle.sdd_domain_invariant.specs.Cells.CellWordSteps.{cell_noted};
ghost use Rattle.sdd_atomics.specs.Cells.{cells_of, FitsCell};
ghost use Rattle.sdd_atomics.specs.SeatAtTable.{id_of, IsReady, facts_at};
ghost use Rattle.sdd_atomics.specs.DomainSeat.{view, epoch, slots};
ghost use Rattle.sdd_domain_steps.specs.Cells.{AreLoose, AreCellsTaken, CellComesFirst, Claims, Fills, IsWith, MissedAll, MissesCells, slots_in, told_of};
ghost use Rattle.sdd_domain_steps.specs.InPlace.{IsBare as HasNothing};
ghost use Rattle.sdd_domain_steps.specs.Claims.{Loses};
ghost use Rattle.sdd_domain_steps.specs.Sightings.{AreSeenTaken, Explains, IsOver, SearchesOn};

use crate::cells::values::{LooseOwner, put_down, take_up};
use crate::cells::words::{NULL_WORD, held_slot};
use crate::search::Search;
use crate::sightings::Sightings;
use sdd_atomics::SeatAtTable;
use sdd_atomics::steps::cells::{
    FREE_CELL, claim_cell, cut_right, fill_bare_cell, find_cell, take_in_right,
};
use sdd_core::Refused;
use sdd_rights::views::CellKind;
use sdd_witness::Witness;

/// Claims a cell of this kind by this word, if it is free: the right to it is a seat of its own, and the owner that the participant had is in the cell,
/// if it had one.
#[inline]
pub fn claim(seat: &mut SeatAtTable<'_>, cell: u32, word: u64, kind: CellKind) -> Option<Witness>
    requires inside { cell < cells_of seat.old }
    requires ready { IsReady seat.old }
    requires own { ((slots seat.old).owns ≡ held_slots word) × ((slots seat.old).holds ≡ None) × ((slots seat.old).drawn ≡ []) }
    requires fits { FitsCell kind word (view seat.old).fractions.owns }
    requires rights { (view seat.old).cells ≡ no_rights }
    requires word { 0 < word }
    ensures claimed { MatchOption result
        (MissesCells (λ k. k ≡ cell) seat.old seat.new)
        (λ right. Claims word cell seat.old seat.new × (right.table_id ≡ id_of seat.old) × (right.views ≡ witness_of_cell cell kind)) }
{
    if claim_cell(seat, cell, word, kind) != FREE_CELL {
        return None;
    }
    Some(cut_right(seat))
}

/// Tries the cells from one up to another one.
fn walk(
    seat: &mut SeatAtTable<'_>,
    from: u32,
    to: u32,
    word: u64,
    kind: CellKind,
    search: &mut Search,
) -> Result<Option<(u32, Witness)>, Refused>
    requires inside { to ≤ cells_of seat.old }
    requires ready { IsReady seat.old }
    requires own { ((slots seat.old).owns ≡ held_slots word) × ((slots seat.old).holds ≡ None) × ((slots seat.old).drawn ≡ []) }
    requires fits { FitsCell kind word (view seat.old).fractions.owns }
    requires rights { (view seat.old).cells ≡ no_rights }
    requires word { 0 < word }
    requires left { 0 < search.old.left }
    requires numbers { to ≤ length search.old.seen.taken }
    ensures tried { MatchResult result
        (λ found. MatchOption found (MissesCells (λ k. (from ≤ k) × (k < to)) seat.old seat.new)
        (λ won. (from ≤ won.0) × (won.0 < to) × Claims word won.0 seat.old seat.new
        × (won.1.table_id ≡ id_of seat.old) × (won.1.views ≡ witness_of_cell won.0 kind)))
        (λ e. (e ≡ Refused.Contended) × Loses seat.old seat.new) }
    ensures first { IfOk result (λ found. IfSome found (λ won. AreCellsTaken (λ k. (from ≤ k) × (k < won.0)) seat.old)) }
    ensures on { SearchesOn search.old search.new }
    ensures seen { MatchResult result
        (λ found. (0 < search.new.left) × (found ≡ None → AreSeenTaken from to search.new.seen))
        (λ _. IsOver search.new) }
{
    for cell in from..to {
        if let Some(right) = search.cell(seat, cell, word, kind)? {
            return Ok(Some((cell, right)));
        }
    }
    Ok(None)
}

/// Tries all cells in a walk, once round, which begins at this one.
fn try_all(
    seat: &mut SeatAtTable<'_>,
    next: u32,
    cells: u32,
    word: u64,
    kind: CellKind,
    search: &mut Search,
) -> Result<(u32, Witness), Refused>
    requires cells { cells ≡ cells_of seat.old }
    requires next { next ≤ cells }
    requires ready { IsReady seat.old }
    requires own { ((slots seat.old).owns ≡ held_slots word) × ((slots seat.old).holds ≡ None) × ((slots seat.old).drawn ≡ []) }
    requires fits { FitsCell kind word (view seat.old).fractions.owns }
    requires rights { (view seat.old).cells ≡ no_rights }
    requires word { 0 < word }
    requires left { 0 < search.old.left }
    requires numbers { cells ≤ length search.old.seen.taken }
    ensures tried { MatchResult result
        (λ won. (won.0 < cells) × Claims word won.0 seat.old seat.new
        × (won.1.table_id ≡ id_of seat.old) × (won.1.views ≡ witness_of_cell won.0 kind))
        (λ e. ((e ≡ Refused.NoCell) × MissesCells (λ k. k < cells) seat.old seat.new) ⊎ ((e ≡ Refused.Contended) × Loses seat.old seat.new)) }
    ensures seen { IfErr result (λ e. Explains Refused.NoCell 0 cells (length search.old.seen.lost) e search.new.seen) }
    ensures first { IfOk result (λ won. CellComesFirst cells next won.0 seat.old) }
{
    if let Some(won) = walk(seat, next, cells, word, kind, search)? {
        return Ok(won);
    }
    if let Some(won) = walk(seat, 0, next, word, kind, search)? {
        return Ok(won);
    }
    Err(Refused::NoCell)
}

/// Claims a free cell by this word: the first one of a walk over all cells, once round, which begins at this one.
///
/// `NoCell` where none was found free; `Contended` where so many exchanges were lost: what was seen of that is told for clauses.
#[inline(never)]
pub fn claim_free(
    seat: &mut SeatAtTable<'_>,
    next: u32,
    cells: u32,
    word: u64,
    kind: CellKind,
    tries: u64,
) -> Result<(u32, Witness), (Refused, Sightings)>
    requires cells { cells ≡ cells_of seat.old }
    requires next { next ≤ cells }
    requires ready { IsReady seat.old }
    requires own { ((slots seat.old).owns ≡ held_slots word) × ((slots seat.old).holds ≡ None) × ((slots seat.old).drawn ≡ []) }
    requires fits { FitsCell kind word (view seat.old).fractions.owns }
    requires rights { (view seat.old).cells ≡ no_rights }
    requires word { 0 < word }
    requires tries { 0 < tries }
    ensures tried { MatchResult result
        (λ won. (won.0 < cells) × Claims word won.0 seat.old seat.new
        × (won.1.table_id ≡ id_of seat.old) × (won.1.views ≡ witness_of_cell won.0 kind))
        (λ e. ((e.0 ≡ Refused.NoCell) × MissesCells (λ k. k < cells) seat.old seat.new) ⊎ ((e.0 ≡ Refused.Contended) × Loses seat.old seat.new)) }
    ensures seen { IfErr result (λ e. Explains Refused.NoCell 0 cells tries e.0 e.1) }
    ensures first { IfOk result (λ won. CellComesFirst cells next won.0 seat.old) }
{
    let mut search = Search::new(cells, tries);
    match try_all(seat, next, cells, word, kind, &mut search) {
        Ok(won) => Ok(won),
        Err(refused) => Err((refused, search.into_seen())),
    }
}

/// Claims a free cell by this word for an owner, or none, as `claim_free` does. The owner is one of several, or not, and so are those that the cell is for.
///
/// The owner comes back: `NoCell` where none was found free; `Contended` where so many exchanges were lost: what was seen of that is told for clauses.
pub fn claim_with(
    seat: &mut SeatAtTable<'_>,
    next: u32,
    cells: u32,
    new: Option<LooseOwner>,
    word: u64,
    shared: bool,
    tries: u64,
) -> Result<(u32, Witness), (Option<LooseOwner>, (Refused, Sightings))>
    requires cells { cells ≡ cells_of seat.old }
    requires next { next ≤ cells }
    requires place { HasPlace (epoch seat.old) }
    requires bare { HasNothing (view seat.old) }
    requires rights { (view seat.old).cells ≡ no_rights }
    requires owner { AreLoose (facts_at seat.old) shared new }
    requires word { (0 < word) × (held_slots word ≡ slots_in new) }
    requires tries { 0 < tries }
    ensures claimed { MatchResult result
        (λ won. (won.0 < cells) × Fills word won.0 seat.old seat.new
        × (won.1.table_id ≡ id_of seat.old) × (won.1.views ≡ witness_of_cell won.0 (cell_kind shared)))
        (λ e. IsWith (view seat.old) seat.old seat.new × MissedAll cells e.1.0 (view seat.old)
        × (slots_in e.0 ≡ slots_in new) × AreLoose (facts_at seat.old) shared e.0 × (told_of shared e.0 ≡ told_of shared new)) }
    ensures seen { IfErr result (λ e. Explains Refused.NoCell 0 cells tries e.1.0 e.1.1) }
    ensures first { IfOk result (λ won. CellComesFirst cells next won.0 seat.old) }
{
    take_up(seat, new);
    match claim_free(seat, next, cells, word, kind_for(shared), tries) {
        Ok(won) => Ok(won),
        Err(missed) => Err((put_down(seat, word, held_slot(word)), missed)),
    }
}

/// What cells are for that hold owners of which there may be several, or not.
#[inline]
fn kind_for(shared: bool) -> CellKind
    ensures { result ≡ cell_kind shared }
{
    if shared {
        CellKind::Shared
    } else {
        CellKind::Owned
    }
}

/// Reserves a free cell, as one that holds no owners: what it is for is decided when it is filled.
///
/// `NoCell` where none was found free; `Contended` where so many exchanges were lost: what was seen of that is told for clauses.
pub fn reserve(
    seat: &mut SeatAtTable<'_>,
    next: u32,
    cells: u32,
    tries: u64,
) -> Result<(u32, Witness), (Refused, Sightings)>
    requires cells { cells ≡ cells_of seat.old }
    requires next { next ≤ cells }
    requires place { HasPlace (epoch seat.old) }
    requires bare { HasNothing (view seat.old) }
    requires rights { (view seat.old).cells ≡ no_rights }
    requires tries { 0 < tries }
    ensures reserved { MatchResult result
        (λ won. (won.0 < cells) × Fills (null_word 0) won.0 seat.old seat.new
        × (won.1.table_id ≡ id_of seat.old) × (won.1.views ≡ witness_of_cell won.0 CellKind.Raw))
        (λ e. IsWith (view seat.old) seat.old seat.new × MissedAll cells e.0 (view seat.old)) }
    ensures seen { IfErr result (λ e. Explains Refused.NoCell 0 cells tries e.0 e.1) }
    ensures first { IfOk result (λ won. CellComesFirst cells next won.0 seat.old) }
{
    claim_free(seat, next, cells, NULL_WORD, CellKind::Raw, tries)
}

/// Puts an owner, or none, into a cell that was reserved, by this word.
pub fn fill(
    seat: &mut SeatAtTable<'_>,
    cell: u32,
    right: Witness,
    new: Option<LooseOwner>,
    word: u64,
    shared: bool,
) -> Witness
    requires place { HasPlace (epoch seat.old) }
    requires bare { HasNothing (view seat.old) }
    requires rights { (view seat.old).cells ≡ no_rights }
    requires right { (right.table_id ≡ id_of seat.old) × (right.views ≡ witness_of_cell cell CellKind.Raw) }
    requires owner { AreLoose (facts_at seat.old) shared new }
    requires word { (0 < word) × (held_slots word ≡ slots_in new) }
    ensures filled { IsWith (record (view seat.old) { words = cell_noted cell word (view seat.old) }) seat.old seat.new }
    ensures inside { cell < (view seat.old).sizes.cells }
    ensures right { (result.table_id ≡ id_of seat.old) × (result.views ≡ witness_of_cell cell (cell_kind shared)) }
{
    find_cell(seat, &right);
    take_in_right(seat, right);
    take_up(seat, new);
    fill_bare_cell(seat, cell, word, shared);
    cut_right(seat)
}
