//! An owner goes into a cell, and what the cell held is a seat of its own again.
ghost use Rattle.std.specs.Prelude.{◌≡◌, ◌≢◌, ◌<◌, ◌∷◌, ◌-◌, ◌^◌, [], None, Bool, IfSome, MatchBool, MatchResult, ℕ, option_map, slice_get, slice_index};
ghost use base.Stored.{Gv};
ghost use Rattle.sdd_shared_values.specs.SharedValues.{IsValueCode};
ghost use Rattle.sdd_rights.specs.declared.views.CellKind.{CellKind};
ghost use Rattle.sdd_rights.specs.Views.{no_rights};
ghost use Rattle.sdd_domain_invariant.specs.Cells.CellSteps.{IsBare};
ghost use Rattle.sdd_domain_invariant.specs.Codes.{held_slots};
ghost use Rattle.sdd_domain_invariant.specs.Epoch.{HasPlace, IsLone};
ghost use Rattle.sdd_rights.specs.Owner.{cell_kind, witness_of_cell};
ghost use Rattle.sdd_rights.specs.StandingKind.{IsOwner, is_shared};
ghost use Rattle.sdd_world_model.specs.Cells.{MayHold};
ghost use Rattle.sdd_atomics.specs.DomainTable as of_table;
ghost use Rattle.sdd_atomics.specs.SeatAtTable.{id_of, slots_of, IsReady, facts_at};
ghost use Rattle.sdd_atomics.specs.TableFacts.{facts_of};
ghost use Rattle.sdd_atomics.specs.DomainSeat.{view, epoch, slots};
ghost use Rattle.sdd_domain_steps.specs.Cells.{AreLoose, HasHeld, IsBoundTo, IsLoose, IsWith, PutsDown, TakesUp, Writes, table_home, slots_in, told_of};
ghost use Rattle.sdd_domain_steps.specs.InPlace.{IsBare as HasNothing};
ghost use Rattle.sdd_domain_steps.specs.Local.{contents_of};
ghost use Rattle.sdd_domain_steps.specs.declared.cells.values.LooseOwner.{LooseOwner};

use crate::cells::words::{held_slot, word_with};
use sdd_atomics::read_fractions::unit_of;
use sdd_atomics::steps::cells::{
    exchange_cell, find_cell, free_bare_cell, free_cell, recall_cell, retag_cell, swap_cell,
    take_in_right,
};
use sdd_atomics::steps::slots::{cut, draw_unit, enter_unit, take_in};
use sdd_atomics::{DomainTable, SeatAtTable};
use sdd_core::Tag;
use sdd_rights::{ReadFraction, Right, StandingKind};
use sdd_witness::Witness;

/// An owner of an item as a seat of its own, with the item's slot, and a unit of the place's number.
pub struct LooseOwner {
    pub slot: u32,
    pub owner: Witness,
    pub read_fraction: ReadFraction,
}

/// The owner of a right, if there is one, as a seat of its own.
#[inline]
pub fn loosen(table: &DomainTable, held: Option<Right>, kind: StandingKind) -> Option<LooseOwner>
    requires held { MayHold (table_home (facts_of table.now)) kind held }
    ensures bound { IsBoundTo (facts_of table.now) kind held result }
    ensures loose { AreLoose (facts_of table.now) (is_shared kind) result }
{
    let right = held?;
    let slot = right.number();
    let (owner, read_fraction) = right.into_owner();
    Some(LooseOwner {
        slot,
        owner,
        read_fraction,
    })
}

/// The right of an owner, if there is one, which is of this kind. The domain has so many slots.
#[inline]
pub fn bind(
    table: &DomainTable,
    slots: u64,
    loose: Option<LooseOwner>,
    kind: StandingKind,
) -> Option<Right>
    requires slots { slots ≡ of_table.slots_of table.now }
    requires kind { IsOwner kind }
    requires loose { AreLoose (facts_of table.now) (is_shared kind) loose }
    ensures { IsBoundTo (facts_of table.now) kind result loose }
{
    let LooseOwner {
        slot,
        owner,
        read_fraction,
    } = loose?;
    Some(Right::of_witness(slot, slots as usize, kind, owner, read_fraction))
}

/// The word of a cell that holds this owner, or none, with a tag.
#[inline]
pub fn word_for(loose: &Option<LooseOwner>, tag: Tag) -> u64
    requires { IfSome loose.now (λ o. o.slot < 2 ^ 25 - 1) }
    ensures taken { 0 < result }
    ensures held { held_slots result ≡ slots_in loose.now }
    ensures contents { contents_of result ≡ record { held = option_map (λ (o : LooseOwner). o.slot) loose.now; tag = tag } }
{
    match loose {
        Some(owner) => word_with(Some(owner.slot), tag),
        None => word_with(None, tag),
    }
}

/// Takes an owner in that is to go into a cell, if there is one. Its unit goes to the bank.
#[inline]
pub fn take_up(seat: &mut SeatAtTable<'_>, new: Option<LooseOwner>)
    requires place { HasPlace (epoch seat.old) }
    requires bare { HasNothing (view seat.old) }
    requires owner { (shared : Bool) × AreLoose (facts_at seat.old) shared new }
    ensures { (shared : Bool) → AreLoose (facts_at seat.old) shared new → TakesUp shared new seat.old seat.new }
{
    let Some(loose) = new else {
        return;
    };
    let LooseOwner {
        slot,
        owner,
        read_fraction,
    } = loose;
    take_in(seat, owner);
    let unit = unit_of(seat, slot, read_fraction);
    enter_unit(seat, slot, unit);
}

/// The owner of a slot that the participant has is a seat of its own again. Its unit comes from the bank.
#[inline]
pub fn part_with(seat: &mut SeatAtTable<'_>, slot: u32) -> LooseOwner
    requires inside { slot < slots_of seat.old }
    requires ready { IsReady seat.old }
    requires quiet { ((slots seat.old).owns ≡ slot ∷ []) × ((slots seat.old).drawn ≡ []) × ((slots seat.old).holds ≡ None) }
    requires told { (shared : Bool) × (value : Gv) × IsValueCode value
        × ((view seat.old).fractions.owns ≡ record { slot = slot; shared = shared; value = value } ∷ []) }
    ensures put { PutsDown seat.old seat.new }
    ensures slot { result.slot ≡ slot }
    ensures owner { (shared : Bool) (value : Gv) → (view seat.old).fractions.owns ≡ record { slot = slot; shared = shared; value = value } ∷ []
        → IsLoose (facts_at seat.old) shared result × (result.read_fraction.shown ≡ value) }
{
    let read_fraction = draw_unit(seat, slot).into_read_fraction();
    let owner = cut(seat);
    LooseOwner {
        slot,
        owner,
        read_fraction,
    }
}

/// The owner that the participant has, and that a cell with this word would hold, is a seat of its own again, if there is one. The word names this slot.
#[inline]
pub fn put_down(seat: &mut SeatAtTable<'_>, word: u64, held: Option<u32>) -> Option<LooseOwner>
    requires named { held ≡ slice_get (held_slots word) 0 }
    requires ready { IsReady seat.old }
    requires quiet { ((slots seat.old).drawn ≡ []) × ((slots seat.old).holds ≡ None) }
    requires held { (shared : Bool) × HasHeld word shared (view seat.old) }
    ensures put { PutsDown seat.old seat.new }
    ensures slots { slots_in result ≡ held_slots word }
    ensures owner { (shared : Bool) → HasHeld word shared (view seat.old)
        → AreLoose (facts_at seat.old) shared result × (told_of shared result ≡ (view seat.old).fractions.owns) }
{
    let _ = word;
    let slot = held?;
    Some(part_with(seat, slot))
}

/// Frees the cell of this right, and answers the owner that it held, if it held one, and the cell's word before.
#[inline]
pub fn free(seat: &mut SeatAtTable<'_>, cell: u32, right: Witness) -> (Option<LooseOwner>, u64)
    requires place { HasPlace (epoch seat.old) }
    requires bare { HasNothing (view seat.old) }
    requires rights { (view seat.old).cells ≡ no_rights }
    requires right { (right.table_id ≡ id_of seat.old) × ((shared : Bool) × (right.views ≡ witness_of_cell cell (cell_kind shared))) }
    ensures freed { Writes cell result.1 0 seat.old seat.new }
    ensures slots { slots_in result.0 ≡ held_slots result.1 }
    ensures held { (shared : Bool) → right.views ≡ witness_of_cell cell (cell_kind shared) → AreLoose (facts_at seat.old) shared result.0 }
{
    recall_cell(seat, &right);
    take_in_right(seat, right);
    let word = free_cell(seat, cell);
    (put_down(seat, word, held_slot(word)), word)
}

/// Frees the cell of this right, which holds no owners, and answers its word before.
#[inline]
pub fn free_bare(seat: &mut SeatAtTable<'_>, cell: u32, right: Witness) -> u64
    requires place { HasPlace (epoch seat.old) }
    requires bare { HasNothing (view seat.old) }
    requires rights { (view seat.old).cells ≡ no_rights }
    requires right { (right.table_id ≡ id_of seat.old) × ((kind : CellKind) × IsBare kind × (right.views ≡ witness_of_cell cell kind)) }
    ensures freed { Writes cell result 0 seat.old seat.new }
    ensures bare { held_slots result ≡ [] }
{
    find_cell(seat, &right);
    take_in_right(seat, right);
    free_bare_cell(seat, cell)
}

/// Puts an owner, or none, into the cell of this right by this word, and answers the owner that it held, if it held one, and its word before.
#[inline(always)]
pub fn swap(
    seat: &mut SeatAtTable<'_>,
    cell: u32,
    right: &Witness,
    new: Option<LooseOwner>,
    word: u64,
) -> (Option<LooseOwner>, u64)
    requires place { HasPlace (epoch seat.old) }
    requires bare { HasNothing (view seat.old) }
    requires pledges { (view seat.old).pledges.own ≡ [] }
    requires right { (right.now.table_id ≡ id_of seat.old)
        × ((shared : Bool) × (right.now.views ≡ witness_of_cell cell (cell_kind shared)) × AreLoose (facts_at seat.old) shared new) }
    requires word { (0 < word) × (held_slots word ≡ slots_in new) }
    ensures swapped { Writes cell result.1 word seat.old seat.new }
    ensures slots { slots_in result.0 ≡ held_slots result.1 }
    ensures held { (shared : Bool) → right.now.views ≡ witness_of_cell cell (cell_kind shared) → AreLoose (facts_at seat.old) shared result.0 }
{
    recall_cell(seat, right);
    take_up(seat, new);
    let found = swap_cell(seat, cell, word, right);
    (put_down(seat, found, held_slot(found)), found)
}

/// The same where the cell's word is still this one, which names this slot; else the owner comes back that was to go in.
#[inline(always)]
pub fn exchange(
    seat: &mut SeatAtTable<'_>,
    cell: u32,
    right: &Witness,
    old: u64,
    held: Option<u32>,
    new: Option<LooseOwner>,
    word: u64,
) -> Result<Option<LooseOwner>, Option<LooseOwner>>
    requires named { held ≡ slice_get (held_slots old) 0 }
    requires place { HasPlace (epoch seat.old) }
    requires bare { HasNothing (view seat.old) }
    requires pledges { (view seat.old).pledges.own ≡ [] }
    requires right { (right.now.table_id ≡ id_of seat.old)
        × ((shared : Bool) × (right.now.views ≡ witness_of_cell cell (cell_kind shared)) × AreLoose (facts_at seat.old) shared new) }
    requires word { (0 < word) × (held_slots word ≡ slots_in new) }
    ensures exchanged { MatchResult result
        (λ held. Writes cell old word seat.old seat.new × (slots_in held ≡ held_slots old))
        (λ back. IsWith (view seat.old) seat.old seat.new × (slots_in back ≡ slots_in new)
        × (IsLone (epoch seat.old) → old ≢ slice_index (view seat.old).words cell)) }
    ensures held { (shared : Bool) → right.now.views ≡ witness_of_cell cell (cell_kind shared) → AreLoose (facts_at seat.old) shared new → MatchResult result
        (λ held. AreLoose (facts_at seat.old) shared held)
        (λ back. AreLoose (facts_at seat.old) shared back × (told_of shared back ≡ told_of shared new)) }
{
    recall_cell(seat, right);
    take_up(seat, new);
    if exchange_cell(seat, cell, old, word, right) == old {
        Ok(put_down(seat, old, held))
    } else {
        Err(put_down(seat, word, held_slot(word)))
    }
}

/// The cell of this right has another tag, if it still has this word; else nothing changes.
#[inline]
pub fn retag(seat: &mut SeatAtTable<'_>, cell: u32, right: &Witness, old: u64, tag: Tag) -> bool
    requires place { HasPlace (epoch seat.old) }
    requires bare { HasNothing (view seat.old) }
    requires right { (right.now.table_id ≡ id_of seat.old) × ((shared : Bool) × (right.now.views ≡ witness_of_cell cell (cell_kind shared))) }
    ensures { MatchBool result
        ((word : ℕ) × (0 < word) × (contents_of word ≡ record (contents_of old) { tag = tag }) × Writes cell old word seat.old seat.new)
        (IsWith (view seat.old) seat.old seat.new × (IsLone (epoch seat.old) → old ≢ slice_index (view seat.old).words cell)) }
{
    let word = word_with(held_slot(old), tag);
    recall_cell(seat, right);
    retag_cell(seat, cell, old, word) == old
}
