//! Cells: a participant claims and frees them, loads, swaps and exchanges what they hold, and changes their tags.
ghost use Rattle.std.specs.Prelude.{◌≡◌, ◌≢◌, ◌⊎◌, ◌<◌, ◌≤◌, ◌∷◌, ℕ, Bool, [], IfErr, IfOk, IfSome, MatchBool, MatchOption, MatchResult, None, Some, slice_set, true};
ghost use base.Stored.{Gv};
ghost use Rattle.sdd_core.specs.declared.tag.Tag.TheVariants.{None as no_tag};
ghost use Rattle.sdd_rights.specs.StandingKind.{IsOwner, is_shared};
ghost use Rattle.sdd_rights.specs.Right.{number_of, home_of, kind_of, raw_number_of, raw_home_of};
ghost use Rattle.sdd_world_model.specs.Cells.{MayHold, cell_with, slot_held};
ghost use Rattle.sdd_shared_values.specs.SharedValues.{showing};
ghost use Rattle.sdd_world_model.specs.Asked.{WasAsked};
ghost use Rattle.sdd_space.specs.Guard.{reader_of};
ghost use Rattle.sdd_space.specs.RawPtr as raw;
ghost use Rattle.sdd_world_model.specs.OwnerOrCell.{AreOf};
ghost use Rattle.sdd_domain_invariant.specs.Codes.{alive, counted, held_slots, held_word, most_owners, null_word};
ghost use Rattle.sdd_domain_invariant.specs.Slots.Records.{IsIn};
ghost use Rattle.sdd_domain_steps.specs.Cells.{ChangesCell, ClaimsNone, ClonesNone, ClonesTo, Copies, CopiesNone, FindsAt, FreesAt, IsOwnedThere, MakesInCell, MakesNone, WritesAt};
ghost use Rattle.sdd_domain_steps.specs.CellWords.{listed};
ghost use Rattle.sdd_domain_steps.specs.Items.{IsRightTo, slots_home};
ghost use Rattle.sdd_domain_steps.specs.Local.{contents_of};
ghost use Rattle.sdd_domain_steps.specs.LocalState.{AddsAt, IsLone, KnowsOwner, LooksAt, cell_word_of, word_of};
ghost use Rattle.sdd_domain_steps.specs.SeenSlots.{IsOnce};
ghost use Rattle.sdd_domain_steps.specs.SpaceIds.{cells_home, home_in};

use crate::local_core::LocalCore;
use crate::local_core::items::is_one_of_several;
use sdd_atomics::steps::cells::{look_in, recall_cell, see_in};
use sdd_atomics::steps::values::look;
use sdd_core::{Refused, SlotName, Tag};
use sdd_domain_steps::cells::claims::{claim_with, fill, reserve};
use sdd_domain_steps::cells::values::{
    bind, exchange, free, free_bare, loosen, retag, swap, word_for,
};
use sdd_domain_steps::cells::words::{
    contents_in, expected_word, holds, slot_in, tag_in, value_held,
};
use sdd_domain_steps::sightings::without_sightings;
use sdd_participants::{CellContents, Job};
use sdd_rights::{RawRight, Right, StandingKind};
use sdd_shared_values::GhostValues;
use sdd_space::inner::{raw_ptr_to, section_of};
use sdd_space::{Guard, Item, RawPtr};

/// So many cells a domain's table has at most, and their rights are numbered below.
pub(super) const MOST_CELLS: usize = 16_777_216;

impl<'d, T: Item<T>, J: Job> LocalCore<'d, T, J> {
    /// Where the walk for a free cell begins.
    #[inline]
    fn first_cell(&self) -> u32
        ensures { result < self.now.limits.cells }
    {
        if (self.next_cell as u64) < self.domain.limits.cells {
            self.next_cell
        } else {
            0
        }
    }

    /// A free cell for owners of this kind holds this one, if there is one, with this tag. No memory is taken.
    ///
    /// The owner comes back: `NoCell` where a walk over all cells found none free; `Contended` where as many exchanges were lost as the limits allow.
    pub fn cell_from(
        &mut self,
        held: Option<Right>,
        tag: Tag,
        kind: StandingKind,
    ) -> Result<Right, (Option<Right>, Refused)>
        requires owner { IsOwner kind }
        requires held { MayHold (slots_home self.old) kind held }
        ensures right { IfOk result (λ cell. (home_of cell ≡ cells_home self.old.home) × (kind_of cell ≡ kind)) }
        ensures claimed { MatchResult result
            (λ cell. (word : ℕ) × (0 < word) × (contents_of word ≡ cell_with held tag) × WritesAt (number_of cell) 0 word self.old self.new)
            (λ e. (self.new ≡ self.old) × ClaimsNone e.1 self.old) }
        ensures back { IfErr result (λ e. e.0 ≡ held) }
    {
        let next = self.first_cell();
        let cells = self.domain.limits.cells as u32;
        let slots = self.domain.limits.slots;
        let tries = self.domain.limits.tries;
        let table = &self.domain.table;
        let shared = is_one_of_several(kind);
        let new = loosen(table, held, kind);
        let word = word_for(&new, tag);
        match claim_with(&mut self.seat, next, cells, new, word, shared, tries) {
            Ok((cell, right)) => {
                self.next_cell = cell + 1;
                Ok(Right::of_cell(cell, MOST_CELLS, kind, right))
            }
            Err((back, missed)) => Err((bind(table, slots, back, kind), without_sightings(missed))),
        }
    }

    /// Beside the right to a cell a lone participant knows that the cell is taken. Nothing changes, and no word is touched.
    #[inline]
    fn recall_full(&mut self, cell: &Right)
        requires home { home_of cell.now ≡ cells_home self.old.home }
        ensures same { self.new ≡ self.old }
        ensures inside { number_of cell.now < self.old.sizes.cells }
        ensures full { IsLone self.old → 0 < cell_word_of self.old (number_of cell.now) }
    {
        recall_cell(&mut self.seat, cell.witness());
    }

    /// The word of a cell at this moment.
    #[inline(always)]
    fn word_at(&mut self, cell: &Right) -> u64
        requires home { home_of cell.now ≡ cells_home self.old.home }
        ensures same { self.new ≡ self.old }
        ensures found { FindsAt (number_of cell.now) result self.old }
    {
        recall_cell(&mut self.seat, cell.witness());
        look_in(&mut self.seat, cell.number())
    }

    /// What a cell holds at this moment.
    #[inline]
    pub fn cell(&mut self, cell: &Right) -> CellContents
        requires home { home_of cell.now ≡ cells_home self.old.home }
        ensures same { self.new ≡ self.old }
        ensures found { (word : ℕ) × (contents_of word ≡ result) × FindsAt (number_of cell.now) word self.old }
    {
        contents_in(self.word_at(cell))
    }

    /// The value of the item whose owner a cell holds, with its slot, for as long as the guard is borrowed; and the cell's tag.
    #[inline(always)]
    pub fn load<'g>(&mut self, cell: &Right, guard: &'g Guard) -> (Option<(u32, &'g T)>, Tag)
        requires home { home_of cell.now ≡ cells_home self.old.home }
        requires reader { reader_of guard.now ≡ self.old.reader }
        ensures found { (word : ℕ) × FindsAt (number_of cell.now) word self.old × MatchOption result.0
            (contents_of word ≡ record { held = None; tag = result.1 }) (λ found. contents_of word ≡ record { held = Some found.0; tag = result.1 }) }
        ensures seen { MatchOption result.0 (self.new ≡ self.old) (λ found.
            ((shared : Bool) × LooksAt found.0 shared (showing T.row found.1.now) self.old self.new
            × (IsLone self.old → KnowsOwner self.old found.0 shared (showing T.row found.1.now)))
            × (found.0 < self.old.limits.slots) × IsOnce self.new.shown × AreOf (home_in self.old) (T.holds found.1.now)) }
        ensures owned { IsLone self.old → IfSome result.0 (λ found. IsOwnedThere found.0 (is_shared (kind_of cell.now)) self.old) }
    {
        let section = section_of(guard);
        self.section.agree(section);
        let values = &self.domain.values;
        recall_cell(&mut self.seat, cell.witness());
        let word = see_in(&mut self.seat, cell.number());
        let tag = tag_in(word);
        let Some(slot) = value_held(word) else {
            return (None, tag);
        };
        let value = look(values, slot, &mut self.seat, section);
        (Some((slot as u32, value)), tag)
    }

    /// A cell holds another owner, or none, and has this tag. What it held comes back, with its tag.
    #[inline(always)]
    pub fn swap(
        &mut self,
        cell: &Right,
        held: Option<Right>,
        tag: Tag,
        kind: StandingKind,
    ) -> (Option<Right>, Tag)
        requires home { home_of cell.now ≡ cells_home self.old.home }
        requires kind { kind_of cell.now ≡ kind }
        requires owner { IsOwner kind }
        requires held { MayHold (slots_home self.old) kind held }
        ensures held { MayHold (slots_home self.old) kind result.0 }
        ensures swapped { (found : ℕ) × (word : ℕ) × (0 < word) × (contents_of word ≡ cell_with held tag) × (contents_of found ≡ cell_with result.0 result.1)
            × ChangesCell (number_of cell.now) found word self.old self.new }
    {
        let slots = self.domain.limits.slots;
        let table = &self.domain.table;
        let new = loosen(table, held, kind);
        let word = word_for(&new, tag);
        let (out, found) = swap(&mut self.seat, cell.number(), cell.witness(), new, word);
        (bind(table, slots, out, kind), tag_in(found))
    }

    /// The same, if the cell's word is this one, which names this slot; else the owner comes back, and nothing changes.
    #[inline(always)]
    fn exchange_from(
        &mut self,
        cell: &Right,
        old: u64,
        named: Option<u32>,
        held: Option<Right>,
        tag: Tag,
        kind: StandingKind,
    ) -> Result<Option<Right>, Option<Right>>
        requires home { home_of cell.now ≡ cells_home self.old.home }
        requires kind { kind_of cell.now ≡ kind }
        requires owner { IsOwner kind }
        requires held { MayHold (slots_home self.old) kind held }
        requires full { IsLone self.old → 0 < old }
        requires named { (contents_of old).held ≡ named }
        ensures exchanged { MatchResult result
            (λ out. MayHold (slots_home self.old) kind out × (slot_held out ≡ (contents_of old).held)
            × ((word : ℕ) × (0 < word) × (contents_of word ≡ cell_with held tag) × ChangesCell (number_of cell.now) old word self.old self.new))
            (λ _. (self.new ≡ self.old) × (IsLone self.old → old ≢ cell_word_of self.old (number_of cell.now))) }
        ensures back { IfErr result (λ back. back ≡ held) }
    {
        let slots = self.domain.limits.slots;
        let table = &self.domain.table;
        let new = loosen(table, held, kind);
        let word = word_for(&new, tag);
        let tried = exchange(
            &mut self.seat,
            cell.number(),
            cell.witness(),
            old,
            named,
            new,
            word,
        );
        let out = match tried {
            Ok(out) => out,
            Err(back) => return Err(bind(table, slots, back, kind)),
        };
        Ok(bind(table, slots, out, kind))
    }

    /// The same, if the cell holds the owner of this slot, or none, with this tag, by the word that is found in it.
    #[cold]
    #[inline(never)]
    fn exchange_found(
        &mut self,
        cell: &Right,
        named: Option<u32>,
        before: Tag,
        held: Option<Right>,
        tag: Tag,
        kind: StandingKind,
    ) -> Result<Option<Right>, Option<Right>>
        requires home { home_of cell.now ≡ cells_home self.old.home }
        requires kind { kind_of cell.now ≡ kind }
        requires owner { IsOwner kind }
        requires held { MayHold (slots_home self.old) kind held }
        ensures exchanged { MatchResult result
            (λ out. MayHold (slots_home self.old) kind out × (slot_held out ≡ named)
            × ((found : ℕ) × (word : ℕ) × (0 < word) × (contents_of word ≡ cell_with held tag)
            × (contents_of found ≡ record { held = named; tag = before }) × ChangesCell (number_of cell.now) found word self.old self.new))
            (λ _. (self.new ≡ self.old)
            × (IsLone self.old → (contents_of (cell_word_of self.old (number_of cell.now)) ≢ record { held = named; tag = before }))) }
        ensures back { IfErr result (λ back. back ≡ held) }
    {
        let old = self.word_at(cell);
        let current = CellContents {
            held: named.map(SlotName::of),
            tag: before,
        };
        if !holds(old, current) {
            return Err(held);
        }
        self.exchange_from(cell, old, named, held, tag, kind)
    }

    /// The same, if the cell holds what was expected; else the owner comes back, and nothing changes.
    ///
    /// It tries by the word that calls write for what is expected. Only where the cell has another one is the cell looked at.
    #[inline(always)]
    pub fn exchange(
        &mut self,
        cell: &Right,
        current: CellContents,
        held: Option<Right>,
        tag: Tag,
        kind: StandingKind,
    ) -> Result<Option<Right>, Option<Right>>
        requires home { home_of cell.now ≡ cells_home self.old.home }
        requires kind { kind_of cell.now ≡ kind }
        requires owner { IsOwner kind }
        requires held { MayHold (slots_home self.old) kind held }
        ensures exchanged { MatchResult result
            (λ out. MayHold (slots_home self.old) kind out × (slot_held out ≡ current.held)
            × ((found : ℕ) × (word : ℕ) × (0 < word) × (contents_of word ≡ cell_with held tag) × (contents_of found ≡ current)
            × ChangesCell (number_of cell.now) found word self.old self.new))
            (λ _. (self.new ≡ self.old) × (IsLone self.old → (contents_of (cell_word_of self.old (number_of cell.now)) ≢ current))) }
        ensures back { IfErr result (λ back. back ≡ held) }
    {
        let named = slot_in(&current);
        let before = current.tag;
        let old = match expected_word(&current) {
            Some(old) => old,
            None => return self.exchange_found(cell, named, before, held, tag, kind),
        };
        match self.exchange_from(cell, old, named, held, tag, kind) {
            Ok(out) => Ok(out),
            Err(back) => self.exchange_found(cell, named, before, back, tag, kind),
        }
    }

    /// A cell has another tag, if it still has this word; else nothing changes.
    fn retag(&mut self, cell: &Right, old: u64, tag: Tag) -> bool
        requires home { home_of cell.now ≡ cells_home self.old.home }
        ensures { MatchBool result
            ((word : ℕ) × (0 < word) × (contents_of word ≡ record (contents_of old) { tag = tag })
            × ChangesCell (number_of cell.now) old word self.old self.new)
            ((self.new ≡ self.old) × (IsLone self.old → old ≢ cell_word_of self.old (number_of cell.now))) }
    {
        retag(&mut self.seat, cell.number(), cell.witness(), old, tag)
    }

    /// A cell has another tag, if the condition holds of what it holds.
    ///
    /// `Contended` where others changed the cell meanwhile as often as the limits allow.
    pub fn update_tag_if<F: FnMut(RawPtr<T>) -> bool>(
        &mut self,
        cell: &Right,
        tag: Tag,
        mut condition: F,
    ) -> Result<bool, Refused>
        requires home { home_of cell.now ≡ cells_home self.old.home }
        requires callable { F.IsAlwaysCallable condition }
        ensures changed { MatchResult result
            (λ changed. (word : ℕ) × MatchBool changed
            ((now : ℕ) × (0 < now) × (contents_of now ≡ record (contents_of word) { tag = tag }) × ChangesCell (number_of cell.now) word now self.old self.new)
            ((self.new ≡ self.old) × FindsAt (number_of cell.now) word self.old))
            (λ e. (e ≡ Refused.Contended) × (self.new ≡ self.old) × ¬ (IsLone self.old)) }
        ensures asked { IfOk result (λ changed. (ptr : RawPtr T)
            × WasAsked (λ p x q. F.step p x true q) (λ p x r. F.post p x r) condition ptr changed) }
        ensures once { IsLone self.old → IfOk result (λ changed. (ptr : RawPtr T)
            × (raw.cell_seen ptr ≡ contents_of (cell_word_of self.old (number_of cell.now))) × F.post condition ptr changed) }
    {
        for _attempt in 0..self.domain.limits.tries {
            let word = self.word_at(cell);
            if !condition(raw_ptr_to(contents_in(word))) {
                return Ok(false);
            }
            if self.retag(cell, word, tag) {
                return Ok(true);
            }
        }
        Err(Refused::Contended)
    }

    /// Reserves a free cell, for what is decided when it is filled.
    ///
    /// `NoCell` where a walk over all cells found none free; `Contended` where as many exchanges were lost as the limits allow.
    pub fn reserve_cell(&mut self) -> Result<RawRight, Refused>
        ensures right { IfOk result (λ cell. raw_home_of cell ≡ cells_home self.old.home) }
        ensures reserved { MatchResult result
            (λ cell. WritesAt (raw_number_of cell) 0 (null_word 0) self.old self.new)
            (λ e. (self.new ≡ self.old) × ClaimsNone e self.old) }
    {
        let next = self.first_cell();
        let cells = self.domain.limits.cells as u32;
        let tries = self.domain.limits.tries;
        let (cell, right) = match reserve(&mut self.seat, next, cells, tries) {
            Ok(reserved) => reserved,
            Err(missed) => return Err(without_sightings(missed)),
        };
        self.next_cell = cell + 1;
        Ok(RawRight::of_cell(cell, MOST_CELLS, right))
    }

    /// A cell that was reserved holds an owner of this kind, or none, with this tag.
    fn fill_cell(
        &mut self,
        reserved: RawRight,
        held: Option<Right>,
        tag: Tag,
        kind: StandingKind,
    ) -> Right
        requires home { raw_home_of reserved ≡ cells_home self.old.home }
        requires owner { IsOwner kind }
        requires held { MayHold (slots_home self.old) kind held }
        ensures number { number_of result ≡ raw_number_of reserved }
        ensures right { (home_of result ≡ cells_home self.old.home) × (kind_of result ≡ kind) }
        ensures filled { (word : ℕ) × (0 < word) × (contents_of word ≡ cell_with held tag) × (raw_number_of reserved < self.old.sizes.cells)
            × (self.new ≡ record self.old { words = slice_set self.old.words (raw_number_of reserved) word }) }
    {
        let cell = reserved.number();
        let table = &self.domain.table;
        let shared = is_one_of_several(kind);
        let new = loosen(table, held, kind);
        let word = word_for(&new, tag);
        let of_cell = reserved.into_witness();
        let right = fill(&mut self.seat, cell, of_cell, new, word, shared);
        Right::of_cell(cell, MOST_CELLS, kind, right)
    }

    /// Puts a value into a free slot, and its owner, which is of this kind, into a free cell, and enters it in the ghost values. No memory is taken.
    ///
    /// The value comes back: `NoSlot` where no slot was found free, else `NoCell` where no cell was; `Contended` where as many exchanges were lost as the
    /// limits allow.
    pub fn new_in_cell(
        &mut self,
        value: T,
        kind: StandingKind,
        ghost_values: &mut GhostValues<T>,
    ) -> Result<Right, (T, Refused)>
        requires owner { IsOwner kind }
        requires home { AreOf (home_in self.old) (T.holds value) }
        ensures right { IfOk result (λ cell. (home_of cell ≡ cells_home self.old.home) × (kind_of cell ≡ kind)) }
        ensures back { IfErr result (λ e. e.0 ≡ value) }
        ensures made { MatchResult result
            (λ cell. (slot : ℕ) × MakesInCell (number_of cell) slot (is_shared kind) (showing T.row value) self.old self.new
            × (ghost_values.new.entries ≡ slice_set ghost_values.old.entries slot (Some (value, showing T.row value))))
            (λ e. MakesNone e.1 self.old self.new × (ghost_values.new.entries ≡ ghost_values.old.entries)) }
    {
        let reserved = match self.reserve_cell() {
            Ok(reserved) => reserved,
            Err(refused) => {
                let refused = if self.has_slot() {
                    refused
                } else {
                    Refused::NoSlot
                };
                return Err((value, refused));
            }
        };
        match self.new_item(value, kind, ghost_values) {
            Ok(owner) => Ok(self.fill_cell(reserved, Some(owner), Tag::None, kind)),
            Err((value, refused)) => {
                self.free_raw_cell(reserved);
                Err((value, refused))
            }
        }
    }

    /// One owner more of what a cell of shared owners holds, if it holds anything, with its tag.
    ///
    /// `TooManyOwners` where as many own it as may; `Contended` where others changed the cell or its item's owners meanwhile as often as the limits allow.
    fn copy_held(&mut self, cell: &Right, guard: &Guard) -> Result<(Option<Right>, Tag), Refused>
        requires home { home_of cell.now ≡ cells_home self.old.home }
        requires kind { kind_of cell.now ≡ StandingKind.Shared }
        requires reader { reader_of guard.now ≡ self.old.reader }
        ensures right { IfOk result (λ copy. MayHold (slots_home self.old) StandingKind.Shared copy.0) }
        ensures copied { MatchResult result
            (λ copy. Copies (number_of cell.now) copy.0 copy.1 self.old self.new)
            (λ e. CopiesNone (number_of cell.now) e self.old self.new) }
    {
        for _attempt in 0..self.domain.limits.tries {
            let (held, tag) = self.load(cell, guard);
            let Some((slot, _value)) = held else {
                return Ok((None, tag));
            };
            match self.own_seen(slot) {
                Ok(Some(owner)) => return Ok((Some(owner), tag)),
                Ok(None) => {}
                Err(refused) => return Err(refused),
            }
        }
        Err(Refused::Contended)
    }

    /// One owner more of what a cell of shared owners holds, if it holds anything. None where it was found to hold nothing.
    ///
    /// `TooManyOwners` where as many own it as may; `Contended` where others changed the cell or its item's owners meanwhile as often as the limits allow.
    pub fn share_held(&mut self, cell: &Right, guard: &Guard) -> Result<Option<Right>, Refused>
        requires home { home_of cell.now ≡ cells_home self.old.home }
        requires kind { kind_of cell.now ≡ StandingKind.Shared }
        requires reader { reader_of guard.now ≡ self.old.reader }
        ensures right { IfOk result (MayHold (slots_home self.old) StandingKind.Shared) }
        ensures inside { number_of cell.now < self.old.sizes.cells }
        ensures full { IsLone self.old → 0 < cell_word_of self.old (number_of cell.now) }
        ensures copied { MatchResult result
            (λ copy. (tag : Tag) × Copies (number_of cell.now) copy tag self.old self.new)
            (λ e. CopiesNone (number_of cell.now) e self.old self.new) }
    {
        self.recall_full(cell);
        match self.copy_held(cell, guard) {
            Ok((copy, _tag)) => Ok(copy),
            Err(refused) => Err(refused),
        }
    }

    /// Another cell holds one owner more of what a cell of shared owners holds, if it holds anything, with its tag. No memory is taken.
    ///
    /// `NoCell` where no cell was found free, else `TooManyOwners` where as many own the item as may; `Contended` where as many exchanges were lost as the
    /// limits allow.
    pub fn clone_cell(&mut self, cell: &Right, guard: &Guard) -> Result<Right, Refused>
        requires home { home_of cell.now ≡ cells_home self.old.home }
        requires kind { kind_of cell.now ≡ StandingKind.Shared }
        requires reader { reader_of guard.now ≡ self.old.reader }
        ensures right { IfOk result (λ other. (home_of other ≡ cells_home self.old.home) × (kind_of other ≡ StandingKind.Shared)) }
        ensures inside { number_of cell.now < self.old.sizes.cells }
        ensures full { IsLone self.old → 0 < cell_word_of self.old (number_of cell.now) }
        ensures cloned { MatchResult result
            (λ other. ClonesTo (number_of cell.now) (number_of other) self.old self.new)
            (λ e. ((self.new ≡ self.old) × ClaimsNone e self.old) ⊎ ClonesNone (number_of cell.now) e self.old self.new) }
    {
        self.recall_full(cell);
        let reserved = match self.reserve_cell() {
            Ok(reserved) => reserved,
            Err(refused) => return Err(refused),
        };
        match self.copy_held(cell, guard) {
            Ok((copy, tag)) => Ok(self.fill_cell(reserved, copy, tag, StandingKind::Shared)),
            Err(refused) => {
                self.free_raw_cell(reserved);
                Err(refused)
            }
        }
    }

    /// A cell is free again. The owner that it held comes, if it held one, with the cell's word before.
    pub fn into_contents(&mut self, right: Right, kind: StandingKind) -> (Option<Right>, u64)
        requires home { home_of right ≡ cells_home self.old.home }
        requires kind { kind_of right ≡ kind }
        requires owner { IsOwner kind }
        ensures freed { FreesAt (number_of right) result.1 self.old self.new }
        ensures slots { listed (slot_held result.0) ≡ held_slots result.1 }
        ensures held { MayHold (slots_home self.old) kind result.0 }
    {
        let cell = right.number();
        let slots = self.domain.limits.slots;
        let (of_cell, read_fraction) = right.into_owner();
        read_fraction.discard();
        let (held, word) = free(&mut self.seat, cell, of_cell);
        self.next_cell = cell;
        (bind(&self.domain.table, slots, held, kind), word)
    }

    /// A cell that holds no owners is free again. Answers its word before.
    pub fn free_raw_cell(&mut self, right: RawRight) -> u64
        requires home { raw_home_of right ≡ cells_home self.old.home }
        ensures freed { FreesAt (raw_number_of right) result self.old self.new }
        ensures bare { held_slots result ≡ [] }
    {
        let cell = right.number();
        let of_cell = right.into_witness();
        self.next_cell = cell;
        free_bare(&mut self.seat, cell, of_cell)
    }
}
