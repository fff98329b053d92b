ghost use Rattle.std.specs.Prelude.{◌≡◌, ◌<◌, ◌↔◌, ℕ, All, IfErr, IfNone, IfOk, IfSome, IsNone, IsSome, IsTrue, MatchResult, None, OnErr, Some, length, option_copied, replicate, slice_get};
ghost use Rattle.sdd_rights.specs.StandingKind.{IsOwner};
ghost use Rattle.sdd_rights.specs.Right.{number_of, home_of, kind_of, raw_number_of, raw_home_of, badge_home};
ghost use Rattle.sdd_world_model.specs.Cells.{slot_held, null_cell, null_pointer};
ghost use Rattle.sdd_participants.specs.Slab.{IsEmptyAt, IsFull, entry_at};

use sdd_core::{SlotName, Tag};
use sdd_participants::{CellContents, RawCellContents, Slab};
use sdd_rights::{NameWitness, RawRight, Right, RightsAuthority, StandingKind};
use std::alloc::{AllocError, Global};
use std::marker::Model;
use std::mem::replace;

/// Cells, each free or taken. One that is taken holds an owner of a slot, or nothing, and a tag; or it is a raw cell, which holds nothing and has a pointer
/// beside it.
///
/// A cell holds owners of its own kind alone: of an owned item, or of a shared one. Memory is taken when the cells are made, and never again. No call's
/// cost depends on how many cells there are, but that of `is_held`.
pub struct WorldCells {
    rights: RightsAuthority,
    /// The tag of each cell that is taken.
    tags: Slab<Tag>,
    /// The right of the owner that a cell holds.
    held: Vec<Option<Right>>,
    /// Whose slots the owners are of.
    slots: NameWitness,
    /// What a raw cell points to: a word of its own beside the cell.
    pointers: Vec<RawCellContents>,
}

impl Model for WorldCells {
    ghost use Rattle.std.specs.Prelude.{◌≡◌, length};
    ghost use Rattle.sdd_rights.specs.Right.{badge_home};
    ghost use Rattle.sdd_world_model.specs.Cells.{Cells, CellsMatch};
    ghost use Rattle.sdd_world_slots.specs.Contents.{contents_of};

    ghost Value = { Cells };

    ghost view = { λ c. record { home = c.rights.home; cells = contents_of c.tags c.held.items; slots = badge_home c.slots; pointers = c.pointers.items } };

    ghost invariant = { λ c. CellsMatch c.rights.home (badge_home c.slots) c.rights.kept (contents_of c.tags c.held.items) c.held.items
        × (length c.pointers.items ≡ c.rights.home.size) };
}

impl WorldCells {
    ghost use Rattle.sdd_world_model.specs.Cells.{cell_with, slot_held, with_cell, without_cell, with_pointer, MayHold};

    /// That many cells, all free, in a home of their own, for owners of these slots.
    pub fn new(alloc: Global, size: u32, slots: NameWitness) -> Result<WorldCells, AllocError>
        ensures size { IfOk result (λ cells. cells.home.size ≡ size) }
        ensures cells { IfOk result (λ cells. cells.cells ≡ replicate size None) }
        ensures slots { IfOk result (λ cells. cells.slots ≡ badge_home slots) }
        ensures pointers { IfOk result (λ cells. cells.pointers ≡ replicate size null_pointer) }
    {
        let rights = RightsAuthority::new(alloc, size as usize, StandingKind::Free)?;
        let tags = Slab::new(alloc, size, Tag::None)?;
        let (held, pointers) = nothing_held(alloc, size)?;
        Ok(WorldCells {
            rights,
            tags,
            held,
            slots,
            pointers,
        })
    }

    /// Every cell is free.
    pub fn is_unused(&self) -> bool
        ensures { IsTrue result ↔ All (λ cell. IsNone cell) self.now.cells }
    {
        self.tags.is_empty()
    }

    /// No cell is free.
    pub fn is_full(&self) -> bool
        ensures { IsTrue result ↔ IsFull self.now.cells }
    {
        self.tags.is_full()
    }

    /// Takes some free cell for owners of this kind, which holds this one, if there is one, with this tag; where no cell is free it
    /// comes back.
    pub fn claim(
        &mut self,
        held: Option<Right>,
        tag: Tag,
        kind: StandingKind,
    ) -> Result<Right, Option<Right>>
        requires kind { IsOwner kind }
        requires owner { MayHold self.old.slots kind held }
        ensures home { IfOk result (λ right. home_of right ≡ self.old.home) }
        ensures kind { IfOk result (λ right. kind_of right ≡ kind) }
        ensures free { IfOk result (λ right. IsEmptyAt self.old.cells (number_of right)) }
        ensures claimed { MatchResult result
            (λ right. self.new ≡ with_cell self.old (number_of right) (cell_with held tag))
            (λ _. self.new ≡ self.old) }
        ensures full { OnErr result (IsFull self.old.cells) }
        ensures back { IfErr result (λ back. back ≡ held) }
    {
        let Ok(cell) = self.tags.claim(tag) else {
            return Err(held);
        };
        match replace(&mut self.held[cell as usize], held) {
            None => Ok(self.rights.grant(cell, kind)),
            Some(_) => unreachable!(),
        }
    }

    /// Some cell holds an owner of this slot. Each is looked at.
    pub fn is_held(&self, slot: u32) -> bool
        ensures { IsTrue result ↔ ((k : ℕ) × (cell : CellContents) × (entry_at self.now.cells k ≡ Some cell) × (cell.held ≡ Some slot)) }
    {
        for owner in &self.held {
            if is_of(owner, slot) {
                return true;
            }
        }
        false
    }

    /// What a cell holds.
    pub fn get(&self, right: &Right) -> CellContents
        requires { home_of right.now ≡ self.now.home }
        ensures { entry_at self.now.cells (number_of right.now) ≡ Some result }
    {
        self.rights.agrees(right);
        let cell = right.number();
        CellContents {
            held: slot_of(&self.held[cell as usize]),
            tag: self.tags.at(cell),
        }
    }

    /// Where the right of the owner lies that a cell holds, if it holds one.
    pub fn right_in(&self, right: &Right) -> &Option<Right>
        requires { home_of right.now ≡ self.now.home }
        ensures taken { IsSome (entry_at self.now.cells (number_of right.now)) }
        ensures held { IfSome (entry_at self.now.cells (number_of right.now)) (λ cell. cell.held ≡ slot_held result.now) }
        ensures owner { MayHold self.now.slots (kind_of right.now) result.now }
    {
        self.rights.agrees(right);
        &self.held[right.number() as usize]
    }

    /// The right of the owner that a cell holds.
    pub fn owner(&self, right: &Right) -> Option<&Right>
        requires { home_of right.now ≡ self.now.home }
        ensures taken { IsSome (entry_at self.now.cells (number_of right.now)) }
        ensures held { IfSome (entry_at self.now.cells (number_of right.now)) (λ cell. cell.held ≡ slot_held (option_copied result)) }
        ensures owner { MayHold self.now.slots (kind_of right.now) (option_copied result) }
    {
        self.right_in(right).as_ref()
    }

    /// The cell holds this from now on; the owner that it held comes back.
    pub fn swap(&mut self, right: &Right, new: Option<Right>, tag: Tag) -> Option<Right>
        requires home { home_of right.now ≡ self.old.home }
        requires owner { MayHold self.old.slots (kind_of right.now) new }
        ensures taken { IsSome (entry_at self.old.cells (number_of right.now)) }
        ensures held { IfSome (entry_at self.old.cells (number_of right.now)) (λ cell. cell.held ≡ slot_held result) }
        ensures owner { MayHold self.old.slots (kind_of right.now) result }
        ensures swapped { self.new ≡ with_cell self.old (number_of right.now) (cell_with new tag) }
    {
        self.rights.agrees(right);
        let cell = right.number();
        self.tags.replace(cell, tag);
        replace(&mut self.held[cell as usize], new)
    }

    /// The cell has this tag from now on.
    pub fn set_tag(&mut self, right: &Right, tag: Tag)
        requires { home_of right.now ≡ self.old.home }
        ensures taken { IsSome (entry_at self.old.cells (number_of right.now)) }
        ensures tagged { IfSome (entry_at self.old.cells (number_of right.now))
            (λ cell. self.new ≡ with_cell self.old (number_of right.now) (record cell { tag = tag })) }
    {
        self.rights.agrees(right);
        self.tags.replace(right.number(), tag);
    }

    /// Gives a cell up. The owner that it held comes back.
    pub fn close(&mut self, right: Right) -> Option<Right>
        requires { home_of right ≡ self.old.home }
        ensures taken { IsSome (entry_at self.old.cells (number_of right)) }
        ensures held { IfSome (entry_at self.old.cells (number_of right)) (λ cell. cell.held ≡ slot_held result) }
        ensures owner { MayHold self.old.slots (kind_of right) result }
        ensures closed { self.new ≡ without_cell self.old (number_of right) }
    {
        let cell = self.rights.redeem(right);
        self.rights.set(cell as usize, StandingKind::Free);
        self.tags.release(cell);
        self.held[cell as usize].take()
    }

    /// Takes some free cell, which points to this; where no cell is free there is none.
    pub fn claim_raw(&mut self, pointer: RawCellContents) -> Option<RawRight>
        ensures home { IfSome result (λ cell. raw_home_of cell ≡ self.old.home) }
        ensures free { IfSome result (λ cell. IsEmptyAt self.old.cells (raw_number_of cell)) }
        ensures claimed { IfSome result (λ cell. self.new ≡ with_pointer (with_cell self.old (raw_number_of cell) null_cell) (raw_number_of cell) pointer) }
        ensures full { IfNone result (IsFull self.old.cells) }
        ensures same { IfNone result (self.new ≡ self.old) }
    {
        let Ok(cell) = self.tags.claim(Tag::None) else {
            return None;
        };
        self.pointers[cell as usize] = pointer;
        Some(self.rights.grant_raw(cell))
    }

    /// What a raw cell points to. It holds nothing.
    pub fn pointer(&self, cell: &RawRight) -> RawCellContents
        requires { raw_home_of cell.now ≡ self.now.home }
        ensures pointer { slice_get self.now.pointers (raw_number_of cell.now) ≡ Some result }
        ensures taken { IsSome (entry_at self.now.cells (raw_number_of cell.now)) }
        ensures null { IfSome (entry_at self.now.cells (raw_number_of cell.now)) (λ cell. cell.held ≡ None) }
    {
        self.rights.agrees_raw(cell);
        self.pointers[cell.number() as usize]
    }

    /// A raw cell points to this from now on.
    pub fn point(&mut self, cell: &RawRight, pointer: RawCellContents)
        requires { raw_home_of cell.now ≡ self.old.home }
        ensures { self.new ≡ with_pointer self.old (raw_number_of cell.now) pointer }
    {
        self.rights.agrees_raw(cell);
        self.pointers[cell.number() as usize] = pointer;
    }

    /// Gives a raw cell up. It holds nothing.
    pub fn close_raw(&mut self, cell: RawRight)
        requires { raw_home_of cell ≡ self.old.home }
        ensures taken { IsSome (entry_at self.old.cells (raw_number_of cell)) }
        ensures null { IfSome (entry_at self.old.cells (raw_number_of cell)) (λ cell. cell.held ≡ None) }
        ensures closed { self.new ≡ without_cell self.old (raw_number_of cell) }
    {
        let number = self.rights.redeem_raw(cell);
        self.rights.set(number as usize, StandingKind::Free);
        self.tags.release(number);
    }

    /// Lets go of cells that are all free.
    pub fn destroy(self)
        requires { All (λ cell. IsNone cell) self.cells }
    {
        let WorldCells {
            mut rights,
            tags: _,
            mut held,
            slots: _,
            pointers: _,
        } = self;
        // none is held; taking one back would change no byte, so the compiler leaves the loop out
        while let Some(right) = held.pop() {
            if let Some(right) = right {
                let _ = rights.redeem(right);
            }
        }
        held.destroy_empty();
    }
}

/// That many cells hold no owner, and as raw cells point to nothing.
fn nothing_held(
    alloc: Global,
    size: u32,
) -> Result<(Vec<Option<Right>>, Vec<RawCellContents>), AllocError>
    ensures held { IfOk result (λ made. made.0.items ≡ replicate size None) }
    ensures pointers { IfOk result (λ made. made.1.items ≡ replicate size null_pointer) }
{
    let mut pointers = Vec::with_capacity(alloc, size as usize)?;
    let mut held = Vec::with_capacity(alloc, size as usize)?;
    for _cell in 0..size {
        held.push_reserved(None);
        pointers.push_reserved(RawCellContents {
            named: None,
            tag: Tag::None,
        });
    }
    Ok((held, pointers))
}

/// This is an owner of the slot.
fn is_of(owner: &Option<Right>, slot: u32) -> bool
    ensures { IsTrue result ↔ (slot_held owner.now ≡ Some slot) }
{
    match owner {
        Some(right) => right.number() == slot,
        None => false,
    }
}

/// The slot of an owner, if there is one.
fn slot_of(owner: &Option<Right>) -> Option<SlotName>
    ensures { result ≡ slot_held owner.now }
{
    match owner {
        Some(right) => Some(right.name()),
        None => None,
    }
}
