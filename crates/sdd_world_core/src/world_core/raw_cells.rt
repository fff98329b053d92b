//! Raw cells point to items, and hold none.
ghost use Rattle.std.specs.Prelude.{◌≡◌, Some, MatchOption};
ghost use Rattle.sdd_rights.specs.Right.{raw_number_of, raw_home_of};
ghost use Rattle.sdd_participants.specs.Slab.{IsEmptyAt, IsFull};
ghost use Rattle.sdd_world_model.specs.World.{KeepsSizes, pointer_at};
ghost use Rattle.sdd_world_model.specs.WorldChanges.{with_pointer, pointing, without_cell};
ghost use Rattle.sdd_world_model.specs.Out.{IsNullCell};
ghost use Rattle.sdd_world_model.specs.WorldInvariant.{IsWhole};
ghost use Rattle.sdd_world_core.specs.Lending.{AreLent};

use super::WorldCore;
use sdd_participants::{Job, RawCellContents};
use sdd_rights::RawRight;
use sdd_space::Item;

impl<T: Item<T>, J: Job> WorldCore<T, J> {
    /// A free cell is a raw one, and points to this.
    pub fn new_raw_cell(&mut self, pointer: RawCellContents) -> Option<RawRight>
        ensures made { MatchOption result
            (IsFull self.old.world.cells × (self.new ≡ self.old))
            (λ cell. (raw_home_of cell ≡ self.old.world.home.cells) × IsEmptyAt self.old.world.cells (raw_number_of cell)
            × (self.new ≡ record self.old { world = pointing self.old.world (raw_number_of cell) pointer })) }
        ensures sizes { KeepsSizes self.old.world self.new.world }
        ensures whole { IsWhole self.old.world → IsWhole self.new.world }
        ensures lent { IsWhole self.old.world → AreLent self.old → AreLent self.new }
    {
        self.cells.claim_raw(pointer)
    }

    /// What a raw cell points to.
    pub fn pointer(&self, cell: &RawRight) -> RawCellContents
        requires { raw_home_of cell.now ≡ self.now.world.home.cells }
        ensures { pointer_at self.now.world (raw_number_of cell.now) ≡ Some result }
    {
        self.cells.pointer(cell)
    }

    /// A raw cell points to this.
    pub fn point(&mut self, cell: &RawRight, pointer: RawCellContents)
        requires { raw_home_of cell.now ≡ self.old.world.home.cells }
        ensures pointed { self.new ≡ record self.old { world = with_pointer self.old.world (raw_number_of cell.now) pointer } }
        ensures sizes { KeepsSizes self.old.world self.new.world }
        ensures whole { IsWhole self.old.world → IsWhole self.new.world }
        ensures lent { IsWhole self.old.world → AreLent self.old → AreLent self.new }
    {
        self.cells.point(cell, pointer);
    }

    /// Gives a raw cell up. It holds nothing.
    pub fn close_raw_cell(&mut self, cell: RawRight)
        requires { raw_home_of cell ≡ self.old.world.home.cells }
        ensures null { IsNullCell self.old.world (raw_number_of cell) }
        ensures freed { self.new ≡ record self.old { world = without_cell self.old.world (raw_number_of cell) } }
        ensures sizes { KeepsSizes self.old.world self.new.world }
        ensures whole { IsWhole self.old.world → IsWhole self.new.world }
        ensures lent { IsWhole self.old.world → AreLent self.old → AreLent self.new }
    {
        self.cells.close_raw(cell);
    }
}
