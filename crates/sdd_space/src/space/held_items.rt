ghost use Rattle.std.specs.Prelude.{◌≡◌, ◌↔◌, IfSome, IsTrue, Some};
ghost use Rattle.sdd_participants.specs.Slab.{entry_at};
ghost use Rattle.sdd_rights.specs.Right.{number_of, home_of};
ghost use Rattle.sdd_space.specs.CallerId.{IsExact};
ghost use Rattle.sdd_world_model.specs.OwnerOrCell.{AreOf};
ghost use Rattle.sdd_world_model.specs.World.{AnyGuardOpen, value_at};
ghost use Rattle.sdd_world_model.specs.WorldChanges.{held_in};
ghost use Rattle.sdd_world_model.specs.Cells.{slot_held};

use crate::item::Item;
use crate::space::caller::Caller;
use sdd_participants::CellContents;
use sdd_rights::Right;

/// Items that cells hold, looked at without a guard: while the space is borrowed for that, nobody changes it.
pub trait HeldItems<T: Item<T>>: Caller<T> {
    /// A guard is open, of whatever participant.
    fn is_guarded(&self) -> bool
        ensures exact { IsExact (Self.caller self.now) → IsTrue result ↔ AnyGuardOpen (Self.world self.now) };

    /// Where the right of the owner lies that a cell holds, if it holds one.
    fn right_in<'a>(&'a self, cell: &Right) -> &'a Option<Right>
        requires home { home_of cell.now ≡ (Self.caller self.now).home.cells }
        ensures home { IfSome result.now (λ owner. home_of owner ≡ (Self.caller self.now).home.slots) }
        ensures exact { IsExact (Self.caller self.now) → slot_held result.now ≡ held_in (entry_at (Self.world self.now).cells (number_of cell.now)) };

    /// The value of the item of an owner that a cell holds. What the value holds is of this home, so that a cell that stands in it can be looked at.
    fn value_of<'a>(&'a self, owner: &Right) -> &'a T
        requires home { home_of owner.now ≡ (Self.caller self.now).home.slots }
        ensures held { AreOf (Self.caller self.now).home (T.holds result.now) }
        ensures exact { IsExact (Self.caller self.now) → value_at (Self.world self.now) (number_of owner.now) ≡ Some result.now };

    /// What a cell holds.
    fn contents(&self, cell: &Right) -> CellContents
        requires home { home_of cell.now ≡ (Self.caller self.now).home.cells }
        ensures exact { IsExact (Self.caller self.now) → entry_at (Self.world self.now).cells (number_of cell.now) ≡ Some result };
}
