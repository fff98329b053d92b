//! What a cell for an item's one owner does.
ghost use Rattle.std.specs.Prelude.{◌≡◌, Some};
ghost use Rattle.sdd_world_model.specs.World.{World};
ghost use Rattle.sdd_space.specs.CallerId.{IsSeated, IsExact};
ghost use Rattle.sdd_space.specs.Undisturbed.{Undisturbed};
ghost use Rattle.sdd_world_model.specs.WorldChanges.{without_cell};
ghost use Rattle.sdd_space.specs.Owned.{cell_of, cells_home, cell_with, IsOfSlots};
ghost use Rattle.sdd_participants.specs.Slab.{entry_at};

use crate::atomic_cell::AtomicCell;
use crate::item::Item;
use crate::owner::Owned;
use crate::ownership::UniqueOwnership;
use crate::space::Cells;
use sdd_core::Tag;
use sdd_rights::StandingKind;

impl<T: Item<T>> AtomicCell<UniqueOwnership, T> {
    /// Frees the cell. What it held comes back.
    pub fn into_owned<S: Cells<T>>(self, s: &mut S) -> Option<Owned<T>>
        requires seated { IsSeated (S.caller s.old) }
        requires home { cells_home self ≡ (S.caller s.old).home.cells }
        ensures undisturbed { Undisturbed S.caller S.own S.known S.shows s.old s.new }
        ensures owner { IsOfSlots (S.caller s.old).home.slots result }
        ensures exact { IsExact (S.caller s.old) → ((tag : Tag) × (entry_at (S.world s.old).cells (cell_of self) ≡ Some (cell_with result tag))) ×
            (S.world s.new ≡ without_cell (S.world s.old) (cell_of self)) }
    {
        Owned::of_held(s.into_contents(self.into_right(), StandingKind::Owned))
    }
}
