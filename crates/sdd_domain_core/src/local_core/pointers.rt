//! Pointers to what cells hold, and to items whose owners go into cells: the participant's guards see what they show.
ghost use Rattle.std.specs.Prelude.{◌≡◌, ℕ, IfSome};
ghost use Rattle.sdd_rights.specs.StandingKind.{is_shared};
ghost use Rattle.sdd_rights.specs.Right.{number_of, home_of, kind_of};
ghost use Rattle.sdd_world_model.specs.Cells.{MayHold, cell_with};
ghost use Rattle.sdd_shared_values.specs.SharedValues.{showing};
ghost use Rattle.sdd_space.specs.Guard.{reader_of};
ghost use Rattle.sdd_space.specs.Ptr.{cell_seen, slot_named};
ghost use Rattle.sdd_domain_steps.specs.Cells.{FindsAt, IsOwnedThere, LooksThrough};
ghost use Rattle.sdd_domain_steps.specs.Items.{slots_home};
ghost use Rattle.sdd_domain_steps.specs.Local.{contents_of};
ghost use Rattle.sdd_domain_steps.specs.LocalState.{IsLone};
ghost use Rattle.sdd_domain_steps.specs.SpaceIds.{cells_home};

use crate::local_core::LocalCore;
use sdd_core::{SlotName, Tag};
use sdd_participants::Job;
use sdd_rights::{Right, StandingKind};
use sdd_space::inner::{null_with, ptr_to};
use sdd_space::{Guard, Item, Ptr};

impl<'d, T: Item<T>, J: Job> LocalCore<'d, T, J> {
    /// A pointer to what a cell holds, with the cell's tag.
    #[inline(always)]
    pub fn load_pointer<'g>(&mut self, cell: &Right, guard: &'g Guard) -> Ptr<'g, T>
        requires home { home_of cell.now ≡ cells_home self.old.home }
        requires reader { reader_of guard.now ≡ self.old.reader }
        ensures found { (word : ℕ) × FindsAt (number_of cell.now) word self.old × (contents_of word ≡ cell_seen result) }
        ensures seen { LooksThrough (showing T.row) T.holds result self.old self.new }
        ensures owned { IsLone self.old → IfSome (slot_named result) (λ slot. IsOwnedThere slot (is_shared (kind_of cell.now)) self.old) }
    {
        let (held, tag) = self.load(cell, guard);
        let Some((slot, value)) = held else {
            return null_with(tag);
        };
        ptr_to(SlotName::of(slot), value).with_tag(tag)
    }

    /// A pointer with this tag to the item of an owner, if there is one.
    #[inline(always)]
    pub fn point_to<'g>(&mut self, owner: &Option<Right>, tag: Tag, guard: &'g Guard) -> Ptr<'g, T>
        requires held { (kind : StandingKind) × MayHold (slots_home self.old) kind owner.now }
        requires reader { reader_of guard.now ≡ self.old.reader }
        ensures points { cell_seen result ≡ cell_with owner.now tag }
        ensures seen { LooksThrough (showing T.row) T.holds result self.old self.new }
    {
        let Some(right) = owner else {
            return null_with(tag);
        };
        let value = self.get_guarded(right, guard);
        ptr_to(right.name(), value).with_tag(tag)
    }
}
