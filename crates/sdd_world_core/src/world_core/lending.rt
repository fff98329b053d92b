//! Values are lent to guards.
ghost use Rattle.std.specs.Prelude.{◌≡◌, Some, IsSome, IfSome, ◌↔◌};
ghost use Rattle.sdd_rights.specs.Right.{number_of, home_of, kind_of};
ghost use Rattle.sdd_world_model.specs.Slots.{IsOwnedBy};
ghost use Rattle.sdd_space.specs.Ptr.{PtrIsShown, cell_seen, slot_named};
ghost use Rattle.sdd_participants.specs.Slab.{entry_at};
ghost use Rattle.sdd_world_model.specs.World.{standing_at, value_at, HasPlace};
ghost use Rattle.sdd_world_model.specs.UnderGuards.{CannotGo};
ghost use Rattle.sdd_world_core.specs.Lending.{AreLent, IsSectionAt};

use super::WorldCore;
use sdd_core::SlotName;
use sdd_participants::{Job, Standing};
use sdd_rights::Right;
use sdd_space::{Item, Ptr, inner};
use sdd_values::ReadSection;

impl<T: Item<T>, J: Job> WorldCore<T, J> {
    /// The value of an owner's item, for as long as a part of the place's section is borrowed.
    pub fn look<'g>(&mut self, place: usize, right: &Right, section: &'g ReadSection) -> &'g T
        requires place { HasPlace self.old.world place }
        requires home { home_of right.now ≡ self.old.world.home.slots }
        requires lent { AreLent self.old }
        requires section { IsSectionAt self.old.world.home.readers place section.now }
        ensures value { value_at self.new.world (number_of right.now) ≡ Some result.now }
        ensures world { self.new.world ≡ self.old.world }
        ensures jobs { self.new.deferred ≡ self.old.deferred }
        ensures lent { AreLent self.new }
    {
        let slot = self.slots.slot_of(right);
        self.look_in(place, slot, section)
    }

    /// A pointer to what a cell holds, with the cell's tag, for as long as a part of the place's section is borrowed.
    pub fn load<'g>(&mut self, place: usize, cell: &Right, section: &'g ReadSection) -> Ptr<'g, T>
        requires place { HasPlace self.old.world place }
        requires home { home_of cell.now ≡ self.old.world.home.cells }
        requires lent { AreLent self.old }
        requires section { IsSectionAt self.old.world.home.readers place section.now }
        ensures seen { entry_at self.old.world.cells (number_of cell.now) ≡ Some (cell_seen result) }
        ensures owned { IfSome (slot_named result) (λ slot. IsOwnedBy (kind_of cell.now) (standing_at self.old.world slot)) }
        ensures shown { PtrIsShown (λ k value. value_at self.old.world k ≡ Some value) result }
        ensures world { self.new.world ≡ self.old.world }
        ensures jobs { self.new.deferred ≡ self.old.deferred }
        ensures lent { AreLent self.new }
    {
        let tag = self.cells.get(cell).tag;
        let Some(slot) = self.slot_held(cell) else {
            return inner::null_with(tag);
        };
        inner::ptr_to(SlotName::of(slot), self.look_in(place, slot, section)).with_tag(tag)
    }

    /// The value in a slot whose item stays there while a guard of the place is open.
    pub fn look_in<'g>(&mut self, place: usize, slot: u32, section: &'g ReadSection) -> &'g T
        requires place { HasPlace self.old.world place }
        requires stays { CannotGo self.old.world place slot }
        requires lent { AreLent self.old }
        requires section { IsSectionAt self.old.world.home.readers place section.now }
        ensures value { value_at self.new.world slot ≡ Some result.now }
        ensures world { self.new.world ≡ self.old.world }
        ensures jobs { self.new.deferred ≡ self.old.deferred }
        ensures lent { AreLent self.new }
    {
        self.sections.agree(place, section);
        self.slots.look(slot, place, section)
    }

    /// The value of an item that is out as raw, for as long as a part of the place's section is borrowed; of any other slot none.
    pub fn lend_raw<'g>(
        &mut self,
        place: usize,
        slot: u32,
        section: &'g ReadSection,
    ) -> Option<&'g T>
        requires place { HasPlace self.old.world place }
        requires lent { AreLent self.old }
        requires section { IsSectionAt self.old.world.home.readers place section.now }
        ensures raw { IsSome result ↔ (standing_at self.old.world slot ≡ Some Standing.Raw) }
        ensures value { IfSome result (λ value. value_at self.new.world slot ≡ Some value.now) }
        ensures world { self.new.world ≡ self.old.world }
        ensures jobs { self.new.deferred ≡ self.old.deferred }
        ensures lent { AreLent self.new }
    {
        let Some(Standing::Raw) = self.slots.standing(slot) else {
            return None;
        };
        Some(self.look_in(place, slot, section))
    }
}
