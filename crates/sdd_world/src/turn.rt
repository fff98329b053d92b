ghost use Rattle.std.specs.Prelude.{◌≡◌, ⊤};
ghost use Rattle.sdd_world_model.specs.World.{World, IsPlaceOf};
ghost use Rattle.sdd_world.specs.Place.{index_of};
ghost use Rattle.sdd_world.specs.Shown.{one_value};
ghost use Rattle.sdd_rights.specs.Right.{number_of};

use crate::world::{Place, World};
use sdd_core::{Refused, SlotName, Tag};
use sdd_participants::{CellContents, Idle, Job, RawCellContents};
use sdd_rights::{RawRight, Right, SharedRights, StandingKind};
use sdd_space::{
    Caller, Cells, Collectors, Deferrals, Guard, Guards, HeldItems, InPlaceItems, Item, Items,
    Look, LookThrough, Ptr, RawCells, RawItems, RawPtr, Several, SharedItems, SharedOwners, Shows,
    Space, inner,
};

/// One participant's turn at a world: the space in which it makes its calls.
pub struct Turn<'w, T: Item<T>, J: Job = Idle> {
    world: &'w mut World<T, J>,
    place: usize,
}

impl<T: Item<T>, J: Job> Drop for Turn<'_, T, J> {
    fn drop(self)
        ensures { self.exit.0.now ≡ self.entry.world.now }
    {
        let Turn { world: _, place: _ } = self;
    }
}

impl<T: Item<T>, J: Job> World<T, J> {
    /// The turn of a participant of this world.
    pub fn at(&mut self, place: &Place) -> Turn<'_, T, J>
        requires place { IsPlaceOf self.old (index_of place.now) }
        ensures world { result.world.now ≡ self.old }
        ensures loan { result.world.ghost_name ≡ self.entry.ghost_name }
        ensures place { result.place ≡ index_of place.now }
    {
        Turn {
            world: self,
            place: place.index(),
        }
    }
}

impl<T: Item<T>, J: Job> Shows<T> for World<T, J> {
    ghost use Rattle.std.specs.Prelude.{◌≡◌, Some};
    ghost use Rattle.sdd_world_model.specs.World.{value_at};

    ghost home = { λ w. w.home };

    ghost shows = { λ w k value. value_at w k ≡ Some value };

    ghost owns_value = { λ w right value. value_at w (number_of right) ≡ Some value };

    fn shown_is_of_home(&self) {
        self.core.values_are_of_home();
    }

    ghost one_owned = { λ w right u v a b. one_value w (number_of right) u v a b };

    ghost keeps_owned = { λ _ _ _ kept right value owned. kept (number_of right) value owned };
}

impl<T: Item<T>, J: Job> Look<T> for World<T, J> {
    ghost knows_slots = { λ _. Unit {0} };

    fn value<'a>(&'a self, right: &'a Right) -> &'a T {
        self.core.values_are_of_home();
        self.core.value(right)
    }
}

impl<T: Item<T>, J: Job> LookThrough<T> for World<T, J> {
    ghost use Rattle.std.specs.Prelude.{◌≡◌, option_copied};
    ghost use Rattle.sdd_space.specs.Ptr.{shown_by};

    #[inline]
    fn look<'g>(&self, ptr: Ptr<'g, T>) -> Option<&'g T>
        ensures { option_copied result ≡ shown_by ptr.entry }
    {
        inner::value_of_ptr(ptr)
    }

    ghost one_value = { λ w k u v a b. one_value w k u v a b };
}

impl<T: Item<T>, J: Job> Shows<T> for Turn<'_, T, J> {
    ghost use Rattle.std.specs.Prelude.{◌≡◌, Some};
    ghost use Rattle.sdd_world_model.specs.World.{value_at};

    ghost home = { λ t. t.world.now.home };

    ghost shows = { λ t k value. value_at t.world.now k ≡ Some value };

    ghost owns_value = { λ t right value. value_at t.world.now (number_of right) ≡ Some value };

    fn shown_is_of_home(&self) {
        let world: &World<T, J> = self.world;
        world.core.values_are_of_home();
    }

    ghost one_owned = { λ t right u v a b. one_value t.world.now (number_of right) u v a b };

    ghost keeps_owned = { λ _ _ _ kept right value owned. kept (number_of right) value owned };
}

impl<T: Item<T>, J: Job> Look<T> for Turn<'_, T, J> {
    ghost knows_slots = { λ _. Unit {0} };

    fn value<'a>(&'a self, right: &'a Right) -> &'a T {
        let world: &World<T, J> = self.world;
        world.core.values_are_of_home();
        world.core.value(right)
    }
}

impl<T: Item<T>, J: Job> LookThrough<T> for Turn<'_, T, J> {
    ghost use Rattle.std.specs.Prelude.{◌≡◌, option_copied};
    ghost use Rattle.sdd_space.specs.Ptr.{shown_by};

    #[inline]
    fn look<'g>(&self, ptr: Ptr<'g, T>) -> Option<&'g T>
        ensures { option_copied result ≡ shown_by ptr.entry }
    {
        inner::value_of_ptr(ptr)
    }

    ghost one_value = { λ t k u v a b. one_value t.world.now k u v a b };
}

impl<T: Item<T>, J: Job> Caller<T> for Turn<'_, T, J> {
    ghost use Rattle.std.specs.Prelude.{refl};
    ghost use Rattle.sdd_space.specs.CallerId.{caller_on};
    ghost use Rattle.sdd_world_model.specs.World.{place_at};

    ghost caller = { λ t. caller_on t.world.now t.place t.world.ghost_name };

    ghost own = { λ t. place_at t.world.now t.place };

    ghost known = { λ t. record { told = t.world.now.time.count; since = t.world.now.time.count } };

    ghost world = { λ t. t.world.now };

    fn values_fit_slots(&self) {
        let world: &World<T, J> = self.world;
        let _core = &world.core;
    }

    ghost home_is_caller = { λ _. refl };

    ghost own_is_place = { λ _ _. refl };

    ghost shows_is_value = { λ _ _ _ _. (λ h. h, λ h. h) };
}

/// What its change of the world says is all.
impl<T: Item<T>, J: Job> Guards<T> for Turn<'_, T, J> {
    ghost says_at_opening = { λ _ _. ⊤ };

    ghost says_at_close = { λ _ _. ⊤ };

    fn new_guard(&mut self) -> Result<Guard, Refused> {
        if !self.world.time().can_nest(self.place) {
            return Err(Refused::TooManyGuards);
        }
        let world = &mut *self.world;
        let section = world.core.open(self.place, &mut world.spare);
        Ok(inner::guard_with(section))
    }

    fn close_guard(&mut self, guard: Guard) {
        let world = &mut *self.world;
        world.core.close(self.place, inner::into_section(guard));
    }

    fn count(&mut self) -> u64 {
        self.world.time().count()
    }

    fn has_garbage(&self) -> bool {
        self.world.time().has_garbage(self.place)
    }

    fn set_has_garbage(&mut self) {
        let world = &mut *self.world;
        world.core.set_has_garbage(self.place);
    }

    fn accelerate(&mut self) {
        let world = &mut *self.world;
        world.core.accelerate(self.place);
    }
}

impl<T: Item<T>, J: Job> Items<T> for Turn<'_, T, J> {
    ghost use Rattle.sdd_participants.specs.Slab.{IsFull};

    ghost is_used_up = { λ t. IsFull t.world.now.standings };

    ghost used_up_is_full = { λ _ _. (λ h. h, λ h. h) };

    fn new_item(&mut self, value: T, kind: StandingKind) -> Result<Right, (T, Refused)> {
        let world = &mut *self.world;
        match world.core.new_item(value, kind) {
            Ok(right) => Ok(right),
            Err(value) => Err((value, Refused::NoSlot)),
        }
    }

    fn new_item_with<F: FnOnce() -> T>(
        &mut self,
        make: F,
        kind: StandingKind,
    ) -> Result<Right, (F, Refused)> {
        let world = &mut *self.world;
        if world.core.is_full() {
            return Err((make, Refused::NoSlot));
        }
        Ok(world.core.fill(make(), kind))
    }

    fn get_guarded<'g>(&mut self, right: &Right, guard: &'g Guard) -> &'g T {
        let world = &mut *self.world;
        world.core.look(self.place, right, inner::section_of(guard))
    }

    fn release(&mut self, right: Right, kind: StandingKind) -> bool {
        let world = &mut *self.world;
        world.core.release(self.place, right, kind)
    }

    fn slots(&self) -> u64 {
        let world: &World<T, J> = self.world;
        world.core.slots()
    }

    fn has_slot(&mut self) -> bool {
        let world = &mut *self.world;
        !world.core.is_full()
    }

    #[inline]
    fn owned_is_shown(&mut self, _right: &Right) {}
}

impl<T: Item<T>, J: Job> HeldItems<T> for Turn<'_, T, J> {
    fn is_guarded(&self) -> bool {
        let world: &World<T, J> = self.world;
        world.core.is_guarded()
    }

    fn right_in<'a>(&'a self, cell: &Right) -> &'a Option<Right> {
        let world: &World<T, J> = self.world;
        world.core.right_in(cell)
    }

    fn value_of<'a>(&'a self, owner: &Right) -> &'a T {
        let world: &World<T, J> = self.world;
        world.core.values_are_of_home();
        world.core.value(owner)
    }

    fn contents(&self, cell: &Right) -> CellContents {
        let world: &World<T, J> = self.world;
        world.core.cell(cell)
    }
}

impl<T: Item<T>, J: Job> InPlaceItems<T> for Turn<'_, T, J> {
    ghost keeps_right = { Unit {0} };

    fn get_mut<R, F: FnOnce(&mut T) -> R>(
        &mut self,
        right: &mut Right,
        kind: StandingKind,
        f: F,
    ) -> Result<R, (F, Refused)> {
        let world = &mut *self.world;
        if let Some(refused) = world.core.refused_in_place(right, kind) {
            return Err((f, refused));
        }
        Ok(world.core.get_mut(right, f))
    }

    fn drop_in_place(
        &mut self,
        right: Right,
        kind: StandingKind,
    ) -> Result<bool, (Right, Refused)> {
        let world = &mut *self.world;
        match world.core.refused_in_place(&right, kind) {
            Some(Refused::NotAlone) => Ok(world.core.release(self.place, right, kind)),
            Some(refused) => Err((right, refused)),
            None => {
                world.core.drop_in_place(self.place, right);
                Ok(true)
            }
        }
    }
}

impl<T: Item<T>, J: Job> Several<T> for Turn<'_, T, J> {
    fn make_several(
        &mut self,
        value: T,
        owners: u64,
    ) -> Result<(Right, SharedRights), (T, Refused)> {
        let world = &mut *self.world;
        match world.core.make_several(value, owners) {
            Ok(made) => Ok(made),
            Err(value) => Err((value, Refused::NoSlot)),
        }
    }

    #[inline]
    fn split_off(
        &mut self,
        _right: &Right,
        several: SharedRights,
    ) -> (Right, Option<SharedRights>) {
        several.split_off()
    }
}

impl<T: Item<T>, J: Job> SharedOwners<T> for Turn<'_, T, J> {
    fn clone_owner(&mut self, right: &Right) -> Result<Right, Refused> {
        let world = &mut *self.world;
        world.core.clone_owner(right)
    }
}

impl<T: Item<T>, J: Job> SharedItems<T> for Turn<'_, T, J> {
    ghost asks_shown = { λ _. ⊥ };

    ghost exact_asks_nothing = { λ _ _ asks. asks };

    fn get_shared(&mut self, slot: SlotName) -> Result<Option<Right>, Refused> {
        let world = &mut *self.world;
        world.core.get_shared(slot.number())
    }
}

impl<T: Item<T>, J: Job> RawItems<T> for Turn<'_, T, J> {
    fn into_raw(&mut self, right: Right) -> SlotName {
        let world = &mut *self.world;
        SlotName::of(world.core.into_raw(right))
    }

    fn from_raw(&mut self, slot: SlotName) -> Option<Right> {
        let world = &mut *self.world;
        world.core.from_raw(slot.number())
    }

    fn get_guarded_raw<'g>(&mut self, slot: SlotName, guard: &'g Guard) -> Option<&'g T> {
        let world = &mut *self.world;
        world
            .core
            .lend_raw(self.place, slot.number(), inner::section_of(guard))
    }
}

impl<T: Item<T>, J: Job> Cells<T> for Turn<'_, T, J> {
    fn cell_from(
        &mut self,
        held: Option<Right>,
        tag: Tag,
        kind: StandingKind,
    ) -> Result<Right, (Option<Right>, Refused)> {
        let world = &mut *self.world;
        match world.core.cell_from(held, tag, kind) {
            Ok(cell) => Ok(cell),
            Err(held) => Err((held, Refused::NoCell)),
        }
    }

    fn new_in_cell(&mut self, value: T, kind: StandingKind) -> Result<Right, (T, Refused)> {
        let world = &mut *self.world;
        if world.core.is_full() {
            return Err((value, Refused::NoSlot));
        }
        if world.core.has_no_cell() {
            return Err((value, Refused::NoCell));
        }
        let right = world.core.fill(value, kind);
        Ok(world.core.fill_cell(Some(right), Tag::None, kind))
    }

    fn cell(&mut self, cell: &Right) -> CellContents {
        let world = &mut *self.world;
        world.core.cell(cell)
    }

    fn load<'g>(&mut self, cell: &Right, guard: &'g Guard) -> Ptr<'g, T> {
        let world = &mut *self.world;
        world.core.load(self.place, cell, inner::section_of(guard))
    }

    fn swap(
        &mut self,
        cell: &Right,
        new: Option<Right>,
        tag: Tag,
        kind: StandingKind,
    ) -> (Option<Right>, Tag) {
        let _ = kind;
        let world = &mut *self.world;
        let old = world.core.cell(cell).tag;
        (world.core.swap(cell, new, tag), old)
    }

    fn compare_exchange<'g>(
        &mut self,
        cell: &Right,
        current: CellContents,
        new: Option<Right>,
        tag: Tag,
        kind: StandingKind,
        guard: &'g Guard,
    ) -> Result<(Option<Right>, Ptr<'g, T>), (Option<Right>, Ptr<'g, T>)> {
        let _ = kind;
        let world = &mut *self.world;
        let section = inner::section_of(guard);
        match world.core.compare_exchange(cell, current, new, tag) {
            Ok(old) => Ok((old, world.core.load(self.place, cell, section))),
            Err(back) => Err((back, world.core.load(self.place, cell, section))),
        }
    }

    fn update_tag_if<F: FnMut(RawPtr<T>) -> bool>(
        &mut self,
        cell: &Right,
        tag: Tag,
        mut condition: F,
    ) -> Result<bool, Refused> {
        let world = &mut *self.world;
        if !condition(inner::raw_ptr_to(world.core.cell(cell))) {
            return Ok(false);
        }
        world.core.set_tag(cell, tag);
        Ok(true)
    }

    fn share_held(&mut self, cell: &Right, guard: &Guard) -> Result<Option<Right>, Refused> {
        let _ = guard;
        let world = &mut *self.world;
        world.core.owner_held(cell)
    }

    fn clone_cell(&mut self, cell: &Right, guard: &Guard) -> Result<Right, Refused> {
        let _ = guard;
        let world = &mut *self.world;
        world.core.clone_cell(cell)
    }

    fn into_contents(&mut self, cell: Right, kind: StandingKind) -> Option<Right> {
        let _ = kind;
        let world = &mut *self.world;
        world.core.into_contents(cell)
    }
}

impl<T: Item<T>, J: Job> RawCells<T> for Turn<'_, T, J> {
    fn new_raw_cell(&mut self, pointer: RawCellContents) -> Result<RawRight, Refused> {
        let world = &mut *self.world;
        match world.core.new_raw_cell(pointer) {
            Some(cell) => Ok(cell),
            None => Err(Refused::NoCell),
        }
    }

    fn pointer(&mut self, cell: &RawRight) -> RawCellContents {
        let world = &mut *self.world;
        world.core.pointer(cell)
    }

    fn swap_raw(&mut self, cell: &RawRight, new: RawCellContents) -> RawCellContents {
        let world = &mut *self.world;
        let old = world.core.pointer(cell);
        world.core.point(cell, new);
        old
    }

    fn compare_exchange_raw(
        &mut self,
        cell: &RawRight,
        current: RawCellContents,
        new: RawCellContents,
    ) -> Result<(), RawCellContents> {
        let world = &mut *self.world;
        let now = world.core.pointer(cell);
        if now != current {
            return Err(now);
        }
        world.core.point(cell, new);
        Ok(())
    }

    fn update_raw_tag_if<F: FnMut(RawPtr<T>) -> bool>(
        &mut self,
        cell: &RawRight,
        tag: Tag,
        mut condition: F,
    ) -> Result<bool, Refused> {
        let world = &mut *self.world;
        let ptr = inner::raw_ptr_of(world.core.pointer(cell));
        if !condition(ptr) {
            return Ok(false);
        }
        world
            .core
            .point(cell, inner::pointer_of_raw(&ptr.with_tag(tag)));
        Ok(true)
    }

    fn fetch_update_raw<F: FnMut(RawPtr<T>) -> Option<RawPtr<T>>>(
        &mut self,
        cell: &RawRight,
        mut f: F,
    ) -> Result<Result<RawPtr<T>, RawPtr<T>>, Refused> {
        let world = &mut *self.world;
        let was = inner::raw_ptr_of(world.core.pointer(cell));
        let Some(next) = f(was) else {
            return Ok(Err(was));
        };
        world.core.point(cell, inner::pointer_of_raw(&next));
        Ok(Ok(was))
    }

    fn close_raw_cell(&mut self, cell: RawRight) {
        let world = &mut *self.world;
        world.core.close_raw_cell(cell);
    }
}

impl<T: Item<T>, J: Job> Collectors<T> for Turn<'_, T, J> {
    fn collect(&mut self, collector: &RawRight, right: Right, kind: StandingKind) -> bool {
        let world = &mut *self.world;
        let number = collector.number();
        world.core.collect(self.place, number, right, kind)
    }

    fn close_collector(&mut self, collector: RawRight) -> Result<(), (RawRight, Refused)> {
        let world = &mut *self.world;
        if world.is_guarded() {
            return Err((collector, Refused::GuardOpen));
        }
        world
            .core
            .close_collector(self.place, collector, &mut world.spare);
        Ok(())
    }
}

impl<T: Item<T>, J: Job> Deferrals<T> for Turn<'_, T, J> {
    type Job = J;

    fn defer_execute(&mut self, job: J) -> Result<u32, (J, Refused)> {
        let world = &mut *self.world;
        match world.core.defer_execute(self.place, job) {
            Ok(number) => Ok(number),
            Err(job) => Err((job, Refused::NoJob)),
        }
    }
}

impl<T: Item<T>, J: Job> Space<T> for Turn<'_, T, J> {
    ghost use Rattle.std.specs.Prelude.{true};

    const ALONE: bool = true;

    ghost is_alone = { true };

    ghost alone_is_exact = { λ _ alone. alone };
}
