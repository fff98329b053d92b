//! A participant as the generic calls of cells have it.

use crate::local::Local;
use sdd_core::{Refused, Tag};
use sdd_domain_core::reclaiming::LocalGiver;
use sdd_participants::{CellContents, Job};
use sdd_rights::{Right, StandingKind};
use sdd_space::{Cells, Guard, Item, Ptr, RawPtr};

impl<T: Item<T>, J: Job> Cells<T> for Local<'_, T, J> {
    fn cell_from(
        &mut self,
        held: Option<Right>,
        tag: Tag,
        kind: StandingKind,
    ) -> Result<Right, (Option<Right>, Refused)> {
        self.giver.core.cell_from(held, tag, kind)
    }

    fn new_in_cell(&mut self, value: T, kind: StandingKind) -> Result<Right, (T, Refused)> {
        let LocalGiver { core, ghost_values } = &mut self.giver;
        core.new_in_cell(value, kind, ghost_values)
    }

    #[inline]
    fn cell(&mut self, cell: &Right) -> CellContents {
        self.giver.core.cell(cell)
    }

    #[inline(always)]
    fn load<'g>(&mut self, cell: &Right, guard: &'g Guard) -> Ptr<'g, T> {
        self.giver.ghost_values.codes();
        self.giver.core.load_pointer(cell, guard)
    }

    #[inline(always)]
    fn swap(
        &mut self,
        cell: &Right,
        new: Option<Right>,
        tag: Tag,
        kind: StandingKind,
    ) -> (Option<Right>, Tag) {
        self.giver.core.swap(cell, new, tag, kind)
    }

    #[inline(always)]
    fn compare_exchange<'g>(
        &mut self,
        cell: &Right,
        current: CellContents,
        new: Option<Right>,
        tag: Tag,
        kind: StandingKind,
        guard: &'g Guard,
    ) -> Result<(Option<Right>, Ptr<'g, T>), (Option<Right>, Ptr<'g, T>)> {
        self.giver.ghost_values.codes();
        let core = &mut self.giver.core;
        let now = core.point_to(&new, tag, guard);
        match core.exchange(cell, current, new, tag, kind) {
            Ok(old) => Ok((old, now)),
            Err(back) => Err((back, core.load_pointer(cell, guard))),
        }
    }

    fn update_tag_if<F: FnMut(RawPtr<T>) -> bool>(
        &mut self,
        cell: &Right,
        tag: Tag,
        condition: F,
    ) -> Result<bool, Refused> {
        self.giver.core.update_tag_if(cell, tag, condition)
    }

    fn share_held(&mut self, cell: &Right, guard: &Guard) -> Result<Option<Right>, Refused> {
        self.giver.core.share_held(cell, guard)
    }

    fn clone_cell(&mut self, cell: &Right, guard: &Guard) -> Result<Right, Refused> {
        self.giver.core.clone_cell(cell, guard)
    }

    fn into_contents(&mut self, cell: Right, kind: StandingKind) -> Option<Right> {
        self.giver.core.into_contents(cell, kind).0
    }
}
