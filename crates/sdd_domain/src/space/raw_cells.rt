//! A participant as the generic calls of raw cells have it.
use crate::local::Local;
use sdd_core::{Refused, Tag};
use sdd_participants::{Job, RawCellContents};
use sdd_rights::RawRight;
use sdd_space::{Item, RawCells, RawPtr};

impl<T: Item<T>, J: Job> RawCells<T> for Local<'_, T, J> {
    fn new_raw_cell(&mut self, pointer: RawCellContents) -> Result<RawRight, Refused> {
        self.giver.core.new_raw_cell(pointer)
    }

    #[inline]
    fn pointer(&mut self, cell: &RawRight) -> RawCellContents {
        self.giver.core.pointer(cell)
    }

    fn swap_raw(&mut self, cell: &RawRight, new: RawCellContents) -> RawCellContents {
        self.giver.core.swap_raw(cell, new)
    }

    fn compare_exchange_raw(
        &mut self,
        cell: &RawRight,
        current: RawCellContents,
        new: RawCellContents,
    ) -> Result<(), RawCellContents> {
        self.giver.core.compare_exchange_raw(cell, current, new)
    }

    fn update_raw_tag_if<F: FnMut(RawPtr<T>) -> bool>(
        &mut self,
        cell: &RawRight,
        tag: Tag,
        condition: F,
    ) -> Result<bool, Refused> {
        self.giver.core.update_raw_tag_if(cell, tag, condition)
    }

    fn fetch_update_raw<F: FnMut(RawPtr<T>) -> Option<RawPtr<T>>>(
        &mut self,
        cell: &RawRight,
        f: F,
    ) -> Result<Result<RawPtr<T>, RawPtr<T>>, Refused> {
        self.giver.core.fetch_update_raw(cell, f)
    }

    fn close_raw_cell(&mut self, cell: RawRight) {
        self.giver.core.free_raw_cell(cell);
    }
}
