//! Values side by side, owned by a pointer alone.
ghost use Rattle.core.specs.Prelude.{◌≡◌, List};
ghost use Rattle.core.specs.Mem.Slots.{slots_items, slots_ptr, IsFull};
ghost use Rattle.atomic_table.specs.Seated.{strip};

use core::slots::Slots;
use std::marker::Model;

pub(crate) struct RawSlice<T> {
    pub(crate) ptr: *mut T,
    pub(crate) ghost items: { List T },
}

impl<T> Model for RawSlice<T> {
    ghost also_owns = { λ s. strip T.row s.ptr s.items };
}

impl<T> RawSlice<T> {
    pub(crate) fn of(row: Slots<T>) -> RawSlice<T>
        requires { IsFull row }
        ensures { (result.ptr ≡ slots_ptr row) × (result.items ≡ slots_items row) }
    {
        let parts = unsafe { row.into_raw_parts() };
        RawSlice { ptr: parts.0 }
    }
}
