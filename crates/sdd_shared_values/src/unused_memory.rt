//! Room where places were.
ghost use Rattle.std.specs.Prelude.{◌≡◌, ℕ};
ghost use Rattle.sdd_shared_values.specs.SharedValues.{clearing_owns};

use sdd_values::Freeable;
use std::alloc::Allocator;
use std::marker::Model;
use std::mem::{align_of, size_of};

/// The memory of places that nobody uses any more, without the right to free it.
pub(crate) struct UnusedMemory<T> {
    pub(crate) ptr: *mut T,
    pub(crate) ghost size: { ℕ },
}

impl<T> Model for UnusedMemory<T> {
    ghost also_owns = { λ c. clearing_owns T.row c.ptr c.size };
}

impl<T> UnusedMemory<T> {
    ghost use Rattle.sdd_shared_values.specs.Memory.{Frees};

    /// Gives the memory back.
    pub(crate) fn free<A: Allocator>(self, alloc: &A, hold: Freeable<T, A>)
        requires { Frees self.ptr self.size alloc.now hold }
    {
        let UnusedMemory { ptr: _ } = self;
        let Freeable { ptr, len, by: _ } = hold;
        unsafe {
            alloc.deallocate(ptr as *mut u8, len * size_of::<T>(), align_of::<T>());
        }
    }
}
