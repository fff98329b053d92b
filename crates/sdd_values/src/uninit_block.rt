//! Room for values side by side, from an allocator, and the right to free it.
ghost use Rattle.core.specs.Prelude.{◌≡◌, length, IfOk};
ghost use Rattle.core.specs.Mem.Slots.{slots_ptr, slots_len};
ghost use Rattle.core.specs.Mem.Slots.Ownership.{leased};
ghost use Rattle.std_alloc.specs.Vec.Ownership.{FitsInBlock};
ghost use Rattle.sdd_values.specs.UninitBlock.{room_owns};

use crate::raw_slice::RawSlice;
use core::slots::Slots;
use std::alloc::{AllocError, Allocator};
use std::marker::{Model, PhantomData};
use std::mem::{align_of, size_of};

/// Room in which nothing is written yet. Its fields are for those who prove by hand.
pub struct UninitBlock<T, A: Allocator> {
    pub ptr: *mut T,
    pub len: usize,
    pub by: PhantomData<A>,
    pub ghost alloc: { A },
}

impl<T, A: Allocator> Model for UninitBlock<T, A> {
    ghost also_owns = { λ r. room_owns (A.dealloc_token r.alloc) T.row r.ptr r.len };
}

/// The right to free a block. Its fields are for those who prove by hand.
pub struct Freeable<T, A: Allocator> {
    pub ptr: *mut T,
    pub len: usize,
    pub by: PhantomData<A>,
    pub ghost alloc: { A },
}

impl<T, A: Allocator> Model for Freeable<T, A> {
    ghost also_owns = { λ h. leased (A.dealloc_token h.alloc) T.row h.ptr h.len };
}

impl<T, A: Allocator> UninitBlock<T, A> {
    /// Asks the allocator for room for that many values.
    pub fn new(alloc: &A, len: usize) -> Result<UninitBlock<T, A>, AllocError>
        requires { FitsInBlock T.row len }
        ensures { IfOk result (λ r. (r.len ≡ len) × (r.alloc ≡ alloc.now)) }
    {
        match alloc.allocate(len * size_of::<T>(), align_of::<T>()) {
            Ok(block) => {
                let ptr = block as *mut T;
                let by = PhantomData;
                Ok(UninitBlock { ptr, len, by })
            }
            Err(refused) => Err(refused),
        }
    }

    /// Empty places, as many as there is room for. `like` is any value of the type, and isn't used.
    pub(crate) fn open(self, like: &T) -> (Slots<T>, Freeable<T, A>)
        requires { FitsInBlock T.row self.len }
        ensures { (slots_len result.0 ≡ self.len) × (result.1.ptr ≡ slots_ptr result.0) × (result.1.len ≡ self.len) × (result.1.alloc ≡ self.alloc) }
    {
        let _ = like;
        let UninitBlock { ptr, len, by } = self;
        let slots = unsafe { Slots::from_raw_parts(ptr, len) };
        (slots, Freeable { ptr, len, by })
    }
}

impl<T, A: Allocator> Freeable<T, A> {
    /// Gives the block back. Values that lie there are forgotten.
    pub(crate) fn release(self, alloc: &A, strip: RawSlice<T>)
        requires { (self.ptr ≡ strip.ptr) × (self.len ≡ length strip.items) × (self.alloc ≡ alloc.now) }
    {
        let RawSlice { ptr: _ } = strip;
        let Freeable { ptr, len, by: _ } = self;
        unsafe {
            alloc.deallocate(ptr as *mut u8, len * size_of::<T>(), align_of::<T>());
        }
    }
}

unsafe impl<T, A: Allocator + Send> Send for Freeable<T, A> {}

unsafe impl<T, A: Allocator + Send> Sync for Freeable<T, A> {}
