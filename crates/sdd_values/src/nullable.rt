//! The address of a value that is shared, or of nothing, in one word.
ghost use Rattle.std.specs.Prelude.{◌≡◌, Option, None, Some, IsSome};
ghost use Rattle.std.specs.Coded.{coded_option};
ghost use base.Fml.{ffalse};
ghost use Rattle.sdd_values.specs.Nullable.{nullable_shares};

use std::marker::{Move, Owns, PhantomData};

const _: () = prove!(size_of::<Nullable<u64>>() == 0);

/// What a reference to it shows: a value, or nothing. It has no bytes and nobody owns one: such a reference is the address of what it shows, in one
/// word, and is copied as any is. It doesn't tell whether there is a value, so whoever keeps one keeps that beside it.
pub struct Nullable<T> {
    of: PhantomData<T>,
}

impl<T> Owns for Nullable<T> {
    ghost Value = { Option T };

    ghost coded = { coded_option T.code };

    ghost shr_at = { λ shown p κ. nullable_shares T.row shown p κ };
}

impl<T> Move for Nullable<T> {
    ghost own_val = { λ _ _. ffalse };
}

impl<T> Nullable<T> {
    /// One that shows nothing.
    pub fn none<'g>() -> &'g Nullable<T>
        ensures { result.now ≡ None }
    {
        unsafe { &*(&() as *const () as *const Nullable<T>) }
    }

    /// One that shows a value, for as long as that is borrowed.
    pub fn of<'g>(value: &'g T) -> &'g Nullable<T>
        ensures { result.now ≡ Some value.now }
    {
        unsafe { &*(value as *const T as *const Nullable<T>) }
    }

    /// The value that it shows, for as long as it is borrowed.
    pub fn get<'g>(&'g self) -> &'g T
        requires { IsSome self.now }
        ensures { self.now ≡ Some result.now }
    {
        unsafe { &*(self as *const Nullable<T> as *const T) }
    }
}

unsafe impl<T: Sync> Send for Nullable<T> {}

unsafe impl<T: Sync> Sync for Nullable<T> {}
