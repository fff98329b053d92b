//! How a pointer uses a nullable: it is copied as often as wanted, and shows a value or nothing.
ghost use Rattle.std.specs.Prelude.{◌≡◌, ◌↔◌, IsSome, IsTrue, Some, None};
ghost use Rattle.std.specs.Option.{option_copied};

use sdd_values::Nullable;
use std::alloc::AllocError;

const _: () = prove!(size_of::<Seen<'static, u64>>() == 16);

/// A value that is seen, or none, with a number.
pub struct Seen<'g, T> {
    nullable: &'g Nullable<T>,
    number: u32,
    named: bool,
    ghost fits: { IsTrue named ↔ IsSome nullable.now },
}

impl<'g, T> Clone for Seen<'g, T> {
    ghost use Rattle.std.specs.Prelude.{◌≡◌};

    ghost is_clone = { λ seen copy. copy ≡ seen };

    ghost is_infallible = { λ _. Unit {0} };

    fn clone(&self) -> Result<Self, AllocError> {
        Ok(*self)
    }
}

impl<'g, T> Copy for Seen<'g, T> {}

impl<'g, T> Seen<'g, T> {
    /// Nothing is seen.
    pub fn nothing(number: u32) -> Seen<'g, T>
        ensures nullable { result.nullable.now ≡ None }
        ensures number { result.number ≡ number }
    {
        let nullable = Nullable::none();
        Seen {
            nullable,
            number,
            named: false,
        }
    }

    /// A value is seen, for as long as it is borrowed.
    pub fn of(value: &'g T, number: u32) -> Seen<'g, T>
        ensures nullable { result.nullable.now ≡ Some value.now }
        ensures number { result.number ≡ number }
    {
        let nullable = Nullable::of(value);
        Seen {
            nullable,
            number,
            named: true,
        }
    }

    /// The value that is seen, if there is one. It lives on without this.
    pub fn shown(&self) -> Option<&'g T>
        ensures { option_copied result ≡ self.now.nullable.now }
    {
        if self.named {
            Some(self.nullable.get())
        } else {
            None
        }
    }
}

/// Two copies show the same.
pub fn shows_twice<'g, T>(seen: Seen<'g, T>) -> (Option<&'g T>, Option<&'g T>)
    ensures first { option_copied result.0 ≡ seen.entry.nullable.now }
    ensures second { option_copied result.1 ≡ seen.entry.nullable.now }
{
    let first = seen;
    let second = seen;
    (first.shown(), second.shown())
}

/// What is seen may name a lifetime of its own.
pub fn sees_borrowed<'g, 'a>(value: &'g &'a u64) -> Option<&'g &'a u64>
    ensures { option_copied result ≡ Some value.now }
{
    Seen::of(value, 1).shown()
}

fn crosses<X: Send + Sync>(value: X) -> X
    ensures { result ≡ value }
{
    value
}

/// It may cross threads where a reference to the value may.
pub fn crosses_threads<'g, T: Sync>(seen: Seen<'g, T>) -> Seen<'g, T>
    ensures { result ≡ seen.entry }
{
    crosses(seen)
}
