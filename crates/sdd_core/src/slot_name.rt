ghost use Rattle.std.specs.Prelude.{ℕ, ◌≡◌};

use std::fmt::{self, Debug, Formatter};
use std::marker::Model;

/// The name of a slot. A right, a pointer, what a cell holds and an entry of a bag say by it which item they mean; no two slots of a space have the same.
#[derive(Clone, Copy, PartialEq, Eq)]
pub struct SlotName {
    number: u32,
}

const _: () = prove!(size_of::<SlotName>() == 4);

impl Model for SlotName {
    ghost Value = { ℕ };

    ghost view = { λ name. name.number };

    ghost inverse = { λ number. record { number = number } };
}

impl SlotName {
    /// The name of the slot of that number.
    #[inline(always)]
    pub const fn of(number: u32) -> SlotName
        ensures { result ≡ number }
    {
        SlotName { number }
    }

    /// The slot's number, by which its space finds its word and its value.
    #[inline(always)]
    pub const fn number(self) -> u32
        ensures { result ≡ self }
    {
        self.number
    }
}

impl Debug for SlotName {
    fn fmt<W: fmt::Write>(&self, f: &mut Formatter<W>) -> fmt::Result {
        self.number.fmt(f)
    }
}
