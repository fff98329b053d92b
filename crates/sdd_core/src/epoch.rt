ghost use Rattle.std.specs.Prelude.{◌≡◌, ℕ, ◌<◌, Ok};
ghost use Rattle.sdd_core.specs.Epoch.{epoch_of, epoch_after, epoch_before, epoch_later, epoch_numbered, same_generation};

use std::marker::Model;

/// An epoch as callers see it: the count of a world or domain, modulo 64.
///
/// What was retired in one epoch is out of every guard's reach once the epoch has moved on to another generation:
/// see [`Epoch::in_same_generation`]. The order is that of the numbers 0 to 63, so it isn't an order in time.
#[derive(Clone, Copy, Debug, PartialEq, Eq, PartialOrd, Ord)]
pub struct Epoch {
    value: u8,
}

impl Model for Epoch {
    ghost Value = { ℕ };

    ghost view = { λ epoch. epoch.value };

    ghost invariant = { λ epoch. epoch.value < 64 };

    ghost inverse = { λ number. record { value = number } };
}

impl Epoch {
    const NUMBER: u8 = 64;

    /// The epoch that shows a count.
    pub(crate) const fn of_count(count: u64) -> Epoch
        ensures { result ≡ epoch_of count }
    {
        Epoch {
            value: (count % 64) as u8,
        }
    }

    /// The epoch after this one; after the last comes the first again.
    pub const fn next(self) -> Epoch
        ensures value { result ≡ epoch_after self }
        ensures undone { epoch_before result ≡ self }
        ensures round { epoch_later 64 self ≡ self }
    {
        Epoch {
            value: (self.value + 1) % Epoch::NUMBER,
        }
    }

    /// The epoch before this one; before the first comes the last.
    pub const fn prev(self) -> Epoch
        ensures value { result ≡ epoch_before self }
        ensures undone { epoch_after result ≡ self }
    {
        Epoch {
            value: (self.value + 63) % Epoch::NUMBER,
        }
    }

    /// The first epoch of the next generation: the one three after this.
    pub const fn next_generation(self) -> Epoch
        ensures { result ≡ epoch_after (epoch_after (epoch_after self)) }
    {
        self.next().next().next()
    }

    /// Whether the other epoch is this one or one of the two after it.
    ///
    /// Where it is not, and the other was seen later, an item retired under a guard that saw this epoch is out of the
    /// reach of every guard that was open then.
    pub const fn in_same_generation(self, other: Epoch) -> bool
        ensures { result ≡ same_generation self other }
    {
        let number = other.value;
        number == self.value || number == self.next().value || number == self.next().next().value
    }
}

impl Default for Epoch {
    ghost is_default = { λ epoch. epoch ≡ 0 };

    fn default() -> Epoch {
        Epoch { value: 0 }
    }
}

impl TryFrom<u8> for Epoch {
    /// The epoch that the number shows as a count.
    type Error = Epoch;

    ghost try_from_gives = { λ number answer. answer ≡ epoch_numbered number };

    fn try_from(number: u8) -> Result<Epoch, Epoch> {
        let epoch = Epoch::of_count(u64::from(number));
        if number < Epoch::NUMBER {
            Ok(epoch)
        } else {
            Err(epoch)
        }
    }
}

impl From<Epoch> for u8 {
    ghost from_gives = { λ epoch number. (number ≡ epoch) × (epoch_numbered number ≡ Ok epoch) };

    fn from(epoch: Epoch) -> u8 {
        epoch.value
    }
}
