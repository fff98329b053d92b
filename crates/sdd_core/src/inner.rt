//! What the crates above need beyond the public surface.

ghost use Rattle.std.specs.Prelude.{◌≡◌};
ghost use Rattle.sdd_core.specs.Epoch.{epoch_of};
ghost use Rattle.sdd_core.specs.Refused.{number_of};

use crate::epoch::Epoch;
use crate::refused::Refused;

/// The epoch that shows a count.
pub const fn epoch_of_count(count: u64) -> Epoch
    ensures { result ≡ epoch_of count }
{
    Epoch::of_count(count)
}

/// The number of a refusal, 1 to 12: where several hold, mostly the lowest is answered.
pub const fn number_of_refusal(refused: Refused) -> u8
    ensures { result ≡ number_of refused }
{
    match refused {
        Refused::NoSlot => 1,
        Refused::NoCell => 2,
        Refused::NoJob => 3,
        Refused::NoPlace => 4,
        Refused::NoMemory => 5,
        Refused::TooManyGuards => 6,
        Refused::GuardOpen => 7,
        Refused::NotAlone => 8,
        Refused::OwnerOut => 9,
        Refused::Contended => 10,
        Refused::TooManyOwners => 11,
        Refused::BadLimits => 12,
    }
}
