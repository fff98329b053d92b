use std::alloc::{AllocError, AllocFailed};
use thiserror::Error;

/// Why a call was refused: it gave its arguments back and changed nothing, unless its own page says otherwise.
#[derive(Clone, Copy, Debug, PartialEq, Eq, Error)]
pub enum Refused {
    #[error("a slot is needed and none is free")]
    NoSlot,
    #[error("a cell is needed and none is free, or too few are")]
    NoCell,
    #[error("the job table is full")]
    NoJob,
    #[error("all participant places are taken")]
    NoPlace,
    #[error("want of memory")]
    NoMemory,
    #[error("the greatest nesting count is reached")]
    TooManyGuards,
    #[error("a guard is open")]
    GuardOpen,
    #[error("another owner is there")]
    NotAlone,
    #[error("an owner, an item out as raw, a cell or a collector is still out")]
    OwnerOut,
    #[error("every allowed exchange was lost")]
    Contended,
    #[error("the item has 2^62 owners")]
    TooManyOwners,
    #[error("a limit is out of range")]
    BadLimits,
}

impl From<AllocError> for Refused {
    ghost use Rattle.sdd_core.specs.declared.refused.Refused.TheVariants.{NoMemory};
    ghost use Rattle.std.specs.Prelude.{◌≡◌};

    ghost from_gives = { λ _ e. e ≡ NoMemory };

    fn from(_error: AllocError) -> Refused {
        Refused::NoMemory
    }
}

impl<T: Drop> From<AllocFailed<T>> for Refused {
    ghost use Rattle.sdd_core.specs.declared.refused.Refused.TheVariants.{NoMemory};
    ghost use Rattle.std.specs.Prelude.{◌≡◌};

    ghost from_gives = { λ _ e. e ≡ NoMemory };

    fn from(_error: AllocFailed<T>) -> Refused {
        Refused::NoMemory
    }
}
