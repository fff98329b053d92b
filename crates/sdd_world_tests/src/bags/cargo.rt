//! A type of its own on the entries of a bag's stack.
ghost use Rattle.std.specs.Prelude.{◌≡◌, MatchResult, None, Some, option_copied};
ghost use Rattle.sdd_bag.specs.Storages.{holdings_of};
ghost use Rattle.sdd_world_tests.specs.Cargo.{holdings_in, storage_in};
ghost use Rattle.sdd_world_model.specs.OwnerOrCell.{SpaceId, AreOf};

use sdd_bag::{Shelf, Storage};
use sdd_lists::LinkedEntry;
use sdd_space::{Giver, Item};

/// A number, or a storage of a bag of numbers.
pub enum Cargo {
    Number(u64),
    Stored(Storage<u64, 2>),
}

impl Item<LinkedEntry<Cargo>> for Cargo {
    ghost holds = { holdings_in };

    fn give_up<G: Giver<LinkedEntry<Cargo>>>(self, giver: &mut G) {
        match self {
            Cargo::Number(_) => {}
            Cargo::Stored(storage) => storage.give_up(giver),
        }
    }
}

impl Shelf<u64, 2> for Cargo {
    ghost shown = { storage_in };

    fn with_storage(storage: Storage<u64, 2>) -> Self
        ensures shown { storage_in result ≡ Some storage }
        ensures held { (home : SpaceId) → AreOf home (holdings_of storage) → AreOf home (holdings_in result) }
    {
        Cargo::Stored(storage)
    }

    fn storage(&self) -> Option<&Storage<u64, 2>>
        ensures { option_copied result ≡ storage_in self.now }
    {
        match self {
            Cargo::Number(_) => None,
            Cargo::Stored(storage) => Some(storage),
        }
    }

    fn into_storage(self) -> Result<Storage<u64, 2>, Self>
        ensures { MatchResult result (λ storage. storage_in self ≡ Some storage) (λ back. (back ≡ self) × (storage_in self ≡ None)) }
    {
        match self {
            Cargo::Stored(storage) => Ok(storage),
            other => Err(other),
        }
    }
}
