//! What the entries of a bag's overflow have for values.
ghost use Rattle.std.specs.Prelude.{◌≡◌, MatchResult, None, Option, Some, option_copied};
ghost use Rattle.sdd_bag.specs.Storages.{StorageName, holdings_of};
ghost use Rattle.sdd_world_model.specs.OwnerOrCell.{SpaceId, AreOf};

use crate::storage::Storage;
use sdd_lists::LinkedEntry;
use sdd_space::Item;

/// What an entry of a bag's overflow has for a value: a storage, or what is made of one and shows it. An enum may be of other things too, which show none.
pub trait Shelf<T, const ARRAY_LEN: usize>: Item<LinkedEntry<Self>> {
    /// The storage that it shows, if it was made of one.
    ghost shown: { Self → Option StorageName };

    /// A shelf with this storage.
    fn with_storage(storage: Storage<T, ARRAY_LEN>) -> Self
        ensures shown { shown result ≡ Some storage }
        ensures held { (home : SpaceId) → AreOf home (holdings_of storage) → AreOf home (Self.holds result) };

    /// The storage, if it was made of one.
    fn storage(&self) -> Option<&Storage<T, ARRAY_LEN>>
        ensures { option_copied result ≡ shown self.now };

    /// The storage of which it was made; what was made of none comes back.
    fn into_storage(self) -> Result<Storage<T, ARRAY_LEN>, Self>
        ensures { MatchResult result (λ storage. shown self ≡ Some storage) (λ back. (back ≡ self) × (shown self ≡ None)) };
}

impl<T: Item<LinkedEntry<Storage<T, ARRAY_LEN>>>, const ARRAY_LEN: usize> Shelf<T, ARRAY_LEN>
    for Storage<T, ARRAY_LEN> {
    ghost shown = { λ s. Some s };

    fn with_storage(storage: Storage<T, ARRAY_LEN>) -> Self
        ensures shown { Some result ≡ Some storage }
        ensures held { (home : SpaceId) → AreOf home (holdings_of storage) → AreOf home (holdings_of result) }
    {
        storage
    }

    fn storage(&self) -> Option<&Storage<T, ARRAY_LEN>>
        ensures { option_copied result ≡ Some self.now }
    {
        Some(self)
    }

    fn into_storage(self) -> Result<Storage<T, ARRAY_LEN>, Self>
        ensures { MatchResult result (λ storage. Some self ≡ Some storage) (λ back. (back ≡ self) × (Some self ≡ None)) }
    {
        Ok(self)
    }
}
