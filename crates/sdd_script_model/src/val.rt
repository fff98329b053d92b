ghost use Rattle.std.specs.Prelude.{◌≡◌, MatchResult, None, Some, option_copied};
ghost use Rattle.sdd_bag.specs.Storages.{holdings_of};
ghost use Rattle.sdd_world_model.specs.OwnerOrCell.{SpaceId, AreOf};
ghost use Rattle.sdd_script_model.specs.Val.{owner_in, storage_in};

use sdd_bag::{Shelf, Storage};
use sdd_lists::{CloneValue, LinkedEntry};
use sdd_space::inner::{owner_of, right_of_owner};
use sdd_space::{Giver, Item, Owned, Shared};
use std::alloc::AllocError;

/// Stands for the value of the item whose owner a body is: its type has a body in it.
pub struct Nested;

/// What an item of a script holds beside its link: a number, an owner of another item, or places for a bag's numbers.
pub enum Body {
    Number(u64),
    Owned(Owned<Nested>),
    Shared(Shared<Nested>),
    Storage(Storage<u64, 32>),
}

/// The value of an item of a script: an entry with what it holds, and a cell for its link.
pub type Val = LinkedEntry<Body>;

impl Item<Val> for Body {
    ghost use Rattle.sdd_script_model.specs.Val.{owner_in};

    ghost holds = { owner_in };

    fn give_up<G: Giver<Val>>(self, giver: &mut G) {
        match self {
            Body::Number(_) => {}
            Body::Owned(owner) => giver.owned(owner_of(right_of_owner(owner))),
            Body::Shared(owner) => giver.shared(owner_of(right_of_owner(owner))),
            Body::Storage(storage) => storage.give_up(giver),
        }
    }
}

impl Shelf<u64, 32> for Body {
    ghost shown = { storage_in };

    fn with_storage(storage: Storage<u64, 32>) -> Self
        ensures shown { storage_in result ≡ Some storage }
        ensures held { (home : SpaceId) → AreOf home (holdings_of storage) → AreOf home (owner_in result) }
    {
        Body::Storage(storage)
    }

    fn storage(&self) -> Option<&Storage<u64, 32>>
        ensures { option_copied result ≡ storage_in self.now }
    {
        match self {
            Body::Storage(storage) => Some(storage),
            _ => None,
        }
    }

    fn into_storage(self) -> Result<Storage<u64, 32>, Self>
        ensures { MatchResult result (λ storage. storage_in self ≡ Some storage) (λ back. (back ≡ self) × (storage_in self ≡ None)) }
    {
        match self {
            Body::Storage(storage) => Ok(storage),
            other => Err(other),
        }
    }
}

/// Of a number a second one is made; an owner has none.
impl CloneValue for Body {
    ghost use Rattle.std.specs.Prelude.{◌≡◌};
    ghost use Rattle.sdd_script_model.specs.Listed.{IsNumber};

    ghost is_clone = { λ body other. IsNumber body × (other ≡ body) };

    ghost is_infallible = { λ body. IsNumber body };

    fn clone_value(&self) -> Result<Body, AllocError> {
        match self {
            Body::Number(number) => Ok(Body::Number(*number)),
            _ => Err(AllocError),
        }
    }
}

impl Body {
    ghost use Rattle.std.specs.Prelude.{◌≡◌, [], ◌∷◌};
    ghost use Rattle.sdd_space.specs.Owned as owned;
    ghost use Rattle.sdd_space.specs.Shared as shared;
    ghost use Rattle.sdd_script_model.specs.Val.{owner_in, renumbered};

    /// An only owner, as what an item holds.
    pub fn of_sole(owner: Owned<Val>) -> Body
        ensures { owner_in result ≡ owned.holding_of owner ∷ [] }
    {
        Body::Owned(owner_of(right_of_owner(owner)))
    }

    /// One of several owners, as what an item holds.
    pub fn of_shared(owner: Shared<Val>) -> Body
        ensures { owner_in result ≡ shared.holding_of owner ∷ [] }
    {
        Body::Shared(owner_of(right_of_owner(owner)))
    }

    /// Puts a number in the place of its number. An owner stays as it is, since it must be spent, and so does a storage.
    pub fn put(&mut self, number: u64)
        ensures { self.new ≡ renumbered self.old number }
    {
        if let Body::Number(held) = self {
            *held = number;
        }
    }
}
