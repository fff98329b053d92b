//! What a participant has that makes calls as they come.
ghost use Rattle.sdd_space.specs.CallerId.{CallerId};
ghost use Rattle.sdd_domain_tests.specs.Hands.{IsHandOf, AreOwnersOf};

use sdd_space::{
    AtomicCell, AtomicRaw, Guard, Owner, Ownership, PrivateCollector, RawPtr, SharedOwnership,
    UniqueOwnership,
};
use std::alloc::Global;

/// Owners of one kind, and cells of such owners.
pub struct OwnersInHand<K: Ownership> {
    pub owners: Vec<Owner<K, u64>>,
    pub cells: Vec<AtomicCell<K, u64>>,
}

impl<K: Ownership> OwnersInHand<K> {
    #[tactic(auto, unfolding(crate::specs::Hands::AreOwnersOf))]
    fn new(alloc: Global) -> OwnersInHand<K>
        ensures { (caller : CallerId) → AreOwnersOf caller result }
    {
        OwnersInHand {
            owners: Vec::new(alloc),
            cells: Vec::new(alloc),
        }
    }
}

/// Owners that are alone and that may have others, cells of both and of pointers, collectors, pointers to what it put out, and guards.
pub struct Hand {
    pub owned: OwnersInHand<UniqueOwnership>,
    pub shared: OwnersInHand<SharedOwnership>,
    pub raw_cells: Vec<AtomicRaw<u64>>,
    pub collectors: Vec<PrivateCollector<u64>>,
    /// What is out as raw, and nobody has.
    pub out: Vec<RawPtr<u64>>,
    pub guards: Vec<Guard>,
}

impl Hand {
    /// With nothing in it, so that it is anybody's.
    #[tactic(auto, unfolding(crate::specs::Hands::IsHandOf))]
    pub fn new(alloc: Global) -> Hand
        ensures { (caller : CallerId) → IsHandOf caller result }
    {
        Hand {
            owned: OwnersInHand::new(alloc),
            shared: OwnersInHand::new(alloc),
            raw_cells: Vec::new(alloc),
            collectors: Vec::new(alloc),
            out: Vec::new(alloc),
            guards: Vec::new(alloc),
        }
    }
}
