//! Epoch-based delayed reclamation, after the crate `sdd`: every public name of worlds, domains and machines.
//!
//! Scripts are in `sdd_script`, so that a program without them needs none of their crates.
#![tactic(auto)]

pub use sdd_bag::{Bag, IntoIter, IterMut, Shelf, Storage};
pub use sdd_core::{Epoch, Limits, Refused, Tag};
pub use sdd_domain::{Domain, Local, Receipt};
pub use sdd_lists::laws::{first_in_first_out, last_in_first_out, releases_keep_values};
pub use sdd_lists::{
    CloneValue, Iter, Link, LinkedEntry, LinkedList, Queue, Stack, Unfinished, Unpopped, Walk,
};
pub use sdd_machine::machine::{Did, Machine, Step, safety};
pub use sdd_participants::{BoxedJob, Deferred, Idle, Job, Tally};
pub use sdd_space::laws::{
    calls_are_work, comes_back, epoch_moves_by_one, owned_is_shown, shared_is_shown,
    shows_what_was_made, values_fit_slots,
};
pub use sdd_space::{
    AtomicCell, AtomicOwned, AtomicRaw, AtomicShared, Caller, Cells, Collectors, Deferrals, Giver,
    Guard, Guards, HeldItems, InPlaceItems, Item, Items, Look, LookThrough, Owned, OwnedPtrPair,
    Owner, OwnerPtrPair, Ownership, PrivateCollector, Ptr, RawCells, RawItems, RawPtr, Several,
    Shared, SharedItems, SharedOwners, SharedOwnership, SharedPtrPair, Shows, Space,
    UniqueOwnership,
};
pub use sdd_world::{Place, Turn, World};
