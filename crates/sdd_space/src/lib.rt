//! What is used in a world or a domain: guards, owners, pointers and cells, and the traits by which generic code sees
//! where it is.
#![tactic(auto)]

pub mod atomic_cell;
pub mod atomic_owned;
pub mod atomic_raw;
pub mod atomic_shared;
pub mod guard;
pub mod inner;
pub mod item;
pub mod laws;
pub mod look;
pub mod owned;
pub mod owner;
pub mod ownership;
pub mod private_collector;
pub mod ptr;
pub mod raw_ptr;
pub mod shared;
pub mod space;

pub use atomic_cell::{
    AtomicCell, AtomicOwned, AtomicShared, OwnedPtrPair, OwnerPtrPair, SharedPtrPair,
};
pub use atomic_raw::AtomicRaw;
pub use guard::Guard;
pub use item::{Giver, Item};
pub use look::{Look, LookThrough, Shows};
pub use owner::{Owned, Owner, Shared};
pub use ownership::{Ownership, SharedOwnership, UniqueOwnership};
pub use private_collector::PrivateCollector;
pub use ptr::Ptr;
pub use raw_ptr::RawPtr;
pub use space::{
    Caller, Cells, Collectors, Deferrals, Guards, HeldItems, InPlaceItems, Items, RawCells,
    RawItems, Several, SharedItems, SharedOwners, Space,
};
