//! What the rest stands on: epochs, tags and refusals, and a hint to the compiler, which is proved by hand.
#![tactic(auto)]

pub mod epoch;
pub mod hint;
pub mod inner;
pub mod limits;
pub mod refused;
pub mod slot_name;
pub mod tag;

pub use epoch::Epoch;
pub use limits::Limits;
pub use refused::Refused;
pub use slot_name::SlotName;
pub use tag::Tag;
