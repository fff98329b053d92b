//! Small programs over what is proved by hand, and over the turns of two participants, that rest on contracts and laws alone; nothing of the library uses them.
//! Its must-fail edits are what a caller gets wrong.
#![tactic(auto)]

pub mod counted_owners;
pub mod lent_looks;
pub mod looks;
pub mod seen_value;
pub mod shared_looks;
pub mod slot_rights;
pub mod small_space;
