//! What scripts mean: the state that a script works at, what each line does to it and answers, and what is always true of it.
//!
//! No world runs here. The crate `sdd_script` runs scripts, and shows that its answers are those that are meant.
#![tactic(auto)]

pub mod link_change;
pub mod owner_kind;
pub mod val;

pub use link_change::LinkChange;
pub use owner_kind::OwnerKind;
pub use val::{Body, Nested, Val};
