//! The collector as a machine of single steps.
#![tactic(auto)]

pub mod inner;
pub mod machine;

pub use machine::{Did, Machine, Step, safety};
