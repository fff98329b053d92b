//! A participant of a domain as a space: it has the calls of guards, items, cells, jobs and collectors, and the laws of a world where it is lone.
#![tactic(auto)]

pub mod local;
mod space;

pub use local::Local;
pub use sdd_domain_core::{Domain, Receipt};
