//! Domains, what a participant of one is made of, and what it leaves when it ends.
//!
//! A [`Domain`] is the words, the values and the limits that its participants share. A [`LocalCore`] is a participant's place, its bags and its seat, by which
//! it steps on the words; a `LocalGiver` is that with the values that it moved into slots, to which each value that it reclaims gives up what it holds.
//! What is left of one that has ended is a [`Receipt`], and a domain closes with these.
#![tactic(auto)]

mod closing;
pub mod domain;
mod draining;
pub mod local_core;
mod looks;
pub mod receipt;
pub mod reclaiming;

pub use domain::Domain;
pub use local_core::LocalCore;
pub use receipt::Receipt;
