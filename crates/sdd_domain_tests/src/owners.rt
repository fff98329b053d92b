//! Owners that are counted: several of one item, and one more of what is seen.

pub mod counted;
pub mod counted_owners;
pub mod last_owners;
pub mod pointed_owners;
pub mod several_owners;
pub mod steps;
