//! Slots: how a free one is found, how a value comes in and is moved out, and the owners of items.

pub mod claims;
pub mod free_slot_hints;
pub mod holding;
pub mod holds_own_domain;
pub mod seen_owners;
pub mod values;
