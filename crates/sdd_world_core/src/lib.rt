//! What a world is made of, and the calls that keep its parts true of each other.
#![tactic(auto)]

pub mod world_core;

pub use world_core::WorldCore;
