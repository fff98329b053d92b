//! Worked examples, as tests: which epoch each guard of a world shows, at which of them an item is reclaimed, the greatest
//! sizes of worlds, and the same calls over a turn and over a domain's only participant; cells and the owners in them,
//! lists, and bags.
#![tactic(auto)]

pub mod bags;
pub mod cells;
#[cfg(test)]
mod ending;
#[cfg(test)]
mod first_example;
#[cfg(test)]
mod guards;
#[cfg(test)]
mod jobs;
#[cfg(test)]
mod limits_and_memory;
pub mod lists;
#[cfg(test)]
mod openings;
#[cfg(test)]
mod shown;
#[cfg(test)]
mod slots_and_owners;
#[cfg(test)]
mod steps;
#[cfg(test)]
mod world_sizes;

pub use bags::Cargo;
pub use cells::Value;
pub use lists::Station;
