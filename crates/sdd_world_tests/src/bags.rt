//! Worked examples of bags over a world, as tests.

pub mod cargo;
#[cfg(test)]
mod counted;
#[cfg(test)]
mod example;
#[cfg(test)]
mod shelves;
#[cfg(test)]
mod steps;
#[cfg(test)]
mod values;

pub use cargo::Cargo;
