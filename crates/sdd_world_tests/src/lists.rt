//! Worked examples of lists over a world, as tests.

#[cfg(test)]
mod clients;
#[cfg(test)]
mod example;
#[cfg(test)]
mod lines;
#[cfg(test)]
mod marks;
#[cfg(test)]
mod queues;
#[cfg(test)]
mod rounds;
#[cfg(test)]
mod stacks;
pub mod station;
#[cfg(test)]
mod steps;

pub use station::Station;
