//! Worked examples of shared owners, cells, pointers and private collectors, as tests, and of values that hold owners and cells: over a world, and over a
//! domain, with one participant and with two, what it has.

#[cfg(test)]
mod asking;
#[cfg(test)]
mod collectors;
#[cfg(test)]
mod example;
#[cfg(test)]
mod first_example;
#[cfg(test)]
mod full_tables;
#[cfg(test)]
mod giving_up;
#[cfg(test)]
mod in_place;
#[cfg(test)]
mod most_owners;
#[cfg(test)]
mod owned_cells;
#[cfg(test)]
mod raw_cells;
#[cfg(test)]
mod raw_items;
#[cfg(test)]
mod raw_pointers;
#[cfg(test)]
mod shared_owners;
#[cfg(test)]
mod steps;
pub mod value;

pub use value::Value;
