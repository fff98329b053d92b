//! What each line of a script does in a space, as a value: over any space, of which it says what must be so and what is so then.

pub mod bags;
pub mod cells;
pub mod collectors;
pub mod containers;
pub mod copies;
pub mod exchanges;
pub mod guards;
pub mod items;
pub mod links;
pub mod owners;
pub mod pops;
pub mod pushes;
pub mod queues;
pub mod raw;
pub mod stacks;
pub mod step;

pub use step::{
    CellCommand, CollectorCommand, GuardCommand, InPlaceCommand, ItemCommand, ListCommand,
    RawCommand,
};
