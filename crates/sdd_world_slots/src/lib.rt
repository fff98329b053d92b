//! The slots and the cells of a world, and the rights to them.
//!
//! - A slot has a value while an item is there, and [`WorldSlots`] knows how the item stands. Its owner has a [`Right`](sdd_rights::Right) to the slot, and
//!   nothing else; several owners have one each.
//! - A cell holds an owner by its right, with a tag. Whoever may use the cell has a `Right` to it.
//!
//! A right says that its number is taken. So a look at a slot by its right finds the value, with no refusal.
#![tactic(auto)]

mod cells;
mod slots;

pub use cells::WorldCells;
pub use slots::{MOST_OWNERS, WorldSlots};
