//! A script in the middle of a run: what it has in hand by its names, participants, guards, owners, cells and items, and the world that it plays on. Beside
//! that what each line does in a space, as a value: a [command](commands) over any space, of which it says what must be so and what is so then; a participant
//! does it at its place of a world, when it is its turn.
#![tactic(auto)]

pub mod commands;
pub mod containers;
pub mod holding;
pub mod interpreter;
pub mod items;
pub mod jobs;
pub mod log;
pub mod name_table;
pub mod owners;
pub mod participants;

pub use containers::Lists;
pub use holding::{AnyCell, AnyList, AnyOwner, CellOwner};
pub use interpreter::{Environment, Interpreter};
pub use log::Log;
pub use name_table::NameTable;
pub use participants::{NamedGuard, NamedParticipant};
