//! Calls that come as they are drawn, over a turn at a world and the only participant of a domain.

pub mod cell_calls;
pub mod collector_calls;
pub mod generator;
pub mod guard_calls;
pub mod in_hand;
pub mod owned_calls;
pub mod owned_cell_calls;
pub mod owner_calls;
pub mod random_calls;
pub mod raw_cell_calls;
pub mod shared_calls;
pub mod shared_cell_calls;
pub mod upgraded_calls;
