//! Domains whose participants are in several threads.

pub mod cell_crowd;
pub mod cell_crowd_calls;
pub mod collector_crowd;
pub mod collector_crowd_calls;
pub mod configuration;
pub mod crowd;
pub mod crowd_calls;
pub mod items;
pub mod published;
pub mod two_workers;
