//! Programs in ordinary code over a world and over a domain that rest on contracts and laws alone; nothing of the library uses them.
#![tactic(auto)]

pub mod config;
pub mod counts;
pub mod guards;
pub mod items;
pub mod lone;
pub mod nodes;
pub mod owners;
pub mod programs;
pub mod shared_config;
pub mod task_queue;
pub mod work_under_guards;
