//! The world: a space for the participants of one thread, with exact answers.
#![tactic(auto)]

pub mod inner;
pub mod turn;
pub mod world;

pub use turn::Turn;
pub use world::{Place, World};
