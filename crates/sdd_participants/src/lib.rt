//! What a world keeps by number, without values: its epoch and participants, tables of slots and cells, the tally.
#![tactic(auto)]

pub mod bags;
mod counter;
pub mod epoch_state;
pub mod jobs;
pub mod participant;
pub mod place_states;
pub mod slab;
pub mod standing;
pub mod tally;
pub mod waiting;

pub use bags::Bags;
pub use epoch_state::EpochState;
pub use jobs::{BoxedJob, Deferred, Idle, Job, Jobs};
pub use participant::{CLOSES_TO_SCAN, CountdownState, NO_GARBAGE, Participant};
pub use place_states::{PlaceState, PlaceStates};
pub use slab::Slab;
pub use standing::{CellContents, RawCellContents, Standing, StandingLookup};
pub use tally::{RunningTally, Tally};
pub use waiting::LimboEntry;
