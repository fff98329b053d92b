//! What a participant does to the words of a domain, and what it keeps of them: by what it works on, in the folders that the atomic steps have too.
//!
//! A search for something free (`search`) notes what it saw (`sightings`), which has no bytes, so that a refusal can tell.
#![tactic(auto)]

pub mod cells;
pub mod collectors;
pub mod epoch;
pub mod jobs;
pub mod raw;
pub mod search;
pub mod sightings;
pub mod slots;
