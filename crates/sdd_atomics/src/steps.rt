//! The atomic steps on the words of a domain, one function each. Nothing else changes a word.

pub mod cells;
pub mod collectors;
pub mod epoch;
pub mod jobs;
pub mod raw;
pub mod slots;
pub mod values;
