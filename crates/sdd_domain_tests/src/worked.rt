//! Worked examples of domains, in one thread.

pub mod domains;
pub mod drops;
pub mod example;
pub mod held;
pub mod in_place;
pub mod items;
pub mod jobs;
pub mod others_items;
pub mod places;
pub mod raw;
pub mod raw_cells;
pub mod reclaims;
pub mod refused_closes;
pub mod sharing;
pub mod slots;
pub mod two_places;
