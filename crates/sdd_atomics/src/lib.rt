//! The words of a domain and the fractions in its values under their rule, and each atomic step on them as one function.
#![tactic(auto)]

mod clones;
pub mod domain_table;
mod plays;
pub mod read_fractions;
pub mod seat_at_table;
pub mod steps;
pub mod words;

pub use domain_table::{DomainSeat, DomainTable, TableLayout};
pub use seat_at_table::SeatAtTable;
