//! The rule of a domain, in two halves: what its words keep, part by part, with what is known of them by the views of `sdd_rights`; and where the fractions in
//! the values of its slots lie, and who has them out. Both are definitions and lemmas alone, but that all fractions are laid into their homes, and gathered
//! again.
#![tactic(auto)]

mod gather;
mod lay;

pub use gather::{gather_all, gather_home};
pub use lay::lay_all;
