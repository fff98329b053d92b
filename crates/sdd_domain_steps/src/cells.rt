//! Cells of owners: how a free one is found, and what goes into one and comes out.

pub mod claims;
pub mod values;
pub mod words;
