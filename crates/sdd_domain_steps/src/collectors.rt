//! Private collectors: the items that wait for one, and its close.

pub mod close;
pub mod private_items;
pub mod private_table;
