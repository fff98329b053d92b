//! What participants of a script do: how they come and go, what they do with guards, with items and their owners, with items in their place and out as raw,
//! with cells and the owners that they hold, with the links of entries and what is behind them, with queues and stacks, what they put among the entries of
//! containers, take out and are told of, with bags, and with collectors; and the end of a script's world.
pub mod actions;
pub mod bags;
pub mod cells;
pub mod collectors;
pub mod containers;
pub mod copies;
pub mod entries;
pub mod exchanges;
pub mod guards;
pub mod items;
pub mod leaving;
pub mod links;
pub mod owners;
pub mod participants;
pub mod queues;
pub mod raw;
pub mod stacks;
