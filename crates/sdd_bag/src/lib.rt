//! Bags: values that come out in no said order, of which a few lie in the bag itself, and the others in storages in the slots of a space.
//!
//! - A [`Bag`] has places for values of its own, and behind them a stack of [`Storage`]s.
//! - An [`IterMut`] is a cursor over the values, which are moved out to be lent, and back.
//! - `Places` are places in line, in an array. A `&` to them shows nothing of their values, and is enough to move values in and out, by the keys: so a storage
//!   can lie in a slot that guards look at.
//! - `StorageKeys` have the keys of all places of any number of such arrays, and know how many places of the first one have a value; those of all others do.
//! - A `KeyedPlace` is one such place, and its `PlaceKey` the whole right to the value: it says which value there is, moves one in and out behind a `&`, and
//!   there is one key of each place. A key takes no bytes. This is proved by hand, and `Fits` is, which keeps that a bag isn't too large.
#![tactic(auto)]

pub mod bag;
mod behind;
mod filling;
mod fits;
mod front;
mod giving;
pub mod into_iter;
pub mod iter_mut;
mod keyed_place;
mod lending;
mod place;
mod places;
mod primary;
pub mod shelf;
pub mod storage;
mod storage_keys;

pub use bag::Bag;
pub use into_iter::IntoIter;
pub use iter_mut::IterMut;
pub use shelf::Shelf;
pub use storage::Storage;
