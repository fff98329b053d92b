//! Fractions: parts of the right to a value, which lie in the slots of an `atomic_table` and are lent to sections. A value's owner has a unit of its own, a
//! read fraction, and looks at the value by that alone.
#![tactic(auto)]

mod bank;
mod fraction_list;
mod ghost_values;
mod seats;
mod shared_values;
mod unused_memory;
mod vacant_values;
mod value_fraction;
mod values_name;

pub use bank::{Bank, Deals, Treasury};
pub use fraction_list::FractionList;
pub use ghost_values::GhostValues;
pub use seats::settle;
pub use shared_values::{SharedValues, ValueInvariant};
pub use vacant_values::VacantValues;
pub use value_fraction::ValueFraction;
pub use values_name::ValuesName;
