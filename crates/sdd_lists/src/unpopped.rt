//! Why a pop that asks a condition first popped nothing.
use crate::linked_entry::LinkedEntry;
use sdd_core::Refused;
use sdd_space::Shared;

/// Why no entry was popped.
pub enum Unpopped<T> {
    /// The condition failed of the first entry that isn't deleted: one owner more of it.
    Kept(Shared<LinkedEntry<T>>),
    /// The call was refused.
    Refused(Refused),
}
