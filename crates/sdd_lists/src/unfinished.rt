//! What was built of a queue or stack until a push was refused.
use sdd_core::Refused;

/// Why a queue or stack wasn't built whole, and what was built so far.
pub enum Unfinished<C, T> {
    /// It was refused its own cells.
    NotBegun(Refused),
    /// What was built so far, the item that found no place, if one was made, and why it found none.
    Part(C, Option<T>, Refused),
}
