//! What generic code sees of where it is, in parts, by what a call works on.
ghost use Rattle.std.specs.Prelude.{Bool, IsTrue};
ghost use Rattle.sdd_space.specs.CallerId.{IsExact};

pub mod caller;
pub mod cells;
pub mod collectors;
pub mod deferrals;
pub mod guards;
pub mod held_items;
pub mod in_place_items;
pub mod items;
pub mod raw_cells;
pub mod raw_items;
pub mod several;
pub mod shared_items;
pub mod shared_owners;

use crate::item::Item;
use crate::look::Look;
pub use caller::Caller;
pub use cells::Cells;
pub use collectors::Collectors;
pub use deferrals::Deferrals;
pub use guards::Guards;
pub use held_items::HeldItems;
pub use in_place_items::InPlaceItems;
pub use items::Items;
pub use raw_cells::RawCells;
pub use raw_items::RawItems;
pub use several::Several;
pub use shared_items::SharedItems;
pub use shared_owners::SharedOwners;

/// A world or domain as one participant has it, with all its parts.
///
/// A function that needs a part alone asks for that part: where the space is known, what it owes for the call is what the part says.
pub trait Space<T: Item<T>>: Look<T>
    + Guards<T>
    + Items<T>
    + InPlaceItems<T>
    + SharedItems<T>
    + RawItems<T>
    + Cells<T>
    + RawCells<T>
    + Collectors<T>
    + Deferrals<T> {
    /// Only the caller's own calls change the space, so that what they do is said exactly.
    const ALONE: bool;
    /// The same truth, for clauses.
    ghost is_alone: { Bool };

    /// Where only the caller's own calls change the space, what they do is said exactly.
    ghost alone_is_exact: { (s : Self) → IsTrue is_alone → IsExact (Self.caller s) };
}
