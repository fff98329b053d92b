//! Where a cursor is among a bag's storages.
ghost use Rattle.std.specs.Prelude.{◌≡◌, ◌^◌, ◌<◌, IfSome, Some, is_some, true};
ghost use Rattle.sdd_bag.specs.Spots.{GoesOn, start_of};

use crate::shelf::Shelf;
use crate::storage::Storage;

/// The storage where a cursor is, if it isn't the bag's own: the shelf of the first one behind that, its own shelf, and the number of the first key of its
/// places.
#[derive(Drop)]
pub struct Behind<'b, B> {
    pub(crate) first: &'b B,
    pub(crate) here: &'b B,
    pub(crate) start: u128,
}

/// The storage on this shelf, which is next behind that one, whose array has so many places.
pub(crate) fn go_on<'b, B>(behind: &mut Option<Behind<'b, B>>, here: &'b B, places: usize)
    requires few { start_of behind.old < 2 ^ 120 }
    ensures next { IfSome behind.new (GoesOn places behind.old here.now) }
    ensures some { is_some behind.new ≡ true }
{
    let next = match behind {
        None => Behind {
            first: here,
            here,
            start: 0,
        },
        Some(behind) => Behind {
            first: behind.first,
            here,
            start: behind.start + places as u128,
        },
    };
    *behind = Some(next);
}

/// The storage on a shelf that was made of one.
pub(crate) fn storage_on<T, const ARRAY_LEN: usize, B: Shelf<T, ARRAY_LEN>>(
    shelf: &B,
) -> &Storage<T, ARRAY_LEN>
    requires { is_some (B.shown shelf.now) ≡ true }
    ensures { Some result.now ≡ B.shown shelf.now }
{
    match shelf.storage() {
        Some(storage) => storage,
        None => unreachable!(),
    }
}
