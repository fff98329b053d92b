//! Laws of lists, as functions that callers can cite by calling them.
ghost use Rattle.sdd_lists.specs.Histories.{FirstInFirstOut, LastInFirstOut};
ghost use Rattle.sdd_lists.specs.Values.{ReleasesKeepValues};

use crate::linked_list::LinkedList;

/// A law, which does nothing when the program runs: what is pushed onto a queue and not deleted is popped once, in order, by whoever calls in between.
pub fn first_in_first_out<T: LinkedList>()
    ensures { FirstInFirstOut T.link }
{}

/// A law, which does nothing when the program runs: what is pushed onto a stack and not deleted is popped once, the last one first, by whoever calls in
/// between.
pub fn last_in_first_out<T: LinkedList>()
    ensures { LastInFirstOut T.link }
{}

/// A law, which does nothing when the program runs: whoever lets an owner of an entry go, a queue or a stack has the values that it
/// had.
pub fn releases_keep_values<T>()
    ensures { ReleasesKeepValues T }
{}
