//! Walks along queues and stacks.
ghost use Rattle.std.specs.Prelude.{◌≡◌, ◌<◌, ◌∷◌, ℕ, List, IfOk, IfSome, MatchOption, MatchResult, None, Option, Some, drop, length, option_copied, slice_get};
ghost use Rattle.sdd_core.specs.declared.tag.Tag.{Tag};
ghost use Rattle.sdd_space.specs.CallerId.{IsSeated, IsExact};
ghost use Rattle.sdd_space.specs.Guard.{reader_of};
ghost use Rattle.sdd_space.specs.Shared.{cell_of, cells_home};
ghost use Rattle.sdd_space.specs.Undisturbed.{Undisturbed};
ghost use Rattle.sdd_lists.specs.Entries.{link_of};
ghost use Rattle.sdd_lists.specs.Lists.{Entry, IsList, left};
ghost use Rattle.sdd_lists.specs.Walk.{IsWalkOf, ShowsInOrder, StandsBefore, first_shown, steps_left};

use crate::linked_entry::LinkedEntry;
use crate::walks::{Front, front_in, reach};
use sdd_space::{AtomicShared, Cells, Guard, Item, Items, LookThrough};

/// Where a walk along the entries of a queue or a stack is. It borrows the guard alone: the space is handed to it at each step, so that entries can be pushed,
/// popped and deleted meanwhile. What it stands before is shown though it was deleted meanwhile.
///
/// It ends after as many entries as there are slots, as where links run in a ring.
#[derive(Drop)]
pub struct Walk<'g, T> {
    next: Option<Front<'g, LinkedEntry<T>>>,
    most: u64,
}

/// A walk along the list in a cell.
pub(crate) fn walk_in<
    'g,
    T: Item<LinkedEntry<T>>,
    S: Items<LinkedEntry<T>> + Cells<LinkedEntry<T>> + LookThrough<LinkedEntry<T>>,
>(cell: &AtomicShared<LinkedEntry<T>>, guard: &'g Guard, s: &mut S) -> Walk<'g, T>
    requires seated { IsSeated (S.caller s.old) }
    requires home { cells_home cell.now ≡ (S.caller s.old).home.cells }
    requires reader { reader_of guard.now ≡ (S.caller s.old).reader }
    ensures undisturbed { Undisturbed S.caller S.own S.known S.shows s.old s.new }
    ensures home { IsWalkOf (S.caller s.old).home.cells result }
    ensures world { IsExact (S.caller s.old) → S.world s.new ≡ S.world s.old }
    ensures exact { IsExact (S.caller s.old) → (t : Tag) (es : List (Entry (LinkedEntry T))) → IsList link_of (S.world s.old) (cell_of cell.now) t es →
        StandsBefore (S.world s.new) result (left es) }
{
    let most = reach::<LinkedEntry<T>, S>(s);
    let next = front_in(cell, guard, s);
    Walk { next, most }
}

impl<'g, T: Item<LinkedEntry<T>>> Walk<'g, T> {
    /// The next value, and None at the end.
    pub fn next<S: Items<LinkedEntry<T>> + Cells<LinkedEntry<T>> + LookThrough<LinkedEntry<T>>>(
        &mut self,
        guard: &'g Guard,
        s: &mut S,
    ) -> Option<&'g T>
        requires seated { IsSeated (S.caller s.old) }
        requires home { IsWalkOf (S.caller s.old).home.cells self.old }
        requires reader { reader_of guard.now ≡ (S.caller s.old).reader }
        ensures undisturbed { Undisturbed S.caller S.own S.known S.shows s.old s.new }
        ensures home { IsWalkOf (S.caller s.old).home.cells self.new }
        ensures world { IsExact (S.caller s.old) → S.world s.new ≡ S.world s.old }
        ensures list { IsExact (S.caller s.old) → (vs : List T) → ShowsInOrder (S.world s.old) self.old vs →
            (option_copied result ≡ slice_get vs 0) × ShowsInOrder (S.world s.new) self.new (drop 1 vs) }
        ensures entries { IsExact (S.caller s.old) → (es : List (Entry (LinkedEntry T))) → StandsBefore (S.world s.old) self.old es →
            (option_copied result ≡ first_shown es) × StandsBefore (S.world s.new) self.new (left (drop 1 es)) }
        ensures ends { IfSome result (λ _. steps_left self.new < steps_left self.old) }
    {
        let Some(front) = self.next.take() else {
            return None;
        };
        let Some(most) = self.most.checked_sub(1) else {
            return None;
        };
        self.most = most;
        self.next = front_in(front.link, guard, s);
        Some(front.entry.as_ref())
    }
}
