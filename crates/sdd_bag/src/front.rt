//! The first storage of a bag's overflow.
ghost use Rattle.std.specs.Prelude.{◌≡◌, ◌∷◌, List, MatchOption, None, Some};
ghost use Rattle.sdd_space.specs.CallerId.{IsSeated, IsExact};
ghost use Rattle.sdd_space.specs.Guard.{reader_of};
ghost use Rattle.sdd_space.specs.Undisturbed.{Undisturbed};
ghost use Rattle.sdd_lists.specs.declared.linked_entry.LinkedEntry.{LinkedEntry as Linked};
ghost use Rattle.sdd_lists.specs.Entries.{value_of};
ghost use Rattle.sdd_lists.specs.Lists.{Entry, left};
ghost use Rattle.sdd_lists.specs.Stack.{IsStack, cell_in, home_in};

use crate::shelf::Shelf;
use crate::storage::Storage;
use sdd_lists::{LinkedEntry, Stack};
use sdd_space::{Cells, Guard, Items, LookThrough};

/// The storage of the first entry that isn't deleted, if there is one that has a storage.
pub(crate) fn first_storage<
    'g,
    T: 'g,
    const ARRAY_LEN: usize,
    B: Shelf<T, ARRAY_LEN> + 'g,
    S: Items<LinkedEntry<B>> + Cells<LinkedEntry<B>> + LookThrough<LinkedEntry<B>>,
>(stack: &Stack<B>, guard: &'g Guard, s: &mut S) -> Option<&'g Storage<T, ARRAY_LEN>>
    requires seated { IsSeated (S.caller s.old) }
    requires home { home_in stack.now ≡ (S.caller s.old).home.cells }
    requires reader { reader_of guard.now ≡ (S.caller s.old).reader }
    ensures undisturbed { Undisturbed S.caller S.own S.known S.shows s.old s.new }
    ensures world { IsExact (S.caller s.old) → S.world s.new ≡ S.world s.old }
    ensures list { IsExact (S.caller s.old) → (es : List (Entry (Linked B))) → IsStack (S.world s.old) (cell_in stack.now) es → MatchOption result
        ((e : Entry (Linked B)) (rest : List (Entry (Linked B))) → left es ≡ e ∷ rest → B.shown (value_of e.value) ≡ None)
        (λ storage. (e : Entry (Linked B)) × (rest : List (Entry (Linked B))) × (left es ≡ e ∷ rest) × (Some storage.now ≡ B.shown (value_of e.value))) }
{
    match stack.peek(guard, s).as_ref(s) {
        Some(entry) => entry.as_ref().storage(),
        None => None,
    }
}
