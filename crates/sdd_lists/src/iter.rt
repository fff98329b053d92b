//! The values of queues and stacks, while the space is borrowed for that.
ghost use Rattle.std.specs.Prelude.{◌≡◌, ◌≤◌, List, IfSome, drop, length, option_copied};
ghost use Rattle.std.specs.Iterator.{at_most};
ghost use Rattle.sdd_core.specs.declared.tag.Tag.{Tag};
ghost use Rattle.sdd_rights.specs.Right.{home_of};
ghost use Rattle.sdd_space.specs.CallerId.{IsExact};
ghost use Rattle.sdd_space.specs.Shared.{cell_of, cells_home};
ghost use Rattle.sdd_lists.specs.Entries.{link_of};
ghost use Rattle.sdd_lists.specs.Iter.{GivesInOrder, GoesInOrder, IsBefore, IsIterOf, space_of, values_left};
ghost use Rattle.sdd_lists.specs.Lists.{AreLinked, Entry, IsList, first_slot, left};
ghost use Rattle.sdd_lists.specs.Walk.{first_shown, shown_of};
ghost use Rattle.sdd_world_model.specs.Cells.{slot_held};

use crate::linked_entry::LinkedEntry;
use crate::linked_list::LinkedList;
use crate::walks::reach;
use sdd_core::Tag;
use sdd_rights::Right;
use sdd_space::inner::{right_in, tag_held_in};
use sdd_space::{AtomicShared, HeldItems, Item, Items};
use std::marker::PhantomData;

/// The values of a queue or a stack in order. It borrows the space, so that nobody pushes, pops or deletes meanwhile.
///
/// It ends after as many entries as there are slots, as where links run in a ring.
#[derive(Drop)]
pub struct Iter<'a, T, S> {
    /// Where the owner of the next entry lies, if there is one.
    next: &'a Option<Right>,
    /// How many values it gives at most from here on.
    most: u64,
    /// How many entries are linked one behind another at most.
    reach: u64,
    space: &'a S,
    of: PhantomData<&'a T>,
}

/// The values of the list in a cell.
pub(crate) fn iter_in<
    'a,
    T: Item<LinkedEntry<T>>,
    S: Items<LinkedEntry<T>> + HeldItems<LinkedEntry<T>>,
>(cell: &AtomicShared<LinkedEntry<T>>, s: &'a S) -> Iter<'a, T, S>
    requires home { cells_home cell.now ≡ (S.caller s.now).home.cells }
    ensures space { space_of result ≡ s.now }
    ensures home { IsIterOf (S.caller s.now).home.slots result }
    ensures exact { IsExact (S.caller s.now) → (t : Tag) (es : List (Entry (LinkedEntry T))) → IsList link_of (S.world s.now) (cell_of cell.now) t es →
        GivesInOrder (S.world s.now) result (shown_of es) }
{
    let reach = reach::<LinkedEntry<T>, S>(s);
    Iter {
        next: right_in(cell, s),
        most: reach,
        reach,
        space: s,
        of: PhantomData,
    }
}

impl<'a, T: Item<LinkedEntry<T>>, S: HeldItems<LinkedEntry<T>>> Iterator for Iter<'a, T, S> {
    type Item = &'a T;

    ghost can_next = { λ it. IsIterOf (S.caller (space_of it)).home.slots it };

    ghost next_gives = { GoesInOrder S.caller S.world };

    ghost remaining = { λ it. at_most (values_left it) };

    fn next(&mut self) -> Option<&'a T> {
        let Some(owner) = self.next else {
            return None;
        };
        let entry = self.space.value_of(owner);
        let link = entry.link_ref();
        let behind = right_in(link, self.space);
        let tag = tag_held_in(link, self.space);
        let Some(most) = self.most.checked_sub(1) else {
            return None;
        };
        self.most = most;
        match tag {
            Tag::Second => {
                self.next = past_deleted::<T, S>(behind, self.reach, self.space);
                self.give()
            }
            _ => {
                self.next = behind;
                Some(entry.as_ref())
            }
        }
    }
}

impl<'a, T: Item<LinkedEntry<T>>, S: HeldItems<LinkedEntry<T>>> Iter<'a, T, S> {
    /// The value of the entry before which it stands, whether that is deleted or not.
    #[inline(always)]
    fn give(&mut self) -> Option<&'a T>
        requires { IsIterOf (S.caller (space_of self.old)).home.slots self.old }
        ensures space { self.new.space ≡ self.old.space }
        ensures home { IsIterOf (S.caller (space_of self.new)).home.slots self.new }
        ensures most { values_left self.new ≡ values_left self.old }
        ensures exact { IsExact (S.caller (space_of self.old)) → (es : List (Entry (LinkedEntry T))) → IsBefore (S.world (space_of self.old)) self.old es →
            (option_copied result ≡ first_shown es) × IsBefore (S.world (space_of self.old)) self.new (drop 1 es) }
    {
        let Some(owner) = self.next else {
            return None;
        };
        let entry = self.space.value_of(owner);
        self.next = right_in(entry.link_ref(), self.space);
        Some(entry.as_ref())
    }
}

/// Where the owner of the first entry lies that isn't deleted, of those to which this leads, if there is one among so many.
#[inline(always)]
fn past_deleted<'a, T: Item<LinkedEntry<T>>, S: HeldItems<LinkedEntry<T>>>(
    held: &'a Option<Right>,
    reach: u64,
    s: &'a S,
) -> &'a Option<Right>
    requires { IfSome held.now (λ owner. home_of owner ≡ (S.caller s.now).home.slots) }
    ensures home { IfSome result.now (λ owner. home_of owner ≡ (S.caller s.now).home.slots) }
    ensures exact { IsExact (S.caller s.now) → (es : List (Entry (LinkedEntry T))) → AreLinked link_of (S.world s.now) es →
        slot_held held.now ≡ first_slot es → length es ≤ reach → slot_held result.now ≡ first_slot (left es) }
{
    let mut at = held;
    for _step in 0..reach {
        let Some(owner) = at else {
            return at;
        };
        let link = s.value_of(owner).link_ref();
        let Tag::Second = tag_held_in(link, s) else {
            return at;
        };
        at = right_in(link, s);
    }
    at
}
