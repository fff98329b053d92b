//! The values of a bag, taken out one after another.
ghost use Rattle.std.specs.Prelude.{◌≡◌, ◌⊎◌, All, List, MatchOption, [], drop};
ghost use Rattle.sdd_space.specs.CallerId.{IsSeated, IsExact};
ghost use Rattle.sdd_space.specs.Guard.{reader_of};
ghost use Rattle.sdd_world_model.specs.OwnerOrCell.{AreOf};
ghost use Rattle.sdd_world_model.specs.ParticipantChanges.{KeepsMoreWaiting};
ghost use Rattle.sdd_space.specs.Undisturbed.{Unmoved};
ghost use Rattle.sdd_lists.specs.declared.linked_entry.LinkedEntry.{LinkedEntry as Linked};
ghost use Rattle.sdd_lists.specs.Lists.{Entry};
ghost use Rattle.sdd_lists.specs.Stack.{cell_in, home_in};
ghost use Rattle.sdd_bag.specs.Overflow.{LiesOn, RemovesStorage};
ghost use Rattle.sdd_bag.specs.Bag.{HasSameCells, IsBag, IsOfCells, PopsBehind, PopsInside, overflow_of, primary_of, values_of};
ghost use Rattle.sdd_bag.specs.Closing.{AreBeside, ClosesBag};

use crate::bag::Bag;
use crate::shelf::Shelf;
use sdd_lists::LinkedEntry;
use sdd_space::{Cells, Guard, Item, Items, LookThrough, RawCells, SharedItems};

/// The values that are left in a bag, each of which `next` takes out. It must be spent, as the bag: `close` ends it.
pub struct IntoIter<'g, T, const ARRAY_LEN: usize, B> {
    bag: Bag<T, ARRAY_LEN, B>,
    guard: &'g Guard,
}

impl<T, const ARRAY_LEN: usize, B: Shelf<T, ARRAY_LEN>> Bag<T, ARRAY_LEN, B> {
    ghost use Rattle.sdd_bag.specs.IntoIter.{bag_left, reader_left};

    /// The values, to be taken out one after another.
    pub fn into_iter<'g, S: Items<LinkedEntry<B>>>(
        self,
        guard: &'g Guard,
        s: &mut S,
    ) -> IntoIter<'g, T, ARRAY_LEN, B>
        ensures same { s.new ≡ s.old }
        ensures bag { bag_left result ≡ self }
        ensures reader { reader_left result ≡ reader_of guard.now }
    {
        let _ = s;
        IntoIter { bag: self, guard }
    }
}

impl<T, const ARRAY_LEN: usize, B: Shelf<T, ARRAY_LEN>> IntoIter<'_, T, ARRAY_LEN, B> {
    ghost use Rattle.sdd_bag.specs.IntoIter.{bag_left, reader_left};

    /// Takes out some value, as the bag's `pop` does. None exactly where none is left.
    pub fn next<
        S: Items<LinkedEntry<B>>
            + SharedItems<LinkedEntry<B>>
            + Cells<LinkedEntry<B>>
            + LookThrough<LinkedEntry<B>>,
    >(&mut self, s: &mut S) -> Option<T>
        requires seated { IsSeated (S.caller s.old) }
        requires home { home_in (bag_left self.old).overflow.stack ≡ (S.caller s.old).home.cells }
        requires reader { reader_left self.old ≡ (S.caller s.old).reader }
        requires exact { IsExact (S.caller s.old) }
        requires bag { IsBag B.shown ARRAY_LEN (S.world s.old) (bag_left self.old) }
        ensures unmoved { Unmoved S.caller S.known S.shows s.old s.new }
        ensures own { KeepsMoreWaiting (S.own s.old) (S.own s.new) }
        ensures reader { reader_left self.new ≡ reader_left self.old }
        ensures cells { HasSameCells (bag_left self.old) (bag_left self.new) }
        ensures bag { IsBag B.shown ARRAY_LEN (S.world s.new) (bag_left self.new) }
        ensures popped { MatchOption result
            ((primary_of (bag_left self.old) ≡ []) × (overflow_of (bag_left self.old) ≡ []) × (bag_left self.new ≡ bag_left self.old) ×
            (S.world s.new ≡ S.world s.old))
            (λ value. PopsBehind value (bag_left self.old) (bag_left self.new) ⊎
            PopsInside value (bag_left self.old) (bag_left self.new) × (S.world s.new ≡ S.world s.old)) }
        ensures list { (es : List (Entry (Linked B))) → LiesOn B.shown ARRAY_LEN (S.world s.old) es (bag_left self.old).overflow →
            (fs : List (Entry (Linked B))) × LiesOn B.shown ARRAY_LEN (S.world s.new) fs (bag_left self.new).overflow ×
            ((S.world s.new ≡ S.world s.old) × (fs ≡ es) ⊎
            ((bag_left self.new).overflow.places ≡ drop ARRAY_LEN (bag_left self.old).overflow.places) ×
            RemovesStorage (S.world s.old) (S.caller s.old).place (cell_in (bag_left self.old).overflow.stack) es (S.world s.new) fs) }
    {
        self.bag.pop(self.guard, s)
    }

    /// Ends the bag, as its `close` does, with the values that are left.
    pub fn close<
        S: Items<LinkedEntry<B>>
            + SharedItems<LinkedEntry<B>>
            + Cells<LinkedEntry<B>>
            + RawCells<LinkedEntry<B>>
            + LookThrough<LinkedEntry<B>>,
    >(self, s: &mut S)
    where
        T: Item<LinkedEntry<B>>,
        requires seated { IsSeated (S.caller s.old) }
        requires home { IsOfCells (S.caller s.old).home.cells (bag_left self) }
        requires reader { reader_left self ≡ (S.caller s.old).reader }
        requires exact { IsExact (S.caller s.old) }
        requires bag { IsBag B.shown ARRAY_LEN (S.world s.old) (bag_left self) }
        requires held { All (λ v. AreOf (S.caller s.old).home (T.holds v)) (values_of (bag_left self)) }
        requires beside { (es : List (Entry (Linked B))) → LiesOn B.shown ARRAY_LEN (S.world s.old) es (bag_left self).overflow →
            All (λ v. AreBeside (S.world s.old) (cell_in (bag_left self).overflow.stack) es (T.holds v)) (overflow_of (bag_left self)) }
        ensures unmoved { Unmoved S.caller S.known S.shows s.old s.new }
        ensures own { KeepsMoreWaiting (S.own s.old) (S.own s.new) }
        ensures list { (es : List (Entry (Linked B))) → LiesOn B.shown ARRAY_LEN (S.world s.old) es (bag_left self.entry).overflow →
            ClosesBag T.holds ARRAY_LEN (S.world s.old) (S.caller s.old).place (bag_left self.entry) es (S.world s.new) }
    {
        let IntoIter { bag, guard } = self;
        bag.close(guard, s);
    }
}
