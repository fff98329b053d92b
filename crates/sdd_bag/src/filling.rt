//! Bags of what an iterator gives.
ghost use Rattle.std.specs.Prelude.{◌≡◌, ◌<◌, ◌≤◌, ◌++◌, IfErr, IfSome, List, MatchResult, None, Some, length};
ghost use Rattle.std.specs.Iterator.{IsFinite, YieldsThen};
ghost use Rattle.sdd_bag.specs.Values.{AreInSomeOrder};
ghost use Rattle.sdd_space.specs.CallerId.{IsSeated, IsExact};
ghost use Rattle.sdd_space.specs.Guard.{reader_of};
ghost use Rattle.sdd_world_model.specs.ParticipantChanges.{KeepsMoreWaiting};
ghost use Rattle.sdd_space.specs.Undisturbed.{Unmoved};
ghost use Rattle.sdd_lists.specs.declared.linked_entry.LinkedEntry.{LinkedEntry as Linked};
ghost use Rattle.sdd_lists.specs.Lists.{Entry};
ghost use Rattle.sdd_lists.specs.Stack.{home_in};
ghost use Rattle.sdd_bag.specs.Overflow.{LiesOn, RefusesStorage};
ghost use Rattle.sdd_bag.specs.Bag.{HasSameCells, IsBag, IsOfCells, primary_of, values_of};
ghost use Rattle.sdd_bag.specs.Filling.{AddsStorages, Builds, bag_of};

use crate::bag::Bag;
use crate::shelf::Shelf;
use sdd_core::Refused;
use sdd_lists::{LinkedEntry, Unfinished};
use sdd_space::{Cells, Guard, Items, LookThrough, Several};

impl<T, const ARRAY_LEN: usize, B: Shelf<T, ARRAY_LEN>> Bag<T, ARRAY_LEN, B> {
    /// Puts what an iterator gives into the bag, one after another.
    fn add_all<
        I: Iterator<Item = T>,
        S: Items<LinkedEntry<B>>
            + Several<LinkedEntry<B>>
            + Cells<LinkedEntry<B>>
            + LookThrough<LinkedEntry<B>>,
    >(&mut self, items: &mut I, guard: &Guard, s: &mut S) -> Result<(), (T, Refused)>
        requires seated { IsSeated (S.caller s.old) }
        requires home { home_in self.old.overflow.stack ≡ (S.caller s.old).home.cells }
        requires reader { reader_of guard.now ≡ (S.caller s.old).reader }
        requires exact { IsExact (S.caller s.old) }
        requires bag { IsBag B.shown ARRAY_LEN (S.world s.old) self.old }
        requires can { I.can_next items.old }
        requires ends { IsFinite (I.remaining items.old) }
        ensures unmoved { Unmoved S.caller S.known S.shows s.old s.new }
        ensures own { KeepsMoreWaiting (S.own s.old) (S.own s.new) }
        ensures cells { HasSameCells self.old self.new }
        ensures bag { IsBag B.shown ARRAY_LEN (S.world s.new) self.new }
        ensures list { (es : List (Entry (Linked B))) → LiesOn B.shown ARRAY_LEN (S.world s.old) es self.old.overflow →
            (fs : List (Entry (Linked B))) × LiesOn B.shown ARRAY_LEN (S.world s.new) fs self.new.overflow ×
            AddsStorages B.shown (S.caller s.old).place self.old.overflow.stack (S.world s.old) es (S.world s.new) fs }
        ensures values { (xs : List T) × ((vs : List T) → AreInSomeOrder vs (values_of self.old) → AreInSomeOrder (vs ++ xs) (values_of self.new)) ×
            MatchResult result
            (λ _. YieldsThen I.next_gives items.old xs None items.new)
            (λ e. YieldsThen I.next_gives items.old xs (Some e.0) items.new × (length (primary_of self.new) ≡ ARRAY_LEN) ×
            RefusesStorage (S.world s.new) e.1) }
    {
        while let Some(value) = items.next() {
            match self.push(value, guard, s) {
                Ok(()) => {}
                Err(back) => return Err(back),
            }
        }
        Ok(())
    }

    /// A bag of what an iterator gives.
    ///
    /// `NotBegun` with `NoCell` where no two cells are free: nothing is taken of the iterator then. Where a push is refused, `Part` with the bag as it is by
    /// then, and the item that was refused.
    pub fn from_iter<
        I: Iterator<Item = T>,
        S: Items<LinkedEntry<B>>
            + Several<LinkedEntry<B>>
            + Cells<LinkedEntry<B>>
            + LookThrough<LinkedEntry<B>>,
    >(
        items: &mut I,
        guard: &Guard,
        s: &mut S,
    ) -> Result<Bag<T, ARRAY_LEN, B>, Unfinished<Bag<T, ARRAY_LEN, B>, T>>
        requires some { 0 < ARRAY_LEN }
        requires fits { ARRAY_LEN ≤ 32 }
        requires seated { IsSeated (S.caller s.old) }
        requires reader { reader_of guard.now ≡ (S.caller s.old).reader }
        requires exact { IsExact (S.caller s.old) }
        requires can { I.can_next items.old }
        requires ends { IsFinite (I.remaining items.old) }
        ensures unmoved { Unmoved S.caller S.known S.shows s.old s.new }
        ensures own { KeepsMoreWaiting (S.own s.old) (S.own s.new) }
        ensures home { IfSome (bag_of result) (IsOfCells (S.caller s.old).home.cells) }
        ensures bag { IfSome (bag_of result) (IsBag B.shown ARRAY_LEN (S.world s.new)) }
        ensures list { Builds I.next_gives B.shown ARRAY_LEN (S.caller s.old).place (S.world s.old) items.old result items.new (S.world s.new) }
    {
        let mut bag = match Bag::new(s) {
            Ok(bag) => bag,
            Err(refused) => return Err(Unfinished::NotBegun(refused)),
        };
        match bag.add_all(items, guard, s) {
            Ok(()) => Ok(bag),
            Err((item, refused)) => Err(Unfinished::Part(bag, Some(item), refused)),
        }
    }
}
