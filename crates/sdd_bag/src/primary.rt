//! The values that lie in a bag itself.
ghost use Rattle.std.specs.Prelude.{◌≡◌, ◌+◌, ◌^◌, ◌<◌, ◌≤◌, All, List, MatchOption, MatchResult, [], length};
ghost use Rattle.sdd_bag.specs.Closing.{values_given};
ghost use Rattle.sdd_bag.specs.Primary.{PrimaryParts, held_by};
ghost use Rattle.sdd_bag.specs.Storage.{names_of};
ghost use Rattle.sdd_bag.specs.Values.{AreInSomeOrder, HasOneMore};
ghost use Rattle.sdd_rights.specs.Right.{number_of, home_of, kind_of};
ghost use Rattle.sdd_space.specs.CallerId.{IsSeated, IsExact};
ghost use Rattle.sdd_world_model.specs.OwnerOrCell.{AreOf};
ghost use Rattle.sdd_world_model.specs.ParticipantChanges.{KeepsMoreWaiting};
ghost use Rattle.sdd_space.specs.Undisturbed.{Unmoved};
ghost use Rattle.sdd_world_model.specs.WorldChanges.{cell_closed};
ghost use Rattle.sdd_bag.specs.Folding.{FoldsOn};
ghost use Rattle.sdd_bag.specs.Changing.{ChangesEach};
ghost use Rattle.sdd_bag.specs.Lent.{AreEmptyFrom, AwaitsValue, TakesOut, with_back};

use crate::giving::give_up;
use crate::storage::Storage;
use crate::storage_keys::StorageKeys;
use sdd_rights::{Right, StandingKind};
use sdd_space::inner::cell_with;
use sdd_space::{AtomicShared, Cells, Item, Items, RawCells};
use std::marker::Model;

/// A bag's own storage, with the keys of its places.
pub(crate) struct Primary<T, const ARRAY_LEN: usize> {
    storage: Storage<T, ARRAY_LEN>,
    keys: StorageKeys<T, ARRAY_LEN>,
}

impl<T, const ARRAY_LEN: usize> Model for Primary<T, ARRAY_LEN> {
    ghost use Rattle.sdd_bag.specs.Primary.{HasItsKeys, PrimaryParts};

    ghost Value = { PrimaryParts T };

    ghost view = { λ p. record { storage = p.storage; places = p.keys } };

    ghost invariant = { λ p. HasItsKeys ARRAY_LEN (record { storage = p.storage; places = p.keys }) };
}

impl<T, const ARRAY_LEN: usize> Primary<T, ARRAY_LEN> {
    /// A storage without values, with this cell. It has 1 to 32 places.
    pub(crate) fn new(cell: Right) -> Primary<T, ARRAY_LEN>
        requires some { 0 < ARRAY_LEN }
        requires fits { ARRAY_LEN ≤ 32 }
        requires kind { kind_of cell ≡ StandingKind.Shared }
        ensures empty { held_by result ≡ [] }
        ensures cell { result.storage.cell ≡ number_of cell }
        ensures home { result.storage.home ≡ home_of cell }
    {
        let mut keys = StorageKeys::new();
        let places = keys.add_places();
        Primary {
            storage: Storage::new(places, cell),
            keys,
        }
    }

    /// Puts a value into the storage. If it is full, the value comes back.
    pub(crate) fn push(&mut self, value: T) -> Result<(), T>
        ensures storage { self.new.storage ≡ self.old.storage }
        ensures pushed { MatchResult result
            (λ _. (length (held_by self.old) < ARRAY_LEN) × HasOneMore value (held_by self.old) (held_by self.new))
            (λ back. (back ≡ value) × (length (held_by self.old) ≡ ARRAY_LEN) × (self.new ≡ self.old)) }
    {
        self.keys.push(self.storage.places(), value)
    }

    /// Takes a value out of the storage, if there is one.
    pub(crate) fn pop(&mut self) -> Option<T>
        ensures storage { self.new.storage ≡ self.old.storage }
        ensures popped { MatchOption result
            ((held_by self.old ≡ []) × (self.new ≡ self.old))
            (λ value. HasOneMore value (held_by self.new) (held_by self.old)) }
    {
        self.keys.pop(self.storage.places())
    }

    /// Takes all values out of the storage, and folds them. What is made comes back, with `fold` as it is then.
    pub(crate) fn fold_all<R, F: FnMut(R, T) -> R>(&mut self, init: R, fold: F) -> (R, F)
        requires callable { F.IsAlwaysCallable fold }
        ensures callable { F.IsAlwaysCallable result.1 }
        ensures storage { self.new.storage ≡ self.old.storage }
        ensures empty { held_by self.new ≡ [] }
        ensures folded { FoldsOn F.step fold init (held_by self.old) result.1 result.0 [] }
    {
        self.keys.fold_front(self.storage.places(), init, fold)
    }

    /// Lends all values to be changed, one after another. `change` comes back as it is then.
    pub(crate) fn lend_all<F: FnMut(&mut T)>(&mut self, change: F) -> F
        requires callable { F.IsAlwaysCallable change }
        ensures callable { F.IsAlwaysCallable result }
        ensures storage { self.new.storage ≡ self.old.storage }
        ensures changed { ChangesEach F.FnMut change (held_by self.old) (held_by self.new) result }
    {
        self.keys.lend_array(0, self.storage.places(), change)
    }

    /// A law, which does nothing when the program runs.
    pub(crate) fn has_all_places(&self)
        ensures { length self.now.places ≡ ARRAY_LEN }
    {
        let _ = &self.keys;
    }

    /// Takes the value of the place of that number out, if it has one, to be lent. What is in the last full place lies there meanwhile. Which place that is
    /// comes with the value.
    pub(crate) fn take_out(&mut self, at: usize) -> Option<(T, usize)>
        ensures storage { self.new.storage ≡ self.old.storage }
        ensures names { names_of self.new.places ≡ names_of self.old.places }
        ensures out { MatchOption result
            ((self.new ≡ self.old) × AreEmptyFrom ARRAY_LEN 0 at self.old.places)
            (λ r. (at < ARRAY_LEN) × TakesOut ARRAY_LEN r.1 (0 + at) r.0 self.old.places self.new.places) }
    {
        let places = self.storage.places();
        self.keys.take_out(places, 0, places, at)
    }

    /// Moves a value that was lent back into its place, and what lay there meanwhile into the gap.
    pub(crate) fn put_back(&mut self, at: usize, gap: usize, value: T)
        requires inside { at < ARRAY_LEN }
        requires awaits { AwaitsValue ARRAY_LEN gap (0 + at) self.old.places }
        ensures storage { self.new.storage ≡ self.old.storage }
        ensures back { self.new.places ≡ with_back gap (0 + at) value self.old.places }
    {
        let places = self.storage.places();
        self.keys.put_back(places, 0, places, at, gap, value);
    }

    /// How many values there are.
    pub(crate) fn len(&self) -> u128
        ensures values { result ≡ length (held_by self.now) }
        ensures few { result < 2 ^ 127 }
    {
        self.keys.len()
    }

    /// The storage's cell. What values there are is forgotten.
    pub(crate) fn into_cell(self) -> Right
        ensures kind { kind_of result ≡ StandingKind.Shared }
        ensures number { number_of result ≡ self.storage.cell }
        ensures home { home_of result ≡ self.storage.home }
    {
        let Primary { storage, keys: _ } = self;
        storage.into_cell()
    }

    /// The values give up what they hold, one after another, and the storage's cell is free.
    pub(crate) fn close<I: Item<I>, S: Items<I> + Cells<I> + RawCells<I>>(self, s: &mut S)
    where
        T: Item<I>,
        requires seated { IsSeated (S.caller s.old) }
        requires home { self.storage.home ≡ (S.caller s.old).home.cells }
        requires held { All (λ v. AreOf (S.caller s.old).home (T.holds v)) (held_by self) }
        requires exact { IsExact (S.caller s.old) }
        ensures unmoved { Unmoved S.caller S.known S.shows s.old s.new }
        ensures own { KeepsMoreWaiting (S.own s.old) (S.own s.new) }
        ensures world { (vs : List T) × AreInSomeOrder vs (held_by self) ×
            (S.world s.new ≡ cell_closed (values_given T.holds (S.world s.old) (S.caller s.old).place vs) (S.caller s.old).place self.storage.cell) }
    {
        let mut primary = self;
        while let Some(value) = primary.pop() {
            give_up(value, s);
        }
        let cell: AtomicShared<I> = cell_with(primary.into_cell());
        cell.close(s);
    }
}
